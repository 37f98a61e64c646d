// The execution numbers (01, "Turned down", 6).
ghost use Rattle.std.specs.Prelude.{◌≡◌, ◌≤◌};
ghost use Rattle.wire.specs.Places.{all};
ghost use Rattle.project.specs.Project.{block_count};
ghost use Rattle.casefile.specs.Rules.{order_ok};

// No block's execution number is at or past their number, or stands at an earlier block. A number is seen exactly if an
// earlier block has it.
#[tactic(auto, unfolding(project::specs::Project::block_count))]
pub fn orders_ok(blocks: &[u8]) -> bool
    requires { block_count blocks.now ≤ 64 }
    ensures { result ≡ all (order_ok blocks.now) (block_count blocks.now) }
{
    let n = blocks.len() / project::BLOCK_SIZE;
    let mut seen = [false; 64];
    for r in blocks.chunks_exact(project::BLOCK_SIZE) {
        let e = project::order_of(r) as usize;
        if n <= e {
            return false;
        }
        if seen[e] {
            return false;
        }
        seen[e] = true;
    }
    true
}
