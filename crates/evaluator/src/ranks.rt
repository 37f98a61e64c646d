// The blocks by execution number.
ghost use Rattle.std.specs.Prelude.{◌≡◌};
ghost use Rattle.project.specs.Project.{block_count};
ghost use Rattle.evaluator.specs.Asks.{Ordered, order_list};

use project::BLOCK_SIZE;

// The number of the block with the execution number e, at place e, and 0 past the blocks. (64 bytes, however many
// blocks there are: there is no heap, and `unchecked::block_order` promises `order_list`, which has 64.)
pub fn ranks(blocks: &[u8]) -> [u8; 64]
    requires { Ordered blocks.now (block_count blocks.now) }
    ensures { result ≡ order_list blocks.now }
{
    let mut at = [0u8; 64];
    for (b, r) in blocks.chunks_exact(BLOCK_SIZE).enumerate() {
        let e = project::order_of(r) as usize;
        // (No plainer as `b as u8`: that nothing is lost would need `b < 64` as a fact here.)
        at[e] = (b % 256) as u8;
    }
    at
}
