// The external outputs, when all blocks have run.
ghost use Rattle.std.specs.Prelude.{◌≡◌, ◌*◌, length};
ghost use Rattle.wire.specs.Words.{bytes4};
ghost use Rattle.wire.specs.Records.{gather};
ghost use Rattle.project.specs.Project.{word_size, output_count};
ghost use Rattle.casefile.specs.Sound.{Shown};
ghost use Rattle.evaluator.specs.Asks.{Sized, output_shown};

use crate::layout::Layout;
use project::{OUTPUT_SIZE, WORD_SIZE};

// Each output as 4 bytes: what its port shows in the state.
pub fn write_outputs(layout: &Layout, rows: &[u8], state: &[u8], outputs: &mut [u8])
    requires state_len { Sized layout.now.groups layout.now.blocks.now state.now }
    requires shown { Shown layout.now.blocks.now rows.now }
    requires outputs_len { length outputs.old ≡ word_size * output_count rows.now }
    ensures { outputs.new
        ≡ gather (output_count rows.now)
        (λ o. bytes4 (output_shown layout.now.groups layout.now.blocks.now rows.now state.now o)) }
{
    for (o, r) in rows.chunks_exact(OUTPUT_SIZE).enumerate() {
        let word = layout.port_shows(state, project::output_block(r), project::output_port(r));
        wire::write32(outputs, WORD_SIZE * o, word);
    }
}
