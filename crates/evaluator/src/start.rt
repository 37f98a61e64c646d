// The fresh state (01, "Block state", Fresh), in a buffer of its size.
ghost use Rattle.std.specs.Prelude.{◌≡◌, ◌++◌, ◌+◌, ◌*◌, length, replicate};
ghost use Rattle.wire.specs.Records.{gather};
ghost use Rattle.block.specs.State.{state_size, fresh_bytes};

use block::STATE_SIZE;

// The fresh bytes of n blocks. (By number: once `chunks_exact_mut` has lent it, a proof knows a slice's length alone.)
fn fresh_blocks(cells: &mut [u8], n: usize)
    requires { length cells.old ≡ state_size * n }
    ensures { cells.new ≡ gather n (λ b. fresh_bytes) }
{
    let bytes = block::fresh();
    for b in 0..n {
        wire::put(cells, STATE_SIZE * b, &bytes);
    }
}

// Zeros for the `head` bytes before the blocks', and the fresh bytes of n blocks.
pub fn write_fresh(head: usize, n: usize, state: &mut [u8])
    requires { length state.old ≡ head + state_size * n }
    ensures { state.new ≡ replicate head 0 ++ gather n (λ b. fresh_bytes) }
{
    wire::clear(state);
    fresh_blocks(&mut state[head..], n);
}
