// What every block does, by whether its step depends on what it reads; and DECOUPLE.
ghost use Rattle.std.specs.Prelude.{◌≡◌, false};
ghost use Rattle.std.proofs.lemmas.List.Edits.{sets};
ghost use Rattle.block.specs.State.{enters_from};
ghost use Rattle.block.specs.Step.{acknowledged, asks_inputs, rest_bytes, decouple_bytes};

use crate::state::{code_of, diagnosis_of, in_error, is_error, keep, plain, running};
use crate::{BlockState, ERROR, PHASE_RUN, PHASE_STOP, RESET, STOP};

// A block in ERROR with diagnosis d, ErrAck true.
pub fn acknowledged(fault: bool, d: u16) -> BlockState
    ensures { result ≡ acknowledged fault d }
{
    if fault { in_error(d) } else { plain(RESET) }
}

// Whether a block's step depends on what it reads.
pub fn asks(phase: u8, ack: bool, s: &[u8]) -> bool
    ensures { result ≡ asks_inputs phase ack s.now }
{
    (phase == PHASE_RUN) | ((phase != PHASE_STOP) & is_error(s) & ack)
}

// The step of a block that does not ask, in place.
#[tactic(auto, unfolding(crate::specs::Step::rest_bytes, crate::specs::Step::rest_of, crate::specs::State::decode))]
pub fn rest(phase: u8, ack: bool, s: &mut [u8])
    ensures { s.new ≡ sets s.old 0 (rest_bytes phase ack s.old) }
{
    match code_of(s) {
        _ if phase == PHASE_STOP => keep(s, plain(STOP)),
        ERROR => keep(s, in_error(diagnosis_of(s))),
        RESET if ack => keep(s, plain(RESET)),
        _ => keep(s, plain(STOP)),
    }
}

// The step of a DECOUPLE that asks, in place; whether it enters ERROR, which it never does.
pub fn decouple_step(phase: u8, x: u32, s: &mut [u8]) -> bool
    ensures left { s.new ≡ sets s.old 0 (decouple_bytes phase x) }
    ensures enters { result ≡ enters_from s.old (decouple_bytes phase x) }
{
    if phase == PHASE_RUN {
        keep(s, running(x % 256));
    } else {
        keep(s, plain(RESET));
    }
    false
}
