// A block's state and its bytes.
ghost use Rattle.std.specs.Prelude.{◌≡◌, ◌≤◌, length};
ghost use Rattle.std.proofs.lemmas.List.Edits.{sets};
ghost use Rattle.block.specs.State.{decode, encode, plain, in_error, running, fresh_bytes, is_error};
ghost use Rattle.block.specs.State.{code_of, diagnosis_of, enters_code};

use crate::{BlockState, ERROR, RUN, STATE_SIZE, STOP};

// A state of which only the code is not 0.
pub fn plain(code: u8) -> BlockState
    ensures { result ≡ plain code }
{
    BlockState {
        code,
        diagnosis: 0,
        first: 0,
        second: 0,
        entry: 0,
        output: 0,
    }
}

pub fn in_error(diagnosis: u16) -> BlockState
    ensures { result ≡ in_error diagnosis }
{
    BlockState {
        diagnosis,
        ..plain(ERROR)
    }
}

pub fn running(output: u32) -> BlockState
    ensures { result ≡ running output }
{
    BlockState {
        output,
        ..plain(RUN)
    }
}

// A block's state from all of its bytes.
#[tactic(auto, unfolding(crate::specs::State::decode))]
fn decoded_whole(s: &[u8]) -> BlockState
    requires { 16 ≤ length s.now }
    ensures { result ≡ decode s.now }
{
    BlockState {
        code: s[0],
        diagnosis: wire::word16(s[2], s[3]),
        first: wire::word16(s[4], s[5]),
        second: wire::word16(s[6], s[7]),
        entry: wire::word16(s[8], s[9]),
        output: wire::word32(s[12], s[13], s[14], s[15]),
    }
}

// A block's state from its bytes. Those that are not there are 0.
#[tactic(auto, using(crate::proofs::Padded::padded))]
pub fn decoded(s: &[u8]) -> BlockState
    ensures { result ≡ decode s.now }
{
    if STATE_SIZE <= s.len() {
        return decoded_whole(s);
    }
    let mut whole = [0; STATE_SIZE];
    wire::put(&mut whole, 0, s);
    decoded_whole(&whole)
}

// The bytes of a block's state.
#[tactic(auto, unfolding(crate::specs::State::encode))]
fn encoded(c: BlockState) -> [u8; STATE_SIZE]
    ensures { result ≡ encode c }
{
    let [d0, d1] = c.diagnosis.to_le_bytes();
    let [a0, a1] = c.first.to_le_bytes();
    let [b0, b1] = c.second.to_le_bytes();
    let [e0, e1] = c.entry.to_le_bytes();
    let [o0, o1, o2, o3] = c.output.to_le_bytes();
    [
        c.code, 0, d0, d1, a0, a1, b0, b1, e0, e1, 0, 0, o0, o1, o2, o3,
    ]
}

// The bytes become those of the state.
pub fn keep(s: &mut [u8], c: BlockState)
    ensures { s.new ≡ sets s.old 0 (encode c) }
{
    let bytes = encoded(c);
    wire::put(s, 0, &bytes);
}

// The bytes before the first cycle.
#[tactic(auto, unfolding(crate::specs::State::fresh_bytes))]
pub fn fresh() -> [u8; STATE_SIZE]
    ensures { result ≡ fresh_bytes }
{
    encoded(plain(STOP))
}

// The block goes to STOP, as one of no kind would.
#[tactic(auto, unfolding(crate::specs::State::fresh_bytes))]
pub fn stop(s: &mut [u8])
    ensures { s.new ≡ sets s.old 0 fresh_bytes }
{
    keep(s, plain(STOP));
}

// The code, and the diagnosis. (As numbers of their own they come with their ranges.)
pub fn code_of(s: &[u8]) -> u8
    ensures { result ≡ code_of s.now }
{
    wire::byte(s, 0)
}

pub fn diagnosis_of(s: &[u8]) -> u16
    ensures { result ≡ diagnosis_of s.now }
{
    wire::read16(s, 2)
}

// Whether the block is in ERROR.
pub fn is_error(s: &[u8]) -> bool
    ensures { result ≡ is_error s.now }
{
    wire::byte(s, 0) == ERROR
}

// Whether a block enters ERROR, from its codes.
pub fn entered(old: u8, new: u8) -> bool
    ensures { result ≡ enters_code old new }
{
    (new == ERROR) & (old != ERROR)
}
