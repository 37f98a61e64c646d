// TWOHAND: one cycle in phase RUN, and whether its fault is present. x is the effective mask.
ghost use Rattle.std.specs.Prelude.{◌≡◌, true};
ghost use Rattle.std.proofs.lemmas.List.Edits.{sets};
ghost use Rattle.block.specs.State.{is_waiting, decode, encode, enters_from};
ghost use Rattle.block.specs.Twohand.{differs, hands_of, pair_time, time_since, times_of, changed_over, next_code};
ghost use Rattle.block.specs.Twohand.{error_bits, moved, judged, twohand_run, twohand_fault};
ghost use Rattle.block.specs.Asks.{Even};
ghost use Rattle.block.specs.Step.{twohand_bytes};

use crate::state::{code_of, decoded, diagnosis_of, entered, in_error, is_error, keep, plain};
use crate::step::acknowledged;
use crate::{BUTTON1, BUTTON2, BlockState, Hands, PHASE_RUN, RELEASE, RUN, SAFE, Times};
use kind::Limits;

// Whether the two values of a pair differ.
fn differs(active: u32, pair: u32) -> bool
    ensures { result ≡ differs active pair }
{
    (active == 3) & (pair % 2 != pair / 2)
}

fn hands_of(active: u32, x: u32) -> Hands
    ensures { result ≡ hands_of active x }
{
    Hands {
        full1: x % 4 == active % 4,
        full2: x / 4 == active / 4,
        clear: x == 0,
    }
}

// A pair's stored time with this cycle's.
#[tactic(auto, unfolding(crate::specs::Twohand::pair_time))]
fn pair_time(d: u16, differ: bool, stored: u16, ms: u16) -> u32
    ensures { result ≡ pair_time d differ stored ms }
{
    if (d == 0) | !differ {
        0
    } else if stored == 0 {
        1
    } else {
        (stored as u32) + (ms as u32)
    }
}

pub fn is_waiting(code: u8) -> bool
    ensures { result ≡ is_waiting code }
{
    matches!(code, BUTTON1 | BUTTON2)
}

// The time since 11 or 12 was entered, with this cycle's.
#[tactic(auto, unfolding(crate::specs::Twohand::time_since))]
fn time_since(t: u16, code: u8, entry: u16, ms: u16) -> u32
    ensures { result ≡ time_since t code entry ms }
{
    if is_waiting(code) & (0 < t) {
        (entry as u32) + (ms as u32)
    } else {
        0
    }
}

fn times_of(l: Limits, active: u32, ms: u16, x: u32, old: BlockState) -> Times
    ensures { result ≡ times_of l active ms x old }
{
    Times {
        first: pair_time(l.first, differs(active % 4, x % 4), old.first, ms),
        second: pair_time(l.second, differs(active / 4, x / 4), old.second, ms),
        since: time_since(l.between, old.code, old.entry, ms),
    }
}

fn changed_over(code: u8, h: Hands) -> bool
    ensures { result ≡ changed_over code h }
{
    ((code == BUTTON1) & h.full2 & !h.full1) | ((code == BUTTON2) & h.full1 & !h.full2)
}

#[tactic(auto, unfolding(crate::specs::Twohand::next_code))]
fn next_code(code: u8, h: Hands) -> u8
    ensures { result ≡ next_code code h }
{
    let both = h.full1 & h.full2;
    match code {
        SAFE if h.full1 => BUTTON1,
        SAFE if h.full2 => BUTTON2,
        SAFE => SAFE,
        BUTTON1 | BUTTON2 if both => RUN,
        BUTTON1 | BUTTON2 if h.full1 | h.full2 => code,
        RUN if both => RUN,
        RUN => RELEASE,
        _ if h.clear => SAFE,
        _ => RELEASE,
    }
}

// All errors that apply.
#[tactic(auto, unfolding(crate::specs::Twohand::error_bits))]
fn error_bits(l: Limits, t: Times, code: u8, h: Hands) -> u16
    ensures { result ≡ error_bits l t code h }
{
    u16::from((l.first as u32) + 1 < t.first)
        + 2 * u16::from((l.second as u32) + 1 < t.second)
        + 4 * u16::from((l.between as u32) < t.since)
        + 64 * u16::from(changed_over(code, h))
}

// The next state where there is no error.
#[tactic(auto, unfolding(crate::specs::Twohand::moved))]
fn moved(code: u8, next: u8, t: Times) -> BlockState
    ensures { result ≡ moved code next t }
{
    BlockState {
        first: (t.first % 65536) as u16,
        second: (t.second % 65536) as u16,
        entry: if next == code {
            (t.since % 65536) as u16
        } else {
            0
        },
        ..plain(next)
    }
}

// Errors first, then the transition.
#[tactic(auto, unfolding(crate::specs::Twohand::judged))]
fn judged(l: Limits, t: Times, code: u8, h: Hands) -> BlockState
    ensures { result ≡ judged l t code h }
{
    let d = error_bits(l, t, code, h);
    if d == 0 {
        moved(code, next_code(code, h), t)
    } else {
        in_error(d)
    }
}

// TWOHAND in phase RUN.
#[tactic(auto, unfolding(crate::specs::Twohand::twohand_run))]
fn twohand_run(p: &[u8], ms: u16, x: u32, old: BlockState) -> BlockState
    ensures { result ≡ twohand_run p.now ms x old }
{
    let active = u32::from(kind::active_mask(p));
    let l = kind::limits_of(p);
    judged(
        l,
        times_of(l, active, ms, x, old),
        old.code,
        hands_of(active, x),
    )
}

// Whether the fault of a TWOHAND in ERROR is present.
#[tactic(auto, unfolding(crate::specs::Twohand::twohand_fault))]
fn twohand_fault(p: &[u8], d: u16, x: u32) -> bool
    ensures { result ≡ twohand_fault p.now d x }
{
    let active = u32::from(kind::active_mask(p));
    ((d % 2 == 1) & differs(active % 4, x % 4))
        | ((d / 2 % 2 == 1) & differs(active / 4, x / 4))
        | (((d / 4 % 2 == 1) | (d / 64 % 2 == 1)) & (x != 0))
}

// Whether no pair differs: bit 0 of what is tested is for the first pair, and bit 2 for the second.
fn none_differs(active: u32, x: u32) -> bool
    ensures { result ≡ true → Even active x }
{
    let a = active % 16;
    (x < 16) & (((x ^ (x / 2)) & a & (a / 2) & 5) == 0)
}

// The step in phase RUN. Where no pair differs and none is waited for, no time is counted and there is no error.
#[tactic(auto, unfolding(crate::specs::State::decode, crate::specs::State::encode, crate::specs::State::enters_from))]
fn run_step(p: &[u8], ms: u16, x: u32, s: &mut [u8]) -> bool
    ensures left { s.new ≡ sets s.old 0
        (encode (twohand_run p.now ms x (decode s.old))) }
    ensures enters { result ≡ enters_from s.old
        (encode (twohand_run p.now ms x (decode s.old))) }
{
    let active = u32::from(kind::active_mask(p));
    let code = code_of(s);
    if !is_waiting(code) & none_differs(active, x) {
        keep(s, plain(next_code(code, hands_of(active, x))));
        return false;
    }
    let old = decoded(s);
    let new = twohand_run(p, ms, x, old);
    keep(s, new);
    entered(old.code, new.code)
}

// The step of a TWOHAND that asks, in place; whether it enters ERROR.
pub fn twohand_step(p: &[u8], phase: u8, ms: u16, x: u32, s: &mut [u8]) -> bool
    ensures left { s.new ≡ sets s.old 0
        (twohand_bytes p.now phase ms x s.old) }
    ensures enters { result ≡ enters_from s.old
        (twohand_bytes p.now phase ms x s.old) }
{
    if phase == PHASE_RUN {
        return run_step(p, ms, x, s);
    }
    let was = is_error(s);
    let d = diagnosis_of(s);
    let fault = twohand_fault(p, d, x);
    keep(s, acknowledged(fault, d));
    fault & !was
}
