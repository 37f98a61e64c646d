// Which bytes of a block are well formed.
ghost use Rattle.std.specs.Prelude.{◌≡◌, cond, eqb};
ghost use Rattle.block.specs.State.{ERROR, is_counting};
ghost use Rattle.block.specs.Formed.{decouple_code, arithmetic_code, twohand_code, untimed, zero_outside};
ghost use Rattle.block.specs.Formed.{decouple_ok, arithmetic_ok, twohand_bits};
ghost use Rattle.block.specs.Formed.{pair_time_ok, entry_ok, twohand_ok, formed, well_formed};

use crate::state::decoded;
use crate::twohand::is_waiting;
use crate::{BUTTON1, BUTTON2, BlockState, ERROR, RELEASE, RESET, RUN, SAFE, STOP};
use kind::{Family, Limits};
use numbers::NumType;

fn is_counting(code: u8) -> bool
    ensures { result ≡ is_counting code }
{
    matches!(code, RUN | SAFE | BUTTON1 | BUTTON2 | RELEASE)
}

// The codes that each family has.
fn decouple_code(code: u8) -> bool
    ensures { result ≡ decouple_code code }
{
    matches!(code, RUN | STOP)
}

fn arithmetic_code(code: u8) -> bool
    ensures { result ≡ arithmetic_code code }
{
    matches!(code, RUN | STOP | ERROR | RESET)
}

fn twohand_code(code: u8) -> bool
    ensures { result ≡ twohand_code code }
{
    match code {
        STOP | ERROR | RESET => true,
        _ => is_counting(code),
    }
}

fn untimed(c: BlockState) -> bool
    ensures { result ≡ untimed c }
{
    (c.first == 0) & (c.second == 0) & (c.entry == 0)
}

fn zero_outside(c: BlockState) -> bool
    ensures { result ≡ zero_outside c }
{
    (c.code == RUN) | (c.output == 0)
}

#[tactic(auto, unfolding(crate::specs::Formed::decouple_ok))]
fn decouple_ok(c: BlockState) -> bool
    ensures { result ≡ decouple_ok c }
{
    decouple_code(c.code) & (c.diagnosis == 0) & untimed(c) & (c.output < 256) & zero_outside(c)
}

// A diagnosis is one of the family's in ERROR, and 0 elsewhere.
fn diagnosis_ok(code: u8, d: u16, known: bool) -> bool
    ensures { result ≡ cond (eqb code ERROR) known (eqb d 0) }
{
    if code == ERROR { known } else { d == 0 }
}

// t is the output's type.
#[tactic(auto, unfolding(crate::specs::Formed::arithmetic_ok))]
fn arithmetic_ok(t: u8, c: BlockState) -> bool
    ensures { result ≡ arithmetic_ok t c }
{
    arithmetic_code(c.code)
        & diagnosis_ok(c.code, c.diagnosis, matches!(c.diagnosis, 1 | 2))
        & untimed(c)
        & NumType::from(t).fits(c.output)
        & zero_outside(c)
}

// The diagnosis of a TWOHAND in ERROR.
#[tactic(auto, unfolding(crate::specs::Formed::twohand_bits))]
fn twohand_bits(l: Limits, d: u16) -> bool
    ensures { result ≡ twohand_bits l d }
{
    (d != 0)
        & (d < 128)
        & (d / 8 % 8 == 0)
        & ((d % 2 == 0) | (0 < l.first))
        & ((d / 2 % 2 == 0) | (0 < l.second))
        & ((d / 4 % 2 == 0) | (0 < l.between))
}

#[tactic(auto, unfolding(crate::specs::Formed::pair_time_ok))]
fn pair_time_ok(d: u16, code: u8, time: u16) -> bool
    ensures { result ≡ pair_time_ok d code time }
{
    ((time as u32) <= (d as u32) + 1) & ((time == 0) | ((0 < d) & is_counting(code)))
}

#[tactic(auto, unfolding(crate::specs::Formed::entry_ok))]
fn entry_ok(t: u16, code: u8, time: u16) -> bool
    ensures { result ≡ entry_ok t code time }
{
    (time <= t) & ((time == 0) | is_waiting(code))
}

#[tactic(auto, unfolding(crate::specs::Formed::twohand_ok, crate::specs::Formed::twohand_diagnosis))]
fn twohand_ok(l: Limits, c: BlockState) -> bool
    ensures { result ≡ twohand_ok l c }
{
    twohand_code(c.code)
        & diagnosis_ok(c.code, c.diagnosis, twohand_bits(l, c.diagnosis))
        & pair_time_ok(l.first, c.code, c.first)
        & pair_time_ok(l.second, c.code, c.second)
        & entry_ok(l.between, c.code, c.entry)
        & (c.output == 0)
}

#[tactic(auto, unfolding(crate::specs::Formed::formed))]
fn formed(family: Option<Family>, p: &[u8], c: BlockState) -> bool
    ensures { result ≡ formed family p.now c }
{
    match family {
        Some(Family::Decouple) => decouple_ok(c),
        Some(Family::Twohand) => twohand_ok(kind::limits_of(p), c),
        Some(Family::Arithmetic) => arithmetic_ok(kind::output_type(p), c),
        None => false,
    }
}

// Whether a block's bytes are well formed.
#[tactic(auto, unfolding(crate::specs::Formed::well_formed))]
pub fn well_formed(kind: u8, p: &[u8], s: &[u8]) -> bool
    ensures { result ≡ well_formed kind p.now s.now }
{
    (wire::byte(s, 1) == 0)
        & (wire::byte(s, 10) == 0)
        & (wire::byte(s, 11) == 0)
        & formed(kind::family_of(kind), p, decoded(s))
}
