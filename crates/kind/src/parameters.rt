// The 12 parameter bytes of a block: each by its name, and the rule that they keep by themselves.
ghost use Rattle.std.specs.Prelude.{◌≡◌, eqb};
ghost use Rattle.wire.specs.Words.{le32};
ghost use Rattle.kind.specs.Kinds.{DIV};
ghost use Rattle.kind.specs.Parameters.{active_mask, open_mask, limits_of, first_type, second_type, output_type};
ghost use Rattle.kind.specs.Parameters.{rounding_byte, twohand_rule, arithmetic_rule, parameters_fit, parameters_ok};

use crate::devices::is_within;
use crate::{BOOL, Family, Kind, Limits};

// TWOHAND's parameters.
pub fn active_mask(p: &[u8]) -> u8
    ensures { result ≡ active_mask p.now }
{
    wire::byte(p, 0)
}

pub fn open_mask(p: &[u8]) -> u8
    ensures { result ≡ open_mask p.now }
{
    wire::byte(p, 1)
}

pub fn limits_of(p: &[u8]) -> Limits
    ensures { result ≡ limits_of p.now }
{
    Limits {
        first: wire::read16(p, 2),
        second: wire::read16(p, 4),
        between: wire::read16(p, 6),
    }
}

// The parameters of arithmetic.
pub fn first_type(p: &[u8]) -> u8
    ensures { result ≡ first_type p.now }
{
    wire::byte(p, 0)
}

pub fn second_type(p: &[u8]) -> u8
    ensures { result ≡ second_type p.now }
{
    wire::byte(p, 1)
}

pub fn output_type(p: &[u8]) -> u8
    ensures { result ≡ output_type p.now }
{
    wire::byte(p, 2)
}

pub fn rounding(p: &[u8]) -> u8
    ensures { result ≡ rounding_byte p.now }
{
    wire::byte(p, 3)
}

// The four parameter bytes from k on are 0.
fn zeros_at(p: &[u8], k: usize) -> bool
    ensures { result ≡ eqb (le32 p.now k) 0 }
{
    wire::read32(p, k) == 0
}

// TWOHAND: the masks and the times.
#[tactic(auto, unfolding(crate::specs::Parameters::twohand_rule))]
fn twohand_rule(active: u8, opened: u8, l: Limits) -> bool
    ensures { result ≡ twohand_rule active opened l }
{
    (active < 16)
        & is_within(opened, active)
        & (active % 4 != 0)
        & (active / 4 != 0)
        & (l.first <= 60000)
        & ((l.first == 0) | (active % 4 == 3))
        & (l.second <= 60000)
        & ((l.second == 0) | (active / 4 == 3))
        & (l.between <= 2500)
}

// Whether a byte is DIV's.
fn is_div(kind: u8) -> bool
    ensures { result ≡ eqb kind DIV }
{
    matches!(Kind::try_from(kind), Ok(Kind::Div))
}

// Arithmetic: three number types, and a rounding that only DIV has.
#[tactic(auto, unfolding(crate::specs::Parameters::arithmetic_rule))]
fn arithmetic_rule(kind: u8, first: u8, second: u8, output: u8, rounding: u8) -> bool
    ensures { result ≡ arithmetic_rule kind first second output rounding }
{
    (first < BOOL)
        & (second < BOOL)
        & (output < BOOL)
        & (rounding <= 2)
        & ((rounding == 0) | is_div(kind))
}

// The parameters' rule of a family.
#[tactic(auto, unfolding(crate::specs::Parameters::parameters_fit))]
fn parameters_fit(family: Option<Family>, kind: u8, p: &[u8]) -> bool
    ensures { result ≡ parameters_fit family kind p.now }
{
    match family {
        Some(Family::Decouple) => zeros_at(p, 0) & zeros_at(p, 4) & zeros_at(p, 8),
        Some(Family::Twohand) => twohand_rule(active_mask(p), open_mask(p), limits_of(p))
            & zeros_at(p, 8),
        Some(Family::Arithmetic) => {
            arithmetic_rule(
                kind,
                first_type(p),
                second_type(p),
                output_type(p),
                rounding(p),
            ) & zeros_at(p, 4)
                & zeros_at(p, 8)
        }
        None => false,
    }
}

// The device has the kind, and the parameters keep the kind's rule.
#[tactic(auto, unfolding(crate::specs::Parameters::parameters_ok))]
pub fn parameters_ok(device: u8, kind: u8, p: &[u8]) -> bool
    ensures { result ≡ parameters_ok device kind p.now }
{
    crate::kinds::on_device(device, kind) & parameters_fit(crate::kinds::family_of(kind), kind, p)
}
