// What a block's output ports show.
ghost use Rattle.std.specs.Prelude.{◌≡◌};
ghost use Rattle.block.specs.Shows.{shows_of, shows};

use crate::RUN;
use crate::state::{code_of, is_error};
use kind::Family;

// Error is port 0 of TWOHAND and of arithmetic; their port 1 is TwoHandOut, or AnalogOut.
#[tactic(auto, unfolding(crate::specs::Shows::shows_of))]
fn family_shows(family: Option<Family>, port: u8, s: &[u8]) -> u32
    ensures { result ≡ shows_of family port s.now }
{
    match (family, port) {
        (Some(Family::Decouple), _) => (wire::read32(s, 12) >> (port % 8)) % 2,
        (Some(Family::Twohand | Family::Arithmetic), 0) => u32::from(is_error(s)),
        (Some(Family::Twohand), _) => u32::from(code_of(s) == RUN),
        (Some(Family::Arithmetic), _) => wire::read32(s, 12),
        (None, _) => 0,
    }
}

// What an output port shows, as the word of the port's type. No kind's outputs ask its parameters p.
#[tactic(auto, unfolding(crate::specs::Shows::shows))]
pub fn shows(kind: u8, p: &[u8], port: u8, s: &[u8]) -> u32
    ensures { result ≡ shows kind p.now port s.now }
{
    family_shows(kind::family_of(kind), port, s)
}
