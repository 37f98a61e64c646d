// The ports of a kind, and their types.
ghost use Rattle.std.specs.Prelude.{◌≡◌};
ghost use Rattle.kind.specs.Ports.{ports_in_of, ports_in, ports_out_of, ports_out};
ghost use Rattle.kind.specs.Ports.{type_in_of, type_in, type_out_of, type_out};

use crate::kinds::family_of;
use crate::parameters::{first_type, output_type, second_type};
use crate::{BOOL, Family};

// How many input ports a family has, and how many output ports.
fn ports_of(family: Option<Family>) -> (u8, u8)
    ensures { result ≡ record { 0 = ports_in_of family; 1 = ports_out_of family } }
{
    match family {
        Some(Family::Decouple) => (8, 8),
        Some(Family::Twohand) => (4, 2),
        Some(Family::Arithmetic) => (2, 2),
        None => (0, 0),
    }
}

// How many input ports a kind has, and how many output ports.
pub fn ports_in(kind: u8) -> u8
    ensures { result ≡ ports_in kind }
{
    ports_of(family_of(kind)).0
}

pub fn ports_out(kind: u8) -> u8
    ensures { result ≡ ports_out kind }
{
    ports_of(family_of(kind)).1
}

// The type of an input port of a family, and of the output port with its number.
fn types_of(family: Option<Family>, p: &[u8], port: u8) -> (u8, u8)
    ensures { result ≡ record { 0 = type_in_of family p.now port; 1 = type_out_of family p.now port } }
{
    match (family, port) {
        (Some(Family::Arithmetic), 0) => (first_type(p), BOOL),
        (Some(Family::Arithmetic), _) => (second_type(p), output_type(p)),
        (Some(Family::Decouple | Family::Twohand) | None, _) => (BOOL, BOOL),
    }
}

// The type of an input port of a kind, and of an output port.
pub fn type_in(kind: u8, p: &[u8], port: u8) -> u8
    ensures { result ≡ type_in kind p.now port }
{
    types_of(family_of(kind), p, port).0
}

pub fn type_out(kind: u8, p: &[u8], port: u8) -> u8
    ensures { result ≡ type_out kind p.now port }
{
    types_of(family_of(kind), p, port).1
}
