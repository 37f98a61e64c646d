// The kinds by their bytes, their families, and which device has which.
ghost use Rattle.std.specs.Prelude.{◌≡◌};
ghost use Rattle.kind.specs.Kinds.{kind_from, family_in, family_of};
ghost use Rattle.kind.specs.Devices.{has, available};

use crate::devices::device_of;
use crate::{Family, Features, Kind, UnknownKind};

impl TryFrom<u8> for Kind {
    type Error = UnknownKind;

    ghost try_from_gives = { λ byte r. r ≡ kind_from byte };

    fn try_from(byte: u8) -> Result<Kind, UnknownKind> {
        match byte {
            1 => Ok(Kind::Decouple),
            2 => Ok(Kind::Twohand),
            3 => Ok(Kind::Add),
            4 => Ok(Kind::Sub),
            5 => Ok(Kind::Mul),
            6 => Ok(Kind::Div),
            _ => Err(UnknownKind(byte)),
        }
    }
}

impl Kind {
    // The kind's family.
    fn family(self) -> Family
        ensures { result ≡ family_in self }
    {
        match self {
            Kind::Decouple => Family::Decouple,
            Kind::Twohand => Family::Twohand,
            Kind::Add | Kind::Sub | Kind::Mul | Kind::Div => Family::Arithmetic,
        }
    }
}

// The family of a kind's byte.
#[tactic(auto, unfolding(crate::specs::Kinds::family_of))]
pub fn family_of(kind: u8) -> Option<Family>
    ensures { result ≡ family_of kind }
{
    Kind::try_from(kind).ok().map(|k| k.family())
}

fn has(device: Option<Features>, family: Option<Family>) -> bool
    ensures { result ≡ has device family }
{
    match (device, family) {
        (Some(_), Some(Family::Decouple)) => true,
        (Some(d), Some(Family::Twohand)) => d.twohand,
        (Some(d), Some(Family::Arithmetic)) => d.arithmetic,
        (Some(_), None) | (None, _) => false,
    }
}

// Whether the device has blocks of this kind.
pub fn on_device(device: u8, kind: u8) -> bool
    ensures { result ≡ available device kind }
{
    has(device_of(device), family_of(kind))
}
