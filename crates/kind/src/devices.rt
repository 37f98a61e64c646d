// What a device has and allows, and the rules that go by it: a group's byte of G, and a group's byte of a record.
ghost use Rattle.std.specs.Prelude.{◌≡◌};
ghost use Rattle.kind.specs.Masks.{is_within, meets};
ghost use Rattle.kind.specs.Devices.{device_from, features_of, device_of, is_device, is_tied, controls_of, pending_of};
ghost use Rattle.kind.specs.Devices.{group_rule, is_run, is_err_ack, control_rule, is_pending};

use crate::{Device, Features, UnknownDevice};

impl TryFrom<u8> for Device {
    type Error = UnknownDevice;

    ghost try_from_gives = { λ byte r. r ≡ device_from byte };

    fn try_from(byte: u8) -> Result<Device, UnknownDevice> {
        match byte {
            0 => Ok(Device::El6900),
            1 => Ok(Device::El6910),
            _ => Err(UnknownDevice(byte)),
        }
    }
}

impl Device {
    // The device's row of the table.
    fn features(self) -> Features
        ensures { result ≡ features_of self }
    {
        match self {
            Device::El6900 => Features {
                twohand: true,
                arithmetic: false,
                tied: false,
                controls: 7,
                pending: 4,
            },
            Device::El6910 => Features {
                twohand: true,
                arithmetic: true,
                tied: true,
                controls: 15,
                pending: 12,
            },
        }
    }
}

// What the device of a byte has and allows.
#[tactic(auto, unfolding(crate::specs::Devices::device_of))]
pub fn device_of(device: u8) -> Option<Features>
    ensures { result ≡ device_of device }
{
    Device::try_from(device).ok().map(|d| d.features())
}

// Whether a byte is a device's.
pub fn is_device(device: u8) -> bool
    ensures { result ≡ is_device device }
{
    device_of(device).is_some()
}

// The row of a byte that is no device's: it asks that Run is linked, and allows no bit.
const NO_DEVICE: Features = Features {
    twohand: false,
    arithmetic: false,
    tied: true,
    controls: 0,
    pending: 0,
};

// The row that a byte goes by: its device's, or that of no device.
fn row_for(device: u8) -> Features
    ensures tied { result.tied ≡ is_tied (device_of device) }
    ensures controls { result.controls ≡ controls_of (device_of device) }
    ensures pending { result.pending ≡ pending_of (device_of device) }
{
    device_of(device).unwrap_or(NO_DEVICE)
}

// A group's byte of G: 1 if Run is linked, 0 if not, and 1 where the device asks for it.
pub fn group_rule(device: u8, run: u8) -> bool
    ensures { result ≡ group_rule device run }
{
    (run <= 1) & (!row_for(device).tied | (run == 1))
}

// No bit of v that the mask has not.
#[tactic(auto, unfolding(crate::specs::Masks::is_within))]
pub fn is_within(v: u8, mask: u8) -> bool
    ensures { result ≡ is_within v mask }
{
    (v | mask) == mask
}

// Some bit of v that the mask has too.
#[tactic(auto, unfolding(crate::specs::Masks::meets))]
fn meets(v: u8, mask: u8) -> bool
    ensures { result ≡ meets v mask }
{
    (v & mask) != 0
}

// Whether a group's byte of a record has Run, and whether it has ErrAck.
pub fn is_run(v: u8) -> bool
    ensures { result ≡ is_run v }
{
    v % 2 == 1
}

pub fn err_ack(v: u8) -> bool
    ensures { result ≡ is_err_ack v }
{
    v / 2 % 2 == 1
}

// A group's byte of a record: bits that the device allows, and no Run where it is not linked.
pub fn control_rule(device: u8, linked: u8, v: u8) -> bool
    ensures { result ≡ control_rule device linked v }
{
    is_within(v, row_for(device).controls) & ((linked == 1) | !is_run(v))
}

// Whether a group's byte of a record makes the group pending.
pub fn is_pending(device: u8, v: u8) -> bool
    ensures { result ≡ is_pending device v }
{
    meets(v, row_for(device).pending)
}
