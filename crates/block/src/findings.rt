// What a finding says of a block that enters ERROR.
ghost use Rattle.std.specs.Prelude.{◌≡◌};
ghost use Rattle.block.specs.Finding.{text_id, first_named, second_named, finding_bytes, finding_of, finding_in};
ghost use Rattle.block.specs.Finding.{is_finding};

use crate::state::diagnosis_of;
use crate::{FINDING_SIZE, FindingRecord};
use kind::Family;

fn text_id(family: Option<Family>, diagnosis: u16) -> u16
    ensures { result ≡ text_id family diagnosis }
{
    match family {
        Some(Family::Arithmetic) => numbers::text_of(diagnosis),
        Some(Family::Decouple | Family::Twohand) | None => 0,
    }
}

// The two inputs that a finding names, of a block that read x and y.
fn inputs_named(family: Option<Family>, x: u32, y: u32) -> (u32, u32)
    ensures { result ≡ record { 0 = first_named family x y; 1 = second_named family x y } }
{
    match family {
        Some(Family::Arithmetic) => (x, y),
        Some(Family::Decouple | Family::Twohand) | None => (x, 0),
    }
}

// The bytes of a finding.
#[tactic(auto, unfolding(crate::specs::Finding::finding_bytes))]
fn finding_bytes(f: FindingRecord) -> [u8; FINDING_SIZE]
    ensures { result ≡ finding_bytes f }
{
    let [t0, t1] = f.text.to_le_bytes();
    let [d0, d1] = f.diagnosis.to_le_bytes();
    let [a0, a1, a2, a3] = f.first.to_le_bytes();
    let [b0, b1, b2, b3] = f.second.to_le_bytes();
    [
        f.block, f.group, t0, t1, d0, d1, 0, 0, a0, a1, a2, a3, b0, b1, b2, b3,
    ]
}

// The finding of the block with this number, group and kind that read x and y, and whose bytes after the step are s.
#[tactic(auto, unfolding(crate::specs::Finding::finding_of, crate::specs::Finding::said_of))]
pub fn finding(number: u8, group: u8, kind: u8, x: u32, y: u32, s: &[u8]) -> [u8; FINDING_SIZE]
    ensures { result ≡ finding_of number group kind x y s.now }
{
    let family = kind::family_of(kind);
    let diagnosis = diagnosis_of(s);
    let (first, second) = inputs_named(family, x, y);
    finding_bytes(FindingRecord {
        block: number,
        group,
        text: text_id(family, diagnosis),
        diagnosis,
        first,
        second,
    })
}

// Whether these bytes hold a finding.
pub fn is_finding(f: &[u8]) -> bool
    ensures { result ≡ is_finding f.now }
{
    wire::read16(f, 4) != 0
}

// What the bytes of a finding say.
#[tactic(auto, unfolding(crate::specs::Finding::finding_in))]
pub fn read_finding(f: &[u8]) -> FindingRecord
    ensures { result ≡ finding_in f.now }
{
    FindingRecord {
        block: wire::byte(f, 0),
        group: wire::byte(f, 1),
        text: wire::read16(f, 2),
        diagnosis: wire::read16(f, 4),
        first: wire::read32(f, 8),
        second: wire::read32(f, 12),
    }
}
