// The rules of a ledger (02, W4), and what stands for one that is not kept.
ghost use Rattle.std.specs.Prelude.{◌≡◌};
ghost use Rattle.contents.specs.Contents.{body_of};
ghost use Rattle.year.specs.Ledger.{finding_count, values_ok, kept, months_ok, number_of};

// The months as entries of the contents table, and the table's size.
pub const BODIES: u8 = 12;

pub const CONTENTS_SIZE: usize = 96;

// The size of a finding, and the places of its bytes.
pub const FINDING_SIZE: usize = 6;

const BLOCK_AT: usize = 0;

const ZERO_AT: usize = 1;

pub const CLOSED_AT: usize = 4;

pub const VERDICT_AT: usize = 5;

// No month has more findings.
const MONTH_MOST: usize = 4095;

// Why a ledger is turned down.
#[derive(Clone, Copy, Debug, PartialEq, Eq)]
pub enum Refusal {
    Size,
    Contents,
    Value,
    TooMany,
}

impl Refusal {
    // The number of 02 that stands for it.
    pub fn number(self) -> u8
        ensures { result ≡ number_of self }
    {
        match self {
            Refusal::Size => 21,
            Refusal::Contents => 22,
            Refusal::Value => 23,
            Refusal::TooMany => 24,
        }
    }
}

// What is asked of each month: whole findings, right values, not too many.
#[derive(Clone, Copy, Debug, PartialEq, Eq)]
pub enum MonthRule {
    Whole,
    Values,
    Few,
}

// A month's body, as the contents table says.
#[tactic(auto, unfolding(contents::specs::Contents::body_of))]
pub fn body_of(file: &[u8], m: u8) -> &[u8]
    ensures { result.now ≡ body_of file.now m }
{
    let start = contents::start(file, m) as usize;
    let size = contents::size(file, m) as usize;
    wire::part(file, start, size)
}

// How many findings a month has.
#[tactic(auto, unfolding(crate::specs::Ledger::finding_count))]
pub fn finding_count(month: &[u8]) -> usize
    ensures { result ≡ finding_count month.now }
{
    month.len() / FINDING_SIZE
}

// The values of a finding.
#[tactic(auto, unfolding(crate::specs::Ledger::values_ok))]
fn values_ok(f: &[u8]) -> bool
    ensures { result ≡ values_ok f.now }
{
    (wire::byte(f, BLOCK_AT) <= 63)
        & (wire::byte(f, ZERO_AT) == 0)
        & (wire::byte(f, CLOSED_AT) <= 1)
        & (wire::byte(f, VERDICT_AT) <= 1)
}

// Whether each finding of a month has right values.
fn values_right(month: &[u8]) -> bool
    ensures { result ≡ kept MonthRule.Values month.now }
{
    month.chunks_exact(FINDING_SIZE).all(values_ok)
}

// What is asked of a month.
fn keeps(month: &[u8], a: MonthRule) -> bool
    ensures { result ≡ kept a month.now }
{
    match a {
        MonthRule::Whole => month.len() % FINDING_SIZE == 0,
        MonthRule::Values => values_right(month),
        MonthRule::Few => finding_count(month) <= MONTH_MOST,
    }
}

// Whether each month keeps it.
pub fn months_ok(file: &[u8], a: MonthRule) -> bool
    ensures { result ≡ months_ok a file.now }
{
    (0..BODIES).all(|m| keeps(body_of(file, m), a))
}
