// A ledger of findings by month, and what is measured over its year: for each month how many findings there are, how
// many were dismissed and the rate, and the month where the rate bent (02, W4). Every public function is total: a byte
// past the end reads as 0.
#![tactic(auto)]

ghost use Rattle.std.specs.Prelude.{◌≡◌};
ghost use Rattle.year.specs.Months.{share_of, bits_of};
ghost use Rattle.year.specs.Bends.{bend_number};
ghost use Rattle.year.specs.Ledger.{verdict};
ghost use Rattle.year.specs.Year.{table_of, year_of};
ghost use Rattle.year.specs.Asks.{Small};

mod bends;
mod months;
mod rules;

use rules::MonthRule;
pub use rules::Refusal;

pub const MONTHS: usize = 12;

// Which closings a table is of: every one, or those by a person.
#[derive(Clone, Copy, Debug, PartialEq, Eq)]
pub enum Closings {
    Every,
    Person,
}

// A month's findings, the dismissed ones and the rate, 0 where it has none: `share_of` says whether it has one.
// The field is no `Option`: that it is 0 there is `Lined.field` (demands, Ledgers), and the call for C hands it on.
#[derive(Clone, Copy, Debug, PartialEq)]
pub struct Line {
    pub findings: u32,
    pub dismissed: u32,
    pub rate: f64,
}

// The lines of a table and its bend: the month, from 1, where the dismissed share of all later months less that of all
// up to and with it is largest, or none where no month has a finding on both sides.
#[derive(Clone, Copy, Debug, PartialEq)]
pub struct Table {
    pub lines: [Line; MONTHS],
    pub bend: Option<u8>,
}

// The two tables of a ledger: with and without script closings.
#[derive(Clone, Copy, Debug, PartialEq)]
pub struct Year {
    pub every: Table,
    pub person: Table,
}

// The share of a line: its rate, or none where it has no finding. `Option` is the enum of 01 for a month's share.
#[tactic(auto, unfolding(crate::specs::Months::share_of))]
pub fn share_of(l: Line) -> Option<f64>
    ensures { result ≡ share_of l }
{
    if l.findings == 0 {
        return None;
    }
    Some(l.rate)
}

// The 64 bits of a share's rate; 0 for no rate, and for what is no number, which no line has.
pub fn bits(share: Option<f64>) -> u64
    ensures { result ≡ bits_of share }
{
    match share {
        Some(x) if x == x => x.to_bits(),
        _ => 0,
    }
}

// The month of a bend, 0 for none, as C and the pipe are told it.
pub fn bend_number(bend: Option<u8>) -> u8
    ensures { result ≡ bend_number bend }
{
    bend.unwrap_or(0)
}

// When a ledger is turned down, and why: 21 to 24 in this order.
#[tactic(auto, unfolding(crate::specs::Ledger::verdict))]
pub fn check(file: &[u8]) -> Result<(), Refusal>
    ensures { result ≡ verdict file.now }
{
    if file.len() < rules::CONTENTS_SIZE {
        return Err(Refusal::Size);
    }
    if !contents::ok(file, rules::BODIES) {
        return Err(Refusal::Contents);
    }
    if !rules::months_ok(file, MonthRule::Whole) {
        return Err(Refusal::Contents);
    }
    if !rules::months_ok(file, MonthRule::Values) {
        return Err(Refusal::Value);
    }
    if !rules::months_ok(file, MonthRule::Few) {
        return Err(Refusal::TooMany);
    }
    Ok(())
}

// The table of an accepted ledger.
#[tactic(auto, using(crate::proofs::Taken::lines_counted), unfolding(crate::specs::Year::table_of))]
fn table_of(file: &[u8], c: Closings) -> Table
    requires { Small file.now }
    ensures { result ≡ table_of c file.now }
{
    let lines = months::lines_of(file, c);
    let bend = bends::bend_of(&lines);
    Table { lines, bend }
}

// The whole answer.
#[tactic(auto, using(crate::proofs::Taken::accepted_small), unfolding(crate::specs::Year::year_of))]
pub fn year_of(file: &[u8]) -> Result<Year, Refusal>
    ensures { result ≡ year_of file.now }
{
    check(file)?;
    Ok(Year {
        every: table_of(file, Closings::Every),
        person: table_of(file, Closings::Person),
    })
}
