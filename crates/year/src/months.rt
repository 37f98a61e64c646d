// The lines of a table (02, W4): a month's findings, the dismissed ones and the rate.
ghost use Rattle.std.specs.Prelude.{◌≡◌, ◌≤◌, ◌<◌};
ghost use Rattle.year.specs.Ledger.{finding_count, month_most, month_count};
ghost use Rattle.year.specs.Months.{counts, is_dismissed, found, dismissed, rate_of, line_of};
ghost use Rattle.year.specs.Year.{month_line, lines_of};
ghost use Rattle.year.specs.Asks.{Small};

use crate::{Closings, Line, MONTHS, rules};
use std::array;

// How many findings of a month there are in a table, and how many dismissed ones.
#[derive(Clone, Copy, Debug, PartialEq, Eq)]
struct Counts {
    findings: u32,
    dismissed: u32,
}

// Whether a finding stands in a table.
fn is_counted(f: &[u8], c: Closings) -> bool
    ensures { result ≡ counts c f.now }
{
    match c {
        Closings::Every => true,
        Closings::Person => wire::byte(f, rules::CLOSED_AT) == 0,
    }
}

fn is_dismissed(f: &[u8]) -> bool
    ensures { result ≡ is_dismissed f.now }
{
    wire::byte(f, rules::VERDICT_AT) == 1
}

fn counts_of(month: &[u8], c: Closings) -> Counts
    requires { finding_count month.now ≤ month_most }
    ensures findings { result.findings ≡ found c month.now }
    ensures dismissed { result.dismissed ≡ dismissed c month.now }
{
    let mut findings = 0;
    let mut dismissed = 0;
    for f in month.chunks_exact(rules::FINDING_SIZE) {
        let counted = is_counted(f, c);
        findings += u32::from(counted);
        dismissed += u32::from(counted & is_dismissed(f));
    }
    Counts {
        findings,
        dismissed,
    }
}

// The one division of the two counts, each an f64 without loss.
fn rate_of(findings: u32, dismissed: u32) -> f64
    ensures { result ≡ rate_of findings dismissed }
{
    f64::from(dismissed) / f64::from(findings)
}

#[tactic(auto, unfolding(crate::specs::Months::line_of))]
pub fn line_of(findings: u32, dismissed: u32) -> Line
    ensures { result ≡ line_of findings dismissed }
{
    let rate = if findings == 0 {
        0.0
    } else {
        rate_of(findings, dismissed)
    };
    Line {
        findings,
        dismissed,
        rate,
    }
}

// The line of month m.
#[tactic(auto, unfolding(crate::specs::Year::month_line))]
fn month_line(file: &[u8], c: Closings, m: usize) -> Line
    requires { Small file.now × m < month_count }
    ensures { result ≡ month_line c file.now m }
{
    let n = counts_of(rules::body_of(file, m as u8), c);
    line_of(n.findings, n.dismissed)
}

// The twelve lines.
pub fn lines_of(file: &[u8], c: Closings) -> [Line; MONTHS]
    requires { Small file.now }
    ensures { result ≡ lines_of c file.now }
{
    array::from_fn(|m| month_line(file, c, m))
}
