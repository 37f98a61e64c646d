// The lines of the ledger program (02, W4): a month of a table, with its rate or with none, and the month of a bend.
ghost use Rattle.std.specs.Prelude.{◌≡◌};
ghost use Rattle.report.specs.LedgerLines.{month_front, rate_line, no_rate_line, bend_line};
ghost use Rattle.report.specs.Lines.{Printed};

use crate::pieces::Line;

// What a month's line begins with, whether it has a rate or none.
#[tactic(auto, unfolding(crate::specs::LedgerLines::month_front), using(crate::proofs::Lines::lengths))]
fn month_front(month: u8, findings: u32, dismissed: u32) -> Line
    ensures { result ≡ month_front month findings dismissed }
{
    let mut line = Line::new();
    line.add(b"month");
    line.number(u32::from(month));
    line.number(findings);
    line.number(dismissed);
    line
}

// The line of a month that has findings; `bits` are those of its rate. (Two functions for a month: the theorem
// `report_one` of demands speaks of each.)
#[tactic(auto, unfolding(crate::specs::LedgerLines::rate_line), using(crate::proofs::Lines::lengths))]
pub fn rate_line(out: &mut [u8], month: u8, findings: u32, dismissed: u32, bits: u64) -> usize
    ensures { Printed (rate_line month findings dismissed bits) out.old out.new result }
{
    let mut line = month_front(month, findings, dismissed);
    line.bits(bits);
    line.print(out)
}

// The line of a month that has no finding, and so no rate.
#[tactic(auto, unfolding(crate::specs::LedgerLines::no_rate_line), using(crate::proofs::Lines::lengths))]
pub fn no_rate_line(out: &mut [u8], month: u8, findings: u32, dismissed: u32) -> usize
    ensures { Printed (no_rate_line month findings dismissed) out.old out.new result }
{
    let mut line = month_front(month, findings, dismissed);
    line.add(b" none");
    line.print(out)
}

// The line of the month of a bend. (It and `refused_line` differ in a word: `report_one` speaks of each.)
#[tactic(auto, unfolding(crate::specs::LedgerLines::bend_line), using(crate::proofs::Lines::lengths))]
pub fn bend_line(out: &mut [u8], month: u8) -> usize
    ensures { Printed (bend_line month) out.old out.new result }
{
    let mut line = Line::new();
    line.add(b"bend");
    line.number(u32::from(month));
    line.print(out)
}
