// The lines that the programs print, as bytes in a lent buffer: of the trace program a finding, the end, a refusal; of
// the ledger program a month and a bend. Each function stores its line at the front of the buffer and answers the
// line's length. What lies past the end of the buffer is not stored; a buffer of `LINE_MOST` bytes takes every line
// whole.
#![tactic(auto)]

ghost use Rattle.report.specs.Lines.{finding_line, end_line, refused_line, Printed};

mod ledger;
mod pieces;

pub use ledger::{bend_line, no_rate_line, rate_line};
use numbers::NumType;
use pieces::Line;

// No line has more bytes.
pub const LINE_MOST: usize = 96;

// The line of a finding; x and y are the stored words of its inputs, ta and tb their types.
#[tactic(auto, unfolding(crate::specs::Lines::finding_line), using(crate::proofs::Lines::lengths))]
pub fn finding_line(
    out: &mut [u8],
    cycle: u32,
    block: u8,
    text: u16,
    diagnosis: u16,
    ta: NumType,
    x: u32,
    tb: NumType,
    y: u32,
) -> usize
    ensures { Printed (finding_line cycle block text diagnosis ta x tb y)
        out.old out.new result }
{
    let mut line = Line::new();
    line.add(b"finding");
    line.number(cycle);
    line.number(u32::from(block));
    line.number(u32::from(text));
    line.number(u32::from(diagnosis));
    line.input(ta, x);
    line.input(tb, y);
    line.print(out)
}

// The last line of a trace.
#[tactic(auto, unfolding(crate::specs::Lines::end_line), using(crate::proofs::Lines::lengths))]
pub fn end_line(out: &mut [u8], cycles: u32, findings: u32) -> usize
    ensures { Printed (end_line cycles findings) out.old out.new result }
{
    let mut line = Line::new();
    line.add(b"end");
    line.number(cycles);
    line.number(findings);
    line.print(out)
}

// The line of a refusal: the last of a trace that was refused, and the only one of a ledger.
#[tactic(auto, unfolding(crate::specs::Lines::refused_line), using(crate::proofs::Lines::lengths))]
pub fn refused_line(out: &mut [u8], number: u8) -> usize
    ensures { Printed (refused_line number) out.old out.new result }
{
    let mut line = Line::new();
    line.add(b"refused");
    line.number(u32::from(number));
    line.print(out)
}
