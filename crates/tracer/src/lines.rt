// The lines of a trace as bytes in a lent buffer (01, "The trace program"): those of a cycle's findings, one after the
// other, and the last. The crate `report` makes a line from its numbers; which numbers they are is said here.
ghost use Rattle.std.specs.Prelude.{◌≡◌, ◌≤◌, length};
ghost use Rattle.report.specs.Lines.{Printed, Put};
ghost use Rattle.block.specs.Finding.{finding_in};
ghost use Rattle.tracer.specs.Text.{shown_as, shown_type, line_of, lines_of, last_line};
ghost use Rattle.tracer.specs.Asks.{text_most};

use crate::Ran;
use block::FINDING_SIZE;
use evaluator::Refusal;
use kind::Family;
use numbers::NumType;
use report::LINE_MOST;

// The type of an input port as the line shows its word: numbers by their type, everything else unsigned.
fn shown_as(family: Option<Family>, kind: u8, parameters: &[u8], port: u8) -> NumType
    ensures { result ≡ shown_as family kind parameters.now port }
{
    match family {
        Some(Family::Arithmetic) => NumType::from(kind::type_in(kind, parameters, port)),
        Some(Family::Decouple | Family::Twohand) | None => NumType::Uint32,
    }
}

// That of input `port` of block b.
fn shown_type(blocks: &[u8], b: u8, port: u8) -> NumType
    ensures { result ≡ shown_type blocks.now b port }
{
    let r = project::block_record(blocks, b as usize);
    let kind = project::kind_of(r);
    shown_as(kind::family_of(kind), kind, project::parameters_of(r), port)
}

// The line of the finding whose record is f.
fn finding_line(out: &mut [u8], blocks: &[u8], cycle: u32, f: &[u8]) -> usize
    ensures { Printed (line_of blocks.now cycle (finding_in f.now))
        out.old out.new result }
{
    let said = block::read_finding(f);
    let b = said.block;
    report::finding_line(
        out,
        cycle,
        b,
        said.text,
        said.diagnosis,
        shown_type(blocks, b, 0),
        said.first,
        shown_type(blocks, b, 1),
        said.second,
    )
}

// The lines of a cycle's k findings, all of them in their order. Answers how many bytes they have.
pub fn cycle_lines(out: &mut [u8], blocks: &[u8], cycle: u32, k: u32, findings: &[u8]) -> usize
    requires { (k ≤ 64) × (length out.old ≡ text_most) }
    ensures put { Put (lines_of blocks.now cycle k findings.now)
        out.old 0 out.new result }
    ensures upper_bound { result ≤ text_most }
{
    let mut at = 0;
    for i in 0..(k as usize) {
        let f = wire::part(findings, FINDING_SIZE * i, FINDING_SIZE);
        let to = at + LINE_MOST;
        at += finding_line(&mut out[at..to], blocks, cycle, f);
    }
    at
}

// The last line.
pub fn last_line(out: &mut [u8], end: Result<Ran, Refusal>) -> usize
    ensures { Printed (last_line end) out.old out.new result }
{
    match end {
        Ok(ran) => report::end_line(out, ran.cycles, ran.findings),
        Err(refusal) => report::refused_line(out, refusal.number()),
    }
}
