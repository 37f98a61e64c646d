// The trace of a case file: from its fresh state all its cycles, each finding a line on standard output, and at the end
// `end` with the counts or `refused` with the number (01, "The trace program"). The file is checked once. The evaluator
// runs the cycles and `lines` makes the lines; here they are written.
#![tactic(auto)]

ghost use Rattle.std.specs.Prelude.{◌≡◌, ◌/◌, ◌<◌, ◌≤◌, length, replicate};
ghost use Rattle.casefile.specs.Bodies.{project_of};
ghost use Rattle.evaluator.specs.Fresh.{fresh_for};
ghost use Rattle.tracer.specs.Traced.{run_end, end_of};
ghost use Rattle.tracer.specs.Text.{lines_of, last_line, Told};
ghost use Rattle.tracer.specs.Asks.{text_most, Started, Handed, Offered};

mod lines;

use block::{FINDING_SIZE, STATE_SIZE};
use casefile::Bodies;
use evaluator::{GROUPS_AT, Refusal};
use project::Counts;
use report::LINE_MOST;

// The file descriptor of standard output.
const STDOUT_FILENO: i32 = 1;

// An accepted file has at most so many groups and blocks.
const GROUPS: usize = 8;

const BLOCKS: usize = 64;

// All cycles of a trace have run: so many, with so many findings.
#[derive(Clone, Copy, Debug, PartialEq, Eq)]
pub struct Ran {
    pub cycles: u32,
    pub findings: u32,
}

// Writes what a cycle prints. It is given no other text.
fn write_cycle(file: &[u8], cycle: u32, text: &[u8])
    requires { Told file.now cycle text.now }
{
    io::write_all(STDOUT_FILENO, text);
}

// Writes the last line. It is given no other.
fn write_last(file: &[u8], text: &[u8])
    requires { text.now ≡ last_line (end_of file.now) }
{
    io::write_all(STDOUT_FILENO, text);
}

// Prints the lines of a cycle's k findings, and leaves zeros in their place for the next.
fn print_cycle(file: &[u8], blocks: &[u8], cycle: u32, k: u32, findings: &mut [u8], text: &mut [u8])
    requires told { Told file.now cycle (lines_of blocks.now cycle k findings.old) }
    requires k_bound { (k ≤ 64) × (length text.old ≡ text_most) }
    requires findings_value { k ≡ 0 → findings.old ≡ replicate (length findings.old) 0 }
    ensures { findings.new ≡ replicate (length findings.old) 0 }
{
    if k == 0 {
        return;
    }
    let size = lines::cycle_lines(text, blocks, cycle, k, findings);
    write_cycle(file, cycle, &text[..size]);
    wire::clear(findings);
}

// Prints the last line.
fn print_last(file: &[u8], end: Result<Ran, Refusal>, text: &mut [u8])
    requires { (end ≡ end_of file.now) × (length text.old ≡ text_most) }
{
    let size = lines::last_line(text, end);
    write_last(file, &text[..size]);
}

// All cycles of an accepted file, from its fresh state. (A file has fewer than 2^15 records, of at most 64 findings
// each, so the counts are numbers of 32 bits.)
fn run(
    file: &[u8],
    c: Counts,
    bodies: Bodies,
    order: &[u8],
    state: &mut [u8],
    findings: &mut [u8],
    text: &mut [u8],
) -> Result<Ran, Refusal>
    requires started { Started file.now c bodies.groups.now bodies.inputs.now bodies.blocks.now bodies.trace.now
        order.now findings.old }
    requires state_value { (state.old ≡ fresh_for (project_of file.now)) × (length text.old ≡ text_most) }
    ensures { result ≡ run_end file.now }
{
    let Bodies {
        groups,
        inputs,
        blocks,
        outputs: _,
        trace: records,
    } = bodies;
    let n = record_count(c.size, records);
    let mut total: u32 = 0;
    for done in 0..n {
        let rec = project::record_at(records, c.size, done);
        let errors = evaluator::unchecked::groups_in_error(c, blocks, state);
        let k = evaluator::unchecked::step(
            c, groups, inputs, blocks, order, &errors, rec, state, findings,
        )?;
        total += k;
        let cycle = (done + 1) as u32;
        print_cycle(file, blocks, cycle, k, findings, text);
    }
    Ok(Ran {
        cycles: n as u32,
        findings: total,
    })
}

// How many cycle records of a size there are.
fn record_count(size: usize, records: &[u8]) -> usize
    requires { 0 < size }
    ensures { result ≡ length records.now / size }
{
    records.len() / size
}

// The trace of a file, over its bodies and buffers that have the sizes of an accepted one's, but for its last line.
fn trace_cycles(
    file: &[u8],
    c: Counts,
    bodies: Bodies,
    state: &mut [u8],
    findings: &mut [u8],
    text: &mut [u8],
) -> Result<Ran, Refusal>
    requires handed { Handed file.now bodies.groups.now bodies.inputs.now bodies.blocks.now bodies.trace.now }
    requires offered { Offered file.now c state.old findings.old }
    requires text_len { length text.old ≡ text_most }
    ensures { result ≡ end_of file.now }
{
    evaluator::fresh(file, state)?;
    let order = evaluator::unchecked::block_order(c, bodies.blocks);
    run(file, c, bodies, &order, state, findings, text)
}

// The trace of a file.
pub fn trace(file: &[u8]) -> Result<Ran, Refusal>
    ensures { result ≡ end_of file.now }
{
    let mut state = [0u8; GROUPS_AT + GROUPS + STATE_SIZE * BLOCKS];
    let mut findings = [0u8; FINDING_SIZE * BLOCKS];
    let mut text = [0u8; LINE_MOST * BLOCKS];
    let bodies = Bodies::of(file);
    let c = bodies.counts();
    let blocks = c.blocks.min(BLOCKS);
    let size = GROUPS_AT + c.groups.min(GROUPS) + STATE_SIZE * blocks;
    let room = FINDING_SIZE * blocks;
    let end = trace_cycles(
        file,
        c,
        bodies,
        &mut state[..size],
        &mut findings[..room],
        &mut text,
    );
    print_last(file, end, &mut text);
    end
}
