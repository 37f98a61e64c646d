// The evaluator: one cycle of a project over a case file, a record and lent buffers, the sizes of those buffers, and
// the fresh state. Every call over a file checks all that it is given, gives each input an answer, and where it turns
// a call down, writes nothing. `specs/Answer.antt` says what a call answers and leaves, `specs/Cycle.antt` what a cycle
// is. Below these calls nobody knows the file: a project is its bodies. The module `unchecked` is for a trace, whose
// file is checked once.
#![tactic(auto)]

ghost use Rattle.std.specs.Prelude.{◌≡◌};
ghost use Rattle.casefile.specs.Bodies.{project_from, project_of};
ghost use Rattle.evaluator.specs.Answer.{refusal_number, lends, call_verdict, cycle_of};
ghost use Rattle.evaluator.specs.Fresh.{sizes_of, fresh_verdict, fresh_left};
ghost use Rattle.evaluator.specs.declared.Refusal.TheVariants.{File};

mod advance;
mod checks;
mod findings;
mod groups;
mod layout;
mod outputs;
mod ranks;
mod start;
mod turns;
pub mod unchecked;

use block::{FINDING_SIZE, STATE_SIZE};
use casefile::{Bodies, Rule};
use project::WORD_SIZE;

// Where the groups' bytes start in the state; the blocks' follow them.
pub const GROUPS_AT: usize = 0;

// Why a call is turned down: a rule that its file breaks, buffers of other sizes than its project's, a state that is
// not well formed, or a record that the project cannot have.
#[derive(Clone, Copy, Debug, PartialEq, Eq)]
pub enum Refusal {
    File(Rule),
    Sizes,
    State,
    Record,
}

impl Refusal {
    // The paper's number of it.
    pub fn number(self) -> u8
        ensures { result ≡ refusal_number self }
    {
        match self {
            Refusal::File(r) => r.number(),
            Refusal::Sizes => 10,
            Refusal::State => 11,
            Refusal::Record => 12,
        }
    }
}

impl From<Rule> for Refusal {
    ghost from_gives = { λ rule refusal. refusal ≡ File rule };

    fn from(rule: Rule) -> Refusal {
        Refusal::File(rule)
    }
}

// Whether a call is turned down, and why. The bodies are those of the file.
fn check_call(
    file: &[u8],
    bodies: Bodies,
    rec: &[u8],
    state: &[u8],
    outputs: &[u8],
    findings: &[u8],
) -> Result<(), Refusal>
    requires { project_from bodies.groups.now bodies.inputs.now bodies.blocks.now bodies.outputs.now
        ≡ project_of file.now }
    ensures { result ≡ call_verdict file.now rec.now
        (lends state.now outputs.now findings.now) }
{
    casefile::check(file)?;
    let c = bodies.counts();
    if !checks::sizes_ok(c, state.len(), outputs.len(), findings.len()) {
        return Err(Refusal::Sizes);
    }
    if !checks::state_ok(c, bodies.blocks, state) {
        return Err(Refusal::State);
    }
    if !checks::record_ok(c, bodies.groups, bodies.inputs, rec) {
        return Err(Refusal::Record);
    }
    Ok(())
}

// One cycle: the file's project from the state, with the record. Accepted, the state, the outputs and the findings are
// the cycle's; turned down, they are as they were.
pub fn cycle(
    file: &[u8],
    rec: &[u8],
    state: &mut [u8],
    outputs: &mut [u8],
    findings: &mut [u8],
) -> Result<u32, Refusal>
    ensures answered { result ≡ (cycle_of file.now rec.now
        (lends state.old outputs.old findings.old)).answer }
    ensures left { state.new
        ≡ (cycle_of file.now rec.now
        (lends state.old outputs.old findings.old)).lent.state }
    ensures shown { outputs.new
        ≡ (cycle_of file.now rec.now
        (lends state.old outputs.old findings.old)).lent.outputs }
    ensures told { findings.new
        ≡ (cycle_of file.now rec.now
        (lends state.old outputs.old findings.old)).lent.findings }
{
    let bodies = Bodies::of(file);
    // A refusal is handed on before anything is written.
    let checked = check_call(file, bodies, rec, state, outputs, findings);
    checked?;
    let c = bodies.counts();
    let count = advance::whole_cycle(
        c,
        bodies.groups,
        bodies.blocks,
        bodies.outputs,
        rec,
        state,
        outputs,
        findings,
    );
    Ok(count)
}

// The sizes of an accepted project's buffers, in bytes.
#[derive(Clone, Copy, Debug, PartialEq, Eq)]
pub struct Sizes {
    pub state: u32,
    pub outputs: u32,
    pub findings: u32,
}

#[tactic(auto, using(crate::proofs::Calls::file_few))]
pub fn sizes_of(file: &[u8]) -> Result<Sizes, Rule>
    ensures { result ≡ sizes_of file.now }
{
    casefile::check(file)?;
    let c = casefile::counts_in(file);
    let groups = c.groups;
    let blocks = c.blocks;
    let outputs = c.outputs;
    Ok(Sizes {
        state: (GROUPS_AT + groups + STATE_SIZE * blocks) as u32,
        outputs: (WORD_SIZE * outputs) as u32,
        findings: (FINDING_SIZE * blocks) as u32,
    })
}

// The fresh state of an accepted project, into a buffer of the exact size.
#[tactic(auto, using(crate::proofs::Calls::file_few))]
pub fn fresh(file: &[u8], state: &mut [u8]) -> Result<(), Refusal>
    ensures answered { result ≡ fresh_verdict file.now state.old }
    ensures left { state.new ≡ fresh_left file.now state.old }
{
    casefile::check(file)?;
    let c = casefile::counts_in(file);
    let groups = c.groups;
    let blocks = c.blocks;
    if state.len() != GROUPS_AT + groups + STATE_SIZE * blocks {
        return Err(Refusal::Sizes);
    }
    start::write_fresh(GROUPS_AT + groups, blocks, state);
    Ok(())
}
