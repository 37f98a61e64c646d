// One cycle of an accepted project, over a state, a record and buffers that were checked.
ghost use Rattle.std.specs.Prelude.{◌≡◌};
ghost use Rattle.evaluator.specs.Cycle.{new_state, new_outputs, new_findings, finding_count};
ghost use Rattle.evaluator.specs.Asks.{Ready, Admitted};

use crate::layout::Layout;
use crate::turns::Turns;
use project::Counts;

// The groups decide, the blocks run, and the findings are packed in a buffer of zeros. Answers how many there are.
pub fn advance(
    c: Counts,
    groups: &[u8],
    blocks: &[u8],
    ranks: &[u8],
    errors: &[u8],
    rec: &[u8],
    state: &mut [u8],
    findings: &mut [u8],
) -> u32
    requires { Ready c groups.now blocks.now ranks.now errors.now rec.now state.old findings.old }
    ensures left { state.new
        ≡ new_state groups.now blocks.now rec.now state.old }
    ensures told { findings.new
        ≡ new_findings groups.now blocks.now rec.now state.old }
    ensures count { result ≡ finding_count groups.now blocks.now rec.now
        state.old }
{
    let phases = crate::groups::decide(groups, c.groups, rec, errors, state);
    let turns = Turns {
        layout: Layout::of(c, blocks),
        rec,
        phases: &phases,
    };
    if !turns.take(ranks, state, findings) {
        return 0;
    }
    crate::findings::pack(findings)
}

// A cycle with its outputs, of a call that was checked.
pub fn whole_cycle(
    c: Counts,
    groups: &[u8],
    blocks: &[u8],
    rows: &[u8],
    rec: &[u8],
    state: &mut [u8],
    outputs: &mut [u8],
    findings: &mut [u8],
) -> u32
    requires { Admitted c groups.now blocks.now rows.now rec.now
        state.old outputs.old findings.old }
    ensures left { state.new
        ≡ new_state groups.now blocks.now rec.now state.old }
    ensures shown { outputs.new
        ≡ new_outputs groups.now blocks.now rows.now rec.now
        state.old }
    ensures told { findings.new
        ≡ new_findings groups.now blocks.now rec.now state.old }
    ensures count { result ≡ finding_count groups.now blocks.now rec.now
        state.old }
{
    wire::clear(findings);
    let layout = Layout::of(c, blocks);
    let order = crate::ranks::ranks(blocks);
    let errors = crate::groups::error_groups(&layout, state);
    let count = advance(c, groups, blocks, &order, &errors, rec, state, findings);
    crate::outputs::write_outputs(&layout, rows, state, outputs);
    count
}
