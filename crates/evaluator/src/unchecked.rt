// For a whole trace, whose file is checked once (01, "The trace program"). This is the one part of the product whose
// public functions require something (DECISIONS 29): what `fresh` has tested, the bodies of the file with their counts,
// the state that they themselves leave, and zeros of the findings' size. The crate `tracer` proves it; whoever has not
// checked the file calls `cycle`.
ghost use Rattle.std.specs.Prelude.{◌≡◌};
ghost use Rattle.project.specs.Project.{input_count};
ghost use Rattle.evaluator.specs.Steps.{step_answer, step_state, step_findings};
ghost use Rattle.evaluator.specs.Asks.{Standing, Grouped, Ordered, Begun, Listed, order_list, error_list};

use crate::Refusal;
use crate::layout::Layout;
use project::Counts;

// The blocks by execution number.
pub fn block_order(c: Counts, blocks: &[u8]) -> [u8; 64]
    requires { Ordered blocks.now c.blocks }
    ensures { result ≡ order_list blocks.now }
{
    crate::ranks::ranks(blocks)
}

// The groups that have a block in ERROR, a byte each.
pub fn groups_in_error(c: Counts, blocks: &[u8], state: &[u8]) -> [u8; 8]
    requires standing { Standing blocks.now state.now c.groups }
    requires grouped { Grouped blocks.now c.blocks }
    ensures { result ≡ error_list c.groups blocks.now state.now }
{
    let layout = Layout::of(c, blocks);
    crate::groups::error_groups(&layout, state)
}

// One cycle of an accepted project from a well-formed state. (What it is lent stands one by one: the theorem
// `evaluator_one` of the crate `demands` speaks of these nine arguments.)
pub fn step(
    c: Counts,
    groups: &[u8],
    inputs: &[u8],
    blocks: &[u8],
    order: &[u8],
    errors: &[u8],
    rec: &[u8],
    state: &mut [u8],
    findings: &mut [u8],
) -> Result<u32, Refusal>
    requires listed { Listed c groups.now inputs.now }
    requires begun { Begun c (input_count inputs.now) groups.now blocks.now order.now errors.now state.old
        findings.old }
    ensures answered { result ≡ step_answer groups.now inputs.now blocks.now
        rec.now state.old }
    ensures left { state.new
        ≡ step_state groups.now inputs.now blocks.now rec.now
        state.old }
    ensures told { findings.new
        ≡ step_findings groups.now inputs.now blocks.now rec.now
        state.old findings.old }
{
    if !crate::checks::record_ok(c, groups, inputs, rec) {
        return Err(Refusal::Record);
    }
    let count = crate::advance::advance(c, groups, blocks, order, errors, rec, state, findings);
    Ok(count)
}
