// The tests of what a cycle call is lent, once its file is accepted (01, "Turned down: numbers and order", 10 to 12):
// the buffers' sizes, the state, the record. `c` has the counts of the project.
ghost use Rattle.std.specs.Prelude.{◌≡◌, ◌&&◌, ◌+◌, ◌*◌, ◌<◌, ◌≤◌, eqb, length};
ghost use Rattle.wire.specs.Places.{all};
ghost use Rattle.project.specs.Project.{device, group_count, input_size, input_count, block_count, head_size};
ghost use Rattle.project.specs.Project.{word_size};
ghost use Rattle.block.specs.State.{state_size};
ghost use Rattle.block.specs.Finding.{finding_size};
ghost use Rattle.block.specs.Shows.{word_ok};
ghost use Rattle.evaluator.specs.State.{state_head, group_formed, head_formed, cell_formed, formed_with};
ghost use Rattle.evaluator.specs.Answer.{control_ok, input_fits, record_ok};
ghost use Rattle.evaluator.specs.Asks.{Few, Listed, Whole};

use crate::GROUPS_AT;
use crate::layout::Layout;
use block::{FINDING_SIZE, STATE_SIZE};
use numbers::NumType;
use project::{Counts, HEAD_SIZE, INPUT_SIZE, WORD_SIZE};

// 10: three lengths are the exact sizes.
pub fn sizes_ok(c: Counts, state: usize, outputs: usize, findings: usize) -> bool
    requires { Few c }
    ensures { result ≡ (eqb state (state_head c.groups + state_size * c.blocks)
        && eqb outputs (word_size * c.outputs)) && eqb findings (finding_size * c.blocks) }
{
    let groups = c.groups;
    let blocks = c.blocks;
    let rows = c.outputs;
    (state == GROUPS_AT + groups + STATE_SIZE * blocks)
        & (outputs == WORD_SIZE * rows)
        & (findings == FINDING_SIZE * blocks)
}

// 11: a group's byte is well formed.
fn group_formed(v: u8) -> bool
    ensures { result ≡ group_formed v }
{
    (v == 0) | (v == 1) | (v == 3)
}

// 11: each of n groups' bytes is well formed.
fn groups_formed(state: &[u8], n: usize) -> bool
    ensures { result ≡ all (head_formed state.now) n }
{
    (0..n).all(|g| group_formed(wire::byte(state, GROUPS_AT + g)))
}

// 11: block b's bytes are well formed.
fn cell_formed(layout: &Layout, state: &[u8], b: usize) -> bool
    requires { b < block_count layout.now.blocks.now }
    ensures { result ≡ cell_formed layout.now.groups layout.now.blocks.now state.now b }
{
    let r = layout.record(b);
    let bytes = wire::part(state, layout.place(b), STATE_SIZE);
    block::well_formed(project::kind_of(r), project::parameters_of(r), bytes)
}

// 11: each block's bytes are well formed. (A `for`: a closure that is given to `all` may be called with any number, and
// `cell_formed` asks for one of a block.)
fn cells_formed(layout: &Layout, state: &[u8]) -> bool
    ensures { result ≡ all (cell_formed layout.now.groups layout.now.blocks.now state.now)
        (block_count layout.now.blocks.now) }
{
    for b in 0..layout.count {
        if !cell_formed(layout, state, b) {
            return false;
        }
    }
    true
}

// 11: the state is well formed.
pub fn state_ok(c: Counts, blocks: &[u8], state: &[u8]) -> bool
    requires { Whole blocks.now c.groups c.blocks }
    ensures { result ≡ formed_with c.groups blocks.now state.now }
{
    let layout = Layout::of(c, blocks);
    groups_formed(state, c.groups) & cells_formed(&layout, state)
}

// 12: each group's byte is right.
fn controls_ok(c: Counts, groups: &[u8], rec: &[u8]) -> bool
    requires device_value { (c.device ≡ device groups.now) × (c.groups ≡ group_count groups.now) }
    requires rec_len { head_size + c.groups ≤ length rec.now }
    ensures { result ≡ all (control_ok groups.now rec.now) (group_count groups.now) }
{
    let device = c.device;
    let linked = wire::part(groups, 1, c.groups);
    let controls = &rec[HEAD_SIZE..];
    linked
        .iter()
        .zip(controls)
        .all(|(run, v)| kind::control_rule(device, *run, *v))
}

// 12: a word of its type. 0 and 1 are words of every type.
#[tactic(auto, unfolding(block::specs::Shows::word_ok))]
fn word_ok(t: u8, w: u32) -> bool
    ensures { result ≡ word_ok t w }
{
    if w <= 1 {
        return true;
    }
    if t == kind::BOOL {
        return false;
    }
    NumType::from(t).fits(w)
}

// 12: each input's word is of its type.
fn words_ok(c: Counts, inputs: &[u8], rec: &[u8]) -> bool
    requires groups_bound { (c.groups ≤ 8)
        × ((c.inputs ≡ input_count inputs.now) × (input_count inputs.now ≤ 128)) }
    requires inputs_len { (length inputs.now ≡ input_size * c.inputs)
        × (length rec.now ≡ head_size + c.groups + word_size * c.inputs) }
    ensures { result ≡ all (input_fits c.groups inputs.now rec.now) (input_count inputs.now) }
{
    let at = HEAD_SIZE + c.groups;
    inputs
        .chunks_exact(INPUT_SIZE)
        .zip(rec[at..].chunks_exact(WORD_SIZE))
        .all(|(r, word)| word_ok(project::input_type(r), wire::read32(word, 0)))
}

// 12: the record is one of the project's.
pub fn record_ok(c: Counts, groups: &[u8], inputs: &[u8], rec: &[u8]) -> bool
    requires { Listed c groups.now inputs.now }
    ensures { result ≡ record_ok groups.now inputs.now rec.now }
{
    if rec.len() != c.size {
        return false;
    }
    let elapsed = wire::read16(rec, 0);
    (1 <= elapsed) & (elapsed <= 1000) & controls_ok(c, groups, rec) & words_ok(c, inputs, rec)
}
