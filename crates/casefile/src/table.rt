// The table of refusals (01, "Turned down: numbers and order"): the rules in their order, the number of each, and its
// test over the file and its bodies.
ghost use Rattle.std.specs.Prelude.{◌≡◌};
ghost use Rattle.casefile.specs.Rules.{size_ok};
ghost use Rattle.casefile.specs.Refusal.{refusal_of, kept_by};
ghost use Rattle.casefile.specs.Asks.{Reached};

use crate::reader::Bodies;
use crate::{channels, links, orders, records};

// The size of the table of contents.
const CONTENTS_SIZE: usize = 40;

// The rules that a file must keep, in any order: `TABLE` has theirs. A rule stands for the file's error that it is not
// kept.
#[derive(Clone, Copy, Debug, PartialEq, Eq)]
pub enum Rule {
    Size,
    Contents,
    GroupsSize,
    Groups,
    InputsSize,
    Inputs,
    BlocksSize,
    Blocks,
    Orders,
    Links,
    OutputsSize,
    Outputs,
    Channels,
    Trace,
}

const RULES: usize = 14;

pub const TABLE: [Rule; RULES] = [
    Rule::Size,
    Rule::Contents,
    Rule::GroupsSize,
    Rule::Groups,
    Rule::InputsSize,
    Rule::Inputs,
    Rule::BlocksSize,
    Rule::Blocks,
    Rule::Orders,
    Rule::Links,
    Rule::OutputsSize,
    Rule::Outputs,
    Rule::Channels,
    Rule::Trace,
];

impl Rule {
    // The paper's number of the refusal.
    pub fn number(self) -> u8
        ensures { result ≡ refusal_of self }
    {
        match self {
            Rule::Size => 1,
            Rule::Contents => 2,
            Rule::GroupsSize => 3,
            Rule::Groups => 3,
            Rule::InputsSize => 4,
            Rule::Inputs => 4,
            Rule::BlocksSize => 5,
            Rule::Blocks => 5,
            Rule::Orders => 6,
            Rule::Links => 7,
            Rule::OutputsSize => 8,
            Rule::Outputs => 8,
            Rule::Channels => 8,
            Rule::Trace => 9,
        }
    }
}

// 1: the file's size.
#[tactic(auto, unfolding(crate::specs::Rules::size_ok))]
fn size_ok(file: &[u8]) -> bool
    ensures { result ≡ size_ok file.now }
{
    (CONTENTS_SIZE <= file.len()) & (file.len() <= project::FILE_MOST)
}

// The test of a rule, of the file and its bodies G, I, B, O and T.
pub fn keeps(file: &[u8], bodies: Bodies, r: Rule) -> bool
    requires { Reached bodies.groups.now bodies.inputs.now bodies.blocks.now r }
    ensures { result ≡ kept_by file.now bodies.entry.groups.now bodies.entry.inputs.now
        bodies.entry.blocks.now bodies.entry.outputs.now bodies.entry.trace.now r }
{
    let Bodies {
        groups,
        inputs,
        blocks,
        outputs,
        trace,
    } = bodies;
    // (A match and no table of functions: a rule is the answer too, and each test asks for other bodies.)
    match r {
        Rule::Size => size_ok(file),
        Rule::Contents => contents::ok(file, super::BODIES),
        Rule::GroupsSize => records::groups_size_ok(groups),
        Rule::Groups => records::groups_ok(groups),
        Rule::InputsSize => records::inputs_size_ok(inputs),
        Rule::Inputs => records::inputs_ok(groups, inputs),
        Rule::BlocksSize => records::blocks_size_ok(blocks),
        Rule::Blocks => records::blocks_ok(groups, blocks),
        Rule::Orders => orders::orders_ok(blocks),
        Rule::Links => links::links_ok(inputs, blocks),
        Rule::OutputsSize => records::outputs_size_ok(outputs),
        Rule::Outputs => records::outputs_ok(groups, blocks, outputs),
        Rule::Channels => channels::channels_ok(blocks, outputs),
        Rule::Trace => records::trace_ok(groups, inputs, trace),
    }
}
