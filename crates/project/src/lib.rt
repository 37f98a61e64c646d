// A project is its four bodies G, I, B and O, each a slice (01, "The case file"). Here are the records in them, the
// records' fields, and how many there are; where a parameter byte stands is said in `kind`. Every function is total: a
// byte past the end reads as 0, and a record past the end is empty.
#![tactic(auto)]

ghost use Rattle.std.specs.Prelude.{◌≡◌};
ghost use Rattle.project.specs.Project.{row_of, device, group_count, run_linked, input_size, input_group_in};
ghost use Rattle.project.specs.Project.{input_type_in};
ghost use Rattle.project.specs.Project.{block_size, kind_in, group_in, order_in, zero_in, parameters_in, link_kind_in};
ghost use Rattle.project.specs.Project.{link_index_in, link_port_in, link_in, output_size, output_group_in};
ghost use Rattle.project.specs.Project.{output_block_in};
ghost use Rattle.project.specs.Project.{output_port_in, size_counted, counts_of};

// The sizes of the records of I, B and O; of the head of a cycle record, its elapsed time; and of a word in it.
pub const INPUT_SIZE: usize = 2;

pub const BLOCK_SIZE: usize = 40;

pub const OUTPUT_SIZE: usize = 3;

pub const HEAD_SIZE: usize = 2;

pub const WORD_SIZE: usize = 4;

// How many links and how many parameter bytes a block's record has, where they start in it, and a link's size.
pub const LINKS: u8 = 8;

const PARAMETERS: usize = 12;

const PARAMETER_START: usize = 4;

const LINK_START: usize = 16;

const LINK_SIZE: usize = 3;

// No file is longer, so no body is.
pub const FILE_MOST: usize = 65536;

// What an input port is linked to: an external input, or a block's output port.
#[derive(Clone, Copy, Debug, PartialEq, Eq)]
pub enum Source {
    External(u8),
    Output(u8, u8),
}

// The device, how many groups, external inputs, blocks and external outputs there are, and the size of a cycle record.
#[derive(Clone, Copy, Debug, PartialEq, Eq)]
pub struct Counts {
    pub device: u8,
    pub groups: usize,
    pub inputs: usize,
    pub blocks: usize,
    pub outputs: usize,
    pub size: usize,
}

// Record k of those of `size` bytes each. One whose place is too large a number is past the end.
#[tactic(auto, unfolding(crate::specs::Project::row_of))]
pub fn record_at(records: &[u8], size: usize, k: usize) -> &[u8]
    ensures { result.now ≡ row_of size k records.now }
{
    match size.checked_mul(k) {
        Some(at) => wire::part(records, at, size),
        None => &records[..0],
    }
}

// The device byte, the number of groups, and the byte of group g.
#[tactic(auto, unfolding(crate::specs::Project::device))]
pub fn device_in(groups: &[u8]) -> u8
    ensures { result ≡ device groups.now }
{
    wire::byte(groups, 0)
}

#[tactic(auto, unfolding(crate::specs::Project::group_count))]
pub fn group_count(groups: &[u8]) -> usize
    ensures { result ≡ group_count groups.now }
{
    groups.len().saturating_sub(1)
}

#[tactic(auto, unfolding(crate::specs::Project::run_linked))]
pub fn run_linked(groups: &[u8], g: usize) -> u8
    ensures { result ≡ run_linked groups.now g }
{
    match groups.split_first() {
        Some((_, runs)) => wire::byte(runs, g),
        None => 0,
    }
}

// The size of a cycle record; 0 for bodies that no file has.
#[tactic(auto, unfolding(crate::specs::Project::group_count))]
fn size_counted(groups: &[u8], inputs: &[u8]) -> usize
    ensures { result ≡ size_counted groups.now inputs.now }
{
    if (groups.len() <= FILE_MOST) & (inputs.len() <= FILE_MOST) {
        HEAD_SIZE + group_count(groups) + WORD_SIZE * (inputs.len() / INPUT_SIZE)
    } else {
        0
    }
}

pub fn counts_of(groups: &[u8], inputs: &[u8], blocks: &[u8], outputs: &[u8]) -> Counts
    ensures { result ≡ counts_of groups.now inputs.now
        blocks.now outputs.now }
{
    Counts {
        device: device_in(groups),
        groups: group_count(groups),
        inputs: inputs.len() / INPUT_SIZE,
        blocks: blocks.len() / BLOCK_SIZE,
        outputs: outputs.len() / OUTPUT_SIZE,
        size: size_counted(groups, inputs),
    }
}

// The records of I, B and O: record_at by the body's name, so that none is read in another's size.
pub fn input_record(inputs: &[u8], i: usize) -> &[u8]
    ensures { result.now ≡ row_of input_size i inputs.now }
{
    record_at(inputs, INPUT_SIZE, i)
}

pub fn block_record(blocks: &[u8], b: usize) -> &[u8]
    ensures { result.now ≡ row_of block_size b blocks.now }
{
    record_at(blocks, BLOCK_SIZE, b)
}

pub fn output_record(outputs: &[u8], o: usize) -> &[u8]
    ensures { result.now ≡ row_of output_size o outputs.now }
{
    record_at(outputs, OUTPUT_SIZE, o)
}

// The fields of an external input's record.
pub fn input_group(r: &[u8]) -> u8
    ensures { result ≡ input_group_in r.now }
{
    wire::byte(r, 0)
}

pub fn input_type(r: &[u8]) -> u8
    ensures { result ≡ input_type_in r.now }
{
    wire::byte(r, 1)
}

// The fields of a block's record.
pub fn kind_of(r: &[u8]) -> u8
    ensures { result ≡ kind_in r.now }
{
    wire::byte(r, 0)
}

pub fn group_of(r: &[u8]) -> u8
    ensures { result ≡ group_in r.now }
{
    wire::byte(r, 1)
}

pub fn order_of(r: &[u8]) -> u8
    ensures { result ≡ order_in r.now }
{
    wire::byte(r, 2)
}

pub fn zero_of(r: &[u8]) -> u8
    ensures { result ≡ zero_in r.now }
{
    wire::byte(r, 3)
}

#[tactic(auto, unfolding(crate::specs::Project::parameters_in))]
pub fn parameters_of(r: &[u8]) -> &[u8]
    ensures { result.now ≡ parameters_in r.now }
{
    wire::part(r, PARAMETER_START, PARAMETERS)
}

// The three bytes of the link of an input port, and what they name.
pub fn link_kind(r: &[u8], port: u8) -> u8
    ensures { result ≡ link_kind_in r.now port }
{
    wire::byte(r, LINK_START + LINK_SIZE * (port as usize))
}

pub fn link_index(r: &[u8], port: u8) -> u8
    ensures { result ≡ link_index_in r.now port }
{
    wire::byte(r, LINK_START + LINK_SIZE * (port as usize) + 1)
}

pub fn link_port(r: &[u8], port: u8) -> u8
    ensures { result ≡ link_port_in r.now port }
{
    wire::byte(r, LINK_START + LINK_SIZE * (port as usize) + 2)
}

#[tactic(auto, unfolding(crate::specs::Project::link_in))]
pub fn source_of(r: &[u8], port: u8) -> Option<Source>
    ensures { result ≡ link_in r.now port }
{
    let index = link_index(r, port);
    match link_kind(r, port) {
        1 => Some(Source::External(index)),
        2 => {
            let target = link_port(r, port);
            Some(Source::Output(index, target))
        }
        _ => None,
    }
}

// The fields of an external output's record.
pub fn output_group(r: &[u8]) -> u8
    ensures { result ≡ output_group_in r.now }
{
    wire::byte(r, 0)
}

pub fn output_block(r: &[u8]) -> u8
    ensures { result ≡ output_block_in r.now }
{
    wire::byte(r, 1)
}

pub fn output_port(r: &[u8]) -> u8
    ensures { result ≡ output_port_in r.now }
{
    wire::byte(r, 2)
}
