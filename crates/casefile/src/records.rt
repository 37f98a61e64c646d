// The rules of the bodies' lengths, and of a record by itself or beside what it names (01, "Turned down", 3, 4, 5, 8
// and 9).
ghost use Rattle.std.specs.Prelude.{◌≡◌, ◌≤◌, ◌<◌, ◌%◌, ◌/◌, ◌&&◌, eqb, leb, length};
ghost use Rattle.wire.specs.Places.{all};
ghost use Rattle.project.specs.Project.{group_count, input_count, block_count, output_count};
ghost use Rattle.casefile.specs.Rules.{groups_size_ok, group_record_ok, inputs_size_ok, input_rule};
ghost use Rattle.casefile.specs.Rules.{input_record_ok, blocks_size_ok, block_rule, block_record_ok, outputs_size_ok};
ghost use Rattle.casefile.specs.Rules.{output_rule, output_record_ok, trace_ok};

// 3: 1 to 8 groups, and the device.
#[tactic(auto, unfolding(crate::specs::Rules::groups_size_ok))]
pub fn groups_size_ok(groups: &[u8]) -> bool
    ensures { result ≡ groups_size_ok groups.now }
{
    (2 <= groups.len()) & (groups.len() <= 9) & kind::is_device(project::device_in(groups))
}

pub fn groups_ok(groups: &[u8]) -> bool
    ensures { result ≡ all (group_record_ok groups.now) (group_count groups.now) }
{
    let device = project::device_in(groups);
    (0..project::group_count(groups)).all(|k| kind::group_rule(
        device,
        project::run_linked(groups, k),
    ))
}

// Whole records of a size, and not more than so many.
fn are_few(records: &[u8], size: usize, most: usize) -> bool
    requires { 0 < size }
    ensures { result ≡ (eqb (length records.now % size) 0 && leb (length records.now / size) most) }
{
    (records.len() % size == 0) & (records.len() / size <= most)
}

// 4: at most 128 whole records, and a record's fields.
#[tactic(auto, unfolding(crate::specs::Rules::inputs_size_ok, project::specs::Project::input_count))]
pub fn inputs_size_ok(inputs: &[u8]) -> bool
    ensures { result ≡ inputs_size_ok inputs.now }
{
    are_few(inputs, project::INPUT_SIZE, 128)
}

#[tactic(auto, unfolding(crate::specs::Rules::input_rule))]
fn input_rule(groups: usize, r: &[u8]) -> bool
    ensures { result ≡ input_rule groups r.now }
{
    ((project::input_group(r) as usize) < groups) & (project::input_type(r) <= kind::BOOL)
}

pub fn inputs_ok(groups: &[u8], inputs: &[u8]) -> bool
    ensures { result ≡ all (input_record_ok groups.now inputs.now) (input_count inputs.now) }
{
    let h = project::group_count(groups);
    inputs
        .chunks_exact(project::INPUT_SIZE)
        .all(|r| input_rule(h, r))
}

// 5: 1 to 64 whole records, and a record's fields, links and execution number apart.
#[tactic(auto, unfolding(crate::specs::Rules::blocks_size_ok, project::specs::Project::block_count))]
pub fn blocks_size_ok(blocks: &[u8]) -> bool
    ensures { result ≡ blocks_size_ok blocks.now }
{
    let n = blocks.len() / project::BLOCK_SIZE;
    (blocks.len() % project::BLOCK_SIZE == 0) & (1 <= n) & (n <= 64)
}

#[tactic(auto, unfolding(crate::specs::Rules::block_rule))]
fn block_rule(device: u8, groups: usize, r: &[u8]) -> bool
    ensures { result ≡ block_rule device groups r.now }
{
    ((project::group_of(r) as usize) < groups)
        & (project::zero_of(r) == 0)
        & kind::parameters_ok(device, project::kind_of(r), project::parameters_of(r))
}

pub fn blocks_ok(groups: &[u8], blocks: &[u8]) -> bool
    ensures { result ≡ all (block_record_ok groups.now blocks.now) (block_count blocks.now) }
{
    let device = project::device_in(groups);
    let h = project::group_count(groups);
    blocks
        .chunks_exact(project::BLOCK_SIZE)
        .all(|r| block_rule(device, h, r))
}

// 8: at most 64 whole records, and a record's fields; `other` is the record of the block that it names.
#[tactic(auto, unfolding(crate::specs::Rules::outputs_size_ok, project::specs::Project::output_count))]
pub fn outputs_size_ok(outputs: &[u8]) -> bool
    ensures { result ≡ outputs_size_ok outputs.now }
{
    are_few(outputs, project::OUTPUT_SIZE, 64)
}

#[tactic(auto, unfolding(crate::specs::Rules::output_rule))]
fn output_rule(groups: usize, blocks: usize, r: &[u8], other: &[u8]) -> bool
    ensures { result ≡ output_rule groups blocks r.now other.now }
{
    ((project::output_group(r) as usize) < groups)
        & ((project::output_block(r) as usize) < blocks)
        & (project::output_port(r) < kind::ports_out(project::kind_of(other)))
        & (project::group_of(other) == project::output_group(r))
}

pub fn outputs_ok(groups: &[u8], blocks: &[u8], outputs: &[u8]) -> bool
    ensures { result ≡ all (output_record_ok groups.now blocks.now outputs.now) (output_count outputs.now) }
{
    let h = project::group_count(groups);
    let m = blocks.len() / project::BLOCK_SIZE;
    outputs.chunks_exact(project::OUTPUT_SIZE).all(|r| {
        let other = project::block_record(blocks, project::output_block(r) as usize);
        output_rule(h, m, r, other)
    })
}

// 9: T is a whole number of records.
#[tactic(auto, unfolding(project::specs::Project::input_count))]
pub fn trace_ok(groups: &[u8], inputs: &[u8], records: &[u8]) -> bool
    requires groups_bound { group_count groups.now ≤ 8 }
    requires inputs_bound { input_count inputs.now ≤ 128 }
    ensures { result ≡ trace_ok groups.now inputs.now records.now }
{
    let words = project::WORD_SIZE * (inputs.len() / project::INPUT_SIZE);
    records.len() % (project::HEAD_SIZE + project::group_count(groups) + words) == 0
}
