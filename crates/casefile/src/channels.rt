// The DECOUPLE channels (01, "Turned down", 8): an input is linked exactly if something reads its output. What reads
// which output port is marked in one walk over all links and one over O.
ghost use Rattle.std.specs.Prelude.{◌≡◌, ◌<◌, ◌≤◌};
ghost use Rattle.wire.specs.Places.{all};
ghost use Rattle.project.specs.Project.{block_count, link_count, output_count};
ghost use Rattle.casefile.specs.Rules.{passes, link_passes, block_passes, output_passes, channel_rule, channels_ok};
ghost use Rattle.casefile.specs.Asks.{Marked, mark_of, number_of, channels_by};

use kind::Family;
use project::Source;

// How many output ports a block may have, and how many marks that are for the blocks a file may have.
const PORTS: usize = 8;

const MARKS: usize = 512;

// A mark is set for an output port, for what a link names, for a block's links, for all links, for O.
fn mark(marks: &mut [bool; MARKS], block: u8, port: u8)
    ensures { Marked marks.old marks.new (passes (Some (Source.Output block port))) }
{
    let b = block as usize;
    let p = port as usize;
    if 64 <= b {
        return;
    }
    if PORTS <= p {
        return;
    }
    marks[PORTS * b + p] = true;
}

#[tactic(auto, unfolding(crate::specs::Rules::passes))]
fn mark_source(marks: &mut [bool; MARKS], s: Option<Source>)
    ensures { Marked marks.old marks.new (passes s) }
{
    match s {
        Some(Source::Output(a, q)) => mark(marks, a, q),
        Some(Source::External(_)) | None => {}
    }
}

fn mark_links(marks: &mut [bool; MARKS], r: &[u8])
    ensures { Marked marks.old marks.new
        (λ b p. all (link_passes r.now b p) link_count) }
{
    for p in 0..project::LINKS {
        mark_source(marks, project::source_of(r, p));
    }
}

#[tactic(auto, unfolding(project::specs::Project::block_count))]
fn mark_blocks(marks: &mut [bool; MARKS], blocks: &[u8])
    ensures { Marked marks.old marks.new
        (λ b p. all (block_passes blocks.now b p) (block_count blocks.now)) }
{
    for r in blocks.chunks_exact(project::BLOCK_SIZE) {
        mark_links(marks, r);
    }
}

#[tactic(auto, unfolding(project::specs::Project::output_count))]
fn mark_outputs(marks: &mut [bool; MARKS], outputs: &[u8])
    ensures { Marked marks.old marks.new
        (λ b p. all (output_passes outputs.now b p) (output_count outputs.now)) }
{
    for r in outputs.chunks_exact(project::OUTPUT_SIZE) {
        mark(marks, project::output_block(r), project::output_port(r));
    }
}

// A DECOUPLE channel's input is linked exactly if its output is read.
#[tactic(auto, unfolding(crate::specs::Rules::channel_rule_of))]
fn channel_rule(r: &[u8], port: u8, read: bool) -> bool
    ensures { result ≡ channel_rule r.now port (number_of read) }
{
    match kind::family_of(project::kind_of(r)) {
        Some(Family::Decouple) => project::source_of(r, port).is_some() == read,
        Some(Family::Twohand | Family::Arithmetic) | None => true,
    }
}

// Whether the port of block b is marked.
fn is_marked(marks: &[bool; MARKS], b: usize, port: u8) -> bool
    requires { b < 64 }
    ensures { result ≡ mark_of marks.now b port }
{
    marks.get(PORTS * b + (port as usize)) == Some(&true)
}

// The channels of block b by the marks.
fn block_by_marks(blocks: &[u8], marks: &[bool; MARKS], b: usize) -> bool
    requires { b < 64 }
    ensures { result ≡ channels_by blocks.now marks.now b }
{
    let r = project::block_record(blocks, b);
    (0..project::LINKS).all(|p| channel_rule(r, p, is_marked(marks, b, p)))
}

#[tactic(auto, unfolding(project::specs::Project::block_count))]
pub fn channels_ok(blocks: &[u8], outputs: &[u8]) -> bool
    requires { block_count blocks.now ≤ 64 }
    ensures { result ≡ all (channels_ok blocks.now outputs.now) (block_count blocks.now) }
{
    let mut marks = [false; MARKS];
    mark_blocks(&mut marks, blocks);
    mark_outputs(&mut marks, outputs);
    (0..blocks.len() / project::BLOCK_SIZE).all(|b| block_by_marks(blocks, &marks, b))
}
