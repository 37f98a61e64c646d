// The links (01, "Turned down", 7). r is the record of the block that has the link at `port`.
ghost use Rattle.std.specs.Prelude.{◌≡◌, ◌<◌, eqb};
ghost use Rattle.wire.specs.Places.{all};
ghost use Rattle.project.specs.Project.{input_count, block_count, link_count};
ghost use Rattle.casefile.specs.Rules.{link_known, source_fits, bit_of, hand_active, link_active};
ghost use Rattle.casefile.specs.Rules.{link_ok, links_ok};

use kind::Family;
use project::Source;

// A known kind and target, and no nonzero byte where none is allowed.
#[tactic(auto, unfolding(crate::specs::Rules::link_known))]
fn link_known(inputs: &[u8], blocks: &[u8], r: &[u8], port: u8) -> bool
    ensures { result ≡ link_known (input_count inputs.now) blocks.now r.now port }
{
    let index = project::link_index(r, port);
    let target = project::link_port(r, port);
    let is_port = port < kind::ports_in(project::kind_of(r));
    match project::link_kind(r, port) {
        0 => (index == 0) & (target == 0),
        1 => is_port & ((index as usize) < inputs.len() / project::INPUT_SIZE) & (target == 0),
        2 => {
            let other = project::block_record(blocks, index as usize);
            is_port
                & ((index as usize) < blocks.len() / project::BLOCK_SIZE)
                & (target < kind::ports_out(project::kind_of(other)))
        }
        _ => false,
    }
}

// Equal types, and no external input of another group; s is what the link names.
fn source_fits(inputs: &[u8], blocks: &[u8], r: &[u8], port: u8, s: Option<Source>) -> bool
    ensures { result ≡ source_fits inputs.now blocks.now r.now port s }
{
    match s {
        None => true,
        Some(Source::External(i)) => {
            let input = project::input_record(inputs, i as usize);
            (project::input_type(input)
                == kind::type_in(project::kind_of(r), project::parameters_of(r), port))
                & (project::input_group(input) == project::group_of(r))
        }
        Some(Source::Output(a, q)) => {
            let other = project::block_record(blocks, a as usize);
            kind::type_out(project::kind_of(other), project::parameters_of(other), q)
                == kind::type_in(project::kind_of(r), project::parameters_of(r), port)
        }
    }
}

// Whether a mask of 4 bits has bit `port`.
#[tactic(auto, unfolding(crate::specs::Rules::bit_of))]
fn has_bit(mask: u8, port: u8) -> bool
    requires { port < 4 }
    ensures { result ≡ eqb (bit_of mask port) 1 }
{
    (mask >> port) % 2 == 1
}

// A TWOHAND input is linked exactly if it is active.
#[tactic(auto, unfolding(crate::specs::Rules::hand_active), using(crate::proofs::Linking::linked_bit))]
fn hand_active(r: &[u8], port: u8) -> bool
    ensures { result ≡ hand_active r.now port }
{
    if 4 <= port {
        return true;
    }
    project::source_of(r, port).is_some()
        == has_bit(kind::active_mask(project::parameters_of(r)), port)
}

#[tactic(auto, unfolding(crate::specs::Rules::link_active_of))]
fn link_active(r: &[u8], port: u8) -> bool
    ensures { result ≡ link_active r.now port }
{
    match kind::family_of(project::kind_of(r)) {
        Some(Family::Twohand) => hand_active(r, port),
        Some(Family::Decouple | Family::Arithmetic) | None => true,
    }
}

#[tactic(auto, unfolding(crate::specs::Rules::link_ok))]
fn link_ok(inputs: &[u8], blocks: &[u8], r: &[u8], port: u8) -> bool
    ensures { result ≡ link_ok inputs.now blocks.now r.now port }
{
    if !link_known(inputs, blocks, r, port) {
        return false;
    }
    source_fits(inputs, blocks, r, port, project::source_of(r, port)) & link_active(r, port)
}

// Those of one block.
fn block_links_ok(inputs: &[u8], blocks: &[u8], r: &[u8]) -> bool
    ensures { result ≡ all (link_ok inputs.now blocks.now r.now) link_count }
{
    (0..project::LINKS).all(|p| link_ok(inputs, blocks, r, p))
}

pub fn links_ok(inputs: &[u8], blocks: &[u8]) -> bool
    ensures { result ≡ all (links_ok inputs.now blocks.now) (block_count blocks.now) }
{
    blocks
        .chunks_exact(project::BLOCK_SIZE)
        .all(|r| block_links_ok(inputs, blocks, r))
}
