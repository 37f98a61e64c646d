// Where the blocks stand: their records in the body of blocks, and their bytes in a state behind those of the groups.
ghost use Rattle.std.specs.Prelude.{◌≡◌, ◌+◌, ◌*◌, ◌<◌};
ghost use Rattle.project.specs.Project.{block_count, block_record};
ghost use Rattle.block.specs.State.{state_size};
ghost use Rattle.evaluator.specs.State.{state_head, cell};
ghost use Rattle.evaluator.specs.Cycle.{port_shows};
ghost use Rattle.evaluator.specs.Asks.{Whole, Sized};

use crate::GROUPS_AT;
use block::STATE_SIZE;
use project::{BLOCK_SIZE, Counts};

// The body of `count` blocks, and how many groups there are.
#[derive(Clone, Copy)]
pub struct Layout<'a> {
    pub blocks: &'a [u8],
    pub groups: usize,
    pub count: usize,
    pub ghost whole: { Whole blocks.now groups count },
}

impl<'a> Layout<'a> {
    // That of a project with these counts.
    pub fn of(c: Counts, blocks: &'a [u8]) -> Layout<'a>
        requires { Whole blocks.now c.groups c.blocks }
        ensures blocks { result.blocks.now ≡ blocks.now }
        ensures groups { result.groups ≡ c.groups }
        ensures count { result.count ≡ c.blocks }
    {
        Layout {
            blocks,
            groups: c.groups,
            count: c.blocks,
        }
    }

    // The record of block b.
    #[tactic(auto, using(crate::proofs::Reading::record_is))]
    pub fn record(&self, b: usize) -> &'a [u8]
        requires { b < block_count self.now.blocks.now }
        ensures { result.now ≡ block_record self.now.blocks.now b }
    {
        let at = BLOCK_SIZE * b;
        let to = at + BLOCK_SIZE;
        &self.blocks[at..to]
    }

    // Where its bytes start in a state. (A method that lends them as `&mut` was tried, and its `ensures*` did not
    // close: that is proved of an element or a call's result, and not of a range.)
    pub fn place(&self, b: usize) -> usize
        requires { b < block_count self.now.blocks.now }
        ensures { result ≡ state_head self.now.groups + state_size * b }
    {
        GROUPS_AT + self.groups + STATE_SIZE * b
    }

    // Its bytes in a state.
    #[tactic(auto, using(crate::proofs::Reading::cell_is))]
    pub fn cell<'s>(&self, state: &'s [u8], b: usize) -> &'s [u8]
        requires b_bound { b < block_count self.now.blocks.now }
        requires state_len { Sized self.now.groups self.now.blocks.now state.now }
        ensures { result.now ≡ cell self.now.groups state.now b }
    {
        let at = self.place(b);
        let to = at + STATE_SIZE;
        &state[at..to]
    }

    // What port q of block a shows in a state.
    pub fn port_shows(&self, state: &[u8], a: u8, q: u8) -> u32
        requires a_bound { a < block_count self.now.blocks.now }
        requires state_len { Sized self.now.groups self.now.blocks.now state.now }
        ensures { result ≡ port_shows self.now.blocks.now a q (cell self.now.groups state.now a) }
    {
        let b = a as usize;
        let r = self.record(b);
        block::shows(
            project::kind_of(r),
            project::parameters_of(r),
            q,
            self.cell(state, b),
        )
    }
}
