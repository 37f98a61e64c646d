// The blocks' turns, in place: what a block reads, what it does, and its finding where it enters ERROR. A turn goes by
// the phase of the block's group, and then by the block's family.
ghost use Rattle.std.specs.Prelude.{◌≡◌, Some, false, cond, ◌++◌, ℕ, ◌+◌, ◌*◌, ◌≤◌, ◌<◌, take};
ghost use Rattle.std.proofs.lemmas.List.Edits.{sets};
ghost use Rattle.wire.specs.Records.{gather};
ghost use Rattle.kind.specs.Kinds.{family_of};
ghost use Rattle.kind.specs.declared.Family.TheVariants.{Decouple, Twohand, Arithmetic};
ghost use Rattle.project.specs.Project.{block_count, kind_of, group_of};
ghost use Rattle.block.specs.State.{state_size};
ghost use Rattle.block.specs.Inputs.{bits_from};
ghost use Rattle.block.specs.Finding.{finding_size, finding_of};
ghost use Rattle.evaluator.specs.State.{state_head, cell};
ghost use Rattle.evaluator.specs.Asks.{Sized, Due, words_at, Turning, phase_at, turned, Took};
ghost use Rattle.evaluator.specs.Asks.{entering, Running, ran_with, enters_with, slot_with};

use crate::layout::Layout;
use block::{FINDING_SIZE, STATE_SIZE};
use kind::Family;
use project::{HEAD_SIZE, Source, WORD_SIZE};

// What stays as it is while the blocks of a cycle take their turns: where they stand, the cycle's record, and the
// phases of eight groups. (Not the state and the findings: a struct that holds a `&mut` has each method say too that it
// keeps which one it is, which is a clause more and not one less.)
#[derive(Clone, Copy)]
pub struct Turns<'b, 'r> {
    pub layout: Layout<'b>,
    pub rec: &'r [u8],
    pub phases: &'r [u8],
    pub ghost due: { (b : ℕ) → b < block_count layout.blocks.now →
        Due layout.groups layout.blocks.now rec.now phases.now b },
}

impl Turns<'_, '_> {
    // What input port p of block b reads: nothing, the record's input, or what a block's port shows in the state.
    fn word(&self, state: &[u8], b: usize, p: u8) -> u32
        requires state_len { Sized self.now.layout.groups self.now.layout.blocks.now state.now }
        requires b_bound { b < block_count self.now.layout.blocks.now }
        ensures { result ≡ words_at self.now.layout.groups self.now.layout.blocks.now self.now.rec.now
            state.now b p }
    {
        let source = project::source_of(self.layout.record(b), p);
        match source {
            None => 0,
            Some(Source::External(i)) => {
                let at = HEAD_SIZE + self.layout.groups + WORD_SIZE * (i as usize);
                let to = at + WORD_SIZE;
                wire::read32(&self.rec[at..to], 0)
            }
            Some(Source::Output(a, q)) => self.layout.port_shows(state, a, q),
        }
    }

    // The bits of the n first input ports of block b.
    fn bits(&self, state: &[u8], b: usize, n: u8) -> u32
        requires state_len { Sized self.now.layout.groups self.now.layout.blocks.now state.now }
        requires b_bound { b < block_count self.now.layout.blocks.now }
        requires n_bound { n ≤ 8 }
        ensures { result ≡ bits_from (words_at self.now.layout.groups self.now.layout.blocks.now self.now.rec.now
            state.now b) n 0 }
    {
        let mut bits = 0;
        for p in (0..n).rev() {
            let word = self.word(state, b, p);
            bits = block::bit_below(word, bits);
        }
        bits
    }

    // The finding of block b, which read x and y, where it has entered ERROR.
    fn note(&self, entered: bool, state: &[u8], b: usize, x: u32, y: u32, findings: &mut [u8])
        requires state_len { Sized self.now.layout.groups self.now.layout.blocks.now state.now }
        requires b_bound { b < block_count self.now.layout.blocks.now }
        ensures { findings.new
            ≡ cond entered
            (sets findings.old (finding_size * b)
            (finding_of b (group_of self.now.layout.blocks.now b) (kind_of self.now.layout.blocks.now b) x y
            (cell self.now.layout.groups state.now b)))
            findings.old }
    {
        if !entered {
            return;
        }
        let r = self.layout.record(b);
        // (No plainer as `b as u8`: that nothing is lost would need `b < 64` as a fact here.)
        let number = (b % 256) as u8;
        let s = self.layout.cell(state, b);
        let finding = block::finding(number, project::group_of(r), project::kind_of(r), x, y, s);
        wire::put(findings, FINDING_SIZE * b, &finding);
    }

    // The turn of block b where it asks for its inputs, for each family. They answer whether it enters ERROR, which a
    // DECOUPLE never does. (They differ in what they read and in the step. One function that took the step as a closure
    // would have to say of it what `Took` says of the turn, and save the two lines that lend it the block's bytes.)
    fn decouple(&self, phase: u8, state: &mut [u8], b: usize) -> bool
        requires state_len { Sized self.now.layout.groups self.now.layout.blocks.now state.old }
        requires turning { Turning self.now.layout.groups self.now.layout.blocks.now self.now.rec.now
            state.old b phase }
        requires family { family_of (kind_of self.now.layout.blocks.now b) ≡ Some Decouple }
        ensures left { state.new
            ≡ sets state.old (state_head self.now.layout.groups + state_size * b)
            (turned self.now.layout.groups self.now.layout.blocks.now self.now.rec.now phase state.old b) }
        ensures answered { result
            ≡ entering self.now.layout.groups self.now.layout.blocks.now self.now.rec.now phase state.old b }
        ensures quiet { result ≡ false }
    {
        let x = self.bits(state, b, 8);
        let at = self.layout.place(b);
        let to = at + STATE_SIZE;
        block::decouple_step(phase, x, &mut state[at..to])
    }

    fn twohand(&self, phase: u8, state: &mut [u8], findings: &mut [u8], b: usize) -> bool
        requires state_len { Sized self.now.layout.groups self.now.layout.blocks.now state.old }
        requires turning { Turning self.now.layout.groups self.now.layout.blocks.now self.now.rec.now
            state.old b phase }
        requires family { family_of (kind_of self.now.layout.blocks.now b) ≡ Some Twohand }
        ensures { Took self.now.layout.groups self.now.layout.blocks.now self.now.rec.now phase
            state.old state.new findings.old findings.new b result }
    {
        let p = project::parameters_of(self.layout.record(b));
        let x = block::effective(p, self.bits(state, b, 4));
        let ms = wire::read16(self.rec, 0);
        let at = self.layout.place(b);
        let to = at + STATE_SIZE;
        let entered = block::twohand_step(p, phase, ms, x, &mut state[at..to]);
        self.note(entered, state, b, x, 0, findings);
        entered
    }

    fn arithmetic(&self, phase: u8, state: &mut [u8], findings: &mut [u8], b: usize) -> bool
        requires state_len { Sized self.now.layout.groups self.now.layout.blocks.now state.old }
        requires turning { Turning self.now.layout.groups self.now.layout.blocks.now self.now.rec.now
            state.old b phase }
        requires family { family_of (kind_of self.now.layout.blocks.now b) ≡ Some Arithmetic }
        ensures { Took self.now.layout.groups self.now.layout.blocks.now self.now.rec.now phase
            state.old state.new findings.old findings.new b result }
    {
        let r = self.layout.record(b);
        let x = self.word(state, b, 0);
        let y = self.word(state, b, 1);
        let at = self.layout.place(b);
        let to = at + STATE_SIZE;
        let cell = &mut state[at..to];
        let entered = block::arithmetic_step(
            project::kind_of(r),
            project::parameters_of(r),
            phase,
            x,
            y,
            cell,
        );
        self.note(entered, state, b, x, y, findings);
        entered
    }

    // The turn of a block that asks for its inputs, by its family.
    fn reading(&self, phase: u8, state: &mut [u8], findings: &mut [u8], b: usize) -> bool
        requires state_len { Sized self.now.layout.groups self.now.layout.blocks.now state.old }
        requires turning { Turning self.now.layout.groups self.now.layout.blocks.now self.now.rec.now
            state.old b phase }
        ensures { Took self.now.layout.groups self.now.layout.blocks.now self.now.rec.now phase
            state.old state.new findings.old findings.new b result }
    {
        let family = kind::family_of(project::kind_of(self.layout.record(b)));
        match family {
            Some(Family::Decouple) => self.decouple(phase, state, b),
            Some(Family::Twohand) => self.twohand(phase, state, findings, b),
            Some(Family::Arithmetic) => self.arithmetic(phase, state, findings, b),
            None => {
                let at = self.layout.place(b);
                let to = at + STATE_SIZE;
                block::stop(&mut state[at..to]);
                false
            }
        }
    }

    // Block b's turn. Outside phase RUN most blocks do not ask for their inputs.
    fn turn(&self, state: &mut [u8], findings: &mut [u8], b: usize) -> bool
        requires state_len { Sized self.now.layout.groups self.now.layout.blocks.now state.old }
        requires b_bound { b < block_count self.now.layout.blocks.now }
        ensures { Took self.now.layout.groups self.now.layout.blocks.now self.now.rec.now
            (phase_at self.now.layout.blocks.now self.now.phases.now b)
            state.old state.new findings.old findings.new b result }
    {
        let group = project::group_of(self.layout.record(b)) as usize;
        let phase = self.phases[group];
        let ack = kind::err_ack(self.rec[HEAD_SIZE + group]);
        if block::asks(phase, ack, self.layout.cell(state, b)) {
            return self.reading(phase, state, findings, b);
        }
        let at = self.layout.place(b);
        let to = at + STATE_SIZE;
        block::rest(phase, ack, &mut state[at..to]);
        false
    }

    // The turns of all blocks, by execution number; `ranks` has the blocks in that order. Answers whether some block
    // may have entered ERROR, and leaves in `findings` what each says, by block number.
    pub fn take(&self, ranks: &[u8], state: &mut [u8], findings: &mut [u8]) -> bool
        requires { Running self.now.layout.groups self.now.layout.blocks.now self.now.rec.now self.now.phases.now
            ranks.now state.old findings.old self.now.layout.count }
        ensures left { state.new ≡ take (state_head self.now.layout.groups) state.old
            ++ gather self.now.layout.count
            (ran_with self.now.layout.groups self.now.layout.blocks.now self.now.rec.now self.now.phases.now
            state.old) }
        ensures told { findings.new
            ≡ gather self.now.layout.count
            (slot_with self.now.layout.groups self.now.layout.blocks.now self.now.rec.now self.now.phases.now
            state.old) }
        ensures none { result ≡ false → (b : ℕ) → b < self.now.layout.count →
            enters_with self.now.layout.groups self.now.layout.blocks.now self.now.rec.now self.now.phases.now
            state.old b ≡ false }
    {
        let mut some = false;
        for &b in &ranks[..self.layout.count] {
            some |= self.turn(state, findings, b as usize);
        }
        some
    }
}
