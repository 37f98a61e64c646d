// The groups: which have a block in ERROR, their bytes after the cycle, and their phases in it.
ghost use Rattle.std.specs.Prelude.{◌≡◌, ◌∷◌, [], ◌++◌, ◌+◌, ◌≤◌, length, drop};
ghost use Rattle.wire.specs.Records.{gather};
ghost use Rattle.evaluator.specs.State.{state_head, is_held, is_acknowledged};
ghost use Rattle.evaluator.specs.Groups.{pends, group_next, phase_from, runs_with};
ghost use Rattle.evaluator.specs.Asks.{Sized, error_list, Grouped, Decided, group_with};

use crate::GROUPS_AT;
use crate::layout::Layout;
use project::HEAD_SIZE;

// A byte for each of eight groups: 1 where a block of the group is in ERROR. (Eight, however many groups there are:
// there is no heap, and `unchecked::groups_in_error` promises `error_list`, which has eight.)
pub fn error_groups(layout: &Layout, state: &[u8]) -> [u8; 8]
    requires state_len { Sized layout.now.groups layout.now.blocks.now state.now }
    requires grouped { Grouped layout.now.blocks.now layout.now.count }
    ensures { result ≡ error_list layout.now.groups layout.now.blocks.now state.now }
{
    let mut marks = [0u8; 8];
    for b in 0..layout.count {
        if block::is_error(layout.cell(state, b)) {
            let g = project::group_of(layout.record(b)) as usize;
            marks[g] = 1;
        }
    }
    marks
}

// Whether a group is pending, from its byte of the record and whether one of its blocks is in ERROR.
fn pends(device: u8, control: u8, error: bool) -> bool
    ensures { result ≡ pends device control error }
{
    kind::is_pending(device, control) | error
}

fn is_held(byte: u8) -> bool
    ensures { result ≡ is_held byte }
{
    byte % 2 == 1
}

fn is_acknowledged(byte: u8) -> bool
    ensures { result ≡ is_acknowledged byte }
{
    byte / 2 % 2 == 1
}

// A group's byte after the cycle.
#[tactic(auto, unfolding(crate::specs::Groups::group_next))]
fn group_next(pending: bool, ack: bool, old: u8) -> u8
    ensures { result ≡ group_next pending ack old }
{
    if pending {
        return 1;
    }
    if is_held(old) & ack {
        return 3;
    }
    if is_held(old) & is_acknowledged(old) & !ack {
        return 0;
    }
    old
}

// A group's phase, from whether it is to run and its byte after the cycle.
#[tactic(auto, unfolding(crate::specs::Groups::phase_from))]
fn phase_from(run: bool, new: u8) -> u8
    ensures { result ≡ phase_from run new }
{
    if !run {
        return block::PHASE_STOP;
    }
    if !is_held(new) {
        return block::PHASE_RUN;
    }
    if is_acknowledged(new) {
        return block::PHASE_RESET;
    }
    block::PHASE_ERROR
}

fn runs_with(linked: u8, control: u8) -> bool
    ensures { result ≡ runs_with linked control }
{
    (linked == 0) | kind::is_run(control)
}

// The groups decide: their bytes in the state are the new ones, and the answer is their phases.
#[tactic(auto, unfolding(crate::specs::Groups::phase_of))]
pub fn decide(groups: &[u8], h: usize, rec: &[u8], errors: &[u8], state: &mut [u8]) -> [u8; 8]
    requires { (h ≤ 8) × (state_head h ≤ length state.old) }
    ensures left { state.new
        ≡ gather h
        (λ g. group_with errors.now groups.now rec.now state.old g ∷ [])
        ++ drop (state_head h) state.old }
    ensures phases { Decided errors.now groups.now rec.now
        state.old h result }
{
    let device = project::device_in(groups);
    let mut phases = [0u8; 8];
    for g in 0..h {
        let control = wire::byte(rec, HEAD_SIZE + g);
        let pending = pends(device, control, wire::byte(errors, g) == 1);
        let new = group_next(pending, kind::err_ack(control), state[GROUPS_AT + g]);
        let run = runs_with(project::run_linked(groups, g), control);
        phases[g] = phase_from(run, new);
        state[GROUPS_AT + g] = new;
    }
    phases
}
