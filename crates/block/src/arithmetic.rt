// ADD, SUB, MUL and DIV: the result of the two inputs x and y, and the step.
ghost use Rattle.std.specs.Prelude.{◌≡◌, not, cond, eqb};
ghost use Rattle.std.proofs.lemmas.List.Edits.{sets};
ghost use Rattle.block.specs.State.{RESET, phase_run, plain, in_error, running, diagnosis_of, is_error, encode};
ghost use Rattle.block.specs.State.{enters_from};
ghost use Rattle.block.specs.Arithmetic.{result_of};
ghost use Rattle.block.specs.Step.{arithmetic_bytes};

use crate::state::{diagnosis_of, in_error, is_error, keep, plain, running};
use crate::{PHASE_RUN, RESET};
use kind::Kind;
use numbers::{NumType, Op, OutOfRange, Rounding};

// The result of the two inputs in the output's type; DIV alone has a rounding. (The operation is known in each arm, so
// that the compiled code looks at the kind once: with one call for all, ADD takes a tenth more instructions.)
#[tactic(auto, unfolding(crate::specs::Arithmetic::result_of, crate::specs::Arithmetic::op_of))]
fn result_of(kind: u8, p: &[u8], x: u32, y: u32) -> Result<u32, OutOfRange>
    ensures { result ≡ result_of kind p.now x y }
{
    let ta = NumType::from(kind::first_type(p));
    let tb = NumType::from(kind::second_type(p));
    let t = NumType::from(kind::output_type(p));
    match Kind::try_from(kind) {
        Ok(Kind::Add) => numbers::compute(Op::Add, ta, x, tb, y, t),
        Ok(Kind::Sub) => numbers::compute(Op::Sub, ta, x, tb, y, t),
        Ok(Kind::Mul) => numbers::compute(Op::Mul, ta, x, tb, y, t),
        _ => {
            let rounding = Rounding::from(kind::rounding(p));
            numbers::compute(Op::Div(rounding), ta, x, tb, y, t)
        }
    }
}

// The output holds the result: RUN with it in phase RUN, else the fault is gone. It does not enter ERROR.
fn holds(phase: u8, w: u32, s: &mut [u8])
    ensures { s.new ≡ sets s.old 0
        (encode (cond (eqb phase phase_run) (running w) (plain RESET))) }
{
    let left = if phase == PHASE_RUN {
        running(w)
    } else {
        plain(RESET)
    };
    keep(s, left);
}

// The output does not: ERROR with this diagnosis in phase RUN, else with the one that it has.
fn fails(phase: u8, diagnosis: u16, s: &mut [u8]) -> bool
    ensures left { s.new ≡ sets s.old 0
        (encode (cond (eqb phase phase_run) (in_error diagnosis) (in_error (diagnosis_of s.old)))) }
    ensures enters { result ≡ not (is_error s.old) }
{
    let was = is_error(s);
    let told = if phase == PHASE_RUN {
        diagnosis
    } else {
        diagnosis_of(s)
    };
    keep(s, in_error(told));
    !was
}

// The step of an arithmetic block that asks, in place; whether it enters ERROR.
pub fn arithmetic_step(kind: u8, p: &[u8], phase: u8, x: u32, y: u32, s: &mut [u8]) -> bool
    ensures left { s.new ≡ sets s.old 0
        (arithmetic_bytes kind p.now phase x y s.old) }
    ensures enters { result ≡ enters_from s.old
        (arithmetic_bytes kind p.now phase x y s.old) }
{
    match result_of(kind, p, x, y) {
        Ok(w) => {
            holds(phase, w, s);
            false
        }
        Err(out) => fails(phase, out.diagnosis(), s),
    }
}
