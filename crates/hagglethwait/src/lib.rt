// The product's calls for programs in other languages, over numbers, byte slices and arrays: the C interface has no
// `Result` and no enum that carries a number. The static library `hagglethwait_c` has each of them with C's calling
// convention. No function requires anything; refused, a call writes nothing.
#![tactic(auto)]

ghost use Rattle.std.specs.Prelude.{◌≡◌};
ghost use Rattle.casefile.specs.Refusal.{verdict, number_of};
ghost use Rattle.evaluator.specs.Fresh.{sizes_of, sizes_number, fresh_number, fresh_left};
ghost use Rattle.year.specs.Ledger.{ledger_number};
ghost use Rattle.year.specs.Year.{year_of};
ghost use Rattle.hagglethwait.specs.Calls.{call_of, answer_number, state_said, outputs_said, findings_said};
ghost use Rattle.hagglethwait.specs.Ledgers.{findings_left, dismissed_left, rates_left, bends_left};

mod ledgers;

use ledgers::Columns;
pub use ledgers::PLACES;

// 0 for a case file, or the number with which it is turned down.
pub fn hagglethwait_check(file: &[u8]) -> u8
    ensures { result ≡ number_of (verdict file.now) }
{
    casefile::number_of(casefile::check(file))
}

// The sizes of the three buffers of an accepted file's cycles. Answers 0, or the number with which the file is turned
// down.
pub fn hagglethwait_sizes(file: &[u8], state: &mut u32, outputs: &mut u32, findings: &mut u32) -> u8
    ensures answered { result ≡ sizes_number (sizes_of file.now) }
    ensures stated { state.new ≡ state_said (sizes_of file.now) state.old }
    ensures shown { outputs.new
        ≡ outputs_said (sizes_of file.now) outputs.old }
    ensures told { findings.new
        ≡ findings_said (sizes_of file.now) findings.old }
{
    match evaluator::sizes_of(file) {
        Ok(sizes) => {
            *state = sizes.state;
            *outputs = sizes.outputs;
            *findings = sizes.findings;
            0
        }
        Err(rule) => rule.number(),
    }
}

// The fresh state of an accepted file, into a buffer of the exact size. Answers 0, or the number with which the call is
// turned down.
pub fn hagglethwait_fresh(file: &[u8], state: &mut [u8]) -> u8
    ensures answered { result ≡ fresh_number file.now state.old }
    ensures left { state.new ≡ fresh_left file.now state.old }
{
    match evaluator::fresh(file, state) {
        Ok(()) => 0,
        Err(refusal) => refusal.number(),
    }
}

// One cycle from the state, with the record. Answers the count of findings, 0 or more, or minus the number with which
// the call is turned down.
pub fn hagglethwait_cycle(
    file: &[u8],
    rec: &[u8],
    state: &mut [u8],
    outputs: &mut [u8],
    findings: &mut [u8],
) -> i32
    ensures answered { result ≡ answer_number (call_of file.now rec.now state.old
        outputs.old findings.old).answer }
    ensures left { state.new ≡ (call_of file.now rec.now state.old
        outputs.old findings.old).lent.state }
    ensures shown { outputs.new ≡ (call_of file.now rec.now state.old
        outputs.old findings.old).lent.outputs }
    ensures told { findings.new ≡ (call_of file.now rec.now state.old
        outputs.old findings.old).lent.findings }
{
    match evaluator::cycle(file, rec, state, outputs, findings) {
        Ok(count) => count as i32,
        Err(refusal) => -(refusal.number() as i32),
    }
}

// The two tables of a ledger: findings, dismissed ones and rates month by month, those with script closings first, and
// the bends. Answers 0, or the number with which the ledger is turned down.
pub fn hagglethwait_ledger(
    file: &[u8],
    findings: &mut [u32; PLACES],
    dismissed: &mut [u32; PLACES],
    rates: &mut [f64; PLACES],
    bends: &mut [u8; 2],
) -> u8
    ensures answered { result ≡ ledger_number file.now }
    ensures found { findings.new
        ≡ findings_left (year_of file.now) findings.old }
    ensures gone { dismissed.new
        ≡ dismissed_left (year_of file.now) dismissed.old }
    ensures rated { rates.new ≡ rates_left (year_of file.now) rates.old }
    ensures bent { bends.new ≡ bends_left (year_of file.now) bends.old }
{
    match year::year_of(file) {
        Ok(year) => {
            let Columns {
                findings: found,
                dismissed: gone,
                rates: rated,
            } = ledgers::columns_of(&year.every.lines, &year.person.lines);
            *findings = found;
            *dismissed = gone;
            *rates = rated;
            *bends = ledgers::bends_of(&year);
            0
        }
        Err(e) => e.number(),
    }
}
