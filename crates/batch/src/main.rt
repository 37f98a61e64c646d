// The library over a pipe, for tools in any language and for tests. Requests stand on standard input, and each is
// answered at once on standard output, until the input ends. All numbers are little endian; a buffer is its length
// (32-bit) and its bytes.
//     C (0x43), a file: one byte, 0 for accepted or the refusal's number
//     Y (0x59), a file, a record, a state, outputs, findings: one byte, 0 or the refusal's number; the count of
//     findings (32-bit, 0 if refused); state, outputs and findings as they are after the call, in the lengths that
//     they came with
//     L (0x4C), a ledger: one byte, 0 for accepted or the refusal's number; if 0, two tables, with and without script
//     closings, each of twelve months and a bend: a month is findings and dismissed ones (32-bit each), one byte, 1
//     for a rate or 0 for none, and the rate's 64 bits or 0; a bend is one byte, its month or 0 for none
// A buffer that there is no room for, another letter, or an end in the middle of a request ends the program with a
// line on standard error; answers already given stand.
#![tactic(auto)]

ghost use Rattle.std.specs.Prelude.{IfOk, length};
ghost use Rattle.io.specs.Counts.{IsPrefixLen};

mod ledgers;

use evaluator::Refusal;

// The file descriptors of standard input, output and error. (The crate `io` says how many bytes came, also where the
// input ends; `read_exact` of `std::io` does not.)
const STDIN_FILENO: i32 = 0;

const STDOUT_FILENO: i32 = 1;

const STDERR_FILENO: i32 = 2;

// Room for a file, one byte more than any ledger that is accepted, and for each other buffer.
const FILE_ROOM: usize = 294937;

const ROOM: usize = 8192;

// What can be wrong with a request.
#[derive(Clone, Copy, Debug, PartialEq, Eq)]
enum Fault {
    TooLong,
    BrokenOff,
    UnknownLetter,
}

impl Fault {
    fn text(self) -> &'static [u8] {
        match self {
            Fault::TooLong => b": a buffer is longer than its room\n",
            Fault::BrokenOff => b": the input ends in the middle of it\n",
            Fault::UnknownLetter => b": its letter is none of C, L and Y\n",
        }
    }
}

// What is asked.
#[derive(Clone, Copy, Debug, PartialEq, Eq)]
enum Request {
    Check,
    Cycle,
    Ledger,
}

impl TryFrom<u8> for Request {
    type Error = Fault;

    fn try_from(letter: u8) -> Result<Request, Fault> {
        match letter {
            b'C' => Ok(Request::Check),
            b'Y' => Ok(Request::Cycle),
            b'L' => Ok(Request::Ledger),
            _ => Err(Fault::UnknownLetter),
        }
    }
}

// Says which request cannot be answered and why.
fn complain(request: u64, fault: Fault) {
    io::write_all(STDERR_FILENO, b"batch: request ");
    io::print_decimal(STDERR_FILENO, request);
    io::write_all(STDERR_FILENO, fault.text());
}

// The next buffer, at the start of `room`.
fn receive(room: &mut [u8]) -> Result<&mut [u8], Fault>
    ensures { IfOk result (λ buffer. IsPrefixLen (length buffer.now) room.old) }
{
    let mut length = [0u8; 4];
    if io::read_full(STDIN_FILENO, &mut length) < 4 {
        return Err(Fault::BrokenOff);
    }
    let size = u32::from_le_bytes(length) as usize;
    if room.len() < size {
        return Err(Fault::TooLong);
    }
    let buffer = &mut room[..size];
    if io::read_full(STDIN_FILENO, buffer) < size {
        return Err(Fault::BrokenOff);
    }
    Ok(buffer)
}

// The front of an answer to a cycle: the refusal or 0, and the count of findings.
fn front(refusal: u8, count: u32) -> [u8; 5] {
    let c = wire::bytes32(count);
    [refusal, c[0], c[1], c[2], c[3]]
}

fn front_of(answer: Result<u32, Refusal>) -> [u8; 5] {
    match answer {
        Ok(count) => front(0, count),
        Err(refusal) => front(refusal.number(), 0),
    }
}

// Checks a file and writes the answer. Answers whether it could be written.
fn answer_check(file: &[u8]) -> bool {
    let number = casefile::number_of(casefile::check(file));
    io::write_all(STDOUT_FILENO, &[number])
}

// Runs a cycle and writes the answer. Answers whether it could be written.
fn answer_cycle(
    file: &[u8],
    record: &[u8],
    state: &mut [u8],
    outputs: &mut [u8],
    findings: &mut [u8],
) -> bool {
    let front = front_of(evaluator::cycle(file, record, state, outputs, findings));
    io::write_all(STDOUT_FILENO, &front)
        & io::write_all(STDOUT_FILENO, state)
        & io::write_all(STDOUT_FILENO, outputs)
        & io::write_all(STDOUT_FILENO, findings)
}

// The room for each buffer of a request.
#[derive(Drop)]
struct Rooms {
    file: [u8; FILE_ROOM],
    record: [u8; ROOM],
    state: [u8; ROOM],
    outputs: [u8; ROOM],
    findings: [u8; ROOM],
}

impl Rooms {
    // The rest of a request for a cycle. Answers whether to go on.
    fn serve_cycle(&mut self) -> Result<bool, Fault> {
        let file = receive(&mut self.file)?;
        let record = receive(&mut self.record)?;
        let state = receive(&mut self.state)?;
        let outputs = receive(&mut self.outputs)?;
        let findings = receive(&mut self.findings)?;
        Ok(answer_cycle(file, record, state, outputs, findings))
    }

    // One request. Answers whether to go on: at the end of the input there is none.
    fn serve(&mut self) -> Result<bool, Fault> {
        let mut letter = [0u8; 1];
        if io::read_full(STDIN_FILENO, &mut letter) == 0 {
            return Ok(false);
        }
        match Request::try_from(letter[0])? {
            Request::Check => Ok(answer_check(receive(&mut self.file)?)),
            Request::Ledger => Ok(ledgers::answer_ledger(receive(&mut self.file)?)),
            Request::Cycle => self.serve_cycle(),
        }
    }
}

// Nothing says that the input ends, so the loop counts the requests, up to a number that no run reaches.
fn main() {
    let mut rooms = Rooms {
        file: [0; FILE_ROOM],
        record: [0; ROOM],
        state: [0; ROOM],
        outputs: [0; ROOM],
        findings: [0; ROOM],
    };
    for request in 1..u64::MAX {
        match rooms.serve() {
            Ok(true) => {}
            Ok(false) => return,
            Err(fault) => {
                complain(request, fault);
                return;
            }
        }
    }
}
