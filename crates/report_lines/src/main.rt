// Prints the line of each record of standard input, so that a second source can be compared. A record has 20 bytes,
// numbers little endian. Of the trace program: the kind of line (0 a finding, 1 the end, 2 a refusal), the block or the
// refusal's number, the types of the first input and the second (0 INT16, 1 UINT16, 2 INT32, 3 UINT32), the text ID
// (2), the diagnosis (2), the cycle or the count of cycles (4), the first word or the count of findings (4), the second
// word (4). Of the ledger program: the kind of line (3 a month with its rate, 4 a month with none, any other a bend),
// the month, two bytes that are not read, the lower half of the rate's bits (4), the findings (4), the dismissed ones
// (4), the higher half of the rate's bits (4). A record that is broken off ends the run.
#![tactic(auto)]

ghost use Rattle.std.specs.Prelude.{◌≤◌};

use numbers::NumType;

// The file descriptors of standard input and output. (The crate `io` reads many records at once into fixed memory and
// says how many bytes came, also where the input ends; `read_exact` of `std::io` does not say it.)
const STDIN_FILENO: i32 = 0;

const STDOUT_FILENO: i32 = 1;

const RECORD_SIZE: usize = 20;

// The bytes of 200 records.
const ROOM: usize = 4000;

// The line of a finding's record, in a buffer; answers how long it is.
fn finding_line(record: &[u8], out: &mut [u8]) -> usize
    ensures { result ≤ 96 }
{
    let ta = NumType::from(wire::byte(record, 2));
    let tb = NumType::from(wire::byte(record, 3));
    report::finding_line(
        out,
        wire::read32(record, 8),
        wire::byte(record, 1),
        wire::read16(record, 4),
        wire::read16(record, 6),
        ta,
        wire::read32(record, 12),
        tb,
        wire::read32(record, 16),
    )
}

// The bits of a rate.
fn bits_of(record: &[u8]) -> u64 {
    4294967296 * u64::from(wire::read32(record, 16)) + u64::from(wire::read32(record, 4))
}

// The line of a record, likewise.
fn line(record: &[u8], out: &mut [u8]) -> usize
    ensures { result ≤ 96 }
{
    let number = wire::byte(record, 1);
    let x = wire::read32(record, 8);
    let y = wire::read32(record, 12);
    match wire::byte(record, 0) {
        0 => finding_line(record, out),
        1 => report::end_line(out, x, y),
        2 => report::refused_line(out, number),
        3 => report::rate_line(out, number, x, y, bits_of(record)),
        4 => report::no_rate_line(out, number, x, y),
        _ => report::bend_line(out, number),
    }
}

// Prints the line of one record.
fn print(record: &[u8]) {
    let mut out = [0u8; report::LINE_MOST];
    let used = line(record, &mut out);
    io::write_all(STDOUT_FILENO, &out[..used]);
}

// Reads up to 200 records, prints their lines, and answers whether there may be more.
fn some() -> bool {
    let mut records = [0u8; ROOM];
    let n = io::read_full(STDIN_FILENO, &mut records);
    for record in records[..n].chunks_exact(RECORD_SIZE) {
        print(record);
    }
    n == ROOM
}

// Nothing says that the input ends, so the turns are counted, up to a number that no run reaches. (`number_vectors`
// has the same lines: a loop for both would stand in a third crate.)
fn main() {
    for _ in 0..u64::MAX {
        if !some() {
            return;
        }
    }
}
