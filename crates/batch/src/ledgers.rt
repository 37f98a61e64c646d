// The answer to a ledger over the pipe.
use crate::STDOUT_FILENO;
use year::{Line, MONTHS, Table, Year};

// The bytes of a line.
const LINE_SIZE: usize = 17;

// A line: its counts, whether it has a rate, and the rate's bits.
fn line_bytes(l: &Line) -> [u8; LINE_SIZE] {
    let share = year::share_of(*l);
    let mut bytes = [0u8; LINE_SIZE];
    bytes[..4].copy_from_slice(&l.findings.to_le_bytes());
    bytes[4..8].copy_from_slice(&l.dismissed.to_le_bytes());
    bytes[8] = u8::from(share.is_some());
    bytes[9..].copy_from_slice(&year::bits(share).to_le_bytes());
    bytes
}

// Writes a table, its lines and its bend, 0 for none. Answers whether it could be written.
fn write_table(t: &Table) -> bool {
    let mut bytes = [0u8; LINE_SIZE * MONTHS];
    for (line, place) in t.lines.iter().zip(bytes.chunks_exact_mut(LINE_SIZE)) {
        place.copy_from_slice(&line_bytes(line));
    }
    io::write_all(STDOUT_FILENO, &bytes)
        & io::write_all(STDOUT_FILENO, &[year::bend_number(t.bend)])
}

// Measures a ledger and writes the answer. Answers whether it could be written.
pub fn answer_ledger(file: &[u8]) -> bool {
    match year::year_of(file) {
        Ok(Year { every, person }) => {
            io::write_all(STDOUT_FILENO, &[0]) & write_table(&every) & write_table(&person)
        }
        Err(e) => io::write_all(STDOUT_FILENO, &[e.number()]),
    }
}
