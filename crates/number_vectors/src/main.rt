// Runs the arithmetic blocks on the vectors of standard input and prints what each gives, so that a second source can
// be compared. A vector has 12 bytes: the operation (0 ADD, 1 SUB, 2 MUL, 3 DIV floor, 4 DIV ceil, 5 DIV round), the
// types of the first input, the second and the output (0 INT16, 1 UINT16, 2 INT32, 3 UINT32), the first word and the
// second (4 bytes each, little endian). Its line is `below`, `above`, or the resulting word in decimal, signed by the
// output type. A vector that is broken off ends the run.
#![tactic(auto)]

use numbers::{NumType, Op, OutOfRange, Rounding, Signed};

// The file descriptors of standard input and output. (The crate `io` reads many vectors at once into fixed memory and
// says how many bytes came, also where the input ends; `read_exact` of `std::io` does not say it.)
const STDIN_FILENO: i32 = 0;

const STDOUT_FILENO: i32 = 1;

const VECTOR_SIZE: usize = 12;

// The bytes of 186 vectors.
const ROOM: usize = 2232;

// The operation that a vector's first byte names. (A `From` would stand in `numbers`, whose `Op` it is; the byte is the
// vectors' own.)
fn op_of(b: u8) -> Op {
    match b {
        0 => Op::Add,
        1 => Op::Sub,
        2 => Op::Mul,
        _ => Op::Div(Rounding::from(b - 3)),
    }
}

// What the block of a vector gives, in the output's type.
fn result_of(v: &[u8]) -> Result<Signed, OutOfRange> {
    let op = op_of(wire::byte(v, 0));
    let ta = NumType::from(wire::byte(v, 1));
    let tb = NumType::from(wire::byte(v, 2));
    let t = NumType::from(wire::byte(v, 3));
    let w = numbers::compute(op, ta, wire::read32(v, 4), tb, wire::read32(v, 8), t)?;
    Ok(t.load(w))
}

// Lines in the making, in fixed memory. One has at most 22 bytes, so that those of 186 vectors have room.
#[derive(Drop)]
struct Lines {
    text: [u8; 4096],
    used: usize,
}

impl Lines {
    // Text behind what there is, as far as there is room.
    fn append(&mut self, text: &[u8]) {
        wire::put(&mut self.text, self.used, text);
        self.used = self.used.saturating_add(text.len()).min(self.text.len());
    }

    fn append_number(&mut self, n: Signed) {
        if n.neg {
            self.append(b"-");
        }
        let mut digits = [0u8; 20];
        let k = io::decimal(n.mag, &mut digits);
        self.append(&digits[..k]);
        self.append(b"\n");
    }

    fn append_line(&mut self, gives: Result<Signed, OutOfRange>) {
        match gives {
            Err(OutOfRange::Below) => self.append(b"below\n"),
            Err(OutOfRange::Above) => self.append(b"above\n"),
            Ok(n) => self.append_number(n),
        }
    }

    fn print(&self) {
        if let Some(lines) = self.text.get(..self.used) {
            io::write_all(STDOUT_FILENO, lines);
        }
    }
}

// Reads up to 186 vectors, prints their lines with one write, and answers whether there may be more.
fn some() -> bool {
    let mut vectors = [0u8; ROOM];
    let n = io::read_full(STDIN_FILENO, &mut vectors);
    let mut lines = Lines {
        text: io::buffer(),
        used: 0,
    };
    for v in vectors[..n].chunks_exact(VECTOR_SIZE) {
        lines.append_line(result_of(v));
    }
    lines.print();
    n == ROOM
}

// Nothing says that the input ends, so the turns are counted, up to a number that no run reaches. (`report_lines`
// has the same lines: a loop for both would stand in a third crate.)
fn main() {
    for _ in 0..u64::MAX {
        if !some() {
            return;
        }
    }
}
