// A line in the making: text in fixed memory, which holds every line whole.
ghost use Rattle.std.specs.Prelude.{◌≡◌, ℕ, ◌+◌, ◌≤◌, ◌<◌, List, [], ◌∷◌, ◌++◌, length, take};
ghost use Rattle.io.specs.Digits.{last_digits, IsDigitCount};
ghost use Rattle.numbers.specs.Types.{value};
ghost use Rattle.report.specs.Decimal.{decimal, signed_decimal};
ghost use Rattle.report.specs.LedgerLines.{hex_digit, hexadecimal};
ghost use Rattle.report.specs.Lines.{field, line_feed, Printed};

use crate::LINE_MOST;
use numbers::NumType;
use std::marker::Model;

// The first `used` bytes are the line's so far.
#[derive(Drop)]
pub struct Line {
    bytes: [u8; LINE_MOST],
    used: usize,
}

// Clauses see the text so far.
impl Model for Line {
    ghost Value = { List ℕ };

    ghost view = { λ l. take l.used l.bytes };

    ghost invariant = { λ l. l.used ≤ 96 };
}

// How many digits a number has. (This, `digit` and `write_digits` stand in the place of the library's `io::decimal` and
// `io::hex`, which divide by a base that they are given, digit by digit: a trace of many findings takes far longer with
// them.)
fn digit_count(n: u32) -> usize
    ensures value { IsDigitCount 10 1 n result }
    ensures upper_bound { result ≤ 10 }
{
    match n {
        0..=9 => 1,
        10..=99 => 2,
        100..=999 => 3,
        1000..=9999 => 4,
        10000..=99999 => 5,
        100000..=999999 => 6,
        1000000..=9999999 => 7,
        10000000..=99999999 => 8,
        100000000..=999999999 => 9,
        _ => 10,
    }
}

// The character of a digit, a lower-case letter from 10 on.
fn digit(d: u64) -> u8
    requires { d < 16 }
    ensures { result ≡ hex_digit d }
{
    if d < 10 {
        b'0' + d as u8
    } else {
        b'a' + (d as u8 - 10)
    }
}

// The last digits of a number in a base, as many as there are places. (The base is no parameter by value, so that the
// compiler knows it.)
fn write_digits<const BASE: u64>(n: u64, places: &mut [u8])
    requires { 0 < BASE × BASE ≤ 16 }
    ensures { places.new ≡ last_digits BASE (length places.old) n }
{
    let mut rest = n;
    for k in (0..places.len()).rev() {
        places[k] = digit(rest % BASE);
        rest /= BASE;
    }
}

impl Line {
    // A line with nothing in it.
    pub fn new() -> Line
        ensures { result ≡ [] }
    {
        Line {
            bytes: [0; LINE_MOST],
            used: 0,
        }
    }

    // Text behind what there is.
    pub fn add(&mut self, text: &[u8])
        requires { length self.old + length text.now ≤ 96 }
        ensures { self.new ≡ self.old ++ text.now }
    {
        wire::put(&mut self.bytes, self.used, text);
        self.used += text.len();
    }

    // A character behind what there is.
    fn push(&mut self, character: u8)
        requires { length self.old < 96 }
        ensures { self.new ≡ self.old ++ (character ∷ []) }
    {
        self.bytes[self.used] = character;
        self.used += 1;
    }

    // A number in decimal.
    fn decimal(&mut self, n: u32)
        requires { length self.old + 10 ≤ 96 }
        ensures { self.new ≡ self.old ++ decimal n }
    {
        let end = self.used + digit_count(n);
        write_digits::<10>(u64::from(n), &mut self.bytes[self.used..end]);
        self.used = end;
    }

    // A space and a number.
    pub fn number(&mut self, n: u32)
        requires { length self.old + 11 ≤ 96 }
        ensures { self.new ≡ self.old ++ field (decimal n) }
    {
        self.push(b' ');
        self.decimal(n);
    }

    // A space and the number of a stored word, signed by its type.
    pub fn input(&mut self, t: NumType, w: u32)
        requires { length self.old + 12 ≤ 96 }
        ensures { self.new ≡ self.old ++ field (signed_decimal (value t w)) }
    {
        let v = t.load(w);
        self.push(b' ');
        if v.neg {
            self.push(b'-');
        }
        self.decimal(v.mag as u32);
    }

    // A space and all 16 hexadecimal digits of a number.
    pub fn bits(&mut self, n: u64)
        requires { length self.old + 17 ≤ 96 }
        ensures { self.new ≡ self.old ++ field (hexadecimal 16 n) }
    {
        let mut digits = [0; 16];
        write_digits::<16>(n, &mut digits);
        self.push(b' ');
        self.add(&digits);
    }

    // The line and its line feed, at the front of a buffer. Answers how long it is.
    pub fn print(&mut self, out: &mut [u8]) -> usize
        requires { length self.old < 96 }
        ensures made { self.new ≡ self.old ++ line_feed }
        ensures printed { Printed (self.old ++ line_feed) out.old out.new result }
    {
        self.push(b'\n');
        wire::put(out, 0, &self.bytes[..self.used]);
        self.used
    }
}
