// The bend of a table (02, W4): the month, among those with a finding on both sides, where the dismissed share of all
// later months less that of all up to and with it is largest, compared in whole numbers.
ghost use Rattle.std.specs.Prelude.{◌≡◌, ◌≤◌, ◌<◌, length};
ghost use Rattle.year.specs.Ledger.{month_count};
ghost use Rattle.year.specs.Bends.{sides_at, both_sides, over, under, larger, bend_of};
ghost use Rattle.year.specs.Asks.{Counted, pooled, SmallSides, SmallBest, better};

use crate::{Line, MONTHS};

// The findings of some months, and the dismissed ones.
#[derive(Clone, Copy, Debug, PartialEq, Eq)]
pub struct Pool {
    pub findings: u64,
    pub dismissed: u64,
}

// All months up to and with one, and all later ones.
#[derive(Clone, Copy, Debug, PartialEq, Eq)]
pub struct Sides {
    pub upto: Pool,
    pub later: Pool,
}

// Some months, pooled.
fn pool_of(months: &[Line]) -> Pool
    requires { length months.now ≤ month_count }
    ensures { result ≡ pooled months.now }
{
    Pool {
        findings: months.iter().map(|l| u64::from(l.findings)).sum(),
        dismissed: months.iter().map(|l| u64::from(l.dismissed)).sum(),
    }
}

impl Sides {
    // The two sides of month m.
    fn at(lines: &[Line; MONTHS], m: usize) -> Sides
        requires { m < month_count }
        ensures { result ≡ sides_at lines.now m }
    {
        Sides {
            upto: pool_of(&lines[..m + 1]),
            later: pool_of(&lines[m + 1..]),
        }
    }

    // Whether there is a finding on both sides.
    fn both(self) -> bool
        ensures { result ≡ both_sides self }
    {
        (0 < self.upto.findings) & (0 < self.later.findings)
    }

    // The later share and the undismissed share up to the month, added: the difference of the two shares, and one. A
    // fraction, `over` by `under`.
    fn over(self) -> u64
        requires { SmallSides self }
        ensures { result ≡ over self }
    {
        self.later.dismissed * self.upto.findings
            + (self.upto.findings - self.upto.dismissed) * self.later.findings
    }

    fn under(self) -> u64
        requires { SmallSides self }
        ensures { result ≡ under self }
    {
        self.later.findings * self.upto.findings
    }

    // Whether the difference is larger than that of t.
    fn is_larger(self, t: Sides) -> bool
        requires { SmallSides self × SmallSides t }
        ensures { result ≡ larger self t }
    {
        t.over() * self.under() < self.over() * t.under()
    }
}

// Whether the month of s is the bend of those looked at so far; `best` is the best of the others, where there is one.
fn is_better(s: Sides, best: Option<(usize, Sides)>) -> bool
    requires { SmallSides s × SmallBest best }
    ensures { result ≡ better s best }
{
    match best {
        Some((_, t)) => s.both() & s.is_larger(t),
        None => s.both(),
    }
}

// The bend.
pub fn bend_of(lines: &[Line; MONTHS]) -> Option<u8>
    requires { Counted lines.now }
    ensures { result ≡ bend_of lines.now }
{
    let mut best = None;
    for m in 0..MONTHS {
        let s = Sides::at(lines, m);
        if is_better(s, best) {
            best = Some((m, s));
        }
    }
    best.map(|(m, _)| (m + 1) as u8)
}
