// What the call for a ledger stores (02, W4): the two tables as columns of numbers, that with script closings first.
ghost use Rattle.std.specs.Prelude.{◌≡◌, ◌<◌, ◌*◌, ◌++◌};
ghost use Rattle.year.specs.Ledger.{month_count};
ghost use Rattle.year.specs.Bends.{line_at};
ghost use Rattle.hagglethwait.specs.Ledgers.{columns_of, bends_in};

use std::array;
use year::{Line, MONTHS, Year};

// A column has a place for each month of both tables.
pub const PLACES: usize = 2 * MONTHS;

// The lines of both tables, column by column. Parallel arrays are the C interface: the call for C stores these three.
#[derive(Drop)]
pub struct Columns {
    pub findings: [u32; PLACES],
    pub dismissed: [u32; PLACES],
    pub rates: [f64; PLACES],
}

// The line at a place of a column: those of the table with script closings first.
fn line_at(every: &[Line; MONTHS], person: &[Line; MONTHS], place: usize) -> Line
    requires { place < 2 * month_count }
    ensures { result ≡ line_at (every.now ++ person.now) place }
{
    if place < MONTHS {
        every[place]
    } else {
        person[place - MONTHS]
    }
}

// The columns of both tables' lines.
pub fn columns_of(every: &[Line; MONTHS], person: &[Line; MONTHS]) -> Columns
    ensures { result ≡ columns_of every.now person.now }
{
    Columns {
        findings: array::from_fn(|place| line_at(every, person, place).findings),
        dismissed: array::from_fn(|place| line_at(every, person, place).dismissed),
        rates: array::from_fn(|place| line_at(every, person, place).rate),
    }
}

// The bends of both tables, 0 for none.
pub fn bends_of(y: &Year) -> [u8; 2]
    ensures { result ≡ bends_in y.now }
{
    [
        year::bend_number(y.every.bend),
        year::bend_number(y.person.bend),
    ]
}
