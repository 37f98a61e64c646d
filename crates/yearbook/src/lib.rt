// What is told of a ledger: its two tables, each with its bend, as lines on standard output, or `refused` with the
// number (02, W4). The crate `year` measures, `report` makes a month's line from its numbers; here the text is put
// together, and written at once.
#![tactic(auto)]

ghost use Rattle.std.specs.Prelude.{◌≡◌, ◌+◌, ◌*◌, ◌≤◌, length};
ghost use Rattle.report.specs.Lines.{line_most, Printed, Put};
ghost use Rattle.year.specs.Ledger.{month_count};
ghost use Rattle.yearbook.specs.Text.{title_of, month_text, bend_text, months_text, table_text, year_text};
ghost use Rattle.yearbook.specs.Text.{number_of, answer_of, answer_text, ledger_text, told};
ghost use Rattle.yearbook.specs.Asks.{table_most, text_most};
ghost use Rattle.yearbook.specs.declared.Refusal.TheVariants.{Ledger};

use report::LINE_MOST;
use year::{Closings, Line, MONTHS, Table, Year};

// The file descriptor of standard output.
const STDOUT_FILENO: i32 = 1;

// The program takes no larger ledger.
const FILE_MOST: usize = 65536;

// Two tables, each a title, twelve months and a bend.
const TEXT_MOST: usize = LINE_MOST * 28;

// Why the program turns a ledger down: it is too large, or what is wrong in it.
#[derive(Clone, Copy, Debug, PartialEq, Eq)]
pub enum Refusal {
    TooLarge,
    Ledger(year::Refusal),
}

impl Refusal {
    // The number of 02 that stands for it.
    pub fn number(self) -> u8
        ensures { result ≡ number_of self }
    {
        match self {
            Refusal::TooLarge => 20,
            Refusal::Ledger(wrong) => wrong.number(),
        }
    }
}

impl From<year::Refusal> for Refusal {
    ghost from_gives = { λ wrong e. e ≡ Ledger wrong };

    fn from(wrong: year::Refusal) -> Refusal {
        Refusal::Ledger(wrong)
    }
}

// The line above a table.
fn title_line(out: &mut [u8], c: Closings) -> usize
    ensures { Printed (title_of c) out.old out.new result }
{
    let title: &[u8] = match c {
        Closings::Every => b"table with\n",
        Closings::Person => b"table without\n",
    };
    wire::put(out, 0, title);
    title.len()
}

// The line of a month, counted from 1.
#[tactic(auto, unfolding(crate::specs::Text::month_text))]
fn month_line(out: &mut [u8], month: u8, l: Line) -> usize
    ensures { Printed (month_text month l) out.old out.new result }
{
    let share = year::share_of(l);
    match share {
        Some(_) => report::rate_line(out, month, l.findings, l.dismissed, year::bits(share)),
        None => report::no_rate_line(out, month, l.findings, l.dismissed),
    }
}

// The line of a bend.
fn bend_line(out: &mut [u8], bend: Option<u8>) -> usize
    ensures { Printed (bend_text bend) out.old out.new result }
{
    match bend {
        Some(month) => report::bend_line(out, month),
        None => {
            wire::put(out, 0, b"bend none\n");
            10
        }
    }
}

// The lines of the twelve months. Answers their length.
#[tactic(auto, unfolding(crate::specs::Text::months_text))]
fn month_lines(out: &mut [u8], lines: &[Line; MONTHS]) -> usize
    requires { line_most * month_count ≤ length out.old }
    ensures put { Put (months_text lines.now month_count) out.old 0 out.new result }
    ensures upper_bound { result ≤ line_most * month_count }
{
    let mut end = 0;
    for (m, l) in lines.iter().enumerate() {
        end += month_line(&mut out[end..], (m + 1) as u8, *l);
    }
    end
}

// A table's lines. Answers their length.
fn table_lines(out: &mut [u8], c: Closings, t: &Table) -> usize
    requires { table_most ≤ length out.old }
    ensures put { Put (table_text c t.now) out.old 0 out.new result }
    ensures upper_bound { result ≤ table_most }
{
    let mut end = title_line(out, c);
    end += month_lines(&mut out[end..], &t.lines);
    end + bend_line(&mut out[end..], t.bend)
}

// The whole text. Answers its length.
fn year_lines(out: &mut [u8], y: &Year) -> usize
    requires { length out.old ≡ text_most }
    ensures put { Put (year_text y.now) out.old 0 out.new result }
    ensures upper_bound { result ≤ text_most }
{
    let half = table_lines(out, Closings::Every, &y.every);
    half + table_lines(&mut out[half..], Closings::Person, &y.person)
}

// What is told of a ledger: its tables, or why it is turned down.
#[tactic(auto, unfolding(crate::specs::Text::answer_of))]
fn answer_of(file: &[u8]) -> Result<Year, Refusal>
    ensures { result ≡ answer_of file.now }
{
    if FILE_MOST < file.len() {
        return Err(Refusal::TooLarge);
    }
    Ok(year::year_of(file)?)
}

// Its text. Answers the length.
fn answer_lines(out: &mut [u8], answer: &Result<Year, Refusal>) -> usize
    requires { length out.old ≡ text_most }
    ensures put { Put (answer_text answer.now) out.old 0 out.new result }
    ensures upper_bound { result ≤ text_most }
{
    match answer {
        Ok(year) => year_lines(out, year),
        Err(e) => report::refused_line(out, e.number()),
    }
}

// Writes what is told of a ledger. It is given no other text.
fn write_text(file: &[u8], text: &[u8])
    requires { text.now ≡ ledger_text file.now }
{
    io::write_all(STDOUT_FILENO, text);
}

// Tells of a ledger.
pub fn tell(file: &[u8]) -> Result<(), Refusal>
    ensures { result ≡ told file.now }
{
    let mut text = [0u8; TEXT_MOST];
    let answer = answer_of(file);
    let size = answer_lines(&mut text, &answer);
    write_text(file, &text[..size]);
    answer.map(|_| ())
}
