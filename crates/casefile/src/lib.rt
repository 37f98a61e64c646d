// What a case file is, and when it is turned down (01, "The case file" and "Turned down: numbers and order"). The file
// is read through its table of contents, by the reader alone; everything else is over its bodies. Every public function
// is total: a byte past the end reads as 0.
#![tactic(auto)]

ghost use Rattle.std.specs.Prelude.{◌≡◌};
ghost use Rattle.project.specs.Project.{counts_in};
ghost use Rattle.casefile.specs.Bodies.{project_of};
ghost use Rattle.casefile.specs.Refusal.{verdict, number_of};

mod channels;
mod links;
mod orders;
mod reader;
mod records;
mod table;

use project::Counts;
pub use reader::{Bodies, Starts, body, starts_of};
pub use table::Rule;

// The bodies, by their places in the table of contents. (Numbers and not an enum: `body` promises an answer for every
// number of a body, also past the five.)
pub const BODY_G: u8 = 0;

pub const BODY_I: u8 = 1;

pub const BODY_B: u8 = 2;

pub const BODY_O: u8 = 3;

pub const BODY_T: u8 = 4;

// How many there are.
const BODIES: u8 = 5;

// The device of the file's project, how many records each body has, and the size of a cycle record.
pub fn counts_in(file: &[u8]) -> Counts
    ensures { result ≡ counts_in (project_of file.now) }
{
    Bodies::of(file).counts()
}

// Whether a file is a case file, and if not, the first rule of the table that it breaks.
pub fn check(file: &[u8]) -> Result<(), Rule>
    ensures { result ≡ verdict file.now }
{
    let bodies = Bodies::of(file);
    for r in table::TABLE {
        if !table::keeps(file, bodies, r) {
            return Err(r);
        }
    }
    Ok(())
}

// The paper's number of an answer, 0 for accepted. (A `From` for a `Result` cannot stand outside of std.)
pub fn number_of(checked: Result<(), Rule>) -> u8
    ensures { result ≡ number_of checked }
{
    match checked {
        Ok(()) => 0,
        Err(r) => r.number(),
    }
}
