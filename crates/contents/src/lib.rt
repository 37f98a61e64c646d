// A table of contents at the front of a file: for each of n bodies its start and its length (01, "The case file", where
// n is 5). Every public function is total: a byte past the end reads as 0.
#![tactic(auto)]

ghost use Rattle.std.specs.Prelude.{◌+◌, ◌*◌, ◌≤◌, ◌≡◌, length};
ghost use Rattle.wire.specs.Words.{le32};
ghost use Rattle.wire.specs.Places.{all};
ghost use Rattle.contents.specs.Contents.{entry_size, body_start, body_size, follows_ok, contents_ok};

const ENTRY_SIZE: usize = 8;

// The word at byte `at` of body e's entry.
fn word_of(file: &[u8], e: u8, at: u8) -> u32
    ensures { result ≡ le32 file.now (entry_size * e + at) }
{
    wire::read32(file, ENTRY_SIZE * (e as usize) + (at as usize))
}

// Where body e starts, and how long it is, as its entry says.
#[tactic(auto, unfolding(crate::specs::Contents::body_start))]
pub fn start(file: &[u8], e: u8) -> u32
    ensures { result ≡ body_start file.now e }
{
    word_of(file, e, 0)
}

#[tactic(auto, unfolding(crate::specs::Contents::body_size))]
pub fn size(file: &[u8], e: u8) -> u32
    ensures { result ≡ body_size file.now e }
{
    word_of(file, e, 4)
}

// The number in the four bytes from i on, which the file has. (`wire::read32` looks at the file's size for each number,
// which is most of the time that a file takes that is turned down early.)
fn word(file: &[u8], i: usize) -> u32
    requires { i + 4 ≤ length file.now }
    ensures { result ≡ le32 file.now i }
{
    wire::word32(file[i], file[i + 1], file[i + 2], file[i + 3])
}

// Body e + 1 starts where body e ends. Where the file has both entries, one look at its size is enough.
fn follows(file: &[u8], e: u8) -> bool
    ensures { result ≡ follows_ok file.now e }
{
    let at = ENTRY_SIZE * (e as usize);
    let next = at + ENTRY_SIZE;
    if file.len() < next + 4 {
        return (wire::read32(file, next) as u64)
            == (start(file, e) as u64) + (size(file, e) as u64);
    }
    (word(file, next) as u64) == (word(file, at) as u64) + (word(file, at + 4) as u64)
}

// Whether each body before the last ends where the next starts.
fn no_gap(file: &[u8], last: u8) -> bool
    ensures { result ≡ all (follows_ok file.now) last }
{
    (0..last).all(|e| follows(file, e))
}

// Whether the n bodies stand one after the other, from the table to the end of the file.
#[tactic(auto, unfolding(crate::specs::Contents::contents_ok))]
pub fn ok(file: &[u8], n: u8) -> bool
    ensures { result ≡ contents_ok n file.now }
{
    let last = n.saturating_sub(1);
    ((start(file, 0) as usize) == ENTRY_SIZE * (n as usize))
        & no_gap(file, last)
        & ((start(file, last) as usize) + (size(file, last) as usize) == file.len())
}
