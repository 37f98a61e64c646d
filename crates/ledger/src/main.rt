// The ledger program: reads a ledger from standard input and tells of it (02, W4; the crate `yearbook`).
#![tactic(auto)]
// The file descriptor of standard input. (The crate `io` says how many bytes came; `read_exact` of `std::io` does not.)
const STDIN_FILENO: i32 = 0;

// (`trace` has the same four lines: a `main` for both would stand in a third crate.)
fn main() {
    // One byte more than a ledger may have.
    let mut space = [0u8; 65537];
    let n = io::read_full(STDIN_FILENO, &mut space);
    // A refusal stands in the text, as the tables do: the program ends the same.
    let _ = yearbook::tell(&space[..n]);
}
