// The trace program: reads a case file from standard input and prints its trace (01, "The trace program"; the crate
// `tracer`).
#![tactic(auto)]
// The file descriptor of standard input. (The crate `io` says how many bytes came; `read_exact` of `std::io` does not.)
const STDIN_FILENO: i32 = 0;

// (`ledger` has the same four lines: a `main` for both would stand in a third crate.)
fn main() {
    // One byte more than a case file may have.
    let mut space = [0u8; 65537];
    let n = io::read_full(STDIN_FILENO, &mut space);
    let _ = tracer::trace(&space[..n]);
}
