// Prints the traces of the case files of standard input, one after the other, each file after its length (4 bytes,
// little endian), so that they can be compared with a second source. A file that is broken off ends the run.
#![tactic(auto)]
// The file descriptor of standard input. (The crate `io` says how many bytes came, also where the input ends;
// `read_exact` of `std::io` does not.)
const STDIN_FILENO: i32 = 0;

// The next file, at the start of `space`, if there is one that has room.
fn next(space: &mut [u8]) -> Option<&[u8]> {
    let mut length = [0u8; 4];
    if io::read_full(STDIN_FILENO, &mut length) < 4 {
        return None;
    }
    let size = u32::from_le_bytes(length) as usize;
    let file = space.get_mut(..size)?;
    if io::read_full(STDIN_FILENO, file) < size {
        return None;
    }
    Some(file)
}

// Nothing says that the input ends, so the files are counted, up to a number that no run reaches.
fn main() {
    let mut space = [0u8; 65537];
    for _ in 0..u64::MAX {
        let Some(file) = next(&mut space) else { return };
        let _ = tracer::trace(file);
    }
}
