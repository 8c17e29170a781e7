// Reads bytes from standard input to their end. Prints 0 if they are a rewritten tree, else 3.
#![tactic(auto)]

// Standard input and output. The io crate trusts read and write alone, and std's printing more of the C library.
const STDIN_FILENO: i32 = 0;

const STDOUT_FILENO: i32 = 1;

// The buffer is longer than the longest tree, so an input that does not fit in it is refused for its length.
fn main() {
    let mut space = io::large_buffer();
    let n = io::read_full(STDIN_FILENO, &mut space);
    let accepted = rewritten::read::is_rewritten(&space[..n]);
    io::write_all(STDOUT_FILENO, if accepted { b"0\n" } else { b"3\n" });
}
