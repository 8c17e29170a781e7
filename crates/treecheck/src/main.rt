// Reads a tree from standard input to its end. Prints 0, the number of its bytes and the next mark; or the number of
// the refusal. It names no limit.
#![tactic(auto)]

use tree::read;
use tree::read::{Reading, Refusal};

// Standard input and output. The io crate trusts read and write alone, and std's printing more of the C library.
const STDIN_FILENO: i32 = 0;

const STDOUT_FILENO: i32 = 1;

// The limit where none is named.
const LIMIT: usize = 128;

fn report(reading: Result<Reading, Refusal>) {
    match reading {
        Ok(Reading { end, mark }) => {
            io::write_all(STDOUT_FILENO, b"0 ");
            io::print_decimal(STDOUT_FILENO, end as u64);
            io::write_all(STDOUT_FILENO, b" ");
            io::print_decimal(STDOUT_FILENO, mark as u64);
        }
        Err(refusal) => {
            io::print_decimal(STDOUT_FILENO, u64::from(u8::from(refusal)));
        }
    }
    io::write_all(STDOUT_FILENO, b"\n");
}

// The buffer is longer than the longest tree, so an input that does not fit in it is refused for its length.
fn main() {
    let mut space = io::large_buffer();
    let n = io::read_full(STDIN_FILENO, &mut space);
    report(read::read_tree(&space[..n], LIMIT));
}
