// Reads two trees from standard input, each after its 16-bit length. Prints `less`, `equal` or `greater`, the first
// against the second, or `3` if the input is no such pair of rewritten trees.
#![tactic(auto)]

use ordering::compare;
use std::cmp::Ordering;
use tree::bytes;

// Standard input and output.
const STDIN_FILENO: i32 = 0;

const STDOUT_FILENO: i32 = 1;

// Two lengths, two trees of 32,768 bytes, and a byte behind them, so that a longer input is seen.
const ROOM: usize = 65541;

fn report(order: Option<Ordering>) {
    let word: &[u8] = match order {
        Some(Ordering::Less) => b"less\n",
        Some(Ordering::Equal) => b"equal\n",
        Some(Ordering::Greater) => b"greater\n",
        None => b"3\n",
    };
    io::write_all(STDOUT_FILENO, word);
}

// The order of the pair that an input is, if it is one.
fn ordered(input: &[u8]) -> Option<Ordering> {
    let a = bytes::wide_at(input, 0);
    if 32768 < a || input.len() < a + 4 {
        return None;
    }
    let b = bytes::wide_at(input, a + 2);
    if 32768 < b || input.len() != a + b + 4 {
        return None;
    }
    compare::order(&input[2..a + 2], &input[a + 4..a + b + 4])
}

fn main() {
    let mut space: [u8; ROOM] = [0; ROOM];
    let n = io::read_full(STDIN_FILENO, &mut space);
    report(ordered(&space[..n]));
}
