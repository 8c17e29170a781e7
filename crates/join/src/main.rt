// Reads a tree from standard input after its 16-bit length, then a list to the end. Prints the answer, then the joined
// tree in hexadecimal, a line each; the second is empty on a refusal. Fewer bytes than the length says: 3.
#![tactic(auto)]

use joining::{Joined, Refusal, join};
use tree::bytes;

// Standard input and output.
const STDIN_FILENO: i32 = 0;

const STDOUT_FILENO: i32 = 1;

// A length, a tree of 32,768 bytes, a list of 16,384 and a byte behind it, so that a longer list is seen.
const ROOM: usize = 65538;

fn say(text: &[u8]) {
    io::write_all(STDOUT_FILENO, text);
}

fn say_tree(tree: &[u8]) {
    for byte in tree {
        io::print_hex(STDOUT_FILENO, u64::from(*byte), 2);
    }
    say(b"\n");
}

fn joined(input: &[u8], out: &mut [u8]) -> Joined {
    let n = bytes::wide_at(input, 0);
    if input.len() < n + 2 {
        return Joined::from(Refusal::NoTree);
    }
    join::join(&input[2..n + 2], &input[n + 2..], out)
}

fn report(input: &[u8], out: &mut [u8]) {
    let r = joined(input, out);
    let n = r.tree_len;
    io::print_decimal(STDOUT_FILENO, u64::from(r.answer));
    say(b"\n");
    if n <= out.len() {
        say_tree(&out[..n]);
    }
}

fn main() {
    let mut space: [u8; ROOM] = [0; ROOM];
    let n = io::read_full(STDIN_FILENO, &mut space);
    let mut out: [u8; 32768] = [0; 32768];
    report(&space[..n], &mut out);
}
