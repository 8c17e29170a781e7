// The lowering as a program: reads an options byte (0 if there is none) and a tree from standard input to its end; it names no
// limit. Prints the answer, the helper mask and the options mask; then the tree, then the list, in hexadecimal. The last two
// lines are empty on a refusal.
#![tactic(auto)]

// Standard input and output. The io crate trusts read and write alone, and std's printing more of the C library.
const STDIN_FILENO: i32 = 0;

const STDOUT_FILENO: i32 = 1;

fn say(text: &[u8]) {
    io::write_all(STDOUT_FILENO, text);
}

fn say_number(n: u8) {
    io::print_decimal(STDOUT_FILENO, u64::from(n));
}

// A line of a tree or a list. The longest tree has 32,768 bytes, so its digits fit.
fn say_line(bytes: &[u8]) {
    let mut text = io::large_buffer();
    let fitting = &bytes[..bytes.len().min(text.len() / 2)];
    let digits = &mut text[..2 * fitting.len()];
    hex::encode_to_slice(fitting, digits).unwrap();
    say(digits);
    say(b"\n");
}

// What the entry hands back.
fn report(options: u32, tree: &[u8], out: &mut [u8], list: &mut [u8], work: &mut [u8]) {
    let r = rest_spread::rest_spread_lower(options, tree, out, list, work);
    say_number(r.answer);
    say(b" ");
    say_number(r.helpers);
    say(b" ");
    say_number(r.options);
    say(b"\n");
    say_line(&out[..r.tree_len]);
    say_line(&list[..r.list_len]);
}

// Slices as long as the longest results.
fn lowered(options: u8, tree: &[u8]) {
    let mut out = [0u8; 32768];
    let mut list = [0u8; 16384];
    let mut work = [0u8; 65536];
    report(u32::from(options), tree, &mut out, &mut list, &mut work);
}

fn given(bytes: &[u8]) {
    match bytes {
        [] => lowered(0, bytes),
        [options, tree @ ..] => lowered(*options, tree),
    }
}

// The buffer is longer than an options byte and the longest tree, so an input that does not fit in it is refused for its length.
fn main() {
    let mut space = io::large_buffer();
    let n = io::read_full(STDIN_FILENO, &mut space);
    given(&space[..n]);
}
