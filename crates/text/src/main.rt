// Reads a rewritten tree from standard input to its end. Prints its text, or the number of the refusal and a line end.
#![tactic(auto)]

// Standard input and output. The io crate trusts read and write alone, and std's printing more of the C library.
const STDIN_FILENO: i32 = 0;

const STDOUT_FILENO: i32 = 1;

// The first bytes of a text.
fn show(text: &[u8], len: usize) {
    if len <= text.len() {
        io::write_all(STDOUT_FILENO, &text[..len]);
    }
}

// The buffer is longer than the longest tree, so an input that does not fit in it is refused for its length; the text of
// every tree fits in nine times the longest.
fn main() {
    let mut space = io::large_buffer();
    let n = io::read_full(STDIN_FILENO, &mut space);
    let mut text = [0u8; 294912];
    let r = printer::rest_spread_text(&space[..n], &mut text);
    if r.answer == 0 {
        show(&text, r.text_len);
    } else {
        io::print_decimal(STDOUT_FILENO, u64::from(r.answer));
        io::write_all(STDOUT_FILENO, b"\n");
    }
}
