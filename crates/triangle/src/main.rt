// Prints, for each length n from 0 to 32, a line: how many patterns give c nested calls, c from 0 to n.
#![tactic(auto)]

// Standard output.
const STDOUT_FILENO: i32 = 1;

fn say(n: u32, c: u32) {
    if c > 0 {
        io::write_all(STDOUT_FILENO, b" ");
    }
    let counted = counting::rest_spread_calls(n, c);
    io::print_decimal(STDOUT_FILENO, counted.number as u64);
}

fn line(n: u32) {
    for c in 0..=n {
        say(n, c);
    }
    io::write_all(STDOUT_FILENO, b"\n");
}

fn main() {
    for n in 0..=counting::LONGEST {
        line(n);
    }
}
