// Replays stored cases from standard input. The first byte of a case says what it is of: 0 reading, 1 lowering where no limit is
// named, 2 lowering within a limit, 3 drawing, 4 joining. Prints a line for each disagreement, then how many trees the reader answered
// how, how many cases of lowering there were and how often the entries were called, how many trees were drawn, how many cases of joining
// there were, then the number of cases and of disagreements.
#![tactic(auto)]

mod bytes;
mod drawn;
mod joined;
mod reading;
mod rewriting;
mod tally;

use tally::Tally;

// Standard input and output.
const STDIN_FILENO: i32 = 0;

const STDOUT_FILENO: i32 = 1;

fn next_case(t: Tally) -> Tally {
    let mut kind = [0u8; 1];
    let n = io::read_full(STDIN_FILENO, &mut kind);
    if n == 0 {
        return t.ended();
    }
    let t = t.begun();
    match kind[0] {
        0 => reading::case(t),
        1 => rewriting::case(t),
        2 => rewriting::case_within(t),
        3 => drawn::case(t),
        4 => joined::case(t),
        _ => t.broken(b": it is of no kind\n"),
    }
}

// Nothing says that the input ends, so the loop has a number of turns that no run uses up.
fn replayed() -> Tally {
    let mut t = Tally::none();
    for _ in 0..u64::MAX {
        if !t.more {
            break;
        }
        t = next_case(t);
    }
    t
}

fn main() {
    replayed().report();
}
