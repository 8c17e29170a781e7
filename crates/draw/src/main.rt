// The tree of a seed as a program: the seed is the one argument, decimal. Prints the answer, then the tree in hexadecimal, a line
// each; the second is empty on a refusal. Any other argument gets a line of usage.
#![tactic(auto)]

use std::env::{Env, FillError};

// Standard output.
const STDOUT_FILENO: i32 = 1;

fn say(text: &[u8]) {
    io::write_all(STDOUT_FILENO, text);
}

// The number of decimal digits that is no more than a u32 holds.
fn seed_of(text: &[u8]) -> Option<u32> {
    if text.is_empty() {
        return None;
    }
    let mut seed: u32 = 0;
    for byte in text {
        if !byte.is_ascii_digit() {
            return None;
        }
        seed = seed.checked_mul(10)?.checked_add((byte - b'0') as u32)?;
    }
    Some(seed)
}

fn say_tree(tree: &[u8]) {
    for byte in tree {
        io::print_hex(STDOUT_FILENO, *byte as u64, 2);
    }
    say(b"\n");
}

fn report(seed: u32, out: &mut [u8]) {
    let r = drawing::rest_spread_draw(seed, out);
    let n = r.tree_len;
    io::print_decimal(STDOUT_FILENO, r.answer as u64);
    say(b"\n");
    say_tree(&out[..n]);
}

fn usage() {
    say(b"usage: draw SEED, a decimal number below 4294967296\n");
}

fn drawn(text: &[u8]) {
    match seed_of(text) {
        Some(seed) => {
            let mut out = [0u8; 16384];
            report(seed, &mut out);
        }
        None => usage(),
    }
}

fn main(rt: HostRuntime) {
    let mut text = [0u8; 10];
    let mut none = [0u8; 0];
    match (rt.arg(1, &mut text), rt.arg(2, &mut none)) {
        (Ok(n), Err(FillError::NotPresent)) => drawn(&text[..n]),
        _ => usage(),
    }
}
