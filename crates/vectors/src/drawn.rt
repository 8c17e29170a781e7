// A case of drawing is a seed and the state after its tree (32 bits each), the length of the tree (16 bits), all little-endian,
// then the tree. It is drawn into slices as long as the tree, three bytes longer and a byte shorter, and every byte is looked at.
use crate::STDIN_FILENO;
use crate::bytes::{holds, number16, number32};
use crate::tally::{Tally, say};

// What stands in front of a case's tree.
#[derive(Clone, Copy)]
struct Head {
    seed: u32,
    next: u32,
    length: usize,
}

// What the entry hands back: an answer, with the state and the tree that it should have.
fn judged(answer: u8, next: u32, tree: &[u8], seed: u32, out: &mut [u8]) -> bool {
    let r = drawing::rest_spread_draw(seed, out);
    r.answer == answer && r.next == next && r.tree_len == tree.len() && holds(out, tree)
}

fn drawn(head: Head, tree: &[u8], out: &mut [u8]) -> bool {
    if head.seed == 0 {
        return judged(8, 0, b"", head.seed, out);
    }
    if out.len() < tree.len() {
        return judged(7, 0, b"", head.seed, out);
    }
    judged(0, head.next, tree, head.seed, out)
}

// Drawn into a slice of `length` bytes, none of them 0.
fn within(head: Head, tree: &[u8], length: usize) -> bool {
    let mut space = [170u8; 8192];
    if 8192 < length {
        return false;
    }
    drawn(head, tree, &mut space[..length])
}

fn all_right(head: Head, tree: &[u8]) -> bool {
    let n = tree.len();
    n <= 8000
        && (n == 0 || within(head, tree, n - 1))
        && within(head, tree, n + 3)
        && within(head, tree, n)
}

fn head_of(bytes: &[u8; 10]) -> Head {
    Head {
        seed: number32(bytes[0], bytes[1], bytes[2], bytes[3]),
        next: number32(bytes[4], bytes[5], bytes[6], bytes[7]),
        length: number16(bytes[8], bytes[9]),
    }
}

// The case after its head: the tree fills `room`.
fn filled(t: Tally, head: Head, room: &mut [u8]) -> Tally {
    let n = io::read_full(STDIN_FILENO, room);
    if n < room.len() {
        return t.broken(b": the input ends in it\n");
    }
    let t = t.drew();
    if all_right(head, room) {
        return t;
    }
    let t = t.failed();
    say(b": another tree is drawn\n");
    t
}

// The same with the start of `space` as its room.
fn placed(t: Tally, head: Head, space: &mut [u8]) -> Tally {
    let length = head.length;
    if length > space.len() {
        return t.broken(b": its tree is too long\n");
    }
    filled(t, head, &mut space[..length])
}

pub(crate) fn case(t: Tally) -> Tally {
    let mut bytes = [0u8; 10];
    let n = io::read_full(STDIN_FILENO, &mut bytes);
    if n < 10 {
        return t.broken(b": the input ends in it\n");
    }
    let mut space = [0u8; 8192];
    placed(t, head_of(&bytes), &mut space)
}
