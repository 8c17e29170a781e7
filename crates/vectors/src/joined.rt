// A case of joining is the expected answer (a byte), the lengths of the slice that is lent, of the tree, of the list and of the joined
// tree (16 bits each, little-endian; the last is 0 on a refusal), then the last three. A case that is joined is joined into a slice as
// long as its result and a byte shorter, too; one that is refused for another reason than room, into no slice at all. Every byte is
// looked at.
use crate::STDIN_FILENO;
use crate::bytes::{holds, number16};
use crate::tally::{Tally, say};

// What stands in front of a case's tree, list and joined tree.
#[derive(Clone, Copy)]
struct Head {
    answer: u8,
    slice: usize,
    tree: usize,
    list: usize,
    result: usize,
}

// What the entry hands back: an answer, and the joined tree that it should have.
fn judged(answer: u8, want: &[u8], tree: &[u8], list: &[u8], out: &mut [u8]) -> bool {
    let r = joining::rest_spread_join(tree, list, out);
    r.answer == answer && r.tree_len == want.len() && holds(out, want)
}

// Joined into a slice of `length` bytes, none of them 0.
fn within(answer: u8, want: &[u8], tree: &[u8], list: &[u8], length: usize) -> bool {
    let mut space = [170u8; 33000];
    if 33000 < length {
        return false;
    }
    judged(answer, want, tree, list, &mut space[..length])
}

fn all_right(head: Head, want: &[u8], tree: &[u8], list: &[u8]) -> bool {
    let n = want.len();
    within(head.answer, want, tree, list, head.slice)
        && if 0 < n {
            within(0, want, tree, list, n) && within(7, b"", tree, list, n - 1)
        } else {
            head.answer == 7 || within(head.answer, b"", tree, list, 0)
        }
}

fn head_of(bytes: &[u8; 9]) -> Head {
    Head {
        answer: bytes[0],
        slice: number16(bytes[1], bytes[2]),
        tree: number16(bytes[3], bytes[4]),
        list: number16(bytes[5], bytes[6]),
        result: number16(bytes[7], bytes[8]),
    }
}

// What comes of a case.
fn compared(t: Tally, head: Head, tree: &[u8], list: &[u8], want: &[u8]) -> Tally {
    let t = t.joins(head.answer);
    if all_right(head, want, tree, list) {
        return t;
    }
    let t = t.failed();
    say(b": another tree is joined\n");
    t
}

// The case after its head: tree, list and joined tree fill their rooms.
fn filled(t: Tally, head: Head, tree: &mut [u8], list: &mut [u8], want: &mut [u8]) -> Tally {
    let a = io::read_full(STDIN_FILENO, tree);
    let b = io::read_full(STDIN_FILENO, list);
    let c = io::read_full(STDIN_FILENO, want);
    if a < tree.len() || b < list.len() || c < want.len() {
        return t.broken(b": the input ends in it\n");
    }
    compared(t, head, tree, list, want)
}

// The same with the starts of longer rooms.
fn placed(t: Tally, head: Head, tree: &mut [u8], list: &mut [u8], want: &mut [u8]) -> Tally {
    let a = head.tree;
    let b = head.list;
    let c = head.result;
    if a > tree.len() || b > list.len() || c > want.len() {
        return t.broken(b": it is too long\n");
    }
    filled(t, head, &mut tree[..a], &mut list[..b], &mut want[..c])
}

pub(crate) fn case(t: Tally) -> Tally {
    let mut bytes = [0u8; 9];
    let n = io::read_full(STDIN_FILENO, &mut bytes);
    if n < 9 {
        return t.broken(b": the input ends in it\n");
    }
    let mut tree = [0u8; 4000];
    let mut list = [0u8; 4000];
    let mut want = [0u8; 4000];
    placed(t, head_of(&bytes), &mut tree, &mut list, &mut want)
}
