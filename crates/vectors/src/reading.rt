// A case of reading is the depth limit and the expected answer (a byte each; the answer is 0, 3 or 4), the length of its tree
// and the expected next mark (16 bits each, little-endian; the mark is 0 on a refusal), then the tree.
use crate::STDIN_FILENO;
use crate::bytes::number16;
use crate::tally::{Tally, say, say_number};
use tree::read::{Reading, Refusal};

// What stands in front of a case's tree.
#[derive(Clone, Copy)]
struct Head {
    limit: usize,
    answer: u8,
    length: usize,
    mark: usize,
}

// An answer of the reader: 0, the tree's end and the next mark; or the refusal's number, 0 and 0.
#[derive(Clone, Copy)]
struct Found {
    answer: u8,
    end: usize,
    mark: usize,
}

fn say_answer(answer: u8, end: usize, mark: usize) {
    say_number(answer as u64);
    say(b" ");
    say_number(end as u64);
    say(b" ");
    say_number(mark as u64);
}

fn head_of(bytes: &[u8; 6]) -> Head {
    Head {
        limit: bytes[0] as usize,
        answer: bytes[1],
        length: number16(bytes[2], bytes[3]),
        mark: number16(bytes[4], bytes[5]),
    }
}

fn found_of(reading: Result<Reading, Refusal>) -> Found {
    match reading {
        Ok(Reading { end, mark }) => Found {
            answer: 0,
            end,
            mark,
        },
        Err(refusal) => Found {
            answer: u8::from(refusal),
            end: 0,
            mark: 0,
        },
    }
}

// What comes of a case: its tree is read, and the answer compared with the expected one.
fn judged(t: Tally, head: Head, tree: &[u8]) -> Tally {
    let found = found_of(tree::read::read_tree(tree, head.limit));
    let end = if head.answer == 0 { head.length } else { 0 };
    let t = t.read(found.answer);
    if found.answer == head.answer && found.end == end && found.mark == head.mark {
        return t;
    }
    let t = t.failed();
    say(b": expected ");
    say_answer(head.answer, end, head.mark);
    say(b", found ");
    say_answer(found.answer, found.end, found.mark);
    say(b"\n");
    t
}

// The case after its head: the tree fills `room`.
fn filled(t: Tally, head: Head, room: &mut [u8]) -> Tally {
    let n = io::read_full(STDIN_FILENO, room);
    if n < room.len() {
        return t.broken(b": the input ends in it\n");
    }
    judged(t, head, room)
}

// The same with the start of `space` as its room.
fn placed(t: Tally, head: Head, space: &mut [u8]) -> Tally {
    let length = head.length;
    if length > space.len() {
        return t.broken(b": its tree is too long\n");
    }
    filled(t, head, &mut space[..length])
}

pub(crate) fn case(t: Tally) -> Tally {
    let mut bytes = [0u8; 6];
    let n = io::read_full(STDIN_FILENO, &mut bytes);
    if n < 6 {
        return t.broken(b": the input ends in it\n");
    }
    let mut space = [0u8; 20000];
    placed(t, head_of(&bytes), &mut space)
}
