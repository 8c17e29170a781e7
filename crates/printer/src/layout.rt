// The layout's numbers: the own bytes of each kind and the manners of its fields, in arrays that a call makes once and lends. (A
// `match` is a jump where a test follows; a load is none.) tools/layout.py works them out.
ghost use Rattle.std.specs.Prelude.{◌≡◌, ◌/◌, ◌%◌, ◌<◌, cond, eqb, get_or};
ghost use Rattle.printer.specs.Layout.{tail_of, close_of, chosen_word};
ghost use Rattle.printer.specs.Rows.{sort_numbers, slot_numbers, Sorted, Slotted};
ghost use Rattle.printer.specs.Stacks.{frame_in};

use crate::{frame, numbers};
use tree::kinds;

// The manners of fields that print more than their words: numbers, since the table of fields holds them.
pub(crate) const LINES: usize = 1;

pub(crate) const DIRECTIVES: usize = 2;

pub(crate) const CAUGHT: usize = 3;

pub(crate) const CLOSED: usize = 4;

pub(crate) const KEYED: usize = 5;

pub(crate) const FILLED: usize = 6;

pub(crate) const CALLED: usize = 7;

pub(crate) const LOOPED: usize = 8;

pub(crate) const HEADED: usize = 9;

pub(crate) const QUOTED: usize = 10;

pub(crate) const PARTED: usize = 11;

pub(crate) const VALUED: usize = 12;

// Of each kind: head, tail and end of the list, seven binary digits each; whether it is a statement, and whether it stands in
// parentheses. For a Function its byte tells that: from 64 on it stands again, with byte 0, 1, 2 and any other.
const SORTS: [u32; 68] = [
    0, 0, 0x202145, 0x201080, 0x203864, 0, 0x200004, 0x200004, 0x200065, 0x20004f, 0, 0x2010d2,
    0x202c80, 0x201080, 0x1cb8ef, 0, 0x2145, 0x5cc040, 0, 0, 0x66, 0x67, 0, 0x4025cb, 0x402141,
    0x74, 0x19, 0x400000, 0x400000, 0x400a80, 0x400000, 0x400ac0, 0x5d9e43, 0x400a80, 0x2141, 0,
    0x1dde43, 0, 0, 0x4c, 0x402153, 0x3875, 0x2156, 0x202157, 0, 0, 0, 0, 0, 0, 0, 0, 0, 0, 0, 0,
    0, 0, 0, 0, 0, 0, 0, 0, 0x1cb8ef, 0x3cb8ef, 0x5cb8ef, 0x1cb8ef,
];

pub(crate) fn sorts() -> [u32; 68]
    ensures { result ≡ sort_numbers }
{
    SORTS
}

// Of each field, eight to a kind: what leads it, seven binary digits, and above that its manner.
const SLOTS: [u16; 512] = [
    0, 0, 0, 0, 0, 0, 0, 0, 0x80, 0, 0, 0, 0, 0, 0, 0, 0, 0x80, 0, 0, 0, 0, 0, 0, 0, 0, 0, 0, 0, 0,
    0, 0, 0, 0, 0x580, 0, 0, 0, 0, 0, 0, 0xf, 0, 0, 0, 0, 0, 0, 0, 0x480, 0x12, 0x69, 0x46a, 0, 0,
    0, 0, 0x480, 0x4d, 0x415, 0, 0, 0, 0, 0, 0x480, 0x4e, 0x415, 0, 0, 0, 0, 0, 0, 0x50, 0x51, 0,
    0, 0, 0, 0x1c0, 0, 0, 0, 0, 0, 0, 0, 0, 0x47, 0, 0, 0, 0, 0, 0, 0, 0, 0x3c0, 0, 0, 0, 0, 0, 0,
    0, 0, 0, 0, 0, 0, 0, 0, 0, 0x47, 0x5c0, 0x26c, 0x47, 0, 0, 0, 0xf, 0, 0, 0, 0, 0, 0, 0x100,
    0x80, 0, 0, 0, 0, 0, 0, 0x580, 0x26c, 0x48, 0, 0, 0, 0, 0, 0, 0, 0, 0, 0, 0, 0, 0, 0, 0, 0, 0,
    0, 0, 0, 0, 0, 0, 0, 0, 0, 0, 0, 0, 0, 0, 0, 0, 0, 0, 0, 0, 0, 0, 0, 0, 0, 0, 0, 0, 0x500,
    0x300, 0, 0, 0, 0, 0, 0, 0x580, 0, 0, 0, 0, 0, 0, 0, 0x280, 0x66d, 0, 0, 0, 0, 0, 0, 0, 0, 0,
    0, 0, 0, 0, 0, 0, 0, 0x68, 0, 0, 0, 0, 0, 0x580, 0, 0, 0, 0, 0, 0, 0, 0, 0x5c0, 0, 0, 0, 0, 0,
    0, 0, 0, 0, 0, 0, 0, 0, 0, 0, 0, 0, 0, 0, 0, 0, 0, 0x580, 0, 0, 0, 0, 0, 0, 0, 0, 0x3c0, 0, 0,
    0, 0, 0, 0, 0x580, 0x6c, 0, 0, 0, 0, 0, 0, 0x280, 0x1b, 0, 0, 0, 0, 0, 0, 0x580, 0x6c, 0, 0, 0,
    0, 0, 0, 0, 0xf, 0, 0, 0, 0, 0, 0, 0, 0, 0, 0, 0, 0, 0, 0, 0, 0, 0, 0, 0, 0, 0, 0, 0x47, 0x54,
    0xd5, 0, 0, 0, 0, 0, 0x280, 0x66e, 0, 0, 0, 0, 0, 0, 0x80, 0, 0, 0, 0, 0, 0, 0, 0, 0, 0x49, 0,
    0, 0, 0, 0, 0x58, 0xeb, 0, 0, 0, 0, 0, 0, 0, 0, 0, 0, 0, 0, 0, 0, 0, 0, 0, 0, 0, 0, 0, 0, 0, 0,
    0, 0, 0, 0, 0, 0, 0, 0, 0, 0, 0, 0, 0, 0, 0, 0, 0, 0, 0, 0, 0, 0, 0, 0, 0, 0, 0, 0, 0, 0, 0, 0,
    0, 0, 0, 0, 0, 0, 0, 0, 0, 0, 0, 0, 0, 0, 0, 0, 0, 0, 0, 0, 0, 0, 0, 0, 0, 0, 0, 0, 0, 0, 0, 0,
    0, 0, 0, 0, 0, 0, 0, 0, 0, 0, 0, 0, 0, 0, 0, 0, 0, 0, 0, 0, 0, 0, 0, 0, 0, 0, 0, 0, 0, 0, 0, 0,
    0, 0, 0, 0, 0, 0, 0, 0, 0, 0, 0, 0, 0, 0, 0, 0, 0, 0, 0, 0, 0, 0, 0, 0, 0, 0, 0, 0, 0, 0, 0, 0,
    0, 0, 0, 0, 0, 0,
];

pub(crate) fn slots() -> [u16; 512]
    ensures { result ≡ slot_numbers }
{
    SLOTS
}

// The entry of a kind with its byte; right if the table is lent.
pub(crate) fn sort(sorts: &[u32], kind: usize, note: usize) -> usize
    ensures { sorts.now ≡ sort_numbers → kind < 64 → Sorted kind note result }
{
    let entry = if kind == kinds::FUNCTION {
        64 + note.min(3)
    } else {
        kind
    };
    numbers::entry_at(sorts, entry)
}

pub(crate) fn tail(sorts: &[u32], kind: usize) -> usize
    ensures { sorts.now ≡ sort_numbers → kind < 64 → result ≡ tail_of kind }
{
    numbers::entry_at(sorts, kind) / 128 % 128
}

pub(crate) fn close(sorts: &[u32], kind: usize) -> usize
    ensures { sorts.now ≡ sort_numbers → kind < 64 → result ≡ close_of kind }
{
    numbers::entry_at(sorts, kind) / 16384 % 128
}

// What leads a field, and 128 times its manner; right if the table is lent.
pub(crate) fn slot(slots: &[u16], kind: usize, field: usize) -> usize
    ensures { slots.now ≡ slot_numbers → kind < 64 → field < 8 → Slotted kind field result }
{
    if kind < 64 && field < 8 {
        numbers::short_at(slots, 8 * kind + field)
    } else {
        0
    }
}

// `,` if the last item is a hole.
fn gap(seen: usize) -> usize
    ensures { result ≡ cond (eqb seen 2) 68 0 }
{
    if seen == 2 { 68 } else { 0 }
}

// The same, unless a rest stands.
fn gap_rest(seen: usize, map: usize) -> usize
    ensures { result ≡ cond (eqb seen 2) (cond (eqb (map / 2 % 2) 0) 68 0) 0 }
{
    if map / 2 % 2 == 0 { gap(seen) } else { 0 }
}

// A word by its number; from 100 on it is chosen by the node's byte, its bit map, what was noted, and method form.
pub(crate) fn choose_by(own: usize, v: usize, method: usize) -> usize
    ensures { result ≡ chosen_word own (frame_in v).note (frame_in v).map (frame_in v).seen method }
{
    if own < 100 {
        return own;
    }
    let note = frame::note_in(v);
    let map = frame::map_in(v);
    let seen = frame::seen_in(v);
    match own {
        100 => note % 8,
        101 => 4 + note % 8,
        102 => 5 + note % 8,
        103 => 9 + note % 8,
        104 => 14 + note % 8,
        105 => 17 + map / 4 % 2,
        106 => 19 + map / 4 % 4,
        107 => 23 + map % 2,
        108 => 25 + seen % 4,
        109 => 27 + method % 2,
        110 => 29 + method % 2,
        111 => 31 + method % 2,
        112 => 33 + seen % 4,
        113 => 35 + (note % 8 + 2 * (map / 32 % 2)),
        114 => 40 + map / 16 % 2,
        115 => 40 + map / 2 % 2,
        116 => 42 + note / 8 % 4,
        117 => 42 + (note / 2 % 2 * 4 + note / 8 % 4),
        118 => gap(seen),
        119 => gap_rest(seen, map),
        _ => 0,
    }
}

// The same; most words are named.
pub(crate) fn choose(own: usize, v: usize, method: usize) -> usize
    ensures { result ≡ chosen_word own (frame_in v).note (frame_in v).map (frame_in v).seen method }
{
    if own < 100 {
        return own;
    }
    choose_by(own, v, method)
}
