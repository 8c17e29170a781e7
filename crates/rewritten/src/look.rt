// What stands next in the innermost task, as one number and no enum: a step that went through memory took four times as long
// (docs/DECISIONS-PROOFS.md, "What stands next is a number"). Its last four binary digits are a code, 0 where nothing that
// may stand there does. Above them is the frame of a node or a list without its last digit, a text's length, or the byte,
// mark or number.
ghost use Rattle.std.specs.Prelude.{◌≡◌, false, ℕ, ◌*◌, ◌/◌, ◌%◌, ◌+◌, ◌-◌, ◌≤◌};
ghost use Rattle.tree.specs.Grammar.{Sort};
ghost use Rattle.rewritten.specs.Steps.{coming_at, coming_fields, coming_items, coming_node, coming_piece, list_sort};
ghost use Rattle.rewritten.specs.Look.{Ahead, Coded, is_closed, rest_of, end_for};

use crate::{class, plan};
use tree::{bytes, grammar, read};

// The codes of what was found.
pub const NODE: usize = 1;

pub const LIST: usize = 2;

pub const TEXT: usize = 3;

pub const MARK: usize = 4;

pub const BYTE: usize = 5;

pub const NUMBER: usize = 6;

pub const HOLE: usize = 7;

// A node that may stand at the place.
fn node(tree: &[u8], place: usize, at: usize) -> usize
    ensures { (rest : ℕ) → Ahead tree.now at rest (λ frames deep. coming_node tree.now frames place at deep rest) result }
{
    let kind = bytes::peek(tree, at);
    let form = plan::form_at(place, kind);
    if form == 0 {
        return 0;
    }
    let map = bytes::peek(tree, at + 1);
    let row = grammar::row(form);
    if grammar::fits(form, map) {
        NODE + 16 * plan::plan(row, map)
    } else {
        0
    }
}

// A list whose items may stand at the place.
pub fn list(tree: &[u8], place: usize, holes: bool, at: usize) -> usize
    ensures { ((rest : ℕ) → Ahead tree.now at rest (λ frames deep. coming_piece tree.now frames (list_sort holes (place % 32)) at deep rest) result) × Coded 2 result }
{
    let n = bytes::wide_at(tree, at);
    if 65535 < n {
        return 0;
    }
    LIST + 16 * (64 * n + place % 32 * 2 + usize::from(holes))
}

pub fn text(tree: &[u8], at: usize) -> usize
    ensures { ((rest : ℕ) → Ahead tree.now at rest (λ frames deep. coming_piece tree.now frames Sort.text at deep rest) result) × Coded 3 result }
{
    let n = bytes::wide_at(tree, at);
    if 65535 < n {
        return 0;
    }
    if n <= tree.len() - (at + 2) {
        TEXT + 16 * n
    } else {
        0
    }
}

pub fn mark(tree: &[u8], at: usize) -> usize
    ensures { ((rest : ℕ) → Ahead tree.now at rest (λ frames deep. coming_piece tree.now frames Sort.mark at deep rest) result) × Coded 4 result }
{
    let n = bytes::wide_at(tree, at);
    if n < 65536 { MARK + 16 * n } else { 0 }
}

pub fn byte(tree: &[u8], low: usize, high: usize, at: usize) -> usize
    ensures { ((rest : ℕ) → Ahead tree.now at rest (λ frames deep. coming_piece tree.now frames (Sort.byte low high) at deep rest) result) × Coded 5 result }
{
    let b = bytes::peek(tree, at);
    if b < 256 && low <= b && b <= high {
        BYTE + 16 * b
    } else {
        0
    }
}

pub fn number(tree: &[u8], at: usize) -> usize
    ensures { ((rest : ℕ) → Ahead tree.now at rest (λ frames deep. coming_piece tree.now frames Sort.number at deep rest) result) × Coded 6 result }
{
    let n = bytes::wide_at(tree, at);
    if n < 65536 { NUMBER + 16 * n } else { 0 }
}

// The next field of a node.
fn field(tree: &[u8], at: usize, row: usize) -> usize
    ensures { (row ≡ 0 → ⊥) → Ahead tree.now at (row / 1024 * 2) (λ frames deep. coming_fields tree.now frames at deep row) result }
{
    let code = row % 512;
    let a = code % 32;
    match code / 32 {
        class::NODE => node(tree, a, at),
        class::CHOSEN => node(tree, read::choose(tree, a, a + 1, at), at),
        class::LIST => list(tree, a, false, at),
        class::GAPS => list(tree, a, true, at),
        class::TEXT => text(tree, at),
        class::MARK => mark(tree, at),
        class::BYTE => byte(tree, 0, a, at),
        class::BYTE_FROM_1 => byte(tree, 1, a, at),
        class::BYTE_FROM_2 => byte(tree, 2, a, at),
        _ => number(tree, at),
    }
}

// The next item of a list.
fn item(tree: &[u8], at: usize, w: usize) -> usize
    ensures { 64 ≤ w → Ahead tree.now at ((w - 64) * 2 + 1) (λ frames deep. coming_items tree.now frames at deep w) result }
{
    if w % 2 == 1 && bytes::peek(tree, at) == 0 {
        HOLE
    } else {
        node(tree, w / 2 % 32, at)
    }
}

// What stands next in a task that is not done.
pub fn look(tree: &[u8], at: usize, top: usize) -> usize
    ensures { is_closed top ≡ false → Ahead tree.now at (rest_of top) (λ frames deep. coming_at tree.now frames at deep top) result }
{
    if top % 2 == 0 {
        field(tree, at, top / 2)
    } else {
        item(tree, at, top / 2)
    }
}

// Nothing is left of a task.
pub fn is_closed(top: usize) -> bool
    ensures { result ≡ is_closed top }
{
    top < 128 && (top % 2 == 1 || top == 0)
}

// What is left of a task after its next field or item.
pub fn rest_of(top: usize) -> usize
    ensures { result ≡ rest_of top }
{
    let w = top / 2;
    if top % 2 == 0 {
        w / 1024 * 2
    } else {
        w.saturating_sub(64) * 2 + 1
    }
}

// How many bytes there are of what was found, those of a node or a list before its fields or items.
pub(crate) fn size_of(what: usize) -> usize
    ensures { (at : ℕ) → at + result ≡ end_for at (what % 16) (what / 16) }
{
    match what % 16 {
        NODE | LIST | MARK | NUMBER => 2,
        TEXT => 2 + what / 16,
        _ => 1,
    }
}
