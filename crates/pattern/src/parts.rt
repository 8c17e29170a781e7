// Parts of a node by the number of their field. Everything is total: past the levels and past the end there is nothing.
ghost use Rattle.std.specs.Prelude.{◌≡◌};
ghost use Rattle.tree.specs.Rows.{fields_in_of, sort_of};
ghost use Rattle.tree.specs.Look.{look_node};
ghost use Rattle.lowering.specs.Parts.{stands};
ghost use Rattle.pattern.specs.Parts.{part_values, field_values, sort_at, text_of, part_of, part_at, place_of, run_of, item_place};

use tree::{bytes, grammar, kinds, skip};

// A node's position with the levels for it. Where there is no node there are no levels: no Option, since what is asked of a
// place is answered without levels too.
#[derive(Clone, Copy)]
pub struct Place {
    pub left: usize,
    pub at: usize,
}

// A list of nodes: whether it may have holes, how many items it has, where the first one starts.
#[derive(Clone, Copy)]
pub struct Run {
    pub holes: bool,
    pub count: usize,
    pub from: usize,
}

// What a field holds.
#[derive(Clone, Copy)]
pub enum Part {
    One(usize),
    Many(Run),
    Text { from: usize, len: usize },
    Number,
}

// The code of field i in a row.
fn code_at(row: usize, i: usize) -> usize
    ensures { sort_of result ≡ sort_at (fields_in_of row) i }
{
    let mut r = row;
    for _ in 0..i {
        r /= 1024;
    }
    r % 512
}

// What a field of a code holds at a position.
fn held(tree: &[u8], code: usize, at: usize) -> Part
    ensures { part_values result ≡ part_of tree.now (sort_of code) at }
{
    let class = code / 32;
    match class {
        1 => Part::One(at),
        2 => Part::One(at),
        3 => Part::Many(Run {
            holes: false,
            count: bytes::wide_at(tree, at),
            from: skip::step(tree, at, 2),
        }),
        4 => Part::Many(Run {
            holes: true,
            count: bytes::wide_at(tree, at),
            from: skip::step(tree, at, 2),
        }),
        5 => text(tree, at),
        _ => Part::Number,
    }
}

// The text at a position, where its bytes end at the latest with the tree.
pub(crate) fn text(tree: &[u8], at: usize) -> Part
    ensures { part_values result ≡ text_of tree.now at }
{
    let from = skip::step(tree, at, 2);
    let to = skip::step(tree, at, 2 + bytes::wide_at(tree, at));
    Part::Text {
        from,
        len: to - from,
    }
}

// Field i of the node at a position, if it stands.
pub(crate) fn field(tree: &[u8], left: usize, at: usize, i: usize) -> Option<Part>
    ensures { field_values result ≡ part_at tree.now left at i }
{
    if left == 0 {
        return None;
    }
    let row = grammar::row(bytes::peek(tree, at));
    let map = bytes::peek(tree, skip::step(tree, at, 1));
    let first = skip::step(tree, at, 2);
    if i == 0 {
        if row == 0 || map % 2 == 0 {
            return None;
        }
        return Some(held(tree, row % 512, first));
    }
    let q = skip::seek(tree, row, map, i, left - 1, first)?;
    Some(held(tree, code_at(row, i), q))
}

// The node in field i of the node at a position.
pub fn child(tree: &[u8], left: usize, at: usize, i: usize) -> Place
    ensures { result ≡ place_of left at (part_at tree.now left at i) }
{
    match field(tree, left, at, i) {
        Some(Part::One(q)) => Place {
            left: left - 1,
            at: q,
        },
        _ => Place { left: 0, at },
    }
}

// The key of the property at a position.
pub(crate) fn key(tree: &[u8], left: usize, at: usize) -> Place
    ensures { result ≡ place_of left at (part_at tree.now left at 0) }
{
    if 0 < left
        && bytes::peek(tree, at) == kinds::PATTERN_PROPERTY
        && bytes::peek(tree, skip::step(tree, at, 1)) % 2 == 1
    {
        return Place {
            left: left - 1,
            at: skip::step(tree, at, 2),
        };
    }
    child(tree, left, at, 0)
}

// The value of the property at a position.
pub fn value(tree: &[u8], left: usize, at: usize) -> Place
    ensures { result ≡ place_of left at (part_at tree.now left at 1) }
{
    if 0 < left
        && bytes::peek(tree, at) == kinds::PATTERN_PROPERTY
        && bytes::peek(tree, skip::step(tree, at, 1)) % 4 == 3
    {
        return Place {
            left: left - 1,
            at: skip::skip(tree, left - 1, skip::step(tree, at, 2)),
        };
    }
    child(tree, left, at, 1)
}

// The list in field i of the node at a position.
pub fn list(tree: &[u8], left: usize, at: usize, i: usize) -> Run
    ensures { result ≡ run_of at (part_at tree.now left at i) }
{
    match field(tree, left, at, i) {
        Some(Part::Many(run)) => run,
        _ => Run {
            holes: false,
            count: 0,
            from: at,
        },
    }
}

// Whether field i of the node at a position stands. It is read off the bit map.
pub fn stands(tree: &[u8], left: usize, at: usize, i: usize) -> bool
    ensures { result ≡ stands i (look_node tree.now left at).value }
{
    if left == 0 {
        return false;
    }
    let mut r = grammar::row(bytes::peek(tree, at));
    let mut m = bytes::peek(tree, skip::step(tree, at, 1));
    for _ in 0..i {
        r /= 1024;
        m /= 2;
    }
    r != 0 && m % 2 == 1
}

// An item of a list. A hole has no node.
pub fn item(tree: &[u8], holes: bool, left: usize, at: usize) -> Place
    ensures { result ≡ item_place tree.now holes left at }
{
    if holes && bytes::peek(tree, at) == 0 {
        return Place { left: 0, at };
    }
    Place { left, at }
}
