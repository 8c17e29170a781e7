// The drawn tree, written while it is drawn.
ghost use Rattle.std.specs.Prelude.{◌≡◌, ◌-◌, nat_le};
ghost use Rattle.tree.specs.Rows.{field_of, fields_in_of, sort_of};
ghost use Rattle.tree.specs.Tree.Piece.{list};
ghost use Rattle.drawing.specs.Draw.{mapped, ends, kind_at, state_at, stands_at_of, settled_state, draw_text, draw_byte, draw_mark, draw_number, draw_list, draw_field, draw_fields, draw_node};
ghost use Rattle.drawing.specs.Pen.{page, drew_node, drew_piece, drew_fields};

use crate::pen::Pen;
use crate::{kinds, pen};
use tree::grammar;

// Lists are empty, optional fields absent and nodes the shortest: from depth 12 on, where at most one level is below the next
// node, and once all nodes are begun.
fn ended(left: usize, more: usize) -> bool
    ensures { result ≡ ends (nat_le left 1) more }
{
    left <= 1 || more == 0
}

// A kind, and the state after it.
#[derive(Clone, Copy)]
struct Choice {
    pub kind: u8,
    pub state: u32,
}

fn choose(place: usize, left: usize, state: u32, more: usize) -> Choice
    ensures { (result.kind ≡ kind_at (nat_le left 1) place state more) × (result.state ≡ state_at (nat_le left 1) place state more) }
{
    let n = kinds::count(place);
    if n < 2 {
        let kind = kinds::kind(place, 0);
        return Choice { kind, state };
    }
    if ended(left, more) {
        let kind = kinds::shortest_kind(place);
        return Choice { kind, state };
    }
    let state = crate::advanced(state);
    let kind = kinds::kind(place, state as usize % n);
    Choice { kind, state }
}

// A text of one byte.
fn text(out: &mut [u8], g: Pen) -> Pen
    ensures { page out.new result ≡ drew_piece out.old g.at (draw_text g.state g.more g.mark) }
{
    let state = crate::advanced(g.state);
    let letter = pen::put_wide(out, g.at, 1);
    let at = pen::put(out, letter, (97 + state % 26) as u8);
    Pen {
        state,
        at,
        value: 0,
        ..g
    }
}

// A byte from low on; a lone value is not drawn.
fn byte(out: &mut [u8], low: u8, high: u8, g: Pen) -> Pen
    ensures { page out.new result ≡ drew_piece out.old g.at (draw_byte low high g.state g.more g.mark) }
{
    if high <= low {
        let at = pen::put(out, g.at, low);
        return Pen {
            at,
            value: low,
            ..g
        };
    }
    let state = crate::advanced(g.state);
    let value = (low as usize + state as usize % ((high - low) as usize + 1)) as u8;
    let at = pen::put(out, g.at, value);
    Pen {
        state,
        at,
        value,
        ..g
    }
}

fn mark(out: &mut [u8], g: Pen) -> Pen
    ensures { page out.new result ≡ drew_piece out.old g.at (draw_mark g.state g.more g.mark) }
{
    let at = pen::put_wide(out, g.at, g.mark);
    Pen {
        mark: g.mark.wrapping_add(1),
        at,
        value: 0,
        ..g
    }
}

fn number(out: &mut [u8], g: Pen) -> Pen
    ensures { page out.new result ≡ drew_piece out.old g.at (draw_number g.state g.more g.mark) }
{
    let state = crate::advanced(g.state);
    let at = pen::put_wide(out, g.at, (state % 65536) as u16);
    Pen {
        state,
        at,
        value: 0,
        ..g
    }
}

// A node at a place, with `left` levels for it and what is below it.
#[cycle(drawing)]
pub(crate) fn node(out: &mut [u8], place: usize, left: usize, g: Pen) -> Pen
    ensures { page out.new result ≡ drew_node out.old g.at (draw_node left place g.state g.more g.mark) }
{
    if left == 0 {
        let at = pen::put_wide(out, g.at, 0);
        return Pen { at, value: 0, ..g };
    }
    let c = choose(place, left - 1, g.state, g.more);
    let form = grammar::form_at(place, c.kind as usize);
    let row = grammar::row(form);
    let map = pen::put(out, g.at, c.kind);
    let at = pen::put(out, map, 0);
    let h = fields(
        out,
        row,
        left - 1,
        Pen {
            state: c.state,
            more: g.more.saturating_sub(1),
            at,
            value: 0,
            ..g
        },
    );
    pen::put(out, map, h.value);
    Pen { value: 0, ..h }
}

// Whether a field stands, and the state after that is settled.
#[derive(Clone, Copy)]
struct Settled {
    pub stands: bool,
    pub state: u32,
}

fn settle(digit: usize, left: usize, state: u32, more: usize) -> Settled
    ensures { (result.stands ≡ stands_at_of (nat_le left 1) (field_of digit) state more) × (result.state ≡ settled_state (nat_le left 1) (field_of digit) state more) }
{
    if digit / 512 == 0 {
        return Settled {
            stands: true,
            state,
        };
    }
    if ended(left, more) {
        return Settled {
            stands: false,
            state,
        };
    }
    let state = crate::advanced(state);
    Settled {
        stands: state % 2 == 1,
        state,
    }
}

// The fields of a row, which hand on their bit map.
#[cycle(drawing)]
fn fields(out: &mut [u8], row: usize, left: usize, g: Pen) -> Pen
    ensures { page out.new result ≡ drew_fields out.old g.at (draw_fields (draw_node left) (nat_le left 1) (fields_in_of row) g.value g.state g.more g.mark) }
{
    if row == 0 {
        return Pen { value: 0, ..g };
    }
    let t = settle(row % 1024, left, g.state, g.more);
    let state = t.state;
    if t.stands {
        let h = slot(out, row % 512, left, Pen { state, ..g });
        let i = fields(out, row / 1024, left, h);
        return Pen {
            value: 1 + 2 * (i.value % 128),
            ..i
        };
    }
    let i = fields(
        out,
        row / 1024,
        left,
        Pen {
            state,
            value: 0,
            ..g
        },
    );
    Pen {
        value: 2 * (i.value % 128),
        ..i
    }
}

// A field by its code.
#[cycle(drawing)]
fn slot(out: &mut [u8], code: usize, left: usize, g: Pen) -> Pen
    ensures { page out.new result ≡ drew_piece out.old g.at (draw_field (draw_node left) (nat_le left 1) g.value (sort_of code) g.state g.more g.mark) }
{
    let class = code / 32;
    let a = code % 32;
    match class {
        1 => node(out, a, left, g),
        2 => {
            if g.value == 1 {
                node(out, a, left, g)
            } else {
                node(out, a + 1, left, g)
            }
        }
        3 => items(out, a, left, g),
        4 => items(out, a, left, g),
        5 => text(out, g),
        6 => mark(out, g),
        7 => byte(out, 0, a as u8, g),
        8 => byte(out, 1, a as u8, g),
        9 => byte(out, 2, a as u8, g),
        _ => number(out, g),
    }
}

// A list.
#[cycle(drawing)]
fn items(out: &mut [u8], place: usize, left: usize, g: Pen) -> Pen
    ensures { page out.new result ≡ drew_piece out.old g.at (mapped list (draw_list (draw_node left place) (nat_le left 1) g.state g.more g.mark)) }
{
    if ended(left, g.more) {
        let at = pen::put_wide(out, g.at, 0);
        return Pen { at, value: 0, ..g };
    }
    let state = crate::advanced(g.state);
    let n = state % 4;
    let at = pen::put_wide(out, g.at, n as u16);
    let mut h = Pen {
        state,
        at,
        value: 0,
        ..g
    };
    for _ in 0..n {
        h = node(out, place, left, h);
    }
    h
}
