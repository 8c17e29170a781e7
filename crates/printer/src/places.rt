// Where a node stands in its parent, and which words it prints by that.
ghost use Rattle.std.specs.Prelude.{◌≡◌, Bool, true, cond, ℕ, ◌/◌, ◌%◌, ◌≤◌};
ghost use Rattle.printer.specs.Layout.{chosen_word, tail_of, close_of, lead_of};
ghost use Rattle.printer.specs.Rows.{sort_numbers, slot_numbers, Sorted};
ghost use Rattle.printer.specs.Stacks.{frame_in, next_in, packed_frame};
ghost use Rattle.printer.specs.Places.{field_in, manner_in, is_statement, in_method_form, wrapping, separator, leading, joining, following, Plain, noted_at, computed, around, is_quasis, is_filled, leaves, trailing};
ghost use Rattle.printer.specs.declared.frame.Frame.{Frame};

use crate::layout::{
    CALLED, CAUGHT, CLOSED, DIRECTIVES, FILLED, HEADED, KEYED, LINES, LOOPED, PARTED, QUOTED,
    VALUED,
};
use crate::{frame, layout};
use tree::kinds;

// What leads the next field, and 128 times its manner; right if the table is lent.
pub(crate) fn slot_in(slots: &[u16], v: usize) -> usize
    ensures { slots.now ≡ slot_numbers → (result % 128 ≡ lead_of (frame_in v).kind (field_in (frame_in v))) × (result / 128 ≡ manner_in (frame_in v)) }
{
    layout::slot(slots, frame::kind_in(v), frame::field_in(v))
}

// A statement, by the entry of its kind.
pub(crate) fn is_statement(sort: usize) -> bool
    ensures { (kind note : ℕ) → Sorted kind note sort → result ≡ is_statement kind note }
{
    sort / 2097152 % 2 == 1
}

// 1 in method form, else 0; m is the manner. A number, since words are counted on from it.
#[tactic(auto, unfolding(crate::specs::Places::in_method_form))]
pub(crate) fn method(p: usize, m: usize, kind: usize, map: usize) -> usize
    ensures { m ≡ manner_in (frame_in p) → result ≡ in_method_form (frame_in p) kind map }
{
    if m == VALUED && kind == kinds::FUNCTION && map / 4 % 2 == 0 && 3 < frame::note_in(p) {
        1
    } else {
        0
    }
}

// In parentheses: an expression that is not a name or literal.
#[tactic(auto, unfolding(crate::specs::Places::wrapping))]
pub(crate) fn wraps(method: usize, sort: usize) -> bool
    ensures { (p : Frame) (kind map note : ℕ) → Sorted kind note sort → method ≡ in_method_form p kind map → cond result 1 0 ≡ wrapping p kind map note }
{
    method == 0 && sort / 4194304 % 2 == 1
}

// A comma and a blank part an item from the one before.
#[tactic(auto, unfolding(crate::specs::Places::separator))]
pub(crate) fn is_parted(p: usize, m: usize) -> bool
    ensures { m ≡ manner_in (frame_in p) → separator (frame_in p) ≡ cond result 70 0 }
{
    0 < frame::seen_in(p) && (m == CALLED || m == PARTED)
}

// What parts an item from the one before.
pub(crate) fn separator(p: usize, m: usize) -> usize
    ensures { m ≡ manner_in (frame_in p) → result ≡ separator (frame_in p) }
{
    if is_parted(p, m) { 70 } else { 0 }
}

// What stands before a child; own is what leads its field.
pub(crate) fn leading(p: usize, m: usize, own: usize, method: usize) -> usize
    ensures { (kind map : ℕ) → m ≡ manner_in (frame_in p) → own ≡ lead_of (frame_in p).kind (field_in (frame_in p)) → method ≡ in_method_form (frame_in p) kind map → result ≡ leading (frame_in p) kind map }
{
    if frame::list_in(p) == 1 {
        return separator(p, m);
    }
    layout::choose(own, p, method)
}

#[tactic(auto, unfolding(crate::specs::Places::joining))]
pub(crate) fn joining(m: usize, kind: usize, statement: bool) -> usize
    ensures { (p : ℕ) (note : ℕ) → m ≡ manner_in (frame_in p) → statement ≡ is_statement kind note → result ≡ joining (frame_in p) kind note }
{
    match m {
        FILLED => 74,
        CALLED => { if statement { 52 } else { 0 } }
        LOOPED => { if kind == kinds::BLOCK { 71 } else { 52 } }
        _ => 0,
    }
}

// What stands behind a child, but for the parenthesis.
#[tactic(auto, unfolding(crate::specs::Places::trailing))]
fn trail(p: usize, m: usize, statement: bool) -> usize
    ensures { (m ≡ manner_in (frame_in p) → result ≡ trailing (frame_in p) statement) × (result ≤ 62) }
{
    match m {
        LINES => 52,
        DIRECTIVES => 54,
        CAUGHT => 56,
        CLOSED => 58,
        KEYED => { if frame::note_in(p) % 2 == 0 { 50 } else { 60 } }
        FILLED => 62,
        CALLED => { if statement { 52 } else { 50 } }
        _ => 50,
    }
}

#[tactic(auto, unfolding(crate::specs::Places::following))]
pub(crate) fn following(p: usize, m: usize, statement: bool, wrapped: bool) -> usize
    ensures { ((kind map note : ℕ) → m ≡ manner_in (frame_in p) → statement ≡ is_statement kind note → cond wrapped 1 0 ≡ wrapping (frame_in p) kind map note → result ≡ following (frame_in p) kind map note) × (result ≤ 63) }
{
    let word = trail(p, m, statement);
    if wrapped { 1 + word } else { word }
}

// What stands behind a child at a plain place: the manner alone tells it.
fn plain_trail(m: usize) -> usize
    ensures { ((p kind : ℕ) (statement : Bool) → Plain m kind → m ≡ manner_in (frame_in p) → result ≡ trailing (frame_in p) statement) × (result ≤ 58) }
{
    if m < 5 {
        return 50 + 2 * m;
    }
    50
}

pub(crate) fn plain_following(m: usize, wrapped: bool) -> usize
    ensures { ((p kind map note : ℕ) → Plain m kind → m ≡ manner_in (frame_in p) → cond wrapped 1 0 ≡ wrapping (frame_in p) kind map note → result ≡ following (frame_in p) kind map note) × (result ≤ 63) }
{
    let word = plain_trail(m);
    if wrapped { 1 + word } else { word }
}

// Whether a node's place is plain.
pub(crate) fn is_plain(m: usize, kind: usize) -> bool
    ensures { result ≡ true → Plain m kind }
{
    kind != kinds::FUNCTION && (m < 5 || 10 < m)
}

#[tactic(auto, unfolding(crate::specs::Places::noted_at))]
pub(crate) fn noted_at(m: usize, kind: usize) -> usize
    ensures { ((p : ℕ) → m ≡ manner_in (frame_in p) → result ≡ noted_at (frame_in p) kind) × (result ≤ 2) }
{
    match m {
        HEADED => { if kind == kinds::DECLARATION { 1 } else { 0 } }
        QUOTED => 2,
        _ => 0,
    }
}

// A computed key.
#[tactic(auto, unfolding(crate::specs::Places::computed))]
pub(crate) fn is_computed(kind: usize, note: usize) -> bool
    ensures { computed kind note ≡ cond result 67 0 }
{
    note % 2 == 1
        && (kind == kinds::PROPERTY
            || kind == kinds::PATTERN_PROPERTY
            || kind == kinds::CLASS_MEMBER)
}

pub(crate) fn tail_word(sorts: &[u32], f: usize) -> usize
    ensures { sorts.now ≡ sort_numbers → result ≡ chosen_word (tail_of (frame_in f).kind) (frame_in f).note (frame_in f).map (frame_in f).seen 0 }
{
    layout::choose(layout::tail(sorts, frame::kind_in(f)), f, 0)
}

pub(crate) fn close_word(sorts: &[u32], f: usize) -> usize
    ensures { sorts.now ≡ sort_numbers → result ≡ chosen_word (close_of (frame_in f).kind) (frame_in f).note (frame_in f).map (frame_in f).seen 0 }
{
    layout::choose(layout::close(sorts, frame::kind_in(f)), f, 0)
}

// The parent after a child.
#[tactic(auto, unfolding(crate::specs::Places::around, crate::specs::Places::past))]
pub(crate) fn around(p: usize, method: usize) -> usize
    ensures { (kind map : ℕ) → method ≡ in_method_form (frame_in p) kind map → result ≡ packed_frame (around (frame_in p) kind map) (next_in p) }
{
    if frame::list_in(p) == 1 {
        return frame::item_seen_in(p, 1);
    }
    if method == 1 {
        return frame::noting_in(p, 1);
    }
    frame::past_in(p)
}

#[tactic(auto, unfolding(crate::specs::Places::is_quasis))]
pub(crate) fn is_quasis(m: usize) -> bool
    ensures { (l : ℕ) → m ≡ manner_in (frame_in l) → result ≡ is_quasis (frame_in l) }
{
    m == QUOTED
}

#[tactic(auto, unfolding(crate::specs::Places::is_filled))]
pub(crate) fn is_filled(l: usize, m: usize) -> bool
    ensures { m ≡ manner_in (frame_in l) → result ≡ is_filled (frame_in l) }
{
    m == FILLED && frame::list_in(l) == 1
}

#[tactic(auto, unfolding(crate::specs::Places::leaves))]
pub(crate) fn leaves(l: usize, m: usize) -> bool
    ensures { m ≡ manner_in (frame_in l) → result ≡ leaves (frame_in l) }
{
    m == FILLED || m == QUOTED && frame::map_in(l) / 2 % 2 == 0
}
