// What the pass over the entries has at hand, and the text of a node's begin and end.
ghost use Rattle.std.specs.Prelude.{◌≡◌, List, [], ◌∷◌, ◌++◌, true, cond, ℕ, ◌<◌, get_or, set};
ghost use Rattle.printer.specs.Layout.{word, head_of, lead_of};
ghost use Rattle.printer.specs.Places.{field_in, manner_in, is_statement, in_method_form, wrapping, leading, joining, Plain, begun, opening, closing, around, is_filled, leaves};
ghost use Rattle.printer.specs.Text.{cell_text, left_over_of};
ghost use Rattle.printer.specs.Machine.{cell_at, cells_from, step_over, next_around};
ghost use Rattle.printer.specs.Rows.{sort_numbers, word_numbers};
ghost use Rattle.printer.specs.Stacks.{frame_in, next_in, packed_frame, text_at_of, held_in, write, buffer_in};
ghost use Rattle.printer.specs.Entries.{is_leaf_of};
ghost use Rattle.printer.specs.Turns.{start_of, counted};

use crate::{frame, layout, numbers, out, places};
use tree::bytes;

// The innermost frame with its next quasi, packed; how many frames are open around it; how many quasis are held; how much is
// written.
#[derive(Clone, Copy)]
pub(crate) struct State {
    pub top: usize,
    pub level: usize,
    pub count: usize,
    pub spot: usize,
}

// Where the quasi with this place stands, if one does: its position is kept as one more, and a stop as 0.
fn start_of(starts: &[u16], count: usize, next: usize) -> Option<usize>
    ensures { counted result ≡ start_of starts.now count next }
{
    if next == 0 || count < next {
        return None;
    }
    numbers::short_at(starts, next - 1).checked_sub(1)
}

// The text whose length stands at a position.
fn text_at(tree: &[u8], at: usize, text: &mut [u8], spot: usize) -> usize
    ensures { at < 65536 → buffer_in text.new result ≡ write (buffer_in text.old spot) (text_at_of tree.now at) }
{
    let p = at % 65536;
    out::copy(tree, p + 2, bytes::wide_at(tree, p), text, spot)
}

// The next quasi.
fn quasi(
    tree: &[u8],
    starts: &[u16],
    text: &mut [u8],
    spot: usize,
    count: usize,
    next: usize,
) -> usize
    ensures { buffer_in text.new result ≡ write (buffer_in text.old spot) (cell_text (cell_at (held_in tree.now starts.now count) next)) }
{
    match start_of(starts, count, next) {
        Some(at) => text_at(tree, at, text, spot),
        None => spot,
    }
}

// The next quasi, in a list of expressions.
fn quasi_in(
    tree: &[u8],
    starts: &[u16],
    text: &mut [u8],
    spot: usize,
    p: usize,
    m: usize,
    count: usize,
) -> usize
    ensures { m ≡ manner_in (frame_in p) → buffer_in text.new result ≡ write (buffer_in text.old spot) (cond (is_filled (frame_in p)) (cell_text (cell_at (held_in tree.now starts.now count) (next_in p))) []) }
{
    if places::is_filled(p, m) {
        return quasi(tree, starts, text, spot, count, frame::next_in(p));
    }
    spot
}

fn step_over(starts: &[u16], count: usize, next: usize) -> usize
    ensures { ((tree : List ℕ) → count < 65536 → result ≡ step_over (cell_at (held_in tree starts.now count) next) next) × (count < 65536 → next < 16777216 → result < 16777216) }
{
    if start_of(starts, count, next).is_none() {
        return next;
    }
    if count < 65536 && next <= count {
        next + 1
    } else {
        next
    }
}

// The parent after a child, with the quasi that is next then.
pub(crate) fn around(starts: &[u16], p: usize, m: usize, method: usize, count: usize) -> usize
    ensures { (tree : List ℕ) (kind map : ℕ) → m ≡ manner_in (frame_in p) → method ≡ in_method_form (frame_in p) kind map → count < 65536 → result ≡ packed_frame (around (frame_in p) kind map) (next_around (frame_in p) (held_in tree starts.now count) (next_in p)) }
{
    let v = places::around(p, method);
    if places::is_filled(p, m) {
        return frame::with_next(v, step_over(starts, count, frame::next_in(p)));
    }
    v
}

// All quasis that are left.
fn left_over(
    tree: &[u8],
    starts: &[u16],
    text: &mut [u8],
    spot: usize,
    count: usize,
    next: usize,
) -> usize
    ensures { buffer_in text.new result ≡ write (buffer_in text.old spot) (left_over_of (cells_from (held_in tree.now starts.now count) next)) }
{
    if next == 0 {
        return spot;
    }
    let mut s = spot;
    for i in next - 1..count {
        let start = numbers::short_at(starts, i);
        if start == 0 {
            return s;
        }
        s = text_at(tree, start - 1, text, s);
    }
    s
}

pub(crate) fn left_in(
    tree: &[u8],
    starts: &[u16],
    text: &mut [u8],
    spot: usize,
    l: usize,
    m: usize,
    count: usize,
) -> usize
    ensures { m ≡ manner_in (frame_in l) → buffer_in text.new result ≡ write (buffer_in text.old spot) (cond (leaves (frame_in l)) (left_over_of (cells_from (held_in tree.now starts.now count) (next_in l))) []) }
{
    if places::leaves(l, m) {
        return left_over(tree, starts, text, spot, count, frame::next_in(l));
    }
    spot
}

// The next quasi and what joins a child, which stand at three manners.
fn joint(
    words: &[usize],
    tree: &[u8],
    starts: &[u16],
    text: &mut [u8],
    spot: usize,
    p: usize,
    count: usize,
    kind: usize,
    m: usize,
    statement: bool,
) -> usize
    ensures { words.now ≡ word_numbers → (note : ℕ) → m ≡ manner_in (frame_in p) → statement ≡ is_statement kind note → buffer_in text.new result ≡ write (buffer_in text.old spot) (cond (is_filled (frame_in p)) (cell_text (cell_at (held_in tree.now starts.now count) (next_in p))) [] ++ word (joining (frame_in p) kind note)) }
{
    if 5 < m && m < 9 {
        let a = quasi_in(tree, starts, text, spot, p, m, count);
        return out::say_any(words, text, a, places::joining(m, kind, statement));
    }
    spot
}

// A bracket, if it stands there.
fn bracket(text: &mut [u8], spot: usize, stands: bool, b: u8) -> usize
    ensures { buffer_in text.new result ≡ write (buffer_in text.old spot) (cond stands (b ∷ []) []) }
{
    if stands {
        return out::put(text, spot, b);
    }
    spot
}

// What stands before a child that is not in method form; m is the manner of its field, and own what leads that.
fn lead(words: &[usize], text: &mut [u8], spot: usize, p: usize, m: usize, own: usize) -> usize
    ensures { words.now ≡ word_numbers → (kind map : ℕ) → m ≡ manner_in (frame_in p) → own ≡ lead_of (frame_in p).kind (field_in (frame_in p)) → 0 ≡ in_method_form (frame_in p) kind map → buffer_in text.new result ≡ write (buffer_in text.old spot) (word (leading (frame_in p) kind map)) }
{
    if frame::list_in(p) == 1 {
        if places::is_parted(p, m) {
            let a = out::put(text, spot, 44);
            return out::put(text, a, 32);
        }
        return spot;
    }
    out::say_any(words, text, spot, layout::choose(own, p, 0))
}

// What stands before a node's fields, with its frame f and what is known of its place p: the manner of the field, what leads
// that, method form, whether the node is a statement and in parentheses, and its head.
pub(crate) fn opening(
    words: &[usize],
    tree: &[u8],
    starts: &[u16],
    text: &mut [u8],
    spot: usize,
    p: usize,
    count: usize,
    f: usize,
    m: usize,
    own: usize,
    method: usize,
    statement: bool,
    wrapped: bool,
    head: usize,
) -> usize
    ensures { words.now ≡ word_numbers → (kind map note : ℕ) → m ≡ manner_in (frame_in p) → own ≡ lead_of (frame_in p).kind (field_in (frame_in p)) → method ≡ in_method_form (frame_in p) kind map → statement ≡ is_statement kind note → cond wrapped 1 0 ≡ wrapping (frame_in p) kind map note → head ≡ head_of kind → frame_in f ≡ begun (frame_in p) kind map note → buffer_in text.new result ≡ write (buffer_in text.old spot) (opening (frame_in p) kind map note (cond (is_filled (frame_in p)) (cell_text (cell_at (held_in tree.now starts.now count) (next_in p))) [])) }
{
    let a = out::say_any(words, text, spot, places::leading(p, m, own, method));
    let c = joint(
        words,
        tree,
        starts,
        text,
        a,
        p,
        count,
        frame::kind_in(f),
        m,
        statement,
    );
    let d = bracket(text, c, wrapped, 40);
    let e = out::say_any(words, text, d, layout::choose(head, f, method));
    bracket(
        text,
        e,
        places::is_computed(frame::kind_in(f), frame::note_in(f)),
        91,
    )
}

// The same at a plain place. A way of its own, and the next one too: what nodes and names share took longer (docs/SPEED-STEPS.md).
pub(crate) fn plain_opening(
    words: &[usize],
    text: &mut [u8],
    spot: usize,
    p: usize,
    f: usize,
    m: usize,
    own: usize,
    wrapped: bool,
    head: usize,
) -> usize
    ensures { words.now ≡ word_numbers → (kind map note : ℕ) (quasi : List ℕ) → Plain m kind → m ≡ manner_in (frame_in p) → own ≡ lead_of (frame_in p).kind (field_in (frame_in p)) → cond wrapped 1 0 ≡ wrapping (frame_in p) kind map note → head ≡ head_of kind → frame_in f ≡ begun (frame_in p) kind map note → buffer_in text.new result ≡ write (buffer_in text.old spot) (opening (frame_in p) kind map note (cond (is_filled (frame_in p)) quasi [])) }
{
    let a = lead(words, text, spot, p, m, own);
    let b = bracket(text, a, wrapped, 40);
    let c = out::say_any(words, text, b, layout::choose(head, f, 0));
    bracket(
        text,
        c,
        places::is_computed(frame::kind_in(f), frame::note_in(f)),
        91,
    )
}

// The same of a leaf, which has no words of its own.
pub(crate) fn leaf_opening(
    words: &[usize],
    tree: &[u8],
    starts: &[u16],
    text: &mut [u8],
    spot: usize,
    p: usize,
    count: usize,
    m: usize,
    own: usize,
) -> usize
    ensures { words.now ≡ word_numbers → (kind map note : ℕ) → m ≡ manner_in (frame_in p) → own ≡ lead_of (frame_in p).kind (field_in (frame_in p)) → is_leaf_of kind ≡ true → buffer_in text.new result ≡ write (buffer_in text.old spot) (opening (frame_in p) kind map note (cond (is_filled (frame_in p)) (cell_text (cell_at (held_in tree.now starts.now count) (next_in p))) [])) }
{
    let a = lead(words, text, spot, p, m, own);
    joint(words, tree, starts, text, a, p, count, 18, m, false)
}

pub(crate) fn closing(
    sorts: &[u32],
    words: &[usize],
    text: &mut [u8],
    spot: usize,
    f: usize,
) -> usize
    ensures { sorts.now ≡ sort_numbers → words.now ≡ word_numbers → buffer_in text.new result ≡ write (buffer_in text.old spot) (closing (frame_in f)) }
{
    let a = out::say_any(words, text, spot, places::tail_word(sorts, f));
    out::say_any(words, text, a, frame::how_in(f))
}
