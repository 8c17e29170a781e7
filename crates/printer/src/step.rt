// One entry of the pass. Tables, arrays and text are handed over one by one: structs of them go through memory, which took longer.
ghost use Rattle.std.specs.Prelude.{◌≡◌, List, [], ◌∷◌, cond, ℕ, ◌<◌, ◌+◌, ◌-◌, ◌/◌, ◌%◌, length};
ghost use Rattle.printer.specs.Layout.{lead_of};
ghost use Rattle.printer.specs.Places.{field_in, manner_in, Plain, is_quasis, is_quasi, number_bytes};
ghost use Rattle.printer.specs.Text as cells;
ghost use Rattle.printer.specs.Entries as entries;
ghost use Rattle.printer.specs.Machine as machine;
ghost use Rattle.printer.specs.Rows.{sort_numbers, slot_numbers, word_numbers, Sorted};
ghost use Rattle.printer.specs.Stacks.{frame_in, next_in, packed_frame, text_at_of, cell_in_of, write, buffer_in};
ghost use Rattle.printer.specs.Logged.{entries_in, leaf_in, deep_by};
ghost use Rattle.printer.specs.Turns.{state_in, moved, Ready, count_by, Kept, Turned};

use crate::print::State;
use crate::{entries, frame, layout, numbers, out, places, print, texts};
use tree::{bytes, kinds};

// Another frame, and more is written.
fn moved(s: State, top: usize, spot: usize) -> State
    ensures { result ≡ moved s top spot }
{
    State { top, spot, ..s }
}

// One more is held: a quasi by its position from 1 on, or 0, a stop; two bytes each, in fixed memory.
fn hold(starts: &mut [u16], count: usize, start: usize) -> usize
    ensures { start < 65536 → count < length starts.old → (tree : List ℕ) → Kept tree starts.old starts.new count result (cell_in_of tree start ∷ []) }
{
    if count < starts.len() {
        starts[count] = (start % 65536) as u16;
        return count + 1;
    }
    count
}

// Behind the quasis of a Template a stop is held.
fn hold_stop(starts: &mut [u16], m: usize, count: usize) -> usize
    ensures { (l : ℕ) → m ≡ manner_in (frame_in l) → count < length starts.old → (tree : List ℕ) → Kept tree starts.old starts.new count result (cond (is_quasis (frame_in l)) (cells.Cell.stop ∷ []) []) }
{
    if places::is_quasis(m) {
        return hold(starts, count, 0);
    }
    count
}

// A quasi's spelling is held.
fn hold_text(starts: &mut [u16], f: usize, count: usize, p: usize) -> usize
    ensures { p < 65535 → count < length starts.old → (tree : List ℕ) → Kept tree starts.old starts.new count result (cond (is_quasi (frame_in f)) (cells.Cell.quasi (text_at_of tree p) ∷ []) []) }
{
    if texts::is_quasi(f) {
        return hold(starts, count, p % 65535 + 1);
    }
    count
}

// A node that begins at a plain place, with the manner of its field, what leads that, and the entry of its kind.
fn plain(
    words: &[usize],
    stack: &mut [usize],
    text: &mut [u8],
    s: State,
    kind: usize,
    map: usize,
    note: usize,
    m: usize,
    own: usize,
    sort: usize,
) -> State
    ensures { words.now ≡ word_numbers → (tree starts : List ℕ) → Plain m kind → m ≡ manner_in (frame_in s.top) → own ≡ lead_of (frame_in s.top).kind (field_in (frame_in s.top)) → Sorted kind note sort → s.count < 65536 → kind < 64 → map < 256 → note < 256 → s.level < length stack.old → Turned tree stack.new starts (buffer_in text.old s.spot) (buffer_in text.new result.spot) result (machine.print (state_in tree stack.old starts s) (entries.Entry.node kind map note)) (s.level + 1) s.count }
{
    let p = s.top;
    let level = s.level;
    let count = s.count;
    let old = s.spot;
    if level < stack.len() {
        numbers::keep(stack, level, places::around(p, 0));
        let wrapped = places::wraps(0, sort);
        let how = places::plain_following(m, wrapped);
        let f = frame::begun(kind, map, note, 0, how);
        let spot = print::plain_opening(words, text, old, p, f, m, own, wrapped, sort % 128);
        return State {
            top: f,
            level: level + 1,
            count,
            spot,
        };
    }
    s
}

fn begin(
    slots: &[u16],
    sorts: &[u32],
    words: &[usize],
    tree: &[u8],
    stack: &mut [usize],
    starts: &[u16],
    text: &mut [u8],
    s: State,
    kind: usize,
    map: usize,
    note: usize,
) -> State
    ensures { slots.now ≡ slot_numbers → sorts.now ≡ sort_numbers → words.now ≡ word_numbers → s.count < 65536 → kind < 64 → map < 256 → note < 256 → s.level < length stack.old → Turned tree.now stack.new starts.now (buffer_in text.old s.spot) (buffer_in text.new result.spot) result (machine.print (state_in tree.now stack.old starts.now s) (entries.Entry.node kind map note)) (s.level + 1) s.count }
{
    let p = s.top;
    let level = s.level;
    let count = s.count;
    let old = s.spot;
    if level < stack.len() {
        let slot = places::slot_in(slots, p);
        let m = slot / 128;
        let own = slot % 128;
        let sort = layout::sort(sorts, kind, note);
        if places::is_plain(m, kind) {
            return plain(words, stack, text, s, kind, map, note, m, own, sort);
        }
        let method = places::method(p, m, kind, map);
        let statement = places::is_statement(sort);
        let wrapped = places::wraps(method, sort);
        let how = places::following(p, m, statement, wrapped);
        let seen = places::noted_at(m, kind);
        let f = frame::begun(kind, map, note, seen, how);
        let spot = print::opening(
            words,
            tree,
            starts,
            text,
            old,
            p,
            count,
            f,
            m,
            own,
            method,
            statement,
            wrapped,
            sort % 128,
        );
        numbers::keep(stack, level, print::around(starts, p, m, method, count));
        return State {
            top: f,
            level: level + 1,
            count,
            spot,
        };
    }
    s
}

// A leaf from its begin to its end. A quasi is held, and prints nothing here.
fn leaf(
    slots: &[u16],
    words: &[usize],
    tree: &[u8],
    starts: &mut [u16],
    text: &mut [u8],
    s: State,
    code: usize,
    p: usize,
) -> State
    ensures { slots.now ≡ slot_numbers → words.now ≡ word_numbers → (stack : List ℕ) (note : ℕ) → 9 < code → code < 14 → p < 65535 → s.count < 65536 → s.count < length starts.old → Turned tree.now stack starts.new (buffer_in text.old s.spot) (buffer_in text.new result.spot) result (machine.print_all (state_in tree.now stack starts.old s) (leaf_in tree.now code note p)) s.level (s.count + 1) }
{
    let f = s.top;
    let level = s.level;
    let count = s.count;
    let old = s.spot;
    let slot = places::slot_in(slots, f);
    let m = slot / 128;
    let own = slot % 128;
    let a = print::leaf_opening(words, tree, starts, text, old, f, count, m, own);
    if code == entries::LITERAL && places::is_quasis(m) {
        return State {
            top: print::around(starts, f, m, 0, count),
            level,
            count: hold(starts, count, p % 65535 + 1),
            spot: a,
        };
    }
    let b = texts::leaf(tree, p, text, a, code);
    let spot = out::say_any(words, text, b, places::following(f, m, false, false));
    State {
        top: print::around(starts, f, m, 0, count),
        level,
        count,
        spot,
    }
}

fn end(sorts: &[u32], words: &[usize], stack: &[usize], text: &mut [u8], s: State) -> State
    ensures { sorts.now ≡ sort_numbers → words.now ≡ word_numbers → (tree starts : List ℕ) → 0 < s.level → Turned tree stack.now starts (buffer_in text.old s.spot) (buffer_in text.new result.spot) result (machine.print (state_in tree stack.now starts s) entries.Entry.ends) (s.level - 1) s.count }
{
    let level = s.level;
    let count = s.count;
    let old = s.spot;
    if level == 0 {
        return s;
    }
    let top = numbers::number_at(stack, level - 1);
    let spot = print::closing(sorts, words, text, old, s.top);
    State {
        top,
        level: level - 1,
        count,
        spot,
    }
}

// The next quasi in a list that opens: that of a list of quasis is the next to be held.
fn opened(l: usize, m: usize, count: usize) -> usize
    ensures { m ≡ manner_in (frame_in l) → count < 65536 → result ≡ packed_frame (frame_in l) (cond (is_quasis (frame_in l)) (count + 1) (next_in l)) }
{
    let next = if places::is_quasis(m) && count < 65536 {
        count + 1
    } else {
        frame::next_in(l)
    };
    frame::with_next(l, next)
}

fn open_list(
    slots: &[u16],
    words: &[usize],
    stack: &mut [usize],
    text: &mut [u8],
    s: State,
    n: usize,
) -> State
    ensures { slots.now ≡ slot_numbers → words.now ≡ word_numbers → (tree starts : List ℕ) → s.count < 65536 → s.level < length stack.old → Turned tree stack.new starts (buffer_in text.old s.spot) (buffer_in text.new result.spot) result (machine.print (state_in tree stack.old starts s) (entries.Entry.opens n)) (s.level + 1) s.count }
{
    let f = s.top;
    let level = s.level;
    let count = s.count;
    let old = s.spot;
    if level < stack.len() {
        let slot = places::slot_in(slots, f);
        numbers::keep(stack, level, frame::unlisted_in(f, n));
        let spot = out::say_any(words, text, old, layout::choose(slot % 128, f, 0));
        return State {
            top: opened(frame::listed_in(f), slot / 128, count),
            level: level + 1,
            count,
            spot,
        };
    }
    s
}

// The node after a list: behind quasis the next is the first of them.
fn closed(v: usize, l: usize, m: usize) -> usize
    ensures { m ≡ manner_in (frame_in l) → result ≡ packed_frame (frame_in v) (cond (is_quasis (frame_in l)) (next_in l) (next_in v)) }
{
    let from = if places::is_quasis(m) { l } else { v };
    frame::with_next(v, frame::next_in(from))
}

fn close_list(
    slots: &[u16],
    sorts: &[u32],
    words: &[usize],
    tree: &[u8],
    stack: &[usize],
    starts: &mut [u16],
    text: &mut [u8],
    s: State,
) -> State
    ensures { slots.now ≡ slot_numbers → sorts.now ≡ sort_numbers → words.now ≡ word_numbers → 0 < s.level → s.count < length starts.old → Turned tree.now stack.now starts.new (buffer_in text.old s.spot) (buffer_in text.new result.spot) result (machine.print (state_in tree.now stack.now starts.old s) entries.Entry.closes) (s.level - 1) (s.count + 1) }
{
    let l = s.top;
    let level = s.level;
    let old = s.spot;
    if level == 0 {
        return s;
    }
    let m = places::slot_in(slots, l) / 128;
    let a = out::say_any(words, text, old, places::close_word(sorts, l));
    let spot = print::left_in(tree, starts, text, a, l, m, s.count);
    let top = closed(numbers::number_at(stack, level - 1), l, m);
    let count = hold_stop(starts, m, s.count);
    State {
        top,
        level: level - 1,
        count,
        spot,
    }
}

fn hole(slots: &[u16], words: &[usize], text: &mut [u8], s: State) -> State
    ensures { slots.now ≡ slot_numbers → words.now ≡ word_numbers → (tree stack starts : List ℕ) → Turned tree stack starts (buffer_in text.old s.spot) (buffer_in text.new result.spot) result (machine.print (state_in tree stack starts s) entries.Entry.hole) s.level s.count }
{
    let l = s.top;
    let old = s.spot;
    let m = places::slot_in(slots, l) / 128;
    let spot = out::say(words, text, old, places::separator(l, m));
    moved(s, frame::item_seen_in(l, 2), spot)
}

fn text_met(
    slots: &[u16],
    words: &[usize],
    tree: &[u8],
    starts: &mut [u16],
    text: &mut [u8],
    s: State,
    p: usize,
) -> State
    ensures { slots.now ≡ slot_numbers → words.now ≡ word_numbers → (stack : List ℕ) → p < 65535 → s.count < length starts.old → Turned tree.now stack starts.new (buffer_in text.old s.spot) (buffer_in text.new result.spot) result (machine.print (state_in tree.now stack starts.old s) (entries.Entry.text (text_at_of tree.now p))) s.level (s.count + 1) }
{
    let f = s.top;
    let level = s.level;
    let old = s.spot;
    let at = p % 65536 + 2;
    let n = bytes::wide_at(tree, p % 65536);
    let spot = texts::text_bytes(slots, words, tree, at, n, text, old, f);
    let top = frame::noting_in(f, texts::spelled(tree, at, n, f));
    let count = hold_text(starts, f, s.count, p);
    State {
        top,
        level,
        count,
        spot,
    }
}

// A mark or a byte prints nothing.
fn quiet(s: State) -> State
    ensures { (tree stack starts text : List ℕ) → Turned tree stack starts (buffer_in text s.spot) (buffer_in text result.spot) result (machine.print (state_in tree stack starts s) entries.Entry.quiet) s.level s.count }
{
    moved(s, frame::past_in(s.top), s.spot)
}

// The number of a Temporary.
fn number_bytes(text: &mut [u8], spot: usize, f: usize, n: usize) -> usize
    ensures { buffer_in text.new result ≡ write (buffer_in text.old spot) (number_bytes (frame_in f) n) }
{
    if frame::kind_in(f) == kinds::TEMPORARY {
        return out::decimal(text, spot, n);
    }
    spot
}

fn number_met(text: &mut [u8], s: State, n: usize) -> State
    ensures { (tree stack starts : List ℕ) → Turned tree stack starts (buffer_in text.old s.spot) (buffer_in text.new result.spot) result (machine.print (state_in tree stack starts s) (entries.Entry.number n)) s.level s.count }
{
    let f = s.top;
    let old = s.spot;
    let spot = number_bytes(text, old, f, n);
    moved(s, frame::past_in(f), spot)
}

// One number of the list: its entries.
pub(crate) fn turn(
    slots: &[u16],
    sorts: &[u32],
    words: &[usize],
    tree: &[u8],
    stack: &mut [usize],
    starts: &mut [u16],
    text: &mut [u8],
    s: State,
    v: usize,
) -> State
    ensures { slots.now ≡ slot_numbers → sorts.now ≡ sort_numbers → words.now ≡ word_numbers → s.count < 65536 → Ready stack.old starts.old s (v % 16) (v / 16 % 65536) → Turned tree.now stack.new starts.new (buffer_in text.old s.spot) (buffer_in text.new result.spot) result (machine.print_all (state_in tree.now stack.old starts.old s) (entries_in tree.now v)) (deep_by (v % 16) s.level) (count_by (v % 16) s.count) }
{
    let code = v % 16;
    let n = v / 16 % 65536;
    match code {
        entries::NODE => begin(
            slots,
            sorts,
            words,
            tree,
            stack,
            starts,
            text,
            s,
            n % 64,
            n / 64 % 256,
            v / 1048576 % 256,
        ),
        entries::LIST => open_list(slots, words, stack, text, s, n),
        entries::TEXT => text_met(slots, words, tree, starts, text, s, n),
        entries::QUIET => quiet(s),
        entries::NUMBER => number_met(text, s, n),
        entries::NODE_ENDS => end(sorts, words, stack, text, s),
        entries::LIST_ENDS => close_list(slots, sorts, words, tree, stack, starts, text, s),
        entries::REFERENCE..=entries::LITERAL => leaf(slots, words, tree, starts, text, s, code, n),
        _ => hole(slots, words, text, s),
    }
}
