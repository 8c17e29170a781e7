// What a text of the tree prints, by the kind of its node.
ghost use Rattle.std.specs.Prelude.{◌≡◌, ◌<◌, take, drop};
ghost use Rattle.printer.specs.Layout.{word, chosen_word, lead_of};
ghost use Rattle.printer.specs.Places.{field_in, literal_text, member_quoted, member_name, key_name, text_bytes, spelled, is_quasi};
ghost use Rattle.printer.specs.Logged.{leaf_text};
ghost use Rattle.printer.specs.Names.{in_quotes};
ghost use Rattle.printer.specs.Rows.{slot_numbers, word_numbers};
ghost use Rattle.printer.specs.Stacks.{frame_in, text_at_of, write, buffer_in, is_empty};

use crate::{entries, frame, layout, names, out, places};
use tree::{bytes, kinds};

// No byte is there.
fn is_empty(tree: &[u8], at: usize, n: usize) -> bool
    ensures { result ≡ is_empty (take n (drop at tree.now)) }
{
    n == 0 || tree.len() <= at
}

// The text whose length stands at a position, in quotes.
fn quoted(tree: &[u8], p: usize, text: &mut [u8], spot: usize) -> usize
    ensures { p < 262144 → buffer_in text.new result ≡ write (buffer_in text.old spot) (in_quotes (text_at_of tree.now p)) }
{
    let q = p % 262144;
    out::quote(tree, q + 2, bytes::wide_at(tree, q), text, spot)
}

// A Literal's spelling, or its form in quotes.
fn literal(tree: &[u8], at: usize, n: usize, text: &mut [u8], spot: usize, f: usize) -> usize
    ensures { buffer_in text.new result ≡ write (buffer_in text.old spot) (literal_text (frame_in f) (take n (drop at tree.now))) }
{
    if 0 < frame::seen_in(f) {
        return spot;
    }
    if frame::field_in(f) == 1 {
        if is_empty(tree, at, n) {
            if frame::map_in(f) / 4 % 2 == 0 {
                return out::quote(tree, at, n, text, spot);
            }
            return spot;
        }
        return out::copy(tree, at, n, text, spot);
    }
    out::quote(tree, at, n, text, spot)
}

// `["..."]`.
fn member_quoted(tree: &[u8], at: usize, n: usize, text: &mut [u8], spot: usize) -> usize
    ensures { buffer_in text.new result ≡ write (buffer_in text.old spot) (member_quoted (take n (drop at tree.now))) }
{
    let a = out::put(text, spot, 91);
    let b = out::quote(tree, at, n, text, a);
    out::put(text, b, 93)
}

// The name of a Member's property, with what stands around it.
fn member(tree: &[u8], at: usize, n: usize, text: &mut [u8], spot: usize) -> usize
    ensures { buffer_in text.new result ≡ write (buffer_in text.old spot) (member_name (take n (drop at tree.now))) }
{
    if names::bare(tree, at, n) {
        let s = out::put(text, spot, 46);
        return out::copy(tree, at, n, text, s);
    }
    member_quoted(tree, at, n, text, spot)
}

// A StaticKey's name.
fn key(tree: &[u8], at: usize, n: usize, text: &mut [u8], spot: usize) -> usize
    ensures { buffer_in text.new result ≡ write (buffer_in text.old spot) (key_name (take n (drop at tree.now))) }
{
    if names::bare(tree, at, n) {
        return out::copy(tree, at, n, text, spot);
    }
    out::quote(tree, at, n, text, spot)
}

// What leads a text: most have nothing before them.
fn lead(slots: &[u16], words: &[usize], text: &mut [u8], spot: usize, f: usize) -> usize
    ensures { slots.now ≡ slot_numbers → words.now ≡ word_numbers → buffer_in text.new result ≡ write (buffer_in text.old spot) (word (chosen_word (lead_of (frame_in f).kind (field_in (frame_in f))) (frame_in f).note (frame_in f).map (frame_in f).seen 0)) }
{
    let own = places::slot_in(slots, f) % 128;
    if own == 0 {
        return spot;
    }
    out::say(words, text, spot, layout::choose_by(own, f, 0))
}

// The text of a node that is no name: with what leads it.
fn text_words(
    slots: &[u16],
    words: &[usize],
    tree: &[u8],
    at: usize,
    n: usize,
    text: &mut [u8],
    spot: usize,
    f: usize,
) -> usize
    ensures { slots.now ≡ slot_numbers → words.now ≡ word_numbers → buffer_in text.new result ≡ write (buffer_in text.old spot) (text_bytes (frame_in f) (take n (drop at tree.now))) }
{
    let kind = frame::kind_in(f);
    if kind == kinds::LITERAL {
        return literal(tree, at, n, text, spot, f);
    }
    if kind == kinds::MEMBER {
        return member(tree, at, n, text, spot);
    }
    if kind == kinds::STATIC_KEY {
        return key(tree, at, n, text, spot);
    }
    let s = lead(slots, words, text, spot, f);
    out::copy(tree, at, n, text, s)
}

// A Reference or a Binding is its bytes.
pub(crate) fn text_bytes(
    slots: &[u16],
    words: &[usize],
    tree: &[u8],
    at: usize,
    n: usize,
    text: &mut [u8],
    spot: usize,
    f: usize,
) -> usize
    ensures { slots.now ≡ slot_numbers → words.now ≡ word_numbers → buffer_in text.new result ≡ write (buffer_in text.old spot) (text_bytes (frame_in f) (take n (drop at tree.now))) }
{
    if frame::kind_in(f) / 2 == 9 {
        return out::copy(tree, at, n, text, spot);
    }
    text_words(slots, words, tree, at, n, text, spot, f)
}

// A Literal that is spelled is noted.
pub(crate) fn spelled(tree: &[u8], at: usize, n: usize, f: usize) -> usize
    ensures { result ≡ spelled (frame_in f) (take n (drop at tree.now)) }
{
    if is_empty(tree, at, n) {
        return frame::seen_in(f);
    }
    if frame::kind_in(f) == kinds::LITERAL && frame::seen_in(f) == 0 {
        1
    } else {
        frame::seen_in(f)
    }
}

// A quasi's spelling.
#[tactic(auto, unfolding(crate::specs::Places::is_quasi))]
pub(crate) fn is_quasi(f: usize) -> bool
    ensures { result ≡ is_quasi (frame_in f) }
{
    frame::kind_in(f) == kinds::LITERAL && frame::seen_in(f) == 2 && frame::field_in(f) == 1
}

// The text of a leaf by its code: that of a StaticKey as its name stands there; a Literal's spelling, or its form in quotes; else
// the bytes.
pub(crate) fn leaf(tree: &[u8], p: usize, text: &mut [u8], spot: usize, code: usize) -> usize
    ensures { p < 65536 → buffer_in text.new result ≡ write (buffer_in text.old spot) (leaf_text tree.now code p) }
{
    let at = p % 65536 + 2;
    let n = bytes::wide_at(tree, p % 65536);
    if code == entries::STATIC_KEY {
        return key(tree, at, n, text, spot);
    }
    if code == entries::LITERAL && is_empty(tree, at, n) {
        return quoted(tree, at + n, text, spot);
    }
    out::copy(tree, at, n, text, spot)
}
