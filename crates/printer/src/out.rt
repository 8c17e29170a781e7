// The text as it is written: what fits in the lent slice.
ghost use Rattle.std.specs.Prelude.{◌≡◌, ◌<◌, take, drop};
ghost use Rattle.printer.specs.Layout.{word};
ghost use Rattle.printer.specs.Names.{hex_digit, needs_escape, escaped_byte, escaped, in_quotes, decimal};
ghost use Rattle.printer.specs.Rows.{word_numbers};
ghost use Rattle.printer.specs.Stacks.{put, write, buffer_in, bytes_in, EndIs};

use crate::words;

// The spot where there was no room for a byte: more than any length.
const OVER: usize = 18446744073709551615;

// The next byte. A spot is how many bytes are written, and above the length of the slice if there was no room for more: a
// number, for a struct is handed over in memory.
pub(crate) fn put(out: &mut [u8], spot: usize, b: u8) -> usize
    ensures { buffer_in out.new result ≡ put (buffer_in out.old spot) b }
{
    let len = out.len();
    if spot < len {
        out[spot] = b;
        return spot + 1;
    }
    OVER
}

// The bytes of a number, the lowest first: at most eight, so with room for eight no byte is asked about.
fn put_digits(out: &mut [u8], spot: usize, digits: usize) -> usize
    ensures { buffer_in out.new result ≡ write (buffer_in out.old spot) (bytes_in digits) }
{
    let mut s = spot;
    let mut w = digits;
    // No counted loop: it takes digits off a number.
    if spot < out.len() && 7 < out.len() - spot {
        while 0 < w {
            out[s] = (w % 256) as u8;
            s += 1;
            w /= 256;
        }
        return s;
    }
    while 0 < w {
        s = put(out, s, (w % 256) as u8);
        w /= 256;
    }
    s
}

// A word by its number; one of fewer than eight bytes is in the first number. Right if the table is lent.
pub(crate) fn say(words: &[usize], out: &mut [u8], spot: usize, id: usize) -> usize
    ensures { words.now ≡ word_numbers → buffer_in out.new result ≡ write (buffer_in out.old spot) (word id) }
{
    let w = words::low(words, id);
    let a = put_digits(out, spot, w);
    if w < 0x100000000000000 {
        return a;
    }
    let b = put_digits(out, a, words::middle(id));
    put_digits(out, b, words::high(id))
}

// The same, where most words have no byte or one: those are put at once.
pub(crate) fn say_any(words: &[usize], out: &mut [u8], spot: usize, id: usize) -> usize
    ensures { words.now ≡ word_numbers → buffer_in out.new result ≡ write (buffer_in out.old spot) (word id) }
{
    let w = words::low(words, id);
    if w < 256 {
        if w == 0 {
            return spot;
        }
        return put(out, spot, w as u8);
    }
    say(words, out, spot, id)
}

// Where n bytes from a position on end, or the tree does.
pub(crate) fn end_of(tree: &[u8], at: usize, n: usize) -> usize
    ensures { EndIs tree.now at n result }
{
    if tree.len() <= at {
        return at;
    }
    if n < tree.len() - at {
        return at + n;
    }
    tree.len()
}

// Bytes of the tree as they are: in fours if there is room for all of them and one more.
pub(crate) fn copy(tree: &[u8], at: usize, n: usize, out: &mut [u8], spot: usize) -> usize
    ensures { buffer_in out.new result ≡ write (buffer_in out.old spot) (take n (drop at tree.now)) }
{
    let end = end_of(tree, at, n);
    let mut s = spot;
    if spot < out.len() && end - at < out.len() - spot {
        let mut i = at;
        // By hand: from a method or a loop the compiler makes vectors, and that took longer.
        while 3 < end - i {
            out[s] = tree[i];
            out[s + 1] = tree[i + 1];
            out[s + 2] = tree[i + 2];
            out[s + 3] = tree[i + 3];
            s += 4;
            i += 4;
        }
        if end <= i {
            return s;
        }
        out[s] = tree[i];
        if end <= i + 1 {
            return s + 1;
        }
        out[s + 1] = tree[i + 1];
        if end <= i + 2 {
            return s + 2;
        }
        out[s + 2] = tree[i + 2];
        return s + 3;
    }
    for i in at..end {
        s = put(out, s, tree[i]);
    }
    s
}

#[tactic(auto, unfolding(crate::specs::Names::hex_digit))]
fn hex_digit(d: usize) -> u8
    ensures { d < 16 → result ≡ hex_digit d }
{
    if d < 10 {
        return (48 + d) as u8;
    }
    (87 + d % 16) as u8
}

#[tactic(auto, unfolding(crate::specs::Names::needs_escape))]
fn needs_escape(b: u8) -> bool
    ensures { result ≡ needs_escape b }
{
    b < 32 || b == 34 || b == 92
}

fn put_escaped(out: &mut [u8], spot: usize, b: u8) -> usize
    ensures { buffer_in out.new result ≡ write (buffer_in out.old spot) (escaped_byte b) }
{
    if needs_escape(b) {
        let high = hex_digit(usize::from(b) / 16);
        let low = hex_digit(usize::from(b) % 16);
        let p = put(out, spot, 92);
        let q = put(out, p, 120);
        let r = put(out, q, high);
        return put(out, r, low);
    }
    put(out, spot, b)
}

fn copy_escaped(tree: &[u8], at: usize, n: usize, out: &mut [u8], spot: usize) -> usize
    ensures { buffer_in out.new result ≡ write (buffer_in out.old spot) (escaped (take n (drop at tree.now))) }
{
    let end = end_of(tree, at, n);
    let mut s = spot;
    for i in at..end {
        s = put_escaped(out, s, tree[i]);
    }
    s
}

// Bytes of the tree in double quotes.
pub(crate) fn quote(tree: &[u8], at: usize, n: usize, out: &mut [u8], spot: usize) -> usize
    ensures { buffer_in out.new result ≡ write (buffer_in out.old spot) (in_quotes (take n (drop at tree.now))) }
{
    let a = put(out, spot, 34);
    let b = copy_escaped(tree, at, n, out, a);
    put(out, b, 34)
}

pub(crate) fn decimal(out: &mut [u8], spot: usize, n: usize) -> usize
    ensures { buffer_in out.new result ≡ write (buffer_in out.old spot) (decimal n) }
{
    if n < 10 {
        return put(out, spot, (48 + n) as u8);
    }
    let s = decimal(out, spot, n / 10);
    put(out, s, (48 + n % 10) as u8)
}
