// Where a drawing stands, and bytes written at a position. What is past the end is not written, and is counted up to one byte.
ghost use Rattle.std.specs.Prelude.{◌≡◌, length, slice_set};
ghost use Rattle.drawing.specs.Pen.{next, put, reach};
ghost use Rattle.tree.specs.Tree.{wide_bytes};

// The generator's state, how many nodes are still to be begun before all is cut short, the next mark, the position; and what
// was drawn last hands on: a field its byte, fields their bit map.
#[derive(Clone, Copy)]
pub(crate) struct Pen {
    pub state: u32,
    pub more: usize,
    pub mark: u16,
    pub at: usize,
    pub value: u8,
}

// A byte. Returns the next position.
pub fn put(out: &mut [u8], at: usize, b: u8) -> usize
    ensures { (result ≡ next (length out.old) at) × (out.new ≡ slice_set out.old at b) }
{
    if at < out.len() {
        out[at] = b;
        return at + 1;
    }
    if at == out.len() { at + 1 } else { at }
}

// A 16-bit number, little-endian. Returns the next position.
pub fn put_wide(out: &mut [u8], at: usize, n: u16) -> usize
    ensures { (result ≡ reach (length out.old) at (wide_bytes n)) × (out.new ≡ put out.old at (wide_bytes n)) }
{
    let high = put(out, at, (n % 256) as u8);
    put(out, high, (n / 256) as u8)
}
