// A reproducible load (request 2): Marsaglia's 32-bit xorshift, and the trees that are drawn with it.
#![tactic(auto)]

pub mod draw;
pub mod kinds;
pub mod pen;

ghost use Rattle.std.specs.Prelude.{◌≡◌, length};
ghost use Rattle.drawing.specs.Xorshift.{step};
ghost use Rattle.drawing.specs.Outcome.{handed, outcome, told};

use pen::Pen;

// A generator that is advanced in place.
#[repr(C)]
#[derive(Clone, Copy)]
pub struct Xorshift {
    pub state: u32,
}

// The state after x, which is also the number.
pub(crate) fn advanced(x: u32) -> u32
    ensures { result ≡ step x }
{
    let a = x ^ (x << 13);
    let b = a ^ (a >> 17);
    b ^ (b << 5)
}

// Advances the generator in place, and returns the number.
pub fn xorshift_next(g: &mut Xorshift) -> u32
    ensures { (result ≡ step g.old.state) × (g.new.state ≡ step g.old.state) }
{
    let x = advanced(g.state);
    g.state = x;
    x
}

// The levels of the deepest tree, and how many nodes are begun before the rest is cut short.
const LEVELS: usize = 13;

const MOST: usize = 400;

// Why no tree is drawn, by the numbers of the answers for C.
#[derive(Clone, Copy, Debug, PartialEq, Eq)]
enum Refusal {
    SliceTooShort = 7,
    ZeroSeed = 8,
}

// Answer 0, the state after the tree and the length of the tree; or the refusal, and 0. Numbers, since C reads them.
#[repr(C)]
#[derive(Clone, Copy)]
pub struct Drawn {
    pub answer: u8,
    pub next: u32,
    pub tree_len: usize,
}

// The pen behind the tree of a seed, with zeros behind it; zeros alone on a refusal.
fn drawn_into(seed: u32, tree_out: &mut [u8]) -> Result<Pen, Refusal>
    ensures { told result tree_out.new ≡ outcome seed (length tree_out.old) }
{
    tree_out.fill(0);
    if seed == 0 {
        return Err(Refusal::ZeroSeed);
    }
    let start = Pen {
        state: seed,
        more: MOST,
        mark: 1,
        at: 0,
        value: 0,
    };
    let end = draw::node(tree_out, 0, LEVELS, start);
    if tree_out.len() < end.at {
        tree_out.fill(0);
        return Err(Refusal::SliceTooShort);
    }
    Ok(end)
}

// Request 2's entry: the tree of a seed, then zeros. Any seed, a slice of any length.
pub fn rest_spread_draw(seed: u32, tree_out: &mut [u8]) -> Drawn
    ensures { handed result tree_out.new ≡ outcome seed (length tree_out.old) }
{
    match drawn_into(seed, tree_out) {
        Ok(end) => Drawn {
            answer: 0,
            next: end.state,
            tree_len: end.at,
        },
        Err(refusal) => Drawn {
            answer: refusal as u8,
            next: 0,
            tree_len: 0,
        },
    }
}
