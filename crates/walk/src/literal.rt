// Object literals with spreads: how many properties come before a spread, and the heads of the calls.
ghost use Rattle.std.specs.Prelude.{◌≡◌, false, List, ◌∷◌, ◌++◌, ℕ, ◌%◌, eqb};
ghost use Rattle.tree.specs.Tree.{wide_bytes};
ghost use Rattle.direct.specs.Events.{puts};
ghost use Rattle.tree.specs.Read.{byte_at};
ghost use Rattle.tree.specs.Look.{onward, look_items, look_node};
ghost use Rattle.direct.specs.Literals.{is_spread, mode_next, mode_after, head_at, inner_heads, heads, run, no_call_of};
ghost use Rattle.walk.specs.Run.{going_of, Runs};
ghost use Rattle.walk.specs.Turns.{spread_at, pending_deeds, calls_number};

use crate::look::first_bit;
use crate::walk::Walk;
use crate::{helpers, kinds, written};
use tree::bytes::{peek, wide_at};
use tree::skip::{skip, step};

pub fn is_spread(t: &[u8], left: usize, at: usize) -> bool
    ensures { result ≡ is_spread (look_node t.now left at).value }
{
    0 < left && peek(t, at) == kinds::SPREAD
}

// How many properties there are up to the first spread.
pub fn run_of(t: &[u8], left: usize, count: usize, at: usize) -> usize
    ensures { result ≡ run (look_items t.now (look_node t.now left) false count at).value }
{
    let mut p = at;
    for k in 0..count {
        if is_spread(t, left, p) {
            return k;
        }
        p = skip(t, left, p);
    }
    count
}

// The call so far: there is none, nothing is pending behind it, something is.
#[derive(Clone, Copy)]
enum Calls {
    NoCall,
    NothingPending,
    SomePending,
}

// The same after one more property.
fn mode_next(t: &[u8], left: usize, at: usize, mode: Calls) -> Calls
    ensures { calls_number result ≡ mode_next (calls_number mode) (look_node t.now left at).value }
{
    if is_spread(t, left, at) {
        return Calls::NothingPending;
    }
    match mode {
        Calls::NoCall => Calls::NoCall,
        Calls::NothingPending | Calls::SomePending => Calls::SomePending,
    }
}

// Where some properties end, and the call so far behind them.
#[derive(Clone, Copy)]
struct Passed {
    pub at: usize,
    pub mode: Calls,
}

fn after(t: &[u8], left: usize, count: usize, at: usize, mode: Calls) -> Passed
    ensures { (result.at ≡ (look_items t.now (look_node t.now left) false count at).next) × (calls_number result.mode ≡ mode_after (calls_number mode) (look_items t.now (look_node t.now left) false count at).value) }
{
    let mut p = at;
    let mut m = mode;
    for _ in 0..count {
        m = mode_next(t, left, p, m);
        p = skip(t, left, p);
    }
    Passed { at: p, mode: m }
}

// The head of the call that a spread ends.
fn head_at(w: Walk, t: &[u8], out: &mut [u8], left: usize, at: usize, mode: Calls) -> Walk
    ensures { ((l k : List ℕ) → Runs (going_of out.old l k w) (going_of out.new l k result) (head_at (calls_number mode) (look_node t.now left at).value)) × (result.at ≡ w.at) }
{
    if !is_spread(t, left, at) {
        return w;
    }
    match mode {
        Calls::SomePending => w.call(out, helpers::OBJECT_SPREAD, 4),
        Calls::NoCall | Calls::NothingPending => w.call(out, helpers::OBJECT_SPREAD, 2),
    }
}

// How many properties are gone over one by one.
const FEW: usize = 32;

// The heads of the calls but the last, the outermost first: of many properties by halves, of a few one by one.
fn inner_heads(
    w: Walk,
    t: &[u8],
    out: &mut [u8],
    left: usize,
    n: usize,
    at: usize,
    mode: Calls,
) -> Walk
    ensures { ((l k : List ℕ) → Runs (going_of out.old l k w) (going_of out.new l k result) (inner_heads (calls_number mode) (look_items t.now (look_node t.now left) false n at).value)) × (result.at ≡ w.at) }
{
    if n == 0 {
        return w;
    }
    if n <= FEW {
        let m = mode_next(t, left, at, mode);
        let v = inner_heads(w, t, out, left, n - 1, skip(t, left, at), m);
        return head_at(v, t, out, left, at, mode);
    }
    let half = n / 2;
    let a = after(t, left, half, at, mode);
    let v = inner_heads(w, t, out, left, n - half, a.at, a.mode);
    inner_heads(v, t, out, left, half, at, mode)
}

// All heads.
fn all_heads(
    w: Walk,
    t: &[u8],
    out: &mut [u8],
    left: usize,
    n: usize,
    at: usize,
    mode: Calls,
) -> Walk
    ensures { ((l k : List ℕ) → Runs (going_of out.old l k w) (going_of out.new l k result) (heads (calls_number mode) (look_items t.now (look_node t.now left) false n at).value)) × (result.at ≡ w.at) }
{
    match after(t, left, n, at, mode).mode {
        Calls::SomePending => inner_heads(
            w.call(out, helpers::OBJECT_SPREAD, 3),
            t,
            out,
            left,
            n,
            at,
            mode,
        ),
        Calls::NoCall | Calls::NothingPending => inner_heads(w, t, out, left, n, at, mode),
    }
}

// Two objects, the second of r properties, if there are any.
pub fn pending(w: Walk, out: &mut [u8], n: usize) -> Walk
    ensures { ((l k : List ℕ) → Runs (going_of out.old l k w) (going_of out.new l k result) (pending_deeds n)) × (result.at ≡ w.at) }
{
    if n == 0 {
        return w;
    }
    w.put2(out, written::OBJECT, written::FIRST)
        .put2(out, 0, 0)
        .put2(out, written::OBJECT, written::FIRST)
        .wide(out, n)
}

// Whether the bit map of the node at a position has its first bit.
pub fn has_first(t: &[u8], at: usize) -> bool
    ensures { result ≡ eqb (byte_at t.now (onward t.now at 1) % 2) 1 }
{
    first_bit(t, at) == 1
}

// The heads of the calls, and the head of the object that they begin with.
pub fn opening(w: Walk, t: &[u8], out: &mut [u8], left: usize, n: usize, at: usize) -> Walk
    ensures { ((l k : List ℕ) → Runs (going_of out.old l k w) (going_of out.new l k result) (heads no_call_of (look_items t.now (look_node t.now left) false n at).value ++ puts (24 ∷ 1 ∷ wide_bytes (run (look_items t.now (look_node t.now left) false n at).value % 65536)))) × (result.at ≡ w.at) }
{
    let k = run_of(t, left, n, at);
    all_heads(w, t, out, left, n, at, Calls::NoCall)
        .put2(out, written::OBJECT, written::FIRST)
        .wide(out, k)
}

// Whether the literal at a position has a spread. Of another node: whether the list that stands first has.
pub fn has_spread(t: &[u8], left: usize, at: usize) -> bool
    ensures { result ≡ spread_at t.now left at }
{
    if 0 < left && has_first(t, at) {
        let q = step(t, at, 2);
        let n = wide_at(t, q);
        let k = run_of(t, left - 1, n, step(t, q, 2));
        return k < n;
    }
    false
}
