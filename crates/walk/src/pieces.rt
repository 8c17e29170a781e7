// Pieces that are written without a walk: holes, sources, keys as strings.
ghost use Rattle.std.specs.Prelude.{◌≡◌, cond, List, [], ℕ};
ghost use Rattle.tree.specs.Look.{onward};
ghost use Rattle.pattern.specs.Keys.{key_at};
ghost use Rattle.pattern.specs.Source.{read_of, after_read};
ghost use Rattle.sink.specs.Machine.{part};
ghost use Rattle.direct.specs.Events.{puts};
ghost use Rattle.walk.specs.Run.{going_of, Runs};
ghost use Rattle.walk.specs.Turns.{writes_holes, hole_deeds, reads, string_of, awaits};

use crate::kinds;
use crate::modes::Mode;
use crate::walk::Walk;
use pattern::keys::{Key, transform_property_key};
use pattern::source::{Read, ReferenceBuilder};
use tree::bytes::peek;
use tree::skip::{skip, step};

// Whether the list is written.
fn writes_holes(mode: Mode) -> bool
    ensures { result ≡ writes_holes mode }
{
    matches!(mode, Mode::Viewed | Mode::MovedOut)
}

// A hole of a list, written where the list is.
pub fn hole(w: Walk, t: &[u8], out: &mut [u8], mode: Mode) -> Walk
    ensures { (result.at ≡ onward t.now w.at 1) × ((l k : List ℕ) → Runs (going_of out.old l k w) (going_of out.new l k result) (hole_deeds t.now mode w.at)) }
{
    let q = step(t, w.at, 1);
    if writes_holes(mode) {
        return w.copy(t, out, q);
    }
    w.to(q)
}

// The walk after a read of a source, and the builder for the next one.
#[derive(Clone, Copy)]
pub struct Sourced {
    pub walk: Walk,
    pub next: ReferenceBuilder,
}

// A read of a source.
pub fn source(
    w: Walk,
    t: &[u8],
    out: &mut [u8],
    list: &mut [u8],
    work: &mut [u8],
    b: ReferenceBuilder,
) -> Sourced
    ensures { (result.walk.at ≡ w.at) × (result.next ≡ after_read b) × Runs (going_of out.old list.old work.old w) (going_of out.new list.new work.new result.walk) (reads t.now (read_of b)) }
{
    let at = w.at;
    let taken = b.create_read_expression();
    let next = taken.next;
    match taken.read {
        Read::Expression { left, at: p } => Sourced {
            walk: w.to(p).copy(t, out, skip(t, left, p)).to(at),
            next,
        },
        Read::Temporary { cell, stem } => Sourced {
            walk: w.temporary(out, list, work, cell, stem),
            next,
        },
    }
}

// A key as a string; nothing for a key that is not written as one.
pub fn string(w: Walk, t: &[u8], out: &mut [u8], left: usize, at: usize) -> Walk
    ensures { (result.at ≡ w.at) × ((l k : List ℕ) → Runs (going_of out.old l k w) (going_of out.new l k result) (puts (string_of t.now (key_at t.now left at)))) }
{
    match transform_property_key(t, left, at) {
        Key::Name { from, len } | Key::Literal { from, len } => w.string(t, out, from, len),
        Key::Number { value } | Key::OtherForm { value } => w.number(out, value),
        Key::NoForm => w.string(t, out, 0, 0),
        Key::Template | Key::Private | Key::Again | Key::Other => w,
    }
}

// The byte behind the body of a for-of loop that awaits.
pub fn await_of(w: Walk, t: &[u8], out: &mut [u8], at: usize) -> Walk
    ensures { (result.at ≡ cond (awaits t.now at) (onward t.now w.at 1) w.at) × ((l k : List ℕ) → Runs (going_of out.old l k w) (going_of out.new l k result) (puts (cond (awaits t.now at) (part w.at (onward t.now w.at 1) t.now) []))) }
{
    let q = w.at;
    if peek(t, at) == kinds::FOR_OF && peek(t, step(t, at, 1)) / 16 == 1 {
        return w.copy(t, out, step(t, q, 1));
    }
    w
}
