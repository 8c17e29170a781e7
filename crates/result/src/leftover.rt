// Whether an object rest is left in a rewritten tree.
ghost use Rattle.std.specs.Prelude.{◌≡◌, List, ℕ, ◌≤◌, length};
ghost use Rattle.rewritten.specs.Steps.{event_in};
ghost use Rattle.result.specs.Leftover.{leftover, is_rested, rest_met, meet_rest};

use rewritten::next;
use rewritten::step::{Event, Step};
use tree::kinds;

// An object pattern whose bit map has its rest.
fn is_rested(kind: usize, map: usize) -> bool
    ensures { result ≡ is_rested kind map }
{
    kind == kinds::OBJECT_PATTERN && map / 2 % 2 == 1
}

// What is met is one.
fn rest_met(e: Event) -> bool
    ensures { (tree : List ℕ) → result ≡ rest_met (event_in tree e) }
{
    match e {
        Event::Begins(_, kind, map) => is_rested(kind, map),
        _ => false,
    }
}

// One was met before, or is met now.
fn meet(met: bool, e: Event) -> bool
    ensures { (tree : List ℕ) → result ≡ meet_rest met (event_in tree e) }
{
    met || rest_met(e)
}

// Right if 16,384 frames are lent.
fn look(tree: &[u8], frames: &mut [usize]) -> bool
    ensures { 16384 ≤ length frames.old → result ≡ leftover tree.now }
{
    if 32768 < tree.len() || frames.len() < 16384 {
        return false;
    }
    let mut cursor = next::begin();
    let mut met = false;
    // A tour ends by itself: nothing is counted.
    loop {
        match next::next(tree, frames, cursor) {
            Step::Next(e, c) => {
                met = meet(met, e);
                cursor = c;
            }
            Step::Done => {
                return cursor.at == tree.len() && met;
            }
            Step::Refused | Step::Full => {
                return false;
            }
        }
    }
}

// The bytes are a rewritten tree, marks aside, and an object rest is left in it.
pub(crate) fn leftover(tree: &[u8]) -> bool
    ensures { result ≡ leftover tree.now }
{
    let mut frames = [0; 16384];
    look(tree, &mut frames)
}
