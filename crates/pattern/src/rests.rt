// The objects with rest that are found below a pattern, counted with their keys.
ghost use Rattle.std.specs.Prelude.{◌≡◌};
ghost use Rattle.tree.specs.Tree.{count};
ghost use Rattle.tree.specs.Look.{look_node};
ghost use Rattle.lowering.specs.Parts.{first};
ghost use Rattle.lowering.specs.Made.{Context};
ghost use Rattle.lowering.specs.Patterns.{objects_below};
ghost use Rattle.lowering.specs.Keys.{keys_refusal};
ghost use Rattle.pattern.specs.Refusals.{refusal_number};
ghost use Rattle.pattern.specs.Tally.{limited, tally_values};
ghost use Rattle.pattern.specs.Objects.{object_itself, own_tally, rests_tally};

use crate::tally::{Refusal, Tally};
use crate::{keys, parts, tally};
use tree::{bytes, kinds, skip};

#[tactic(auto, unfolding(crate::specs::Objects::object_itself))]
fn itself(empty: bool) -> Tally
    ensures { tally_values result ≡ object_itself empty }
{
    Tally {
        objects: 1,
        patterns: usize::from(!empty),
        ..Tally::default()
    }
}

// What the object pattern at a position adds itself: nothing, if it has no rest.
fn own(tree: &[u8], left: usize, at: usize) -> Tally
    ensures { tally_values result ≡ own_tally (look_node tree.now left at).value }
{
    if parts::stands(tree, left, at, 1) {
        return tally::both(
            keys::keys(tree, left, at),
            itself(keys::has_no_properties(tree, left, at)),
        );
    }
    Tally::default()
}

// All that are found. Array rests are not searched, and no value is entered that is no pattern by its kind.
pub(crate) fn rests(tree: &[u8], left: usize, at: usize) -> Tally
    ensures { (c : Context) → tally_values result ≡ rests_tally c (look_node tree.now left at).value }
{
    if left == 0 {
        return Tally::default();
    }
    let below = left - 1;
    let kind = bytes::peek(tree, at);
    match kind {
        kinds::OBJECT_PATTERN => {
            let run = parts::list(tree, left, at, 0);
            let mut p = run.from;
            let mut t = Tally::default();
            for _ in 0..run.count {
                let v = parts::value(tree, below, p);
                if kinds::OTHER_EXPRESSION < bytes::peek(tree, v.at) {
                    t = tally::both(t, rests(tree, v.left, v.at));
                }
                p = skip::skip(tree, below, p);
            }
            tally::both(t, own(tree, left, at))
        }
        kinds::ARRAY_PATTERN => {
            let run = parts::list(tree, left, at, 0);
            let mut p = run.from;
            let mut t = Tally::default();
            for _ in 0..run.count {
                let e = parts::item(tree, true, below, p);
                t = tally::both(t, rests(tree, e.left, e.at));
                p = skip::skip_item(tree, true, below, p);
            }
            t
        }
        kinds::DEFAULT => {
            let l = parts::child(tree, left, at, 0);
            rests(tree, l.left, l.at)
        }
        _ => Tally::default(),
    }
}

// How many objects with rest stand below a pattern.
fn objects_below(tree: &[u8], left: usize, at: usize) -> usize
    ensures { (c : Context) → result ≡ limited (count (objects_below c (look_node tree.now left at).value)) }
{
    rests(tree, left, at).objects
}

// The first refusal at their keys.
pub fn refusal_below(tree: &[u8], left: usize, at: usize) -> Option<Refusal>
    ensures { (c : Context) → refusal_number result ≡ first keys_refusal (objects_below c (look_node tree.now left at).value) }
{
    rests(tree, left, at).refusal
}
