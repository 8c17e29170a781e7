// How many patterns a parameter, a catch or a head's declarator moves into the body.
ghost use Rattle.std.specs.Prelude.{◌≡◌};
ghost use Rattle.tree.specs.Tree.{count};
ghost use Rattle.tree.specs.Look.{look_node};
ghost use Rattle.lowering.specs.Parts.{any, items_at_of};
ghost use Rattle.lowering.specs.Heads.{is_moved, moved_from};
ghost use Rattle.pattern.specs.Tally.{limited};
ghost use Rattle.pattern.specs.Moves.{moved_below};

use crate::{parts, search, tally};
use tree::{bytes, kinds, skip};

// Out of a pattern.
fn moved(tree: &[u8], left: usize, at: usize) -> usize
    ensures { result ≡ limited (count (moved_below (look_node tree.now left at).value)) }
{
    if left == 0 {
        return 0;
    }
    let below = left - 1;
    let kind = bytes::peek(tree, at);
    match kind {
        kinds::OBJECT_PATTERN | kinds::DEFAULT => 1,
        kinds::ARRAY_PATTERN => {
            let run = parts::list(tree, left, at, 0);
            let mut p = run.from;
            let mut t = 0;
            for _ in 0..run.count {
                let e = parts::item(tree, true, below, p);
                t = tally::plus(t, moved(tree, e.left, e.at));
                p = skip::skip_item(tree, true, below, p);
            }
            let rest = parts::child(tree, left, at, 1);
            tally::plus(t, moved(tree, rest.left, rest.at))
        }
        _ => 0,
    }
}

// Whether a Param or Declarator has an object rest below its pattern.
pub fn is_moved(tree: &[u8], left: usize, at: usize) -> bool
    ensures { result ≡ is_moved (look_node tree.now left at).value }
{
    let p = parts::child(tree, left, at, 0);
    search::has_nested_object_rest(tree, p.left, p.at)
}

// Out of a Param or Declarator.
pub fn moved_from(tree: &[u8], left: usize, at: usize) -> usize
    ensures { result ≡ limited (count (moved_from (look_node tree.now left at).value)) }
{
    if is_moved(tree, left, at) {
        let p = parts::child(tree, left, at, 0);
        return moved(tree, p.left, p.at);
    }
    0
}

// Whether one of those in field i of a node has an object rest below its pattern.
pub fn any_moved(tree: &[u8], left: usize, at: usize, i: usize) -> bool
    ensures { result ≡ any is_moved (items_at_of i (look_node tree.now left at).value) }
{
    if left == 0 {
        return false;
    }
    let below = left - 1;
    let run = parts::list(tree, left, at, i);
    let mut p = run.from;
    for _ in 0..run.count {
        let e = parts::item(tree, run.holes, below, p);
        if is_moved(tree, e.left, e.at) {
            return true;
        }
        p = skip::skip_item(tree, run.holes, below, p);
    }
    false
}
