// The searches below patterns. Each goes down through patterns, the levels that are left falling.
ghost use Rattle.std.specs.Prelude.{◌≡◌, cond};
ghost use Rattle.tree.specs.Look.{look_node};
ghost use Rattle.lowering.specs.Patterns.{has_object_rest, has_array_rest_over_object_rest};

use crate::parts;
use tree::{bytes, kinds, skip};

// Whether an object rest stands in the pattern or below it; where `below_array`, whether one stands below an array rest.
fn found(tree: &[u8], left: usize, at: usize, below_array: bool) -> bool
    ensures { result ≡ cond below_array (has_array_rest_over_object_rest (look_node tree.now left at).value) (has_object_rest (look_node tree.now left at).value) }
{
    if left == 0 {
        return false;
    }
    let below = left - 1;
    let kind = bytes::peek(tree, at);
    match kind {
        kinds::OBJECT_PATTERN => {
            if !below_array && parts::stands(tree, left, at, 1) {
                return true;
            }
            let run = parts::list(tree, left, at, 0);
            let mut p = run.from;
            for _ in 0..run.count {
                let v = parts::value(tree, below, p);
                if found(tree, v.left, v.at, below_array) {
                    return true;
                }
                p = skip::skip(tree, below, p);
            }
            false
        }
        kinds::ARRAY_PATTERN => {
            let run = parts::list(tree, left, at, 0);
            let mut p = run.from;
            for _ in 0..run.count {
                let e = parts::item(tree, true, below, p);
                if found(tree, e.left, e.at, below_array) {
                    return true;
                }
                p = skip::skip_item(tree, true, below, p);
            }
            let rest = parts::child(tree, left, at, 1);
            found(tree, rest.left, rest.at, false)
        }
        kinds::DEFAULT => {
            let l = parts::child(tree, left, at, 0);
            found(tree, l.left, l.at, below_array)
        }
        _ => false,
    }
}

// Whether an object rest stands in the pattern or below it. Bindings and targets are of the same kinds.
pub fn has_nested_object_rest(tree: &[u8], left: usize, at: usize) -> bool
    ensures { result ≡ has_object_rest (look_node tree.now left at).value }
{
    found(tree, left, at, false)
}

// Whether an array rest in the pattern has an object rest below it: what refusal 5 is about.
pub fn has_rest_below_array_rest(tree: &[u8], left: usize, at: usize) -> bool
    ensures { result ≡ has_array_rest_over_object_rest (look_node tree.now left at).value }
{
    found(tree, left, at, true)
}
