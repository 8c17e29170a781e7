// How many declarators a declaration becomes, and the first refusal that it meets at its keys.
ghost use Rattle.std.specs.Prelude.{◌≡◌, ◌-◌};
ghost use Rattle.std.specs.List.{FoldsTo};
ghost use Rattle.tree.specs.Tree.{Node, count};
ghost use Rattle.tree.specs.Look.{look_node};
ghost use Rattle.lowering.specs.Parts.{gather, items_at_of};
ghost use Rattle.lowering.specs.Made.{Context};
ghost use Rattle.lowering.specs.Declarations.{is_lowered, pattern_declarators, declarators, declaration_refusal};
ghost use Rattle.pattern.specs.Refusals.{refusal_number};
ghost use Rattle.pattern.specs.Tally.{limited, tally_values};
ghost use Rattle.pattern.specs.Declarators.{made, declarator_refusal, starts_in};

use crate::tally::Tally;
use crate::{keys, parts, rests, search, source, tally};
use tree::{bytes, kinds, skip};

// The declarators of the objects that were counted: keys, pattern, rest.
fn made(t: Tally) -> usize
    ensures { result ≡ made (tally_values t) }
{
    tally::plus(tally::plus(t.temporaries, t.patterns), t.objects)
}

// How many a pattern becomes, its source aside.
pub fn pattern_declarators(tree: &[u8], left: usize, at: usize) -> usize
    ensures { (c : Context) (s : Node) → result ≡ limited (count (pattern_declarators c (look_node tree.now left at).value s)) }
{
    if left == 0 {
        return 0;
    }
    let kind = bytes::peek(tree, at);
    match kind {
        kinds::OBJECT_PATTERN => {
            let n = made(rests::rests(tree, left, at));
            if parts::stands(tree, left, at, 1) {
                return n;
            }
            if keys::has_no_properties(tree, left, at) {
                return n;
            }
            tally::plus(n, 1)
        }
        kinds::ARRAY_PATTERN => tally::plus(made(rests::rests(tree, left, at)), 1),
        _ => 0,
    }
}

// Whether a declarator is lowered: it has a starting value, and an object rest below its pattern.
pub fn is_lowered(tree: &[u8], left: usize, at: usize) -> bool
    ensures { result ≡ is_lowered (look_node tree.now left at).value }
{
    if parts::stands(tree, left, at, 1) {
        let p = parts::child(tree, left, at, 0);
        return search::has_nested_object_rest(tree, p.left, p.at);
    }
    false
}

// How many declarators a declarator becomes.
fn becomes(tree: &[u8], left: usize, at: usize) -> usize
    ensures { (c : Context) → result ≡ limited (count (declarators c (look_node tree.now left at).value)) }
{
    if is_lowered(tree, left, at) {
        let p = parts::child(tree, left, at, 0);
        let n = pattern_declarators(tree, p.left, p.at);
        let init = parts::child(tree, left, at, 1);
        if source::is_name(tree, init.left, init.at) {
            return n;
        }
        return tally::plus(1, n);
    }
    1
}

// Goes over the declarators of a declaration, left to right; `join` adds one, with its levels and place, to what came before.
fn joined<T, F: Fn(T, usize, usize) -> T>(
    tree: &[u8],
    left: usize,
    at: usize,
    none: T,
    join: F,
) -> T
    requires { F.IsAlwaysCallable join }
    ensures { FoldsTo (λ t p u. F.post join t (left - 1) p u) none (starts_in tree.now left at) result }
{
    if left == 0 {
        return none;
    }
    let below = left - 1;
    let run = parts::list(tree, left, at, 2);
    let mut p = run.from;
    let mut t = none;
    for _ in 0..run.count {
        if !run.holes || bytes::peek(tree, p) != 0 {
            t = join(t, below, p);
        }
        p = skip::skip_item(tree, run.holes, below, p);
    }
    t
}

// How many declarators a declaration becomes.
pub fn declaration_becomes(tree: &[u8], left: usize, at: usize) -> usize
    ensures { (c : Context) → result ≡ limited (count (gather (declarators c) (items_at_of 2 (look_node tree.now left at).value))) }
{
    joined(
        tree,
        left,
        at,
        0,
        |t, below, p| tally::plus(t, becomes(tree, below, p)),
    )
}

// The first refusal at the keys of the objects whose rest a declarator lowers.
fn refusal(tree: &[u8], left: usize, at: usize) -> Option<tally::Refusal>
    ensures { (c : Context) → refusal_number result ≡ declarator_refusal c (look_node tree.now left at).value }
{
    if is_lowered(tree, left, at) {
        let p = parts::child(tree, left, at, 0);
        return rests::refusal_below(tree, p.left, p.at);
    }
    None
}

// The same of a declaration.
pub fn declaration_refusal(tree: &[u8], left: usize, at: usize) -> Option<tally::Refusal>
    ensures { (c : Context) → refusal_number result ≡ declaration_refusal c (look_node tree.now left at).value }
{
    joined(
        tree,
        left,
        at,
        None,
        |t, below, p| t.or(refusal(tree, below, p)),
    )
}
