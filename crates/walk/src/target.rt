// The target walk: the objects with rest that stand nearest below the target of an assignment, in walk order. A reach says where they are looked
// for (`reaches`). One that is found is not entered.
ghost use Rattle.std.specs.Prelude.{◌≡◌, Bool, true, false, cond, List, [], ℕ, suc};
ghost use Rattle.tree.specs.Tree.{count};
ghost use Rattle.tree.specs.Read.{byte_at};
ghost use Rattle.tree.specs.Look.{look_node};
ghost use Rattle.lowering.specs.Patterns.{value, properties};
ghost use Rattle.pattern.specs.Tally.{limited};
ghost use Rattle.direct.specs.Emit.{say, in_turn};
ghost use Rattle.direct.specs.Objects.{reached, over_reached, counts};
ghost use Rattle.direct.specs.Objects as objects;
ghost use Rattle.direct.specs.Handed.{hands_place};
ghost use Rattle.walk.specs.Run.{going_of, Does};
ghost use Rattle.walk.specs.Whole.{hole_at, Good};
ghost use Rattle.walk.specs.Turns.{reach_of, values_count};

use crate::look::has_second;
use crate::place::less;
use crate::reaches::{Reach, counts, enters};
use crate::walk::Walk;
use crate::{kinds, stems, written};
use pattern::parts;
use pattern::tally::plus;
use tree::bytes::{peek, wide_at};
use tree::skip::{quiet, skip, skip_item, step};

// ---- how many there are

// Below the target at a position.
#[cycle(object_count_target_count)]
pub(crate) fn target_count(t: &[u8], left: usize, at: usize, reach: Reach) -> usize
    ensures { result ≡ limited (count (reached (reach_of reach) (look_node t.now left at).value)) }
{
    if left == 0 {
        return 0;
    }
    let below = left - 1;
    let kind = peek(t, at);
    match kind {
        kinds::OBJECT_PATTERN => {
            if parts::stands(t, left, at, 1) {
                return found(reach);
            }
            object_count(t, left, at, reach)
        }
        kinds::ARRAY_PATTERN => {
            if !enters(reach) {
                return 0;
            }
            let run = parts::list(t, left, at, 0);
            let mut p = run.from;
            let mut k = 0;
            for _ in 0..run.count {
                let e = parts::item(t, true, below, p);
                k = plus(k, target_count(t, e.left, e.at, Reach::Anywhere));
                p = skip_item(t, true, below, p);
            }
            k
        }
        kinds::DEFAULT => {
            let l = parts::child(t, left, at, 0);
            target_count(t, l.left, l.at, reach)
        }
        _ => 0,
    }
}

// One that is come to through objects.
fn found(reach: Reach) -> usize
    ensures { result ≡ cond (objects.counts (reach_of reach)) 1 0 }
{
    if counts(reach) {
        return 1;
    }
    0
}

// Below the values of the object at a position that may be patterns by their kind.
#[cycle(object_count_target_count)]
pub fn object_count(t: &[u8], left: usize, at: usize, reach: Reach) -> usize
    ensures { result ≡ values_count t.now (reach_of reach) left at }
{
    if left == 0 {
        return 0;
    }
    let below = left - 1;
    let run = parts::list(t, left, at, 0);
    let mut p = run.from;
    let mut k = 0;
    for _ in 0..run.count {
        let v = parts::value(t, below, p);
        // Patterns come behind the expressions that may stand in their place.
        if kinds::OTHER_EXPRESSION < peek(t, v.at) {
            k = plus(k, target_count(t, v.left, v.at, reach));
        }
        p = skip(t, below, p);
    }
    k
}

// ---- their places are listed

// Below the values of the object at a position.
pub(crate) fn target_values(
    w: Walk,
    t: &[u8],
    list: &mut [u8],
    work: &mut [u8],
    left: usize,
    at: usize,
    reach: Reach,
) -> Walk
    ensures { (result.at ≡ w.at) × ((o : List ℕ) → Good t.now left at → byte_at t.now at ≡ 34 → Does (going_of o list.old work.old w) (going_of o list.new work.new result) (in_turn (λ q. over_reached hands_place (reach_of reach) (value q)) (properties (look_node t.now left at).value))) }
{
    target_properties(w, t, list, work, less(left), at, reach)
}

// Below the values of the object at a position, whose properties stand at the level `left`.
#[cycle(target_item_target_object_target_property)]
fn target_properties(
    w: Walk,
    t: &[u8],
    list: &mut [u8],
    work: &mut [u8],
    left: usize,
    at: usize,
    reach: Reach,
) -> Walk
    ensures { (result.at ≡ w.at) × ((o : List ℕ) → Good t.now (suc left) at → byte_at t.now at ≡ 34 → Does (going_of o list.old work.old w) (going_of o list.new work.new result) (in_turn (λ q. over_reached hands_place (reach_of reach) (value q)) (properties (look_node t.now (suc left) at).value))) }
{
    let q = step(t, at, 2);
    let mut u = w;
    let n = wide_at(t, q);
    let mut p = step(t, q, 2);
    for _ in 0..n {
        u = target_property(u, t, list, work, less(left), p, reach);
        p = skip(t, left, p);
    }
    u
}

// An object that stands at a level above `left`: itself, or what is below its values.
#[cycle(target_item_target_object_target_property)]
fn target_object(
    w: Walk,
    t: &[u8],
    list: &mut [u8],
    work: &mut [u8],
    left: usize,
    at: usize,
    reach: Reach,
) -> Walk
    ensures { (result.at ≡ w.at) × ((o : List ℕ) → Good t.now (suc left) at → byte_at t.now at ≡ 34 → Does (going_of o list.old work.old w) (going_of o list.new work.new result) (over_reached hands_place (reach_of reach) (look_node t.now (suc left) at).value)) }
{
    if has_second(t, at) {
        if !counts(reach) {
            return w;
        }
        return w
            .listed2(list, written::DECLARATOR, written::FIRST)
            .listed_temporary(list, work, at, stems::PLACE);
    }
    target_properties(w, t, list, work, left, at, reach)
}

// A property that stands at a level above `left`: what is below its value. In a quiet one there is nothing.
#[cycle(target_item_target_object_target_property)]
fn target_property(
    w: Walk,
    t: &[u8],
    list: &mut [u8],
    work: &mut [u8],
    left: usize,
    at: usize,
    reach: Reach,
) -> Walk
    ensures { (result.at ≡ w.at) × ((o : List ℕ) → Good t.now (suc left) at → byte_at t.now at ≡ 35 → Does (going_of o list.old work.old w) (going_of o list.new work.new result) (over_reached hands_place (reach_of reach) (value (look_node t.now (suc left) at).value))) }
{
    if quiet(t, at) {
        return w;
    }
    let x = skip(t, left, step(t, at, 2));
    target_item(w, t, list, work, left, x, reach)
}

// An item of an array, or any target: one that stands at the level `left`.
#[cycle(target_item_target_object_target_property)]
pub(crate) fn target_item(
    w: Walk,
    t: &[u8],
    list: &mut [u8],
    work: &mut [u8],
    left: usize,
    at: usize,
    reach: Reach,
) -> Walk
    ensures { (result.at ≡ w.at) × ((o : List ℕ) (h : Bool) → (hole_at t.now h at ≡ false → Good t.now left at) → Does (going_of o list.old work.old w) (going_of o list.new work.new result) (cond (hole_at t.now h at) (say []) (over_reached hands_place (reach_of reach) (look_node t.now left at).value))) }
{
    if left == 0 {
        return w;
    }
    let below = left - 1;
    let kind = peek(t, at);
    match kind {
        kinds::OBJECT_PATTERN => target_object(w, t, list, work, below, at, reach),
        kinds::ARRAY_PATTERN => {
            if !enters(reach) {
                return w;
            }
            let q = step(t, at, 2);
            let mut u = w;
            let n = wide_at(t, q);
            let mut p = step(t, q, 2);
            for _ in 0..n {
                u = target_item(u, t, list, work, below, p, Reach::Anywhere);
                p = skip_item(t, true, below, p);
            }
            u
        }
        kinds::DEFAULT => target_item(w, t, list, work, below, step(t, at, 2), reach),
        _ => w,
    }
}
