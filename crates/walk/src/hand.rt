// What the rules hand out before they write: temporaries, entries, excluded keys.
ghost use Rattle.std.specs.Prelude.{◌≡◌, true, false, cond, List, [], ℕ, ◌<◌, ◌/◌, ◌%◌, eqb};
ghost use Rattle.tree.specs.Read.{byte_at};
ghost use Rattle.tree.specs.Look.{onward, look_items, look_node};
ghost use Rattle.lowering.specs.Parts.{is, items_at_of, gather};
ghost use Rattle.lowering.specs.Patterns.{properties, value};
ghost use Rattle.lowering.specs.Heads.{moved_from};
ghost use Rattle.lowering.proofs.All.{AllItems};
ghost use Rattle.direct.specs.Events.{excludes};
ghost use Rattle.direct.specs.Emit.{say, ◌▷◌, in_turn};
ghost use Rattle.direct.specs.Views.{takes};
ghost use Rattle.direct.specs.Views.View.{replacing, taking};
ghost use Rattle.direct.specs.Objects.{over_objects};
ghost use Rattle.direct.specs.Handed.{place_made, keys_made, key_bytes_of, excludes_of, declarator_made, declarator_excludes, hands_top, hands_nested};
ghost use Rattle.direct.specs.Moved as moved;
ghost use Rattle.direct.specs.Moved.{moved_in_of};
ghost use Rattle.walk.specs.Run.{going_of, Does};
ghost use Rattle.walk.specs.Whole.{hole_at, GoodItems, Good};
ghost use Rattle.walk.specs.Turns.{view_of, suits, AllSuit, places_at, top_at, own_of, over_all, key_of, declared_of};
ghost use Rattle.walk.specs.declared.modes.Mode.TheVariants.{Binding};
ghost use Rattle.walk.specs.declared.views.View.TheVariants.{Replacing, Taking};

use crate::look::{cell, has_second, hoisted, is_other};
use crate::place::less;
use crate::reaches::Reach;
use crate::target::{object_count, target_count, target_item, target_values};
use crate::views::View;
use crate::walk::Walk;
use crate::{kinds, look, stems, written};
use pattern::declarators::is_lowered;
use pattern::keys::{Key, excluded_keys, key_temporaries, transform_property_key};
use pattern::search::has_nested_object_rest;
use pattern::source::is_name;
use pattern::tally::plus;
use tree::bytes::{peek, wide_at};
use tree::skip::{quiet, skip, skip_item, skip_items, step};

// ---- over the objects of a pattern

// What is done for an object: its place is made, its keys are made, its excluded keys go out.
#[derive(Clone, Copy)]
enum Own {
    Place,
    Keys,
    Excluded(bool),
}

// The objects with rest of a declaration that the view v replaces, inner ones first, and what is done for each by the mode.
#[cycle(over_over_array_over_item_over_items_over_object_over_value_over_values)]
fn over(
    w: Walk,
    t: &[u8],
    list: &mut [u8],
    work: &mut [u8],
    left: usize,
    at: usize,
    v: View,
    mode: Own,
) -> Walk
    ensures { (result.at ≡ w.at) × ((o : List ℕ) → Good t.now left at → Does (going_of o list.old work.old w) (going_of o list.new work.new result) (over_all mode v (look_node t.now left at).value)) }
{
    if left == 0 {
        return w;
    }
    let kind = peek(t, at);
    match kind {
        kinds::OBJECT_PATTERN => over_object(w, t, list, work, left, at, v, mode),
        kinds::ARRAY_PATTERN => over_array(w, t, list, work, left, at, v, mode),
        kinds::DEFAULT => over(
            w,
            t,
            list,
            work,
            less(left),
            step(t, at, 2),
            View::Replacing,
            mode,
        ),
        _ => w,
    }
}

// Whether an object has a rest, and the view puts a temporary in its place.
fn replaces(t: &[u8], at: usize, v: View) -> bool
    ensures { result ≡ cond (takes (view_of v)) false (eqb (byte_at t.now (onward t.now at 1) / 2 % 2) 1) }
{
    look::replaces(v) && has_second(t, at)
}

#[cycle(over_over_array_over_item_over_items_over_object_over_value_over_values)]
fn over_object(
    w: Walk,
    t: &[u8],
    list: &mut [u8],
    work: &mut [u8],
    left: usize,
    at: usize,
    v: View,
    mode: Own,
) -> Walk
    ensures { (result.at ≡ w.at) × ((o : List ℕ) → Good t.now left at → byte_at t.now at ≡ 34 → Does (going_of o list.old work.old w) (going_of o list.new work.new result) (over_all mode v (look_node t.now left at).value)) }
{
    let q = step(t, at, 2);
    let u = over_values(
        w,
        t,
        list,
        work,
        less(left),
        step(t, q, 2),
        wide_at(t, q),
        mode,
    );
    if replaces(t, at, v) {
        return object(u, t, list, work, left, at, mode);
    }
    u
}

// The values of properties.
#[cycle(over_over_array_over_item_over_items_over_object_over_value_over_values)]
fn over_values(
    w: Walk,
    t: &[u8],
    list: &mut [u8],
    work: &mut [u8],
    left: usize,
    first: usize,
    count: usize,
    mode: Own,
) -> Walk
    ensures { (result.at ≡ w.at) × ((o : List ℕ) → GoodItems t.now (look_node t.now left) (Good t.now left) false false count first → AllItems (λ q. is 35 q ≡ true) (look_items t.now (look_node t.now left) false count first).value → Does (going_of o list.old work.old w) (going_of o list.new work.new result) (in_turn (λ q. over_all mode Replacing (value q)) (look_items t.now (look_node t.now left) false count first).value)) }
{
    let mut u = w;
    let mut p = first;
    for _ in 0..count {
        u = over_value(u, t, list, work, left, p, mode);
        p = skip(t, left, p);
    }
    u
}

// One of them; a quiet property has no object with rest in it.
#[cycle(over_over_array_over_item_over_items_over_object_over_value_over_values)]
fn over_value(
    w: Walk,
    t: &[u8],
    list: &mut [u8],
    work: &mut [u8],
    left: usize,
    at: usize,
    mode: Own,
) -> Walk
    ensures { (result.at ≡ w.at) × ((o : List ℕ) → Good t.now left at → byte_at t.now at ≡ 35 → Does (going_of o list.old work.old w) (going_of o list.new work.new result) (over_all mode Replacing (value (look_node t.now left at).value))) }
{
    if left == 0 {
        return w;
    }
    if quiet(t, at) {
        return w;
    }
    let below = less(left);
    let x = skip(t, below, step(t, at, 2));
    over(w, t, list, work, below, x, View::Replacing, mode)
}

#[cycle(over_over_array_over_item_over_items_over_object_over_value_over_values)]
fn over_array(
    w: Walk,
    t: &[u8],
    list: &mut [u8],
    work: &mut [u8],
    left: usize,
    at: usize,
    v: View,
    mode: Own,
) -> Walk
    ensures { (result.at ≡ w.at) × ((o : List ℕ) → Good t.now left at → byte_at t.now at ≡ 36 → Does (going_of o list.old work.old w) (going_of o list.new work.new result) (over_all mode v (look_node t.now left at).value)) }
{
    if left == 0 {
        return w;
    }
    let q = step(t, at, 2);
    over_items(
        w,
        t,
        list,
        work,
        less(left),
        step(t, q, 2),
        wide_at(t, q),
        mode,
    )
}

// The items of an array.
#[cycle(over_over_array_over_item_over_items_over_object_over_value_over_values)]
fn over_items(
    w: Walk,
    t: &[u8],
    list: &mut [u8],
    work: &mut [u8],
    left: usize,
    first: usize,
    count: usize,
    mode: Own,
) -> Walk
    ensures { (result.at ≡ w.at) × ((o : List ℕ) → GoodItems t.now (look_node t.now left) (Good t.now left) false true count first → Does (going_of o list.old work.old w) (going_of o list.new work.new result) (in_turn (over_all mode Replacing) (look_items t.now (look_node t.now left) true count first).value)) }
{
    let mut u = w;
    let mut p = first;
    for _ in 0..count {
        u = over_item(u, t, list, work, left, p, mode);
        p = skip_item(t, true, left, p);
    }
    u
}

#[cycle(over_over_array_over_item_over_items_over_object_over_value_over_values)]
fn over_item(
    w: Walk,
    t: &[u8],
    list: &mut [u8],
    work: &mut [u8],
    left: usize,
    at: usize,
    mode: Own,
) -> Walk
    ensures { (result.at ≡ w.at) × ((o : List ℕ) → (hole_at t.now true at ≡ false → Good t.now left at) → Does (going_of o list.old work.old w) (going_of o list.new work.new result) (cond (hole_at t.now true at) (say []) (over_all mode Replacing (look_node t.now left at).value))) }
{
    if peek(t, at) == 0 {
        return w;
    }
    over(w, t, list, work, left, at, View::Replacing, mode)
}

fn object(
    w: Walk,
    t: &[u8],
    list: &mut [u8],
    work: &mut [u8],
    left: usize,
    at: usize,
    mode: Own,
) -> Walk
    ensures { (result.at ≡ w.at) × ((o : List ℕ) → Good t.now left at → byte_at t.now at ≡ 34 → Does (going_of o list.old work.old w) (going_of o list.new work.new result) (own_of mode (look_node t.now left at).value)) }
{
    match mode {
        Own::Place => w.make(work, at),
        Own::Keys => each_key(w, t, list, work, left, at, KeyUse::Made),
        Own::Excluded(root) => exclude(w, t, list, work, left, at, root),
    }
}

// What is done for a property: a temporary is made for a key that wants one, it is listed with its value, the key is excluded.
#[derive(Clone, Copy)]
enum KeyUse {
    Made,
    Listed,
    Excluded,
}

// The properties of an object, by a mode.
fn each_key(
    w: Walk,
    t: &[u8],
    list: &mut [u8],
    work: &mut [u8],
    left: usize,
    at: usize,
    mode: KeyUse,
) -> Walk
    ensures { (result.at ≡ w.at) × ((o : List ℕ) → Good t.now left at → byte_at t.now at ≡ 34 → Does (going_of o list.old work.old w) (going_of o list.new work.new result) (in_turn (key_of mode) (properties (look_node t.now left at).value))) }
{
    let q = step(t, at, 2);
    keys_in(
        w,
        t,
        list,
        work,
        less(left),
        step(t, q, 2),
        wide_at(t, q),
        mode,
    )
}

// A loop of its own: one loop for these and for declarators, told by an enum, makes fifteen functions one cycle of calls.
fn keys_in(
    w: Walk,
    t: &[u8],
    list: &mut [u8],
    work: &mut [u8],
    left: usize,
    first: usize,
    count: usize,
    mode: KeyUse,
) -> Walk
    ensures { (result.at ≡ w.at) × ((o : List ℕ) → GoodItems t.now (look_node t.now left) (Good t.now left) false false count first → AllItems (λ q. is 35 q ≡ true) (look_items t.now (look_node t.now left) false count first).value → Does (going_of o list.old work.old w) (going_of o list.new work.new result) (in_turn (key_of mode) (look_items t.now (look_node t.now left) false count first).value)) }
{
    let mut u = w;
    let mut p = first;
    for _ in 0..count {
        u = one_key(u, t, list, work, left, p, mode);
        p = skip(t, left, p);
    }
    u
}

fn one_key(
    w: Walk,
    t: &[u8],
    list: &mut [u8],
    work: &mut [u8],
    left: usize,
    at: usize,
    mode: KeyUse,
) -> Walk
    ensures { (result.at ≡ w.at) × ((o : List ℕ) → Good t.now left at → byte_at t.now at ≡ 35 → Does (going_of o list.old work.old w) (going_of o list.new work.new result) (key_of mode (look_node t.now left at).value)) }
{
    let below = less(left);
    let k = step(t, at, 2);
    match mode {
        KeyUse::Made => {
            if is_other(t, below, k) {
                return w.make(work, at);
            }
            w
        }
        KeyUse::Listed => {
            if is_other(t, below, k) {
                return w
                    .listed2(list, written::DECLARATOR, written::FIRST_TWO)
                    .listed_temporary(list, work, at, stems::KEY)
                    .listed_copy(list, t, k, skip(t, below, k));
            }
            w
        }
        KeyUse::Excluded => exclude_key(w, t, work, below, k),
    }
}

fn exclude_key(w: Walk, t: &[u8], work: &mut [u8], left: usize, at: usize) -> Walk
    ensures { (result.at ≡ w.at) × ((o l : List ℕ) → Good t.now left at → Does (going_of o l work.old w) (going_of o l work.new result) (say (excludes (key_bytes_of (look_node t.now left at).value)))) }
{
    match transform_property_key(t, left, at) {
        Key::Name { from, len } | Key::Literal { from, len } => {
            w.excluded_string(work, t, from, len)
        }
        Key::Number { value } | Key::OtherForm { value } => w.excluded_number(work, value),
        Key::NoForm => w.excluded_string(work, t, 0, 0),
        Key::Template => w.excluded_copy(work, t, at, skip(t, left, at)),
        Key::Private | Key::Again | Key::Other => w,
    }
}

// The excluded keys of the object pattern at a position, if they go out.
fn exclude(
    w: Walk,
    t: &[u8],
    list: &mut [u8],
    work: &mut [u8],
    left: usize,
    at: usize,
    root: bool,
) -> Walk
    ensures { (result.at ≡ w.at) × ((o : List ℕ) → Good t.now left at → byte_at t.now at ≡ 34 → Does (going_of o list.old work.old w) (going_of o list.new work.new result) (excludes_of root (look_node t.now left at).value)) }
{
    if hoisted(t, left, root, at) {
        let k = excluded_keys(t, left, at);
        let u = w.excluded_head(work, cell(stems::EXCLUDED, at), k);
        return each_key(u, t, list, work, left, at, KeyUse::Excluded);
    }
    w
}

// ---- what a rule hands out

// A pattern that is read from a name: the places of its objects with rest, their keys.
fn pattern_makes(
    w: Walk,
    t: &[u8],
    list: &mut [u8],
    work: &mut [u8],
    left: usize,
    at: usize,
) -> Walk
    ensures { (result.at ≡ w.at) × ((o : List ℕ) → Good t.now left at → Does (going_of o list.old work.old w) (going_of o list.new work.new result) (over_objects place_made taking (look_node t.now left at).value ▷ over_objects keys_made replacing (look_node t.now left at).value)) }
{
    over(
        over(w, t, list, work, left, at, View::Taking, Own::Place),
        t,
        list,
        work,
        left,
        at,
        View::Replacing,
        Own::Keys,
    )
}

// The same, and their excluded keys.
pub fn pattern_hands(
    w: Walk,
    t: &[u8],
    list: &mut [u8],
    work: &mut [u8],
    left: usize,
    at: usize,
    root: bool,
) -> Walk
    ensures { (result.at ≡ w.at) × ((o : List ℕ) → Good t.now left at → Does (going_of o list.old work.old w) (going_of o list.new work.new result) (over_objects place_made taking (look_node t.now left at).value ▷ over_objects keys_made replacing (look_node t.now left at).value ▷ over_objects (excludes_of root) replacing (look_node t.now left at).value)) }
{
    over(
        pattern_makes(w, t, list, work, left, at),
        t,
        list,
        work,
        left,
        at,
        View::Replacing,
        Own::Excluded(root),
    )
}

// What is done for a declarator: its temporaries are made, its excluded keys go out.
#[derive(Clone, Copy)]
enum Declared {
    Made,
    Excluded(bool),
}

fn declarator(
    w: Walk,
    t: &[u8],
    list: &mut [u8],
    work: &mut [u8],
    left: usize,
    at: usize,
    mode: Declared,
) -> Walk
    ensures { (result.at ≡ w.at) × ((o : List ℕ) → Good t.now left at → byte_at t.now at ≡ 5 → Does (going_of o list.old work.old w) (going_of o list.new work.new result) (declared_of mode (look_node t.now left at).value)) }
{
    if !is_lowered(t, left, at) {
        return w;
    }
    let below = less(left);
    let id = step(t, at, 2);
    match mode {
        Declared::Made => {
            if is_name(t, below, skip(t, below, id)) {
                return pattern_makes(w, t, list, work, below, id);
            }
            pattern_makes(
                w.make(work, cell(stems::VALUE, id)),
                t,
                list,
                work,
                below,
                id,
            )
        }
        Declared::Excluded(root) => over(
            w,
            t,
            list,
            work,
            below,
            id,
            View::Replacing,
            Own::Excluded(root),
        ),
    }
}

// A declaration: the temporaries of its declarators, then their excluded keys.
pub fn declaration_hands(
    w: Walk,
    t: &[u8],
    list: &mut [u8],
    work: &mut [u8],
    left: usize,
    at: usize,
    root: bool,
) -> Walk
    ensures { (result.at ≡ w.at) × ((o : List ℕ) → Good t.now left at → byte_at t.now at ≡ 4 → Does (going_of o list.old work.old w) (going_of o list.new work.new result) (in_turn declarator_made (items_at_of 2 (look_node t.now left at).value) ▷ in_turn (declarator_excludes root) (items_at_of 2 (look_node t.now left at).value))) }
{
    let below = less(left);
    let q = step(t, at, 5);
    let n = wide_at(t, q);
    let first = step(t, q, 2);
    let u = declarators(w, t, list, work, below, first, n, Declared::Made);
    declarators(u, t, list, work, below, first, n, Declared::Excluded(root))
}

fn declarators(
    w: Walk,
    t: &[u8],
    list: &mut [u8],
    work: &mut [u8],
    left: usize,
    first: usize,
    count: usize,
    mode: Declared,
) -> Walk
    ensures { (result.at ≡ w.at) × ((o : List ℕ) → GoodItems t.now (look_node t.now left) (Good t.now left) false false count first → AllItems (λ q. is 5 q ≡ true) (look_items t.now (look_node t.now left) false count first).value → Does (going_of o list.old work.old w) (going_of o list.new work.new result) (in_turn (declared_of mode) (look_items t.now (look_node t.now left) false count first).value)) }
{
    let mut u = w;
    let mut p = first;
    for _ in 0..count {
        u = declarator(u, t, list, work, left, p, mode);
        p = skip(t, left, p);
    }
    u
}

// An assignment to the object with rest at a position.
pub fn top_hands(
    w: Walk,
    t: &[u8],
    list: &mut [u8],
    work: &mut [u8],
    left: usize,
    at: usize,
    root: bool,
    mark: usize,
) -> Walk
    ensures { (result.at ≡ w.at) × ((o : List ℕ) → Good t.now left at → byte_at t.now at ≡ 34 → Does (going_of o list.old work.old w) (going_of o list.new work.new result) (hands_top root mark (look_node t.now left at).value)) }
{
    let n = plus(
        object_count(t, left, at, Reach::Straight),
        key_temporaries(t, left, at),
    );
    let u = w
        .entry(list, mark, 1 + n)
        .listed2(list, written::DECLARATOR, written::FIRST)
        .listed_temporary(list, work, cell(stems::VALUE, at), stems::VALUE);
    let u = target_values(u, t, list, work, left, at, Reach::Straight);
    let u = each_key(u, t, list, work, left, at, KeyUse::Listed);
    exclude(u, t, list, work, left, at, root)
}

// One to any other target, or to what an assignment leaves of it.
pub fn nested_hands(
    w: Walk,
    t: &[u8],
    list: &mut [u8],
    work: &mut [u8],
    left: usize,
    at: usize,
    v: View,
    mark: usize,
) -> Walk
    ensures { (result.at ≡ w.at) × ((o : List ℕ) → Good t.now left at → (v ≡ Taking → byte_at t.now at ≡ 34) → Does (going_of o list.old work.old w) (going_of o list.new work.new result) (hands_nested (view_of v) mark (look_node t.now left at).value)) }
{
    let u = w.entry(list, mark, places_in(t, left, at, v));
    match v {
        View::Replacing => target_item(u, t, list, work, left, at, Reach::Anywhere),
        View::Taking => target_values(u, t, list, work, left, at, Reach::InArrays),
    }
}

// How many objects of a target the nested rule replaces.
pub fn places_in(t: &[u8], left: usize, at: usize, v: View) -> usize
    ensures { result ≡ places_at t.now v left at }
{
    match v {
        View::Replacing => target_count(t, left, at, Reach::Anywhere),
        View::Taking => object_count(t, left, at, Reach::InArrays),
    }
}

// How long the sequence of an assignment is.
pub fn top_count(t: &[u8], left: usize, at: usize, statement: bool) -> usize
    ensures { result ≡ top_at t.now statement left at }
{
    let n = object_count(t, left, at, Reach::Straight);
    if statement {
        return 3 + n;
    }
    4 + n
}

// A place for each pattern that is moved out of parameters or declarators.
pub fn moves_make(
    w: Walk,
    t: &[u8],
    work: &mut [u8],
    left: usize,
    first: usize,
    count: usize,
) -> Walk
    ensures { (result.at ≡ w.at) × ((o l : List ℕ) → GoodItems t.now (look_node t.now left) (Good t.now left) false false count first → AllSuit Binding (look_items t.now (look_node t.now left) false count first).value → Does (going_of o l work.old w) (going_of o l work.new result) (say (moved.makes (gather moved_from (look_items t.now (look_node t.now left) false count first).value)))) }
{
    let mut u = w;
    let mut p = first;
    for _ in 0..count {
        u = move_makes(u, t, work, left, p);
        p = skip(t, left, p);
    }
    u
}

fn move_makes(w: Walk, t: &[u8], work: &mut [u8], left: usize, at: usize) -> Walk
    ensures { (result.at ≡ w.at) × ((o l : List ℕ) → Good t.now left at → suits Binding (look_node t.now left at).value ≡ true → Does (going_of o l work.old w) (going_of o l work.new result) (say (moved.makes (moved_from (look_node t.now left at).value)))) }
{
    if left == 0 {
        return w;
    }
    let below = less(left);
    let id = step(t, at, 2);
    if has_nested_object_rest(t, below, id) {
        return makes(w, t, work, below, id);
    }
    w
}

#[cycle(makes_makes_array_makes_item_makes_items)]
fn makes(w: Walk, t: &[u8], work: &mut [u8], left: usize, at: usize) -> Walk
    ensures { (result.at ≡ w.at) × ((o l : List ℕ) → Good t.now left at → Does (going_of o l work.old w) (going_of o l work.new result) (say (moved.makes (moved_in_of (look_node t.now left at).value)))) }
{
    if left == 0 {
        return w;
    }
    let kind = peek(t, at);
    match kind {
        kinds::OBJECT_PATTERN | kinds::DEFAULT => w.make(work, at),
        kinds::ARRAY_PATTERN => makes_array(w, t, work, left, at),
        _ => w,
    }
}

// An array: its items, then its rest.
#[cycle(makes_makes_array_makes_item_makes_items)]
fn makes_array(w: Walk, t: &[u8], work: &mut [u8], left: usize, at: usize) -> Walk
    ensures { (result.at ≡ w.at) × ((o l : List ℕ) → Good t.now left at → byte_at t.now at ≡ 36 → Does (going_of o l work.old w) (going_of o l work.new result) (say (moved.makes (moved_in_of (look_node t.now left at).value)))) }
{
    if left == 0 {
        return w;
    }
    let below = less(left);
    let q = step(t, at, 2);
    let n = wide_at(t, q);
    let first = step(t, q, 2);
    let u = makes_items(w, t, work, below, first, n);
    if has_second(t, at) {
        return makes(u, t, work, below, skip_items(t, true, n, below, first));
    }
    u
}

#[cycle(makes_makes_array_makes_item_makes_items)]
fn makes_items(w: Walk, t: &[u8], work: &mut [u8], left: usize, first: usize, count: usize) -> Walk
    ensures { (result.at ≡ w.at) × ((o l : List ℕ) → GoodItems t.now (look_node t.now left) (Good t.now left) false true count first → Does (going_of o l work.old w) (going_of o l work.new result) (say (moved.makes (gather moved_in_of (look_items t.now (look_node t.now left) true count first).value)))) }
{
    let mut u = w;
    let mut p = first;
    for _ in 0..count {
        u = makes_item(u, t, work, left, p);
        p = skip_item(t, true, left, p);
    }
    u
}

#[cycle(makes_makes_array_makes_item_makes_items)]
fn makes_item(w: Walk, t: &[u8], work: &mut [u8], left: usize, at: usize) -> Walk
    ensures { (result.at ≡ w.at) × ((o l : List ℕ) → (hole_at t.now true at ≡ false → Good t.now left at) → Does (going_of o l work.old w) (going_of o l work.new result) (cond (hole_at t.now true at) (say []) (say (moved.makes (moved_in_of (look_node t.now left at).value))))) }
{
    if peek(t, at) == 0 {
        return w;
    }
    makes(w, t, work, left, at)
}
