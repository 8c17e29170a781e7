// The lowering: a node of the input is written as it is walked, from `node` on. The functions call one another, so they have one proof.
//
// Whether the scope is the root is looked up once, `at_root` of `walk::place`, where the walk comes to an assignment or a declaration, and
// where one is put into a body (`target_statement`, `front`). The code for its rests, keys and parts is told the answer, `root`, and its
// contract holds for either: `place_with root c` reads nothing of the root of c. What is walked inside asks for itself.
#![tactic(auto)]

ghost use Rattle.std.specs.Prelude.{◌≡◌, true, false, ◌||◌, [], eqb, ◌-◌, ◌<◌};
ghost use Rattle.tree.specs.Tree.Node.{node};
ghost use Rattle.tree.specs.Read.{byte_at, wide_at};
ghost use Rattle.tree.specs.Rows.{fields_in_of, sort_of};
ghost use Rattle.tree.specs.Look.{onward, look_item, look_items, look_slot, look_fields, look_node};
ghost use Rattle.lowering.specs.Parts.{any, gather, node_at_of, items_at_of};
ghost use Rattle.lowering.specs.Made as made;
ghost use Rattle.lowering.specs.Made.{let_of, assigning};
ghost use Rattle.lowering.specs.Patterns.{value, properties, has_rest_of, has_object_rest, has_array_rest_over_object_rest};
ghost use Rattle.lowering.specs.Keys.{keys_refusal};
ghost use Rattle.lowering.specs.Heads.{is_moved, moved_from};
ghost use Rattle.sink.specs.Machine.Event.{temporary};
ghost use Rattle.pattern.specs.Source.{Given, builder_of, read_of, Settled, Keeps};
ghost use Rattle.direct.specs.Events as events;
ghost use Rattle.direct.specs.Events.{puts, emits};
ghost use Rattle.direct.specs.Emit as emit;
ghost use Rattle.direct.specs.Emit.{◌▷◌, inner, below, stays, emits_statement, emits_items, emits_fields};
ghost use Rattle.direct.specs.Literals as literals;
ghost use Rattle.direct.specs.Literals.{run};
ghost use Rattle.direct.specs.Views.View.{replacing};
ghost use Rattle.direct.specs.Views.{emits_view, emits_property, emits_key};
ghost use Rattle.direct.specs.Keys.{emits_excluded, emits_keys, emits_keys_read, emits_rest};
ghost use Rattle.direct.specs.Declared.{emits_key_value, emits_own_keys, emits_own_pattern, emits_own_rest, emits_found, emits_pattern, emits_lowered, emits_declarator};
ghost use Rattle.direct.specs.Assigned.{assignment_at, emits_nest, emits_target, emits_top};
ghost use Rattle.direct.specs.Moved.{out_of, moved_in_of, behind, fronts, body_in, block_in, target_in};
ghost use Rattle.walk.specs.Run.{going_of, Does, Clear};
ghost use Rattle.walk.specs.Whole.{place_of, place_with, hole_at, item_deeds, slot_deeds, GoodItem, GoodItems, GoodSlot, GoodFields, Good, Ruled, Emitted, Done};
ghost use Rattle.walk.specs.declared.views.View.TheVariants.{Taking};
ghost use Rattle.walk.specs.Turns.{view_of, deep_of, is_told, told_place, deep_suits, suits, turns_of, AllSuit, source_of, level_of, spot_deeds, moves_of, AllBind, given_deeds, given_node, unless_refused, cell_at};

use pattern::declarators::{declaration_becomes, declaration_refusal, pattern_declarators};
use pattern::keys::{all_primitive, excluded_keys, has_no_properties, refusal};
use pattern::moves::{any_moved, is_moved};
use pattern::parts::stands;
use pattern::rests::refusal_below;
use pattern::search::{has_nested_object_rest, has_rest_below_array_rest};
use pattern::source::{ReferenceBuilder, place_of};
use pattern::tally::plus;
use sink::bytes::low;
use tree::bytes::{peek, wide_at};
use tree::grammar::row;
use tree::skip::{quiet, skip, skip_items, skip_slot, step};
use walk::hand::{
    declaration_hands, moves_make, nested_hands, pattern_hands, places_in, top_count, top_hands,
};
use walk::literal::{has_first, has_spread, is_spread, opening, pending, run_of};
use walk::look::{
    KeyClass, cell, enters_arrays, first_bit, has_second, hoisted, is_other, item_mode, key_sort,
    level, moved_in, replaces, second, start_of,
};
use walk::modes::{Deep, Mode};
use walk::pieces::{Sourced, await_of, hole, source, string};
use walk::place::{
    Place, at_root, container, inside, less, marked, parts_of, scoped, statement, told_inside,
    told_under, under,
};
use walk::reaches::{Reach, counts};
use walk::target::object_count;
use walk::views::View;
use walk::walk::Walk;
use walk::{helpers, kinds, stems, written};

// The fields of a Switch in two parts: mark and discriminant, then the cases, which alone lie in its scope.
const SWITCH_FRONT: usize = 0x8cc0;

const SWITCH_CASES: usize = 0x79;

// What a field holds, a 32nd of its code: a node, of one place or of two, a list, a list with holes.
const CHILD: usize = 1;

const CHOSEN: usize = 2;

const MANY: usize = 3;

const GAPS: usize = 4;

// The code of a field that holds a node, and of one that holds a list.
const NODE_FIELD: usize = 32;

const LIST_FIELD: usize = 96;

// The operator `=`.
const ASSIGNS: u8 = 1;

// The refusal of a target with an object rest below an array rest.
const REST_BELOW_ARRAY_REST: u8 = 5;

// A node: one in which nothing is to be lowered is copied whole.
#[cycle(writing)]
pub fn node(w: Walk, t: &[u8], out: &mut [u8], list: &mut [u8], work: &mut [u8], c: Place) -> Walk
    ensures { (result.at ≡ (look_node t.now c.left w.at).next) × (Good t.now c.left w.at → Does (going_of out.old list.old work.old w) (going_of out.new list.new work.new result) (emits (place_of c) (look_node t.now c.left w.at).value)) }
{
    if quiet(t, w.at) {
        return w.copy(t, out, skip(t, c.left, w.at));
    }
    let kind = peek(t, w.at);
    match kind {
        kinds::DECLARATION => declaration(w, t, out, list, work, c),
        kinds::FOR_IN => loop_head(w, t, out, list, work, c),
        kinds::FOR_OF => loop_head(w, t, out, list, work, c),
        kinds::CATCH => catch_clause(w, t, out, list, work, c),
        kinds::FUNCTION => function(w, t, out, list, work, c),
        kinds::ARROW => arrow(w, t, out, list, work, c),
        kinds::OBJECT => literal(w, t, out, list, work, c),
        kinds::ASSIGNMENT => assignment(w, t, out, list, work, c),
        _ => plain(w, t, out, list, work, c),
    }
}

// A literal.
#[cycle(writing)]
fn literal(w: Walk, t: &[u8], out: &mut [u8], list: &mut [u8], work: &mut [u8], c: Place) -> Walk
    ensures { byte_at t.now w.at ≡ 24 → (result.at ≡ (look_node t.now c.left w.at).next) × (Good t.now c.left w.at → Does (going_of out.old list.old work.old w) (going_of out.new list.new work.new result) (emits (place_of c) (look_node t.now c.left w.at).value)) }
{
    if has_spread(t, c.left, w.at) {
        let q = step(t, w.at, 2);
        let first = step(t, q, 2);
        let n = wide_at(t, q);
        let left = less(c.left);
        let v = opening(w, t, out, left, n, first).to(first);
        return properties(v, t, out, list, work, inside(c, left), n).to(skip(t, c.left, w.at));
    }
    plain(w, t, out, list, work, c)
}

// The properties of a literal with spreads.
#[cycle(writing)]
fn properties(
    w: Walk,
    t: &[u8],
    out: &mut [u8],
    list: &mut [u8],
    work: &mut [u8],
    c: Place,
    count: usize,
) -> Walk
    ensures { (result.at ≡ (look_items t.now (look_node t.now c.left) false count w.at).next) × (count < 65536 → GoodItems t.now (look_node t.now c.left) (Good t.now c.left) false false count w.at → Does (going_of out.old list.old work.old w) (going_of out.new list.new work.new result) (literals.parts (place_of c) (look_items t.now (look_node t.now c.left) false count w.at).value)) }
{
    let mut v = w;
    for before in 0..count {
        v = property(v, t, out, list, work, c, count - before - 1);
    }
    v
}

// A property, n of them behind it.
#[cycle(writing)]
fn property(
    w: Walk,
    t: &[u8],
    out: &mut [u8],
    list: &mut [u8],
    work: &mut [u8],
    c: Place,
    n: usize,
) -> Walk
    ensures { (result.at ≡ (look_node t.now c.left w.at).next) × (n < 65536 → Good t.now c.left w.at → Does (going_of out.old list.old work.old w) (going_of out.new list.new work.new result) (literals.part (place_of c) (look_node t.now c.left w.at).value (run (look_items t.now (look_node t.now c.left) false n (look_node t.now c.left w.at).next).value))) }
{
    let p = w.at;
    if is_spread(t, c.left, p) && has_first(t, p) {
        let left = less(c.left);
        let v = node(w.to(step(t, p, 2)), t, out, list, work, under(c, left)).to(skip(
            t, c.left, p,
        ));
        let k = run_of(t, c.left, n, v.at);
        return pending(v, out, k);
    }
    node(w, t, out, list, work, c)
}

// A node as it stands.
#[cycle(writing)]
fn plain(w: Walk, t: &[u8], out: &mut [u8], list: &mut [u8], work: &mut [u8], c: Place) -> Walk
    ensures { (result.at ≡ (look_node t.now c.left w.at).next) × (Good t.now c.left w.at → Does (going_of out.old list.old work.old w) (going_of out.new list.new work.new result) (stays (place_of c) (look_node t.now c.left w.at).value)) }
{
    let left = c.left;
    if left == 0 {
        return w;
    }
    let start = w.at;
    let kind = peek(t, start);
    let map = peek(t, step(t, start, 1));
    let v = w.copy(t, out, step(t, start, 2));
    let inner = parts_of(c, kind, 0, left - 1);
    if kind == kinds::SWITCH {
        let u = fields(v, t, out, list, work, inner, SWITCH_FRONT, map, false);
        let cases = parts_of(c, kind, 2, left - 1);
        return fields(u, t, out, list, work, cases, SWITCH_CASES, map / 4, false).to(skip(
            t, left, start,
        ));
    }
    fields(
        v,
        t,
        out,
        list,
        work,
        inner,
        row(kind),
        map,
        container(kind),
    )
    .to(skip(t, left, start))
}

#[cycle(writing)]
fn fields(
    w: Walk,
    t: &[u8],
    out: &mut [u8],
    list: &mut [u8],
    work: &mut [u8],
    c: Place,
    row: usize,
    map: usize,
    l: bool,
) -> Walk
    ensures { (result.at ≡ (look_fields t.now (look_node t.now c.left) (fields_in_of row) map w.at).next) × (GoodFields t.now (look_node t.now c.left) (Good t.now c.left) l (fields_in_of row) map w.at → Does (going_of out.old list.old work.old w) (going_of out.new list.new work.new result) (emits_fields l (place_of c) (look_fields t.now (look_node t.now c.left) (fields_in_of row) map w.at).value)) }
{
    let mut v = w;
    let mut r = row;
    let mut m = map;
    // No counted loop: it takes digits off a number.
    while 0 < r {
        v = slot(v, t, out, list, work, c, r % 512, m % 2, l);
        r /= 1024;
        m /= 2;
    }
    v
}

// A field, if its bit stands.
#[cycle(writing)]
fn slot(
    w: Walk,
    t: &[u8],
    out: &mut [u8],
    list: &mut [u8],
    work: &mut [u8],
    c: Place,
    code: usize,
    bit: usize,
    l: bool,
) -> Walk
    ensures { (result.at ≡ (look_slot t.now (look_node t.now c.left) (sort_of code) bit w.at).next) × (GoodSlot t.now (look_node t.now c.left) (Good t.now c.left) l (sort_of code) bit w.at → Does (going_of out.old list.old work.old w) (going_of out.new list.new work.new result) (slot_deeds t.now (look_node t.now c.left) l (place_of c) (sort_of code) bit w.at)) }
{
    if bit == 0 {
        return w;
    }
    let class = code / 32;
    let p = w.at;
    match class {
        CHILD => node(w, t, out, list, work, c),
        CHOSEN => node(w, t, out, list, work, c),
        MANY => items(
            w.copy(t, out, step(t, p, 2)),
            t,
            out,
            list,
            work,
            c,
            wide_at(t, p),
            false,
            l,
        ),
        GAPS => items(
            w.copy(t, out, step(t, p, 2)),
            t,
            out,
            list,
            work,
            c,
            wide_at(t, p),
            true,
            l,
        ),
        _ => w.copy(t, out, skip_slot(t, code, bit, c.left, p)),
    }
}

// Items; l says whether they are containing statements.
#[cycle(writing)]
fn items(
    w: Walk,
    t: &[u8],
    out: &mut [u8],
    list: &mut [u8],
    work: &mut [u8],
    c: Place,
    count: usize,
    holes: bool,
    l: bool,
) -> Walk
    ensures { (result.at ≡ (look_items t.now (look_node t.now c.left) holes count w.at).next) × (GoodItems t.now (look_node t.now c.left) (Good t.now c.left) l holes count w.at → Does (going_of out.old list.old work.old w) (going_of out.new list.new work.new result) (emits_items l (place_of c) (look_items t.now (look_node t.now c.left) holes count w.at).value)) }
{
    let mut v = w;
    for _ in 0..count {
        v = item(v, t, out, list, work, c, holes, l);
    }
    v
}

#[cycle(writing)]
fn item(
    w: Walk,
    t: &[u8],
    out: &mut [u8],
    list: &mut [u8],
    work: &mut [u8],
    c: Place,
    holes: bool,
    l: bool,
) -> Walk
    ensures { (result.at ≡ (look_item t.now (look_node t.now c.left) holes w.at).next) × (GoodItem t.now (look_node t.now c.left) (Good t.now c.left) l holes w.at → Does (going_of out.old list.old work.old w) (going_of out.new list.new work.new result) (item_deeds t.now (look_node t.now c.left) l (place_of c) holes w.at)) }
{
    let p = w.at;
    if holes && peek(t, p) == 0 {
        return w.copy(t, out, step(t, p, 1));
    }
    if l {
        return node(w, t, out, list, work, marked(c, wide_at(t, step(t, p, 2))));
    }
    node(w, t, out, list, work, c)
}

// ---- lists by a mode

// The items of a list. The modes of what has rests are told `root` (`is_told`); in any other it plays no part.
#[cycle(writing)]
fn turns(
    w: Walk,
    t: &[u8],
    out: &mut [u8],
    list: &mut [u8],
    work: &mut [u8],
    c: Place,
    root: bool,
    mode: Mode,
    holes: bool,
    count: usize,
) -> Walk
    ensures { GoodItems t.now (look_node t.now c.left) (Good t.now c.left) false holes count w.at → AllSuit mode (look_items t.now (look_node t.now c.left) holes count w.at).value → (result.at ≡ (look_items t.now (look_node t.now c.left) holes count w.at).next) × Does (going_of out.old list.old work.old w) (going_of out.new list.new work.new result) (turns_of mode (told_place mode root c) (look_items t.now (look_node t.now c.left) holes count w.at).value) }
{
    let mut v = w;
    for _ in 0..count {
        v = turn(v, t, out, list, work, c, root, mode, holes);
    }
    v
}

// One of them, or a hole.
#[cycle(writing)]
fn turn(
    w: Walk,
    t: &[u8],
    out: &mut [u8],
    list: &mut [u8],
    work: &mut [u8],
    c: Place,
    root: bool,
    mode: Mode,
    holes: bool,
) -> Walk
    ensures { GoodItem t.now (look_node t.now c.left) (Good t.now c.left) false holes w.at → (hole_at t.now holes w.at ≡ false → suits mode (look_node t.now c.left w.at).value ≡ true) → (result.at ≡ (look_item t.now (look_node t.now c.left) holes w.at).next) × Does (going_of out.old list.old work.old w) (going_of out.new list.new work.new result) (spot_deeds t.now (look_node t.now c.left) mode (told_place mode root c) holes w.at) }
{
    if holes && peek(t, w.at) == 0 {
        return hole(w, t, out, mode);
    }
    match mode {
        Mode::Viewed => view(w, t, out, list, work, c, View::Replacing),
        Mode::MovedOut => moved_out(w, t, out, list, work, c),
        Mode::Below(d) => deep(w, t, out, list, work, c, root, d),
        Mode::Property(taken) => view_property(w, t, out, list, work, c, taken),
        Mode::ExcludedKey => excluded_key(w, t, out, list, work, c),
        Mode::KeyValue => key_value(w, t, out, list, work, c),
        Mode::Value(d) => deep_value(w, t, out, list, work, c, root, d),
        Mode::Declarator => declarator(w, t, out, list, work, c, root),
        Mode::Binding => binding(w, t, out, list, work, c),
    }
}

// ---- patterns in a view

#[cycle(writing)]
fn view(
    w: Walk,
    t: &[u8],
    out: &mut [u8],
    list: &mut [u8],
    work: &mut [u8],
    c: Place,
    v: View,
) -> Walk
    ensures { Emitted t.now c.left w.at result.at (going_of out.old list.old work.old w) (going_of out.new list.new work.new result) (emits_view (place_of c) (view_of v)) }
{
    if c.left == 0 {
        return w;
    }
    let kind = peek(t, w.at);
    match kind {
        kinds::OBJECT_PATTERN => view_object(w, t, out, list, work, c, v),
        kinds::ARRAY_PATTERN => view_array(w, t, out, list, work, c, v),
        kinds::DEFAULT => {
            let left = less(c.left);
            let u = w.copy(t, out, step(t, w.at, 2));
            let u = view(u, t, out, list, work, inside(c, left), View::Replacing);
            node(u, t, out, list, work, inside(c, left))
        }
        _ => node(w, t, out, list, work, c),
    }
}

// An object pattern: replaced, or without its rest.
#[cycle(writing)]
fn view_object(
    w: Walk,
    t: &[u8],
    out: &mut [u8],
    list: &mut [u8],
    work: &mut [u8],
    c: Place,
    v: View,
) -> Walk
    ensures { byte_at t.now w.at ≡ 34 → Emitted t.now c.left w.at result.at (going_of out.old list.old work.old w) (going_of out.new list.new work.new result) (emits_view (place_of c) (view_of v)) }
{
    if c.left == 0 {
        return w;
    }
    let p = w.at;
    let left = less(c.left);
    let rest = has_second(t, p);
    if rest && replaces(v) {
        return w
            .temporary(out, list, work, p, stems::PLACE)
            .to(skip(t, c.left, p));
    }
    let q = step(t, p, 2);
    let n = wide_at(t, q);
    let u = w
        .put2(out, written::OBJECT_PATTERN, written::FIRST)
        .wide(out, n)
        .to(step(t, q, 2));
    let u = turns(
        u,
        t,
        out,
        list,
        work,
        inside(c, left),
        false,
        Mode::Property(rest),
        false,
        n,
    );
    if rest {
        return u.to(skip(t, left, u.at));
    }
    u
}

// An array pattern; its rest as it stands.
#[cycle(writing)]
fn view_array(
    w: Walk,
    t: &[u8],
    out: &mut [u8],
    list: &mut [u8],
    work: &mut [u8],
    c: Place,
    v: View,
) -> Walk
    ensures { byte_at t.now w.at ≡ 36 → Emitted t.now c.left w.at result.at (going_of out.old list.old work.old w) (going_of out.new list.new work.new result) (emits_view (place_of c) (view_of v)) }
{
    if c.left == 0 {
        return w;
    }
    let p = w.at;
    let left = less(c.left);
    let q = step(t, p, 2);
    let n = wide_at(t, q);
    let u = w.copy(t, out, step(t, q, 2));
    let u = turns(
        u,
        t,
        out,
        list,
        work,
        inside(c, left),
        false,
        Mode::Viewed,
        true,
        n,
    );
    if has_second(t, p) {
        return node(u, t, out, list, work, inside(c, left));
    }
    u
}

// A property: its key, its value, its flags. A quiet one with a static key is its own view.
#[cycle(writing)]
fn view_property(
    w: Walk,
    t: &[u8],
    out: &mut [u8],
    list: &mut [u8],
    work: &mut [u8],
    c: Place,
    taken: bool,
) -> Walk
    ensures { byte_at t.now w.at ≡ 35 → Emitted t.now c.left w.at result.at (going_of out.old list.old work.old w) (going_of out.new list.new work.new result) (emits_property (place_of c) taken replacing) }
{
    let p = w.at;
    if quiet(t, p) && peek(t, step(t, p, 2)) == kinds::STATIC_KEY {
        return w.copy(t, out, skip(t, c.left, p));
    }
    let left = less(c.left);
    let u = key(
        w.copy(t, out, step(t, p, 2)),
        t,
        out,
        list,
        work,
        inside(c, left),
        taken,
        p,
    );
    let u = view(u, t, out, list, work, inside(c, left), View::Replacing);
    u.copy(t, out, step(t, u.at, 1))
}

// A key; where the rest is taken it may become a temporary.
#[cycle(writing)]
fn key(
    w: Walk,
    t: &[u8],
    out: &mut [u8],
    list: &mut [u8],
    work: &mut [u8],
    c: Place,
    taken: bool,
    property: usize,
) -> Walk
    ensures { Emitted t.now c.left w.at result.at (going_of out.old list.old work.old w) (going_of out.new list.new work.new result) (emits_key (place_of c) taken property) }
{
    if taken && is_other(t, c.left, w.at) {
        return w
            .temporary(out, list, work, property, stems::KEY)
            .to(skip(t, c.left, w.at));
    }
    node(w, t, out, list, work, c)
}

// ---- the value of a rest

// That of the object pattern at p, read from b, which is settled. The pattern was written before: once the tree is full its keys are not written again.
#[cycle(writing)]
fn rest(
    w: Walk,
    t: &[u8],
    out: &mut [u8],
    list: &mut [u8],
    work: &mut [u8],
    c: Place,
    root: bool,
    p: usize,
    b: ReferenceBuilder,
) -> Sourced
    ensures { (result.walk.at ≡ w.at) × Keeps b result.next × (Settled b → Good t.now c.left p → byte_at t.now p ≡ 34 → Clear (going_of out.old list.old work.old w) (emits_rest (place_with root c) p (properties (look_node t.now c.left p).value) (source_of t.now b)) → Does (going_of out.old list.old work.old w) (going_of out.new list.new work.new result.walk) (emits_rest (place_with root c) p (properties (look_node t.now c.left p).value) (source_of t.now b))) }
{
    if w.passes(true) {
        return Sourced { walk: w, next: b };
    }
    if has_no_properties(t, c.left, p) {
        let s = source(w.empty_rest(out), t, out, list, work, b);
        return source(s.walk, t, out, list, work, s.next);
    }
    let s = source(
        w.call(out, helpers::OBJECT_WITHOUT_PROPERTIES, 2),
        t,
        out,
        list,
        work,
        b,
    );
    let next = s.next;
    let u = read(s.walk, t, out, list, work, inside(c, c.left), root, p);
    Sourced { walk: u, next }
}

// The keys that are left out: a temporary, their array, or that array mapped by the helper.
#[cycle(writing)]
fn read(
    w: Walk,
    t: &[u8],
    out: &mut [u8],
    list: &mut [u8],
    work: &mut [u8],
    c: Place,
    root: bool,
    p: usize,
) -> Walk
    ensures { (result.at ≡ w.at) × (Good t.now c.left p → byte_at t.now p ≡ 34 → Does (going_of out.old list.old work.old w) (going_of out.new list.new work.new result) (emits_keys_read (place_with root c) p (properties (look_node t.now c.left p).value))) }
{
    if hoisted(t, c.left, root, p) {
        return w.temporary(out, list, work, cell(stems::EXCLUDED, p), stems::EXCLUDED);
    }
    if all_primitive(t, c.left, p) {
        return keys(w, t, out, list, work, c, root, p);
    }
    let u = w
        .put2(out, written::CALL, written::FIRST_TWO)
        .put2(out, written::MEMBER, written::FIRST_TWO);
    keys(u, t, out, list, work, c, root, p).mapped(out)
}

#[cycle(writing)]
fn keys(
    w: Walk,
    t: &[u8],
    out: &mut [u8],
    list: &mut [u8],
    work: &mut [u8],
    c: Place,
    root: bool,
    p: usize,
) -> Walk
    ensures { (result.at ≡ w.at) × (Good t.now c.left p → byte_at t.now p ≡ 34 → Does (going_of out.old list.old work.old w) (going_of out.new list.new work.new result) (emits_keys (place_with root c) (properties (look_node t.now c.left p).value))) }
{
    if c.left == 0 {
        return w;
    }
    let at = w.at;
    let q = step(t, p, 2);
    let n = wide_at(t, q);
    let k = excluded_keys(t, c.left, p);
    let u = w
        .put2(out, written::ARRAY, written::FIRST)
        .wide(out, k)
        .to(step(t, q, 2));
    turns(
        u,
        t,
        out,
        list,
        work,
        told_under(c, root, less(c.left)),
        root,
        Mode::ExcludedKey,
        false,
        n,
    )
    .to(at)
}

// The key of a property among them.
#[cycle(writing)]
fn excluded_key(
    w: Walk,
    t: &[u8],
    out: &mut [u8],
    list: &mut [u8],
    work: &mut [u8],
    c: Place,
) -> Walk
    ensures { byte_at t.now w.at ≡ 35 → Emitted t.now c.left w.at result.at (going_of out.old list.old work.old w) (going_of out.new list.new work.new result) (emits_excluded (place_of c)) }
{
    let p = w.at;
    let left = less(c.left);
    let end = skip(t, c.left, p);
    let k = step(t, p, 2);
    let sort = key_sort(t, left, k);
    match sort {
        KeyClass::AsString => string(w, t, out, left, k).to(end),
        KeyClass::AsItStands => node(w.to(k), t, out, list, work, under(c, left)).to(end),
        KeyClass::LeftOut => w.to(end),
        KeyClass::AsTemporary => w.temporary(out, list, work, p, stems::KEY).to(end),
    }
}

// The declarator of the temporary for a key.
#[cycle(writing)]
fn key_value(w: Walk, t: &[u8], out: &mut [u8], list: &mut [u8], work: &mut [u8], c: Place) -> Walk
    ensures { byte_at t.now w.at ≡ 35 → Emitted t.now c.left w.at result.at (going_of out.old list.old work.old w) (going_of out.new list.new work.new result) (emits_key_value (place_of c)) }
{
    let p = w.at;
    let left = less(c.left);
    let end = skip(t, c.left, p);
    let k = step(t, p, 2);
    if is_other(t, left, k) {
        let u = w
            .put2(out, written::DECLARATOR, written::FIRST_TWO)
            .temporary(out, list, work, p, stems::KEY)
            .to(k);
        return node(u, t, out, list, work, inside(c, left)).to(end);
    }
    w.to(end)
}

// ---- what is below a pattern, by a mode: the declarators that are found, or the assignments of the objects that are found

#[cycle(writing)]
fn deep(
    w: Walk,
    t: &[u8],
    out: &mut [u8],
    list: &mut [u8],
    work: &mut [u8],
    c: Place,
    root: bool,
    mode: Deep,
) -> Walk
    ensures { Good t.now c.left w.at → deep_suits mode (look_node t.now c.left w.at).value ≡ true → (result.at ≡ (look_node t.now c.left w.at).next) × Does (going_of out.old list.old work.old w) (going_of out.new list.new work.new result) (deep_of mode (place_with root c) (look_node t.now c.left w.at).value) }
{
    if c.left == 0 {
        return w;
    }
    let kind = peek(t, w.at);
    match kind {
        kinds::OBJECT_PATTERN => deep_object(w, t, out, list, work, c, root, mode),
        kinds::ARRAY_PATTERN => deep_array(w, t, out, list, work, c, root, mode),
        kinds::DEFAULT => {
            let left = less(c.left);
            let u = w.to(step(t, w.at, 2));
            let u = deep(u, t, out, list, work, under(c, left), root, mode);
            u.to(skip(t, left, u.at))
        }
        _ => w.to(skip(t, c.left, w.at)),
    }
}

// The object itself, or its values.
#[cycle(writing)]
fn deep_object(
    w: Walk,
    t: &[u8],
    out: &mut [u8],
    list: &mut [u8],
    work: &mut [u8],
    c: Place,
    root: bool,
    mode: Deep,
) -> Walk
    ensures { byte_at t.now w.at ≡ 34 → (Good t.now c.left w.at → deep_suits mode (look_node t.now c.left w.at).value ≡ true → (result.at ≡ (look_node t.now c.left w.at).next) × Does (going_of out.old list.old work.old w) (going_of out.new list.new work.new result) (deep_of mode (place_with root c) (look_node t.now c.left w.at).value)) }
{
    if c.left == 0 {
        return w;
    }
    match mode {
        Deep::Found => found_object(w, t, out, list, work, c, root),
        Deep::Reached(reach) => {
            let p = w.at;
            if has_second(t, p) {
                let end = skip(t, c.left, p);
                if !counts(reach) {
                    return w.to(end);
                }
                return top(
                    w,
                    t,
                    out,
                    list,
                    work,
                    inside(c, c.left),
                    root,
                    p,
                    false,
                    stems::PLACE,
                    cell(stems::PLACE, p),
                )
                .to(end);
            }
            object_properties(w, t, out, list, work, c, root, p, Mode::Value(mode))
        }
    }
}

// The declarators of an object with rest, then those of its values.
#[cycle(writing)]
fn found_object(
    w: Walk,
    t: &[u8],
    out: &mut [u8],
    list: &mut [u8],
    work: &mut [u8],
    c: Place,
    root: bool,
) -> Walk
    ensures { byte_at t.now w.at ≡ 34 → Emitted t.now c.left w.at result.at (going_of out.old list.old work.old w) (going_of out.new list.new work.new result) (emits_found (place_with root c)) }
{
    if c.left == 0 {
        return w;
    }
    let p = w.at;
    let left = less(c.left);
    let q = step(t, p, 2);
    let n = wide_at(t, q);
    let first = step(t, q, 2);
    if has_second(t, p) {
        let s = own_keys(
            w,
            t,
            out,
            list,
            work,
            c,
            root,
            ReferenceBuilder::held(cell(stems::PLACE, p), stems::PLACE),
        );
        let u = own_rest(s.walk, t, out, list, work, c, root, s.next);
        let u = turns(
            u.to(first),
            t,
            out,
            list,
            work,
            under(c, left),
            root,
            Mode::Value(Deep::Found),
            false,
            n,
        );
        return u.to(skip(t, left, u.at));
    }
    turns(
        w.to(first),
        t,
        out,
        list,
        work,
        under(c, left),
        root,
        Mode::Value(Deep::Found),
        false,
        n,
    )
}

#[cycle(writing)]
fn deep_array(
    w: Walk,
    t: &[u8],
    out: &mut [u8],
    list: &mut [u8],
    work: &mut [u8],
    c: Place,
    root: bool,
    mode: Deep,
) -> Walk
    ensures { byte_at t.now w.at ≡ 36 → (Good t.now c.left w.at → deep_suits mode (look_node t.now c.left w.at).value ≡ true → (result.at ≡ (look_node t.now c.left w.at).next) × Does (going_of out.old list.old work.old w) (going_of out.new list.new work.new result) (deep_of mode (place_with root c) (look_node t.now c.left w.at).value)) }
{
    if c.left == 0 {
        return w;
    }
    let end = skip(t, c.left, w.at);
    if !enters_arrays(mode) {
        return w.to(end);
    }
    let q = step(t, w.at, 2);
    let n = wide_at(t, q);
    turns(
        w.to(step(t, q, 2)),
        t,
        out,
        list,
        work,
        under(c, less(c.left)),
        root,
        item_mode(mode),
        true,
        n,
    )
    .to(end)
}

// The same for the value of a property. Below that of a quiet one there is nothing.
#[cycle(writing)]
fn deep_value(
    w: Walk,
    t: &[u8],
    out: &mut [u8],
    list: &mut [u8],
    work: &mut [u8],
    c: Place,
    root: bool,
    mode: Deep,
) -> Walk
    ensures { byte_at t.now w.at ≡ 35 → Good t.now c.left w.at → deep_suits mode (value (look_node t.now c.left w.at).value) ≡ true → (result.at ≡ (look_node t.now c.left w.at).next) × Does (going_of out.old list.old work.old w) (going_of out.new list.new work.new result) (deep_of mode (place_with root c) (value (look_node t.now c.left w.at).value)) }
{
    if quiet(t, w.at) {
        return w.to(skip(t, c.left, w.at));
    }
    let left = less(c.left);
    let v = skip(t, left, step(t, w.at, 2));
    let u = deep(w.to(v), t, out, list, work, under(c, left), root, mode);
    u.to(step(t, u.at, 1))
}

// ---- declarations

// A declaration: what it hands out, its declarators.
#[cycle(writing)]
fn declaration(
    w: Walk,
    t: &[u8],
    out: &mut [u8],
    list: &mut [u8],
    work: &mut [u8],
    c: Place,
) -> Walk
    ensures { byte_at t.now w.at ≡ 4 → Ruled t.now c.left w.at result.at (going_of out.old list.old work.old w) (going_of out.new list.new work.new result) (emits (place_of c)) }
{
    let root = at_root(c);
    if c.left == 0 {
        return w;
    }
    let p = w.at;
    if let Some(r) = declaration_refusal(t, c.left, p) {
        return w.refuse(out, u8::from(r)).to(skip(t, c.left, p));
    }
    let u = declaration_hands(w, t, list, work, c.left, p, root);
    let q = step(t, p, 5);
    let k = declaration_becomes(t, c.left, p);
    let u = u.copy(t, out, q).wide(out, k).to(step(t, q, 2));
    let end = skip(t, c.left, p);
    turns(
        u,
        t,
        out,
        list,
        work,
        under(c, less(c.left)),
        root,
        Mode::Declarator,
        false,
        wide_at(t, q),
    )
    .to(end)
}

// A declarator: as it stands without a starting value or an object rest.
#[cycle(writing)]
fn declarator(
    w: Walk,
    t: &[u8],
    out: &mut [u8],
    list: &mut [u8],
    work: &mut [u8],
    c: Place,
    root: bool,
) -> Walk
    ensures { byte_at t.now w.at ≡ 5 → Emitted t.now c.left w.at result.at (going_of out.old list.old work.old w) (going_of out.new list.new work.new result) (emits_declarator (place_with root c)) }
{
    let p = w.at;
    let left = less(c.left);
    let id = step(t, p, 2);
    let Some(init) = start_of(t, c.left, p) else {
        return node(w, t, out, list, work, told_inside(c, root, c.left));
    };
    if has_nested_object_rest(t, left, id) {
        let end = skip(t, left, init);
        let b = ReferenceBuilder::new(t, left, init, cell(stems::VALUE, id), stems::VALUE, false);
        return lowered(w, t, out, list, work, under(c, left), root, id, init, b).to(end);
    }
    node(w, t, out, list, work, told_inside(c, root, c.left))
}

// A value that is no name goes into a temporary first: it is what the first read gives.
#[cycle(writing)]
fn lowered(
    w: Walk,
    t: &[u8],
    out: &mut [u8],
    list: &mut [u8],
    work: &mut [u8],
    c: Place,
    root: bool,
    id: usize,
    init: usize,
    b: ReferenceBuilder,
) -> Walk
    ensures { b ≡ builder_of t.now c.left init (events.cell 3 id) 3 false → Good t.now c.left id → Good t.now c.left init → Does (going_of out.old list.old work.old w) (going_of out.new list.new work.new result) (emits_lowered (place_with root c) (look_node t.now c.left id).value (look_node t.now c.left init).value) }
{
    match b {
        ReferenceBuilder::Wanted {
            cell: kept,
            stem,
            ..
        } => {
            let taken = b.create_read_expression();
            let u = w
                .put2(out, written::DECLARATOR, written::FIRST_TWO)
                .temporary(out, list, work, kept, stem)
                .to(place_of(taken.read));
            let u = node(u, t, out, list, work, told_inside(c, root, c.left));
            declarators(u.to(id), t, out, list, work, c, root, taken.next)
        }
        _ => declarators(w.to(id), t, out, list, work, c, root, b),
    }
}

// The declarators of a pattern, read from b.
#[cycle(writing)]
fn declarators(
    w: Walk,
    t: &[u8],
    out: &mut [u8],
    list: &mut [u8],
    work: &mut [u8],
    c: Place,
    root: bool,
    b: ReferenceBuilder,
) -> Walk
    ensures { Settled b → Done t.now c.left w.at (going_of out.old list.old work.old w) (going_of out.new list.new work.new result) (λ n. emits_pattern (place_with root c) n (source_of t.now b)) }
{
    if c.left == 0 {
        return w;
    }
    let kind = peek(t, w.at);
    match kind {
        kinds::OBJECT_PATTERN => {
            let p = w.at;
            let q = step(t, p, 2);
            let n = wide_at(t, q);
            let s = own_keys(w, t, out, list, work, c, root, b);
            let v = s.walk;
            let u = v.to(step(t, q, 2));
            let u = turns(
                u,
                t,
                out,
                list,
                work,
                under(c, less(c.left)),
                root,
                Mode::Value(Deep::Found),
                false,
                n,
            )
            .to(p);
            own_rest(u, t, out, list, work, c, root, s.next)
        }
        kinds::ARRAY_PATTERN => {
            let p = w.at;
            let u = view(
                w.put2(out, written::DECLARATOR, written::FIRST_TWO),
                t,
                out,
                list,
                work,
                told_inside(c, root, c.left),
                View::Replacing,
            );
            let s = source(u, t, out, list, work, b);
            let v = s.walk;
            let u = v.to(p);
            deep(u, t, out, list, work, c, root, Deep::Found)
        }
        _ => w,
    }
}

// An object's keys, if its rest is taken, and its pattern.
#[cycle(writing)]
fn own_keys(
    w: Walk,
    t: &[u8],
    out: &mut [u8],
    list: &mut [u8],
    work: &mut [u8],
    c: Place,
    root: bool,
    b: ReferenceBuilder,
) -> Sourced
    ensures { (result.walk.at ≡ w.at) × Keeps b result.next × (byte_at t.now w.at ≡ 34 → Good t.now c.left w.at → Does (going_of out.old list.old work.old w) (going_of out.new list.new work.new result.walk) (emits_own_keys (place_with root c) (look_node t.now c.left w.at).value ▷ emits_own_pattern (place_with root c) (look_node t.now c.left w.at).value (source_of t.now b))) }
{
    if c.left == 0 {
        return Sourced { walk: w, next: b };
    }
    let p = w.at;
    if has_second(t, p) {
        let q = step(t, p, 2);
        let n = wide_at(t, q);
        let u = turns(
            w.to(step(t, q, 2)),
            t,
            out,
            list,
            work,
            told_inside(c, root, less(c.left)),
            root,
            Mode::KeyValue,
            false,
            n,
        );
        return own_pattern(u.to(p), t, out, list, work, c, root, b);
    }
    own_pattern(w, t, out, list, work, c, root, b)
}

#[cycle(writing)]
fn own_pattern(
    w: Walk,
    t: &[u8],
    out: &mut [u8],
    list: &mut [u8],
    work: &mut [u8],
    c: Place,
    root: bool,
    b: ReferenceBuilder,
) -> Sourced
    ensures { (result.walk.at ≡ w.at) × Keeps b result.next × (byte_at t.now w.at ≡ 34 → Good t.now c.left w.at → Does (going_of out.old list.old work.old w) (going_of out.new list.new work.new result.walk) (emits_own_pattern (place_with root c) (look_node t.now c.left w.at).value (source_of t.now b))) }
{
    let p = w.at;
    if has_no_properties(t, c.left, p) {
        return Sourced { walk: w, next: b };
    }
    let u = view(
        w.put2(out, written::DECLARATOR, written::FIRST_TWO),
        t,
        out,
        list,
        work,
        told_inside(c, root, c.left),
        View::Taking,
    );
    let s = source(u, t, out, list, work, b);
    Sourced {
        walk: s.walk.to(p),
        next: s.next,
    }
}

// Its rest.
#[cycle(writing)]
fn own_rest(
    w: Walk,
    t: &[u8],
    out: &mut [u8],
    list: &mut [u8],
    work: &mut [u8],
    c: Place,
    root: bool,
    b: ReferenceBuilder,
) -> Walk
    ensures { (result.at ≡ w.at) × (byte_at t.now w.at ≡ 34 → Good t.now c.left w.at → Settled b → Clear (going_of out.old list.old work.old w) (emits_own_keys (place_with root c) (look_node t.now c.left w.at).value ▷ emits_own_pattern (place_with root c) (look_node t.now c.left w.at).value (source_of t.now b)) → Does (going_of out.old list.old work.old w) (going_of out.new list.new work.new result) (emits_own_rest (place_with root c) (look_node t.now c.left w.at).value (source_of t.now b))) }
{
    let p = w.at;
    if has_second(t, p) {
        let left = less(c.left);
        let q = step(t, p, 2);
        let r = skip_items(t, false, wide_at(t, q), left, step(t, q, 2));
        let u = node(
            w.put2(out, written::DECLARATOR, written::FIRST_TWO).to(r),
            t,
            out,
            list,
            work,
            told_inside(c, root, left),
        );
        let s = rest(u, t, out, list, work, inside(c, c.left), root, p, b);
        return s.walk.to(p);
    }
    w
}

// ---- assignments

// An assignment.
#[cycle(writing)]
fn assignment(w: Walk, t: &[u8], out: &mut [u8], list: &mut [u8], work: &mut [u8], c: Place) -> Walk
    ensures { byte_at t.now w.at ≡ 27 → Ruled t.now c.left w.at result.at (going_of out.old list.old work.old w) (going_of out.new list.new work.new result) (emits (place_of c)) }
{
    let root = at_root(c);
    let p = w.at;
    let left = less(c.left);
    let q = step(t, p, 3);
    if has_rest_below_array_rest(t, left, q) {
        return w.refuse(out, REST_BELOW_ARRAY_REST).to(skip(t, c.left, p));
    }
    if has_nested_object_rest(t, left, q) {
        let v = skip(t, left, q);
        let op = low(peek(t, step(t, p, 2)));
        return assignment_to(w, t, out, list, work, under(c, left), root, op, q, true, v).to(skip(
            t, c.left, p,
        ));
    }
    plain(w, t, out, list, work, c)
}

// The assignment to the target at p, which has an object rest below it: of the expression at x, or of the temporary in place of a
// pattern, in the cell x.
#[cycle(writing)]
fn assignment_to(
    w: Walk,
    t: &[u8],
    out: &mut [u8],
    list: &mut [u8],
    work: &mut [u8],
    c: Place,
    root: bool,
    op: u8,
    p: usize,
    input: bool,
    x: usize,
) -> Walk
    ensures { Good t.now c.left p → (input ≡ true → Good t.now c.left x) → has_array_rest_over_object_rest (look_node t.now c.left p).value ≡ false → has_object_rest (look_node t.now c.left p).value ≡ true → Does (going_of out.old list.old work.old w) (going_of out.new list.new work.new result) (emits (place_with root c) (assignment_at 0 op (look_node t.now c.left p).value (given_node t.now c.left input x))) }
{
    if peek(t, p) == kinds::OBJECT_PATTERN && has_second(t, p) {
        return top(w, t, out, list, work, c, root, p, input, stems::PLACE, x);
    }
    nested(
        w,
        t,
        out,
        list,
        work,
        c,
        root,
        View::Replacing,
        op,
        p,
        input,
        stems::PLACE,
        x,
    )
}

// The target is an object with rest: of an assignment, or of an object's own, from the temporary in its place. Its source is forced: the
// first read gives what is assigned, which goes into a temporary; later ones give that.
#[cycle(writing)]
fn top(
    w: Walk,
    t: &[u8],
    out: &mut [u8],
    list: &mut [u8],
    work: &mut [u8],
    c: Place,
    root: bool,
    p: usize,
    input: bool,
    stem: u8,
    x: usize,
) -> Walk
    ensures { byte_at t.now p ≡ 34 → has_rest_of (look_node t.now c.left p).value ≡ true → Good t.now c.left p → (input ≡ true → Good t.now c.left x) → has_array_rest_over_object_rest (look_node t.now c.left p).value ≡ false → Does (going_of out.old list.old work.old w) (going_of out.new list.new work.new result) (unless_refused (keys_refusal (look_node t.now c.left p).value) (emits_top (place_with root c) (look_node t.now c.left p).value (given_deeds t.now c.left (inner (place_with root c)) input stem x))) }
{
    if let Some(r) = refusal(t, c.left, p) {
        return w.refuse(out, u8::from(r));
    }
    let v = cell(stems::VALUE, p);
    let b = ReferenceBuilder::new(t, c.left, x, v, stems::VALUE, true);
    let first = b.create_read_expression();
    let given = first.read;
    let y = place_of(given);
    let d = told_inside(c, root, c.left);
    let u = top_hands(w, t, list, work, c.left, p, root, c.mark);
    let k = top_count(t, c.left, p, c.statement);
    let u = u
        .put2(out, written::SEQUENCE, written::FIRST)
        .wide(out, k)
        .assign(out, ASSIGNS)
        .temporary(out, list, work, v, stems::VALUE);
    let u = given_value(u, t, out, list, work, d, input, stem, y);
    let s = target(u, t, out, list, work, c, root, p, first.next);
    let u = object_properties(
        s.walk,
        t,
        out,
        list,
        work,
        c,
        root,
        p,
        Mode::Value(Deep::Reached(Reach::Straight)),
    );
    let u = node(
        u.assign(out, ASSIGNS),
        t,
        out,
        list,
        work,
        told_inside(c, root, less(c.left)),
    );
    let s = rest(u, t, out, list, work, d, root, p, s.next);
    if c.statement {
        return s.walk;
    }
    source(s.walk, t, out, list, work, s.next).walk
}

// What is assigned: the expression at x, or the temporary of the cell x with its stem.
#[cycle(writing)]
fn given_value(
    w: Walk,
    t: &[u8],
    out: &mut [u8],
    list: &mut [u8],
    work: &mut [u8],
    c: Place,
    input: bool,
    stem: u8,
    x: usize,
) -> Walk
    ensures { (input ≡ true → Good t.now c.left x) → Does (going_of out.old list.old work.old w) (going_of out.new list.new work.new result) (given_deeds t.now c.left (place_of c) input stem x) }
{
    if input {
        return node(w.to(x), t, out, list, work, c);
    }
    w.temporary(out, list, work, x, stem)
}

// The target without its rest, from b.
#[cycle(writing)]
fn target(
    w: Walk,
    t: &[u8],
    out: &mut [u8],
    list: &mut [u8],
    work: &mut [u8],
    c: Place,
    root: bool,
    p: usize,
    b: ReferenceBuilder,
) -> Sourced
    ensures { Keeps b result.next × (read_of b ≡ Given.temporary (cell_at 3 p) 3 → byte_at t.now p ≡ 34 → Good t.now c.left p → has_array_rest_over_object_rest (look_node t.now c.left p).value ≡ false → Does (going_of out.old list.old work.old w) (going_of out.new list.new work.new result.walk) (emits_target (place_with root c) (look_node t.now c.left p).value)) }
{
    let d = told_inside(c, root, c.left);
    if 0 < object_count(t, c.left, p, Reach::InArrays) {
        let taken = b.create_read_expression();
        let read = taken.read;
        let next = taken.next;
        let x = place_of(read);
        let u = nested(
            w,
            t,
            out,
            list,
            work,
            d,
            root,
            View::Taking,
            ASSIGNS,
            p,
            false,
            stems::VALUE,
            x,
        );
        return Sourced { walk: u, next };
    }
    let u = view(
        w.assign(out, ASSIGNS).to(p),
        t,
        out,
        list,
        work,
        d,
        View::Taking,
    );
    source(u, t, out, list, work, b)
}

// Objects with rest replaced, then an assignment for each.
#[cycle(writing)]
fn nested(
    w: Walk,
    t: &[u8],
    out: &mut [u8],
    list: &mut [u8],
    work: &mut [u8],
    c: Place,
    root: bool,
    v: View,
    op: u8,
    p: usize,
    input: bool,
    stem: u8,
    x: usize,
) -> Walk
    ensures { (v ≡ Taking → byte_at t.now p ≡ 34) → Good t.now c.left p → (input ≡ true → Good t.now c.left x) → has_array_rest_over_object_rest (look_node t.now c.left p).value ≡ false → Does (going_of out.old list.old work.old w) (going_of out.new list.new work.new result) (emits_nest (place_with root c) (view_of v) op (look_node t.now c.left p).value (given_deeds t.now c.left (inner (place_with root c)) input stem x)) }
{
    let k = places_in(t, c.left, p, v);
    let u = nested_hands(w, t, list, work, c.left, p, v, c.mark);
    let u = u
        .put2(out, written::SEQUENCE, written::FIRST)
        .wide(out, plus(k, 1))
        .assign(out, op)
        .to(p);
    let u = view(u, t, out, list, work, told_inside(c, root, c.left), v);
    let u = given_value(
        u,
        t,
        out,
        list,
        work,
        told_inside(c, root, c.left),
        input,
        stem,
        x,
    );
    match v {
        View::Replacing => deep(
            u.to(p),
            t,
            out,
            list,
            work,
            c,
            root,
            Deep::Reached(Reach::Anywhere),
        ),
        View::Taking => object_properties(
            u,
            t,
            out,
            list,
            work,
            c,
            root,
            p,
            Mode::Value(Deep::Reached(Reach::InArrays)),
        ),
    }
}

// The properties of the object at p, by a mode.
#[cycle(writing)]
fn object_properties(
    w: Walk,
    t: &[u8],
    out: &mut [u8],
    list: &mut [u8],
    work: &mut [u8],
    c: Place,
    root: bool,
    p: usize,
    mode: Mode,
) -> Walk
    ensures { is_told mode ≡ true → byte_at t.now p ≡ 34 → Good t.now c.left p → AllSuit mode (properties (look_node t.now c.left p).value) → (result.at ≡ (look_items t.now (look_node t.now (c.left - 1)) false (wide_at t.now (onward t.now p 2)) (onward t.now (onward t.now p 2) 2)).next) × Does (going_of out.old list.old work.old w) (going_of out.new list.new work.new result) (turns_of mode (place_with root c) (properties (look_node t.now c.left p).value)) }
{
    if c.left == 0 {
        return w;
    }
    let q = step(t, p, 2);
    let n = wide_at(t, q);
    turns(
        w.to(step(t, q, 2)),
        t,
        out,
        list,
        work,
        under(c, less(c.left)),
        root,
        mode,
        false,
        n,
    )
}

// ---- parameters, catch, for heads: patterns moved out

// A parameter or a declarator.
#[cycle(writing)]
fn binding(w: Walk, t: &[u8], out: &mut [u8], list: &mut [u8], work: &mut [u8], c: Place) -> Walk
    ensures { eqb (byte_at t.now w.at) 15 || eqb (byte_at t.now w.at) 5 ≡ true → Emitted t.now c.left w.at result.at (going_of out.old list.old work.old w) (going_of out.new list.new work.new result) (λ q. emits (place_of c) (behind q)) }
{
    let p = w.at;
    let left = less(c.left);
    let q = step(t, p, 2);
    if has_nested_object_rest(t, left, q) {
        let u = moved_out(w.copy(t, out, q), t, out, list, work, inside(c, left));
        return slot(
            u,
            t,
            out,
            list,
            work,
            inside(c, left),
            NODE_FIELD,
            second(t, p),
            false,
        );
    }
    node(w, t, out, list, work, c)
}

// A pattern without the parts that are moved out.
#[cycle(writing)]
fn moved_out(w: Walk, t: &[u8], out: &mut [u8], list: &mut [u8], work: &mut [u8], c: Place) -> Walk
    ensures { Emitted t.now c.left w.at result.at (going_of out.old list.old work.old w) (going_of out.new list.new work.new result) (λ p. emits (place_of c) (out_of p)) }
{
    if c.left == 0 {
        return w;
    }
    let p = w.at;
    let left = less(c.left);
    let kind = peek(t, p);
    match kind {
        kinds::OBJECT_PATTERN => w
            .temporary(out, list, work, p, stems::PLACE)
            .to(skip(t, c.left, p)),
        kinds::ARRAY_PATTERN => {
            let q = step(t, p, 2);
            let n = wide_at(t, q);
            let u = w.copy(t, out, step(t, q, 2));
            let u = turns(
                u,
                t,
                out,
                list,
                work,
                inside(c, left),
                false,
                Mode::MovedOut,
                true,
                n,
            );
            if has_second(t, p) {
                return moved_out(u, t, out, list, work, inside(c, left));
            }
            u
        }
        kinds::DEFAULT => {
            let u = w
                .put2(out, written::DEFAULT, written::FIRST_TWO)
                .temporary(out, list, work, p, stems::PLACE);
            let u = u.to(skip(t, left, step(t, p, 2)));
            node(u, t, out, list, work, inside(c, left))
        }
        _ => node(w, t, out, list, work, c),
    }
}

// `let pattern = temporary` for each pattern that is moved out of a list, later ones first, by halves.
#[cycle(writing)]
fn fronts_of_items(
    w: Walk,
    t: &[u8],
    out: &mut [u8],
    list: &mut [u8],
    work: &mut [u8],
    c: Place,
    arrays: bool,
    first: usize,
    n: usize,
) -> Walk
    ensures { place_of c ≡ emit.scoped (place_of c) → GoodItems t.now (look_node t.now c.left) (Good t.now c.left) false arrays n first → AllBind arrays (look_items t.now (look_node t.now c.left) arrays n first).value → Does (going_of out.old list.old work.old w) (going_of out.new list.new work.new result) (fronts (place_of c) (gather (moves_of arrays) (look_items t.now (look_node t.now c.left) arrays n first).value)) }
{
    if n == 0 {
        return w;
    }
    if n == 1 {
        if arrays {
            if peek(t, first) == 0 {
                return w;
            }
            return fronts_of_pattern(w, t, out, list, work, c, first);
        }
        let left = less(c.left);
        let q = step(t, first, 2);
        if has_nested_object_rest(t, left, q) {
            return fronts_of_pattern(w, t, out, list, work, under(c, left), q);
        }
        return w;
    }
    let half = n / 2;
    let mid = skip_items(t, arrays, half, c.left, first);
    let u = fronts_of_items(w, t, out, list, work, c, arrays, mid, n - half);
    fronts_of_items(u, t, out, list, work, c, arrays, first, half)
}

// The same for the patterns that are moved out of the one at p.
#[cycle(writing)]
fn fronts_of_pattern(
    w: Walk,
    t: &[u8],
    out: &mut [u8],
    list: &mut [u8],
    work: &mut [u8],
    c: Place,
    p: usize,
) -> Walk
    ensures { place_of c ≡ emit.scoped (place_of c) → Good t.now c.left p → Does (going_of out.old list.old work.old w) (going_of out.new list.new work.new result) (fronts (place_of c) (moved_in_of (look_node t.now c.left p).value)) }
{
    if c.left == 0 {
        return w;
    }
    let left = less(c.left);
    let kind = peek(t, p);
    match kind {
        kinds::OBJECT_PATTERN => front(w, t, out, list, work, c, p, p),
        kinds::ARRAY_PATTERN => {
            let q = step(t, p, 2);
            let n = wide_at(t, q);
            let first = step(t, q, 2);
            if has_second(t, p) {
                let r = skip_items(t, true, n, left, first);
                let u = fronts_of_pattern(w, t, out, list, work, under(c, left), r);
                return fronts_of_items(u, t, out, list, work, under(c, left), true, first, n);
            }
            fronts_of_items(w, t, out, list, work, under(c, left), true, first, n)
        }
        kinds::DEFAULT => front(w, t, out, list, work, under(c, left), step(t, p, 2), p),
        _ => w,
    }
}

// A new statement: let the pattern at p be the temporary in the place of o.
#[cycle(writing)]
fn front(
    w: Walk,
    t: &[u8],
    out: &mut [u8],
    list: &mut [u8],
    work: &mut [u8],
    c: Place,
    p: usize,
    o: usize,
) -> Walk
    ensures { place_of c ≡ emit.scoped (place_of c) → Good t.now c.left p → o < 16384 → Does (going_of out.old list.old work.old w) (going_of out.new list.new work.new result) (emits_statement (place_of c) (let_of (look_node t.now c.left p).value (made.temporary [] 1 o))) }
{
    let root = at_root(c);
    let d = marked(inside(c, c.left), w.mark());
    if has_nested_object_rest(t, c.left, p) {
        if let Some(r) = refusal_below(t, c.left, p) {
            return w.refuse(out, u8::from(r));
        }
        let u = pattern_hands(w, t, list, work, c.left, p, root);
        let k = pattern_declarators(t, c.left, p);
        let u = u.declaration(out, written::LET, k).to(p);
        return declarators(
            u,
            t,
            out,
            list,
            work,
            d,
            root,
            ReferenceBuilder::held(o, stems::PLACE),
        );
    }
    let u = w
        .declaration(out, written::LET, 1)
        .put2(out, written::DECLARATOR, written::FIRST_TWO)
        .to(p);
    node(u, t, out, list, work, d).temporary(out, list, work, o, stems::PLACE)
}

// A function body with new statements in front.
#[cycle(writing)]
fn function_body(
    w: Walk,
    t: &[u8],
    out: &mut [u8],
    list: &mut [u8],
    work: &mut [u8],
    c: Place,
    first: usize,
    n: usize,
) -> Walk
    ensures { byte_at t.now w.at ≡ 16 → (place_of c ≡ emit.scoped (place_of c) → Good t.now c.left w.at → GoodItems t.now (look_node t.now c.left) (Good t.now c.left) false false n first → AllBind false (look_items t.now (look_node t.now c.left) false n first).value → (result.at ≡ (look_node t.now c.left w.at).next) × Does (going_of out.old list.old work.old w) (going_of out.new list.new work.new result) (emits (place_of c) (body_in (gather moved_from (look_items t.now (look_node t.now c.left) false n first).value) (look_node t.now c.left w.at).value))) }
{
    if c.left == 0 {
        return w;
    }
    let left = less(c.left);
    let p = w.at;
    let more = moved_in(t, c.left, first, n);
    let d = scoped(c, left);
    let u = slot(
        w.copy(t, out, step(t, p, 2)),
        t,
        out,
        list,
        work,
        d,
        LIST_FIELD,
        first_bit(t, p),
        true,
    );
    let q = u.at;
    let k = wide_at(t, q);
    let u = fronts_of_items(
        u.wide(out, k + more),
        t,
        out,
        list,
        work,
        c,
        false,
        first,
        n,
    );
    items(u.to(step(t, q, 2)), t, out, list, work, d, k, false, true)
}

// The block of a catch or a loop, or the statement that becomes one, with new statements in front.
#[cycle(writing)]
fn block_body(
    w: Walk,
    t: &[u8],
    out: &mut [u8],
    list: &mut [u8],
    work: &mut [u8],
    c: Place,
    inner: bool,
    first: usize,
    n: usize,
) -> Walk
    ensures { GoodItem t.now (look_node t.now c.left) (Good t.now c.left) true false w.at → GoodItems t.now (look_node t.now (level_of inner c.left)) (Good t.now (level_of inner c.left)) false false n first → AllBind false (look_items t.now (look_node t.now (level_of inner c.left)) false n first).value → (result.at ≡ (look_node t.now c.left w.at).next) × Does (going_of out.old list.old work.old w) (going_of out.new list.new work.new result) (emits (place_of c) (block_in (gather moved_from (look_items t.now (look_node t.now (level_of inner c.left)) false n first).value) (look_node t.now c.left w.at).value)) }
{
    let p = w.at;
    let left = less(c.left);
    let under = level(c.left, inner);
    let more = moved_in(t, under, first, n);
    let kind = peek(t, p);
    match kind {
        kinds::BLOCK => {
            let q = step(t, p, 4);
            let k = wide_at(t, q);
            let u = fronts_of_items(
                w.copy(t, out, q).wide(out, k + more),
                t,
                out,
                list,
                work,
                scoped(c, under),
                false,
                first,
                n,
            );
            items(
                u.to(step(t, q, 2)),
                t,
                out,
                list,
                work,
                scoped(c, left),
                k,
                false,
                true,
            )
        }
        kinds::EMPTY => {
            let u = fronts_of_items(
                w.block(out, more),
                t,
                out,
                list,
                work,
                scoped(c, under),
                false,
                first,
                n,
            );
            u.to(skip(t, c.left, p))
        }
        _ => {
            let u = fronts_of_items(
                w.block(out, more + 1),
                t,
                out,
                list,
                work,
                scoped(c, under),
                false,
                first,
                n,
            );
            item(u.to(p), t, out, list, work, scoped(c, c.left), false, true)
        }
    }
}

// A function.
#[cycle(writing)]
fn function(w: Walk, t: &[u8], out: &mut [u8], list: &mut [u8], work: &mut [u8], c: Place) -> Walk
    ensures { byte_at t.now w.at ≡ 14 → Ruled t.now c.left w.at result.at (going_of out.old list.old work.old w) (going_of out.new list.new work.new result) (emits (place_of c)) }
{
    let p = w.at;
    let left = less(c.left);
    let d = scoped(c, left);
    if any_moved(t, c.left, p, 3) && stands(t, c.left, p, 5) {
        let q = step(t, p, 5);
        let bits = peek(t, step(t, p, 1));
        let s = skip_slot(t, NODE_FIELD, bits / 4 % 2, left, q);
        let n = wide_at(t, s);
        let first = step(t, s, 2);
        let u = moves_make(w, t, work, left, first, n).copy(t, out, q);
        let u = slot(u, t, out, list, work, d, NODE_FIELD, bits / 4 % 2, false).copy(t, out, first);
        let u = turns(u, t, out, list, work, d, false, Mode::Binding, false, n);
        let u = slot(u, t, out, list, work, d, NODE_FIELD, bits / 16 % 2, false);
        return function_body(u, t, out, list, work, d, first, n).to(skip(t, c.left, p));
    }
    plain(w, t, out, list, work, c)
}

// An arrow function.
#[cycle(writing)]
fn arrow(w: Walk, t: &[u8], out: &mut [u8], list: &mut [u8], work: &mut [u8], c: Place) -> Walk
    ensures { byte_at t.now w.at ≡ 17 → Ruled t.now c.left w.at result.at (going_of out.old list.old work.old w) (going_of out.new list.new work.new result) (emits (place_of c)) }
{
    let p = w.at;
    let left = less(c.left);
    let d = scoped(c, left);
    if any_moved(t, c.left, p, 0) {
        let q = step(t, p, 2);
        let n = wide_at(t, q);
        let first = step(t, q, 2);
        let u = moves_make(w, t, work, left, first, n).copy(t, out, first);
        let u = turns(u, t, out, list, work, d, false, Mode::Binding, false, n);
        let u = slot(u, t, out, list, work, d, NODE_FIELD, second(t, p), false);
        return arrow_body(u, t, out, list, work, d, first, n).to(skip(t, c.left, p));
    }
    plain(w, t, out, list, work, c)
}

// Its body; an expression is returned.
#[cycle(writing)]
fn arrow_body(
    w: Walk,
    t: &[u8],
    out: &mut [u8],
    list: &mut [u8],
    work: &mut [u8],
    c: Place,
    first: usize,
    n: usize,
) -> Walk
    ensures { place_of c ≡ emit.scoped (place_of c) → Good t.now c.left w.at → GoodItems t.now (look_node t.now c.left) (Good t.now c.left) false false n first → AllBind false (look_items t.now (look_node t.now c.left) false n first).value → (result.at ≡ (look_node t.now c.left w.at).next) × Does (going_of out.old list.old work.old w) (going_of out.new list.new work.new result) (emits (place_of c) (body_in (gather moved_from (look_items t.now (look_node t.now c.left) false n first).value) (look_node t.now c.left w.at).value)) }
{
    let p = w.at;
    if peek(t, p) == kinds::FUNCTION_BODY {
        return function_body(w, t, out, list, work, c, first, n);
    }
    let more = moved_in(t, c.left, first, n);
    let u = fronts_of_items(
        w.put2(out, written::FUNCTION_BODY, written::SECOND)
            .wide(out, more + 1),
        t,
        out,
        list,
        work,
        c,
        false,
        first,
        n,
    );
    let d = marked(c, u.mark());
    let u = u
        .put2(out, written::RETURN, written::FIRST_TWO)
        .new_mark(out)
        .to(p);
    node(u, t, out, list, work, d)
}

// A catch.
#[cycle(writing)]
fn catch_clause(
    w: Walk,
    t: &[u8],
    out: &mut [u8],
    list: &mut [u8],
    work: &mut [u8],
    c: Place,
) -> Walk
    ensures { byte_at t.now w.at ≡ 10 → Ruled t.now c.left w.at result.at (going_of out.old list.old work.old w) (going_of out.new list.new work.new result) (emits (place_of c)) }
{
    let p = w.at;
    let left = less(c.left);
    let q = step(t, p, 2);
    if has_first(t, p) && is_moved(t, left, q) {
        let d = scoped(c, left);
        let u = moves_make(w, t, work, left, q, 1).copy(t, out, q);
        let u = turns(u, t, out, list, work, d, false, Mode::Binding, false, 1);
        return block_body(u, t, out, list, work, d, false, q, 1).to(skip(t, c.left, p));
    }
    plain(w, t, out, list, work, c)
}

// The head of a for-in or for-of loop.
#[cycle(writing)]
fn loop_head(w: Walk, t: &[u8], out: &mut [u8], list: &mut [u8], work: &mut [u8], c: Place) -> Walk
    ensures { eqb (byte_at t.now w.at) 7 || eqb (byte_at t.now w.at) 8 ≡ true → Ruled t.now c.left w.at result.at (going_of out.old list.old work.old w) (going_of out.new list.new work.new result) (emits (place_of c)) }
{
    let p = w.at;
    let left = less(c.left);
    let q = step(t, p, 4);
    if peek(t, q) == kinds::DECLARATION {
        if any_moved(t, left, q, 2) {
            return declaring_head(w, t, out, list, work, c).to(skip(t, c.left, p));
        }
        return plain(w, t, out, list, work, c);
    }
    if has_rest_below_array_rest(t, left, q) {
        return w.refuse(out, REST_BELOW_ARRAY_REST).to(skip(t, c.left, p));
    }
    if has_nested_object_rest(t, left, q) {
        return assigning_head(w, t, out, list, work, c).to(skip(t, c.left, p));
    }
    plain(w, t, out, list, work, c)
}

// One that declares.
#[cycle(writing)]
fn declaring_head(
    w: Walk,
    t: &[u8],
    out: &mut [u8],
    list: &mut [u8],
    work: &mut [u8],
    c: Place,
) -> Walk
    ensures { eqb (byte_at t.now w.at) 7 || eqb (byte_at t.now w.at) 8 ≡ true → byte_at t.now (onward t.now w.at 4) ≡ 4 → any is_moved (items_at_of 2 (node_at_of 1 (look_node t.now c.left w.at).value)) ≡ true → Done t.now c.left w.at (going_of out.old list.old work.old w) (going_of out.new list.new work.new result) (emits (place_of c)) }
{
    if c.left == 0 {
        return w;
    }
    let p = w.at;
    let left = less(c.left);
    let under = less(left);
    let s = step(t, step(t, p, 4), 5);
    let n = wide_at(t, s);
    let first = step(t, s, 2);
    let u = moves_make(w, t, work, under, first, n).copy(t, out, first);
    let u = turns(
        u,
        t,
        out,
        list,
        work,
        scoped(c, under),
        false,
        Mode::Binding,
        false,
        n,
    );
    let u = node(u, t, out, list, work, scoped(c, left));
    let u = block_body(u, t, out, list, work, scoped(c, left), true, first, n);
    await_of(u, t, out, p)
}

// One that assigns.
#[cycle(writing)]
fn assigning_head(
    w: Walk,
    t: &[u8],
    out: &mut [u8],
    list: &mut [u8],
    work: &mut [u8],
    c: Place,
) -> Walk
    ensures { eqb (byte_at t.now w.at) 7 || eqb (byte_at t.now w.at) 8 ≡ true → (byte_at t.now (onward t.now w.at 4) ≡ 4 → ⊥) → has_array_rest_over_object_rest (node_at_of 1 (look_node t.now c.left w.at).value) ≡ false → has_object_rest (node_at_of 1 (look_node t.now c.left w.at).value) ≡ true → Done t.now c.left w.at (going_of out.old list.old work.old w) (going_of out.new list.new work.new result) (emits (place_of c)) }
{
    if c.left == 0 {
        return w;
    }
    let p = w.at;
    let left = less(c.left);
    let q = step(t, p, 4);
    let d = scoped(c, left);
    let u = w.make(work, q).copy(t, out, q);
    let u = u
        .declaration(out, written::VAR, 1)
        .put2(out, written::DECLARATOR, written::FIRST)
        .temporary(out, list, work, q, stems::PLACE);
    let u = node(u.to(skip(t, left, q)), t, out, list, work, d);
    let u = assigning_body(u, t, out, list, work, d, q);
    await_of(u, t, out, p)
}

// The body of such a loop, with the assignment to the target at p in front.
#[cycle(writing)]
fn assigning_body(
    w: Walk,
    t: &[u8],
    out: &mut [u8],
    list: &mut [u8],
    work: &mut [u8],
    c: Place,
    p: usize,
) -> Walk
    ensures { GoodItem t.now (look_node t.now c.left) (Good t.now c.left) true false w.at → Good t.now c.left p → has_array_rest_over_object_rest (look_node t.now c.left p).value ≡ false → has_object_rest (look_node t.now c.left p).value ≡ true → (result.at ≡ (look_node t.now c.left w.at).next) × Does (going_of out.old list.old work.old w) (going_of out.new list.new work.new result) (emits (place_of c) (target_in (look_node t.now c.left p).value (look_node t.now c.left w.at).value)) }
{
    let b = w.at;
    let kind = peek(t, b);
    match kind {
        kinds::BLOCK => {
            let q = step(t, b, 4);
            let k = wide_at(t, q);
            let u = target_statement(
                w.copy(t, out, q).wide(out, k + 1),
                t,
                out,
                list,
                work,
                scoped(c, c.left),
                p,
            );
            items(
                u.to(step(t, q, 2)),
                t,
                out,
                list,
                work,
                scoped(c, less(c.left)),
                k,
                false,
                true,
            )
        }
        kinds::EMPTY => target_statement(
            w.block(out, 1),
            t,
            out,
            list,
            work,
            scoped(c, c.left),
            p,
        ).to(skip(t, c.left, b)),
        _ => {
            let u = target_statement(w.block(out, 2), t, out, list, work, scoped(c, c.left), p);
            item(u.to(b), t, out, list, work, scoped(c, c.left), false, true)
        }
    }
}

// A new statement: the target at p takes the temporary in its place.
#[cycle(writing)]
fn target_statement(
    w: Walk,
    t: &[u8],
    out: &mut [u8],
    list: &mut [u8],
    work: &mut [u8],
    c: Place,
    p: usize,
) -> Walk
    ensures { Good t.now c.left p → has_array_rest_over_object_rest (look_node t.now c.left p).value ≡ false → has_object_rest (look_node t.now c.left p).value ≡ true → Does (going_of out.old list.old work.old w) (going_of out.new list.new work.new result) (emits_statement (place_of c) (assigning (look_node t.now c.left p).value (made.temporary [] 1 p))) }
{
    let root = at_root(c);
    let d = statement(c, w.mark());
    let u = w
        .put2(out, written::EXPRESSION_STATEMENT, written::FIRST_TWO)
        .new_mark(out);
    assignment_to(u, t, out, list, work, d, root, ASSIGNS, p, false, p)
}
