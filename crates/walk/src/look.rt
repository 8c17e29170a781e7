// What the emitters look up before they write.
ghost use Rattle.std.specs.Prelude.{◌≡◌, true, false, not, ◌/◌, ◌%◌, ◌≤◌, eqb};
ghost use Rattle.tree.specs.Read.{byte_at};
ghost use Rattle.tree.specs.Look.{onward, look_items, look_node};
ghost use Rattle.lowering.specs.Parts.{gather};
ghost use Rattle.lowering.specs.Patterns.{properties};
ghost use Rattle.lowering.specs.Keys.{key_sort, entry_of};
ghost use Rattle.lowering.specs.Heads.{moved_from};
ghost use Rattle.pattern.specs.Tally.{limited};
ghost use Rattle.direct.specs.Views.{is_other, takes};
ghost use Rattle.direct.specs.Keys.{hoists};
ghost use Rattle.direct.specs.Moved.{number};
ghost use Rattle.walk.specs.Turns.{view_of, item_mode, enters_arrays, class_entry, cell_at, level_of, start_of};

use crate::modes::{Deep, Mode};
use crate::reaches::{Reach, enters};
use crate::views::View;
use crate::{kinds, stems};
use pattern::keys::{Key, all_primitive, has_no_properties, transform_property_key};
use pattern::moves::moved_from;
use pattern::tally::plus;
use tree::bytes::peek;
use tree::skip::{skip, step};

// The first bit of the bit map of the node at a position, and the second.
pub fn first_bit(t: &[u8], at: usize) -> usize
    ensures { result ≡ byte_at t.now (onward t.now at 1) % 2 }
{
    peek(t, step(t, at, 1)) % 2
}

pub fn second(t: &[u8], at: usize) -> usize
    ensures { result ≡ byte_at t.now (onward t.now at 1) / 2 % 2 }
{
    peek(t, step(t, at, 1)) / 2 % 2
}

pub fn has_second(t: &[u8], at: usize) -> bool
    ensures { result ≡ eqb (byte_at t.now (onward t.now at 1) / 2 % 2) 1 }
{
    second(t, at) == 1
}

// Whether a view puts a temporary in the place of an object with rest.
pub fn replaces(v: View) -> bool
    ensures { result ≡ not (takes (view_of v)) }
{
    matches!(v, View::Replacing)
}

// The mode of an array's items, by what is done below the array.
pub fn item_mode(mode: Deep) -> Mode
    ensures { result ≡ item_mode mode }
{
    match mode {
        Deep::Found => Mode::Below(Deep::Found),
        Deep::Reached(_) => Mode::Below(Deep::Reached(Reach::Anywhere)),
    }
}

// Whether arrays are entered.
pub fn enters_arrays(mode: Deep) -> bool
    ensures { result ≡ enters_arrays mode }
{
    match mode {
        Deep::Found => true,
        Deep::Reached(reach) => enters(reach),
    }
}

// The level of the parameters or declarators of a head: that of its body, or one below.
pub fn level(left: usize, inner: bool) -> usize
    ensures { (result ≡ level_of inner left) × (result ≤ left) }
{
    if inner {
        return left.saturating_sub(1);
    }
    left
}

// The cell of a temporary.
pub fn cell(stem: u8, at: usize) -> usize
    ensures { result ≡ cell_at stem at }
{
    if 16384 <= at {
        return at;
    }
    match stem {
        stems::EXCLUDED => at + 1,
        stems::VALUE => at + 2,
        _ => at,
    }
}

// How a key is written among the excluded keys.
#[derive(Clone, Copy)]
pub enum KeyClass {
    AsString,
    AsItStands,
    LeftOut,
    AsTemporary,
}

pub fn key_sort(t: &[u8], left: usize, at: usize) -> KeyClass
    ensures { class_entry result ≡ entry_of (key_sort (look_node t.now left at).value) }
{
    if 0 < left && peek(t, at) == kinds::STATIC_KEY {
        return KeyClass::AsString;
    }
    match transform_property_key(t, left, at) {
        Key::Name { .. }
        | Key::Literal { .. }
        | Key::Number { .. }
        | Key::OtherForm { .. }
        | Key::NoForm => KeyClass::AsString,
        Key::Template | Key::Again => KeyClass::AsItStands,
        Key::Private => KeyClass::LeftOut,
        Key::Other => KeyClass::AsTemporary,
    }
}

pub fn is_other(t: &[u8], left: usize, at: usize) -> bool
    ensures { result ≡ is_other (look_node t.now left at).value }
{
    matches!(key_sort(t, left, at), KeyClass::AsTemporary)
}

// Whether the excluded keys of the object pattern at a position go out to the list.
pub fn hoisted(t: &[u8], left: usize, root: bool, at: usize) -> bool
    ensures { result ≡ hoists root (properties (look_node t.now left at).value) }
{
    !root && !has_no_properties(t, left, at) && all_primitive(t, left, at)
}

// Where the starting value of a declarator is, if it has one.
pub fn start_of(t: &[u8], left: usize, at: usize) -> Option<usize>
    ensures { result ≡ start_of t.now left at }
{
    if 0 < left && has_second(t, at) {
        return Some(skip(t, left - 1, step(t, at, 2)));
    }
    None
}

// How many patterns are moved out of parameters or declarators.
pub fn moved_in(t: &[u8], left: usize, first: usize, count: usize) -> usize
    ensures { result ≡ limited (number (gather moved_from (look_items t.now (look_node t.now left) false count first).value)) }
{
    let mut p = first;
    let mut k = 0;
    for _ in 0..count {
        k = plus(k, moved_from(t, left, p));
        p = skip(t, left, p);
    }
    k
}
