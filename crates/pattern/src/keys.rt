// Keys of an object pattern whose rest is taken.
ghost use Rattle.std.specs.Prelude.{◌≡◌, true};
ghost use Rattle.tree.specs.Read.{byte_at};
ghost use Rattle.tree.specs.Look.{look_node};
ghost use Rattle.lowering.specs.Parts.{number_at};
ghost use Rattle.tree.specs.Tree.{count};
ghost use Rattle.lowering.specs.Made.{Context};
ghost use Rattle.lowering.specs.Keys.{all_primitive, keys_refusal, excluded_keys, key_temporaries};
ghost use Rattle.pattern.specs.Refusals.{refusal_number};
ghost use Rattle.pattern.specs.Tally.{limited, tally_values, no_tally, both};
ghost use Rattle.lowering.specs.Rests.{has_no_properties};
ghost use Rattle.pattern.specs.Parts.{field_values, text_in_of};
ghost use Rattle.pattern.specs.Numbers.{spelling_value, spelled_as_of, is_string_of};
ghost use Rattle.pattern.specs.Keys.{name_in_of, form_in, beside_form, literal_by, literal_at, Keyed, Becomes, counts, key_counts, keys_of, item_keys};

use crate::numbers::Spelling;
use crate::parts::Part;
use crate::tally::Tally;
use crate::{numbers, parts, tally};
use tree::{bytes, kinds, skip};

// What a key becomes among the excluded keys: a string of the bytes of a name or of a literal's form, which are also those
// of a decimal spelling; a string of the digits of a number's value; that template; the name or temporary read again; a
// temporary that gets its value. A private key adds nothing. A form that is not the string of its number is refusal 11, a
// literal without a form that is no such number refusal 6.
#[derive(Clone, Copy)]
pub enum Key {
    Name { from: usize, len: usize },
    Literal { from: usize, len: usize },
    Number { value: usize },
    OtherForm { value: usize },
    NoForm,
    Template,
    Private,
    Again,
    Other,
}

#[tactic(auto, unfolding(crate::specs::Keys::name_in_of))]
fn named(p: Option<Part>) -> Key
    ensures { Keyed result (name_in_of (field_values p)) }
{
    match p {
        Some(Part::Text { from, len }) => Key::Name { from, len },
        _ => Key::Name { from: 0, len: 0 },
    }
}

#[tactic(auto, unfolding(crate::specs::Keys::form_in))]
fn formed(p: Option<Part>) -> Key
    ensures { Keyed result (form_in (field_values p)) }
{
    match p {
        Some(Part::Text { from, len }) => Key::Literal { from, len },
        Some(_) => Key::Literal { from: 0, len: 0 },
        None => Key::NoForm,
    }
}

// What a text is as a number.
fn spelled_in(tree: &[u8], p: Option<Part>) -> Option<Spelling>
    ensures { spelling_value result ≡ spelled_as_of (text_in_of tree.now (field_values p)) }
{
    match p {
        Some(Part::Text { from, len }) => {
            let to = skip::step(tree, from, len);
            if from <= to {
                return numbers::spelled(&tree[from..to]);
            }
            None
        }
        _ => None,
    }
}

// Whether it is the string of a value.
fn is_string(s: Option<Spelling>, value: usize) -> bool
    ensures { result ≡ is_string_of value (spelling_value s) }
{
    match s {
        Some(Spelling::Decimal(v)) => v == value,
        _ => false,
    }
}

// A number beside its form.
fn beside_form(tree: &[u8], value: usize, alone: Key, form: Option<Part>) -> Key
    ensures { Keyed result (beside_form tree.now value alone (field_values form)) }
{
    if form.is_none() {
        return alone;
    }
    if is_string(spelled_in(tree, form), value) {
        return formed(form);
    }
    Key::OtherForm { value }
}

// A literal by what its spelling is.
fn literal_by(tree: &[u8], s: Option<Spelling>, spelling: Option<Part>, form: Option<Part>) -> Key
    ensures { Keyed result (literal_by tree.now (spelling_value s) (field_values spelling) (field_values form)) }
{
    match s {
        Some(Spelling::Decimal(v)) => beside_form(tree, v, formed(spelling), form),
        Some(Spelling::Hexadecimal(v)) => beside_form(tree, v, Key::Number { value: v }, form),
        None => formed(form),
    }
}

// The sort of the literal at a position: a byte of the tree, 0 where there is none.
fn literal_sort(tree: &[u8], left: usize, at: usize) -> usize
    ensures { byte_at tree.now at ≡ 22 → result ≡ number_at 0 (look_node tree.now left at).value }
{
    if parts::stands(tree, left, at, 0) {
        return bytes::peek(tree, skip::step(tree, at, 2));
    }
    0
}

// The literal that stands at a position.
fn literal(tree: &[u8], left: usize, at: usize) -> Key
    ensures { byte_at tree.now at ≡ 22 → Keyed result (literal_at tree.now left at) }
{
    let spelling = parts::field(tree, left, at, 1);
    let form = parts::field(tree, left, at, 2);
    if literal_sort(tree, left, at) == 2 {
        return literal_by(tree, spelled_in(tree, spelling), spelling, form);
    }
    formed(form)
}

// The key that stands at a position.
pub fn transform_property_key(tree: &[u8], left: usize, at: usize) -> Key
    ensures { Becomes tree.now left at result }
{
    if left == 0 {
        return Key::Other;
    }
    let kind = bytes::peek(tree, at);
    match kind {
        kinds::REFERENCE => {
            if parts::stands(tree, left, at, 1) {
                return Key::Again;
            }
            Key::Other
        }
        kinds::TEMPORARY => Key::Again,
        kinds::LITERAL => literal(tree, left, at),
        kinds::TEMPLATE => {
            let quasis = parts::list(tree, left, at, 0);
            if quasis.count == 1 {
                return Key::Template;
            }
            Key::Other
        }
        kinds::STATIC_KEY => {
            if bytes::peek(tree, skip::step(tree, at, 1)) % 2 == 1 {
                return named(Some(parts::text(tree, skip::step(tree, at, 2))));
            }
            named(parts::field(tree, left, at, 0))
        }
        kinds::PRIVATE_KEY => Key::Private,
        _ => Key::Other,
    }
}

// What a key adds to the counts.
#[tactic(auto, unfolding(crate::specs::Keys::key_counts))]
fn key_counts(k: Key) -> Tally
    ensures { tally_values result ≡ key_counts k }
{
    let one = Tally {
        excluded: 1,
        ..Tally::default()
    };
    match k {
        Key::Name { .. } | Key::Literal { .. } | Key::Number { .. } | Key::Template => one,
        Key::OtherForm { .. } => Tally {
            refusal: Some(tally::Refusal::OtherForm),
            ..one
        },
        Key::NoForm => Tally {
            refusal: Some(tally::Refusal::NoForm),
            ..one
        },
        Key::Private => Tally::default(),
        Key::Again => Tally { computed: 1, ..one },
        Key::Other => Tally {
            temporaries: 1,
            computed: 1,
            ..one
        },
    }
}

// What the key of a property adds; a hole adds nothing.
fn item_keys(tree: &[u8], holes: bool, left: usize, at: usize) -> Tally
    ensures { tally_values result ≡ item_keys tree.now holes left at }
{
    if holes && bytes::peek(tree, at) == 0 {
        return Tally::default();
    }
    let k = parts::key(tree, left, at);
    key_counts(transform_property_key(tree, k.left, k.at))
}

// Whether an item is a property with a static key, which adds an excluded key and nothing else.
fn has_static_key(tree: &[u8], holes: bool, left: usize, at: usize) -> bool
    ensures { result ≡ true → counts 1 0 0 0 ≡ item_keys tree.now holes left at }
{
    if !holes
        && 1 < left
        && bytes::peek(tree, at) == kinds::PATTERN_PROPERTY
        && bytes::peek(tree, skip::step(tree, at, 1)) % 2 == 1
    {
        return bytes::peek(tree, skip::step(tree, at, 2)) == kinds::STATIC_KEY;
    }
    false
}

// Counts, and what the key of a property adds to them.
fn with_key(t: Tally, tree: &[u8], holes: bool, left: usize, at: usize) -> Tally
    ensures { both (tally_values t) no_tally ≡ tally_values t → tally_values result ≡ both (tally_values t) (item_keys tree.now holes left at) }
{
    if has_static_key(tree, holes, left, at) {
        return Tally {
            excluded: tally::plus(t.excluded, 1),
            ..t
        };
    }
    tally::both(t, item_keys(tree, holes, left, at))
}

// The counts of all keys of the object pattern at a position.
pub(crate) fn keys(tree: &[u8], left: usize, at: usize) -> Tally
    ensures { tally_values result ≡ keys_of (look_node tree.now left at).value }
{
    let mut t = Tally::default();
    if left == 0 {
        return t;
    }
    let below = left - 1;
    let run = parts::list(tree, left, at, 0);
    let mut p = run.from;
    for _ in 0..run.count {
        t = with_key(t, tree, run.holes, below, p);
        p = skip::skip_item(tree, run.holes, below, p);
    }
    t
}

pub fn all_primitive(tree: &[u8], left: usize, at: usize) -> bool
    ensures { result ≡ all_primitive (look_node tree.now left at).value }
{
    keys(tree, left, at).computed == 0
}

// The first refusal at the keys of the object pattern.
pub fn refusal(tree: &[u8], left: usize, at: usize) -> Option<tally::Refusal>
    ensures { refusal_number result ≡ keys_refusal (look_node tree.now left at).value }
{
    keys(tree, left, at).refusal
}

pub fn has_no_properties(tree: &[u8], left: usize, at: usize) -> bool
    ensures { result ≡ has_no_properties (look_node tree.now left at).value }
{
    parts::list(tree, left, at, 0).count == 0
}

// How many excluded keys the object pattern has.
pub fn excluded_keys(tree: &[u8], left: usize, at: usize) -> usize
    ensures { (c : Context) → result ≡ limited (count (excluded_keys c (look_node tree.now left at).value)) }
{
    keys(tree, left, at).excluded
}

// How many key temporaries it has.
pub fn key_temporaries(tree: &[u8], left: usize, at: usize) -> usize
    ensures { (c : Context) → result ≡ limited (count (key_temporaries c (look_node tree.now left at).value)) }
{
    keys(tree, left, at).temporaries
}
