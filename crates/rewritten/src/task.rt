// What stands next in the innermost task, if it is a node: its place, and the node by the tables.
ghost use Rattle.std.specs.Prelude.{◌≡◌, true, ℕ, ◌+◌, ◌^◌, ◌<◌, ◌≤◌, length};
ghost use Rattle.tree.specs.Grammar.{form_at};
ghost use Rattle.tree.specs.Grammar.Stage.{rewritten};
ghost use Rattle.tree.specs.Rows.{fields_in_of};
ghost use Rattle.rewritten.specs.Numbers.{place_numbers, plan_numbers, map_numbers, marked};
ghost use Rattle.rewritten.specs.Steps.{coming_node, Planned};
ghost use Rattle.rewritten.specs.Look.{Ahead, Coded, place_next};

use crate::{class, look, plan, tables};
use tree::{bytes, kinds, read};

// The place where something else than a node comes next.
pub const NO_NODE: usize = 33;

// The place of the node that comes next, or `NO_NODE`, a place without a row.
pub fn place_next(tree: &[u8], at: usize, top: usize) -> usize
    ensures { result ≡ place_next tree.now at top }
{
    if top % 2 == 1 {
        if top / 2 % 2 == 1 && bytes::peek(tree, at) == 0 {
            NO_NODE
        } else {
            top / 4 % 32
        }
    } else {
        match top / 64 % 16 {
            class::NODE => top / 2 % 32,
            class::CHOSEN => read::choose(tree, top / 2 % 32, top / 2 % 32 + 1, at),
            _ => NO_NODE,
        }
    }
}

// The form of a kind at a place, 0 where the kind may not stand there.
fn form_at(places: &[usize], place: usize, kind: usize) -> usize
    requires { kind < 64 }
    ensures { places.now ≡ place_numbers → result ≡ form_at rewritten place kind }
{
    if (tables::number_at(places, place) >> kind) % 2 == 0 {
        return 0;
    }
    if kind == kinds::FUNCTION {
        match place {
            1 => 64,
            2 => kinds::FUNCTION,
            _ => 65,
        }
    } else if 18 < place && 33 < kind && kind < 38 {
        kind + 32
    } else {
        kind
    }
}

// The fields of a plan whose bits stand, ten binary digits a field. In most nodes those are the first few.
fn planned(plan: usize, map: usize) -> usize
    requires { map < 64 }
    ensures { (result < 1024 ^ 6) × (marked (fields_in_of plan) ≡ true → Planned plan map result) }
{
    let count = usize::trailing_zeros(map + 1);
    if map + 1 == 1usize << count {
        plan % (1usize << (10 * count))
    } else {
        plan::plan(plan, map)
    }
}

// What is found of a node of one text, and of one of a byte and two texts, as `look` has it: their plans are known.
pub const ONE_TEXT: usize = 10753;

pub const BYTE_AND_TEXTS: usize = 11285311585;

// A node that may stand at the place.
pub fn node(
    places: &[usize],
    plans: &[usize],
    maps: &[usize],
    tree: &[u8],
    place: usize,
    at: usize,
) -> usize
    ensures { (places.now ≡ place_numbers → plans.now ≡ plan_numbers → maps.now ≡ map_numbers → (rest : ℕ) → Ahead tree.now at rest (λ frames deep. coming_node tree.now frames place at deep rest) result) × Coded 1 result × ((result ≡ 0 → ⊥) → at + 2 ≤ length tree.now) }
{
    let kind = bytes::peek(tree, at);
    if 63 < kind {
        return 0;
    }
    let form = form_at(places, place, kind);
    if form == 0 {
        return 0;
    }
    let map = bytes::peek(tree, at + 1);
    if map == 1
        && (form == kinds::REFERENCE || form == kinds::BINDING || form == kinds::STATIC_KEY)
    {
        return ONE_TEXT;
    }
    if map == 7 && form == kinds::LITERAL {
        return BYTE_AND_TEXTS;
    }
    if 63 < map || (tables::number_at(maps, form) >> map) % 2 == 0 {
        return 0;
    }
    look::NODE + 16 * planned(tables::number_at(plans, form), map)
}
