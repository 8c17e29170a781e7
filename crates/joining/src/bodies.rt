// A tour of the tree: its marks, its containers' lists and their statements.
ghost use Rattle.std.specs.Prelude.{◌≡◌, List, cond, ℕ, ◌+◌, ◌/◌, ◌%◌, ◌<◌, ltb, get_or};
ghost use Rattle.joining.specs.Join.{is_container};
ghost use Rattle.joining.specs.Tables.{stored};
ghost use Rattle.joining.specs.Files.{shelf, added, Lent, Toured};
ghost use Rattle.rewritten.specs.Look.{event_for};
ghost use Rattle.rewritten.specs.declared.step.Event.TheVariants.{Opens, Mark};

use crate::table;
use rewritten::step::Cursor;
use rewritten::{look, next, seen};
use tree::{bytes, kinds};

const CONTAINERS: [usize; 5] = [
    kinds::PROGRAM,
    kinds::BLOCK,
    kinds::FUNCTION_BODY,
    kinds::STATIC_BLOCK,
    kinds::CASE,
];

fn is_container(kind: usize) -> bool
    ensures { result ≡ is_container kind }
{
    CONTAINERS.contains(&kind)
}

// The last of the containers' lists; the item of one that has just begun. 0 is none, since the tables hold both so, in 16 bits.
#[derive(Clone, Copy)]
struct Bodies {
    pub latest: usize,
    pub begun: usize,
}

// A node. Around its fields stands 1 if it is a container. Returns its position if it is an item of a container's list.
fn begin(around: &mut [u16], kind: usize, at: usize, deep: usize) -> usize
    requires { deep < 65536 }
    ensures { (around.new ≡ stored around.old (deep + 1) (cond (is_container kind) 1 0)) × (result ≡ cond (ltb 1 (get_or around.old deep 0)) at 0) }
{
    let list = table::at(around, deep);
    table::put(around, deep + 1, usize::from(is_container(kind)));
    if 1 < list { at } else { 0 }
}

// A list. Around its items stands its position if it is a container's; then it knows the one before it, and has no statement yet. Returns the latest.
fn enter(
    around: &mut [u16],
    earlier: &mut [u16],
    holds: &mut [u16],
    latest: usize,
    at: usize,
    deep: usize,
) -> usize
    requires { deep < 65536 }
    ensures { (b : List ℕ) (g n : ℕ) → shelf around.new earlier.new holds.new b result 0 ≡ added (shelf around.old earlier.old holds.old b latest g) at deep (Opens n) }
{
    if table::at(around, deep) == 1 {
        table::put(around, deep + 1, at);
        table::put(earlier, at, latest);
        table::put(holds, at, 0);
        return at;
    }
    table::put(around, deep + 1, 0);
    latest
}

// A mark: that of the item that has just begun. It becomes the last statement of its list, and knows the one before it.
fn mark(around: &[u16], holds: &mut [u16], before: &mut [u16], begun: usize, deep: usize)
    ensures { (e : List ℕ) (l at m : ℕ) → shelf around.now e holds.new before.new l 0 ≡ added (shelf around.now e holds.old before.old l begun) at deep (Mark m) }
{
    if 0 < begun && 0 < deep {
        let list = table::at(around, deep - 1);
        table::put(before, begun, table::at(holds, list));
        table::put(holds, list, begun);
    }
}

// What is found at a position adds, with `deep` frames open before it. It is one number, as `look` gives it.
fn add(
    tree: &[u8],
    around: &mut [u16],
    earlier: &mut [u16],
    holds: &mut [u16],
    before: &mut [u16],
    bodies: Bodies,
    at: usize,
    deep: usize,
    what: usize,
) -> Bodies
    requires { (deep < 65536) × (what % 16 ≡ 0 → ⊥) }
    ensures { shelf around.new earlier.new holds.new before.new result.latest result.begun ≡ added (shelf around.old earlier.old holds.old before.old bodies.latest bodies.begun) at deep (event_for tree.now at (what % 16) (what / 16)) }
{
    let code = what % 16;
    if code == 2 {
        let latest = enter(around, earlier, holds, bodies.latest, at, deep);
        return Bodies { latest, begun: 0 };
    }
    if code < 3 {
        let begun = begin(around, bytes::peek(tree, at), at, deep);
        return Bodies { begun, ..bodies };
    }
    if code == 4 {
        mark(around, holds, before, bodies.begun, deep);
    }
    Bodies { begun: 0, ..bodies }
}

// The tree is read and toured at once. The last of the containers' lists, if the bytes are a rewritten tree. Right if
// enough is lent of each table.
pub(crate) fn collect(
    tree: &[u8],
    frames: &mut [usize],
    seen: &mut [u8],
    around: &mut [u16],
    earlier: &mut [u16],
    holds: &mut [u16],
    before: &mut [u16],
) -> Option<usize>
    ensures { Lent frames.old seen.old around.old earlier.old holds.old before.old → Toured tree.now seen.new earlier.new holds.new before.new result }
{
    if 32768 < tree.len() || frames.len() < 16384 || seen.len() < 65536 {
        return None;
    }
    seen::clear(seen);
    around.fill(0);
    holds.fill(0);
    let mut cursor = next::begin();
    let mut bodies = Bodies {
        latest: 0,
        begun: 0,
    };
    // A tour ends by itself: nothing is counted.
    loop {
        let at = cursor.at;
        let deep = cursor.deep;
        let top = cursor.top;
        if look::is_closed(top) {
            if deep == 0 {
                if at == tree.len() {
                    return Some(bodies.latest);
                }
                return None;
            }
            bodies = Bodies { begun: 0, ..bodies };
            cursor = Cursor {
                at,
                deep: deep - 1,
                top: next::frame_at(frames, deep - 1),
            };
        } else {
            let what = look::look(tree, at, top);
            if what % 16 == 0 {
                return None;
            }
            if seen::is_new_ahead(seen, what) {
                seen::note_ahead(seen, what);
                bodies = add(tree, around, earlier, holds, before, bodies, at, deep, what);
                cursor = next::moved(tree, frames, at, deep, look::rest_of(top), what);
            } else {
                return None;
            }
        }
    }
}
