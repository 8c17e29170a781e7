// Two tours side by side until they part.
ghost use Rattle.std.specs.Prelude.{◌≡◌, ◌≤◌, length};
ghost use Rattle.rewritten.specs.Rewritten.{read_rewritten};
ghost use Rattle.ordering.specs.Outcome.{is_refused, Answers};

use crate::key;
use crate::side::{self, Side};
use rewritten::{next, read};
use std::cmp::Ordering;

// One of the two is no rewritten tree.
fn is_refused(first: &[u8], second: &[u8]) -> bool
    ensures { result ≡ is_refused first.now second.now }
{
    !read::is_rewritten(first) || !read::is_rewritten(second)
}

// Right if 16,384 frames and 65,536 places are lent for each of the two.
fn compare(
    first: &[u8],
    second: &[u8],
    frames: &mut [usize],
    others: &mut [usize],
    table: &mut [u16],
    places: &mut [u16],
) -> Option<Ordering>
    ensures { 16384 ≤ length frames.old → 16384 ≤ length others.old → 65536 ≤ length table.old → 65536 ≤ length places.old → Answers (read_rewritten first.now) (read_rewritten second.now) result }
{
    if frames.len() < 16384
        || others.len() < 16384
        || table.len() < 65536
        || places.len() < 65536
        || is_refused(first, second)
    {
        return None;
    }
    table.fill(0);
    places.fill(0);
    let mut a = Side {
        cursor: next::begin(),
        temporary: false,
        met: 0,
    };
    let mut b = a;
    // A tour ends by itself: nothing is counted.
    loop {
        let m = side::advance(first, frames, table, a);
        let n = side::advance(second, others, places, b);
        match (m, n) {
            (Some((e, s)), Some((f, t))) => {
                let order = key::by_event(first, e, second, f);
                if order.is_ne() {
                    return Some(order);
                }
                a = s;
                b = t;
            }
            (Some(_), None) => return Some(Ordering::Greater),
            (None, Some(_)) => return Some(Ordering::Less),
            (None, None) => return Some(Ordering::Equal),
        }
    }
}

// The order of two trees by their tours.
fn by_tours(first: &[u8], second: &[u8]) -> Option<Ordering>
    ensures { Answers (read_rewritten first.now) (read_rewritten second.now) result }
{
    let mut frames: [usize; 16384] = [0; 16384];
    let mut others: [usize; 16384] = [0; 16384];
    let mut table: [u16; 65536] = [0; 65536];
    let mut places: [u16; 65536] = [0; 65536];
    compare(
        first,
        second,
        &mut frames,
        &mut others,
        &mut table,
        &mut places,
    )
}

// The order of two trees, of the first against the second, if both are rewritten trees. The same bytes are read once, and
// no tour is needed.
pub fn order(first: &[u8], second: &[u8]) -> Option<Ordering>
    ensures { Answers (read_rewritten first.now) (read_rewritten second.now) result }
{
    if first == second {
        return read::is_rewritten(first).then_some(Ordering::Equal);
    }
    by_tours(first, second)
}
