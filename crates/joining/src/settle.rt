// Each entry to its statement.
ghost use Rattle.std.specs.Prelude.{◌≡◌};
ghost use Rattle.tree.specs.Read.{wide_at};
ghost use Rattle.joining.specs.Settle.{bumped, settled, settles};

use crate::search::Filed;
use crate::table;
use tree::bytes;

// One more at a position of a table.
fn bump(counts: &mut [u16], i: usize)
    ensures { counts.new ≡ bumped counts.old i }
{
    let n = table::at(counts, i);
    table::put(counts, i, n + 1);
}

// Whether every entry's mark is found. How many statements are new in a list goes into `more`, before a statement into `held`.
pub(crate) fn settle(
    tree: &[u8],
    list: &[u8],
    filed: &Filed,
    ends: &[u16],
    more: &mut [u16],
    held: &mut [u16],
) -> bool
    ensures { settled result more.new held.new ≡ settles tree.now list.now filed.now.earlier.now filed.now.holds.now filed.now.before.now filed.now.latest ends.now (wide_at list.now 0) 2 more.old held.old }
{
    let mut at = 2;
    for _ in 0..bytes::wide_at(list, 0) {
        let Some(place) = filed.search(tree, bytes::wide_at(list, at)) else {
            return false;
        };
        bump(more, place.list);
        bump(held, place.statement);
        at = table::at(ends, at);
    }
    true
}
