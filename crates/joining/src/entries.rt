// The list: its layout and the marks inside.
ghost use Rattle.std.specs.Prelude.{List, ℕ, ◌+◌, ◌<◌, ◌≤◌, length};
ghost use Rattle.tree.specs.Read.{wide_at};
ghost use Rattle.joining.specs.Files.{Notes};
ghost use Rattle.joining.specs.Entries.{run_declarators, run_head, run_list, Listed, Ends, Within, IfAt};

use crate::table;
use rewritten::step::{Cursor, Step};
use rewritten::{next, seen};
use tree::bytes;

// Where a declarator list ends; none if it is off its layout or has a mark that was met before.
fn declarators(list: &[u8], frames: &mut [usize], seen: &mut [u8], at: usize) -> Option<usize>
    ensures { Within result (at + 2) (length list.now) × ((met : List ℕ) → Notes seen.old met → 16384 ≤ length frames.old → length list.now ≤ 32768 → Ends result seen.new (run_declarators list.now at met)) }
{
    let n = bytes::wide_at(list, at);
    if 65535 < n {
        return None;
    }
    let mut cursor = Cursor {
        at: at + 2,
        deep: 0,
        top: n * 128 + 17,
    };
    // A tour ends by itself: nothing is counted.
    loop {
        match next::next(list, frames, cursor) {
            Step::Next(e, c) => {
                if seen::is_new(seen, e) {
                    seen::note(seen, e);
                    cursor = c;
                } else {
                    return None;
                }
            }
            Step::Done => return Some(cursor.at),
            Step::Refused | Step::Full => return None,
        }
    }
}

// The entries; where each ends goes into a table, by its position. Returns where the excluded keys begin.
fn entries(list: &[u8], frames: &mut [usize], seen: &mut [u8], ends: &mut [u16]) -> Option<usize>
    ensures { Within result 2 (length list.now) × ((met : List ℕ) → Notes seen.old met → 16384 ≤ length frames.old → length list.now ≤ 16384 → 16384 ≤ length ends.old → Ends result seen.new (run_head list.now met) × IfAt result (Listed list.now ends.new (wide_at list.now 0) 2)) }
{
    let n = bytes::wide_at(list, 0);
    if 65535 < n {
        return None;
    }
    let mut at = 2;
    for _ in 0..n {
        if 65535 < bytes::wide_at(list, at) {
            return None;
        }
        let end = declarators(list, frames, seen, at + 2)?;
        table::put(ends, at, end);
        at = end;
    }
    Some(at)
}

// The whole list. Returns where the excluded keys begin.
pub(crate) fn read(
    list: &[u8],
    frames: &mut [usize],
    seen: &mut [u8],
    ends: &mut [u16],
) -> Option<usize>
    ensures { (met : List ℕ) → Notes seen.old met → 16384 ≤ length frames.old → 16384 ≤ length ends.old → Ends result seen.new (run_list list.now met) × IfAt result (Listed list.now ends.new (wide_at list.now 0) 2) }
{
    if 16384 < list.len() {
        return None;
    }
    let at = entries(list, frames, seen, ends)?;
    let end = declarators(list, frames, seen, at)?;
    if end == list.len() { Some(at) } else { None }
}
