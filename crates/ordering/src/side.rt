// One of two tours: its events with the places of the temporaries.
ghost use Rattle.std.specs.Prelude.{◌≡◌, List, length};
ghost use Rattle.rewritten.specs.Events as events;
ghost use Rattle.ordering.specs.Sides.{Coming, Moved};

use crate::{key, place};
use rewritten::next;
use rewritten::step::{Cursor, Event, Step};

// Where the tour stands, whether the next event is the number of a temporary, and how many temporaries were met.
#[derive(Clone, Copy)]
pub(crate) struct Side {
    pub cursor: Cursor,
    pub temporary: bool,
    pub met: usize,
}

// The next event with its place, and the side then; or nothing is left.
pub(crate) fn advance(
    tree: &[u8],
    frames: &mut [usize],
    table: &mut [u16],
    side: Side,
) -> Option<(Event, Side)>
    ensures { (length frames.new ≡ length frames.old) × (length table.new ≡ length table.old) × ((es : List events.Event) → Coming tree.now frames.old table.old side es → Moved tree.now frames.new table.new side es result) }
{
    match next::next(tree, frames, side.cursor) {
        Step::Next(e, cursor) => {
            let temporary = key::opens_temporary(e);
            if side.temporary {
                if let Some(n) = key::number_in(e) {
                    let placed = place::place(table, side.met, n);
                    return Some((
                        Event::Number(placed.place),
                        Side {
                            cursor,
                            temporary,
                            met: placed.met,
                        },
                    ));
                }
            }
            Some((
                e,
                Side {
                    cursor,
                    temporary,
                    ..side
                },
            ))
        }
        Step::Done | Step::Refused | Step::Full => None,
    }
}
