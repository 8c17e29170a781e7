// The reader of rewritten trees: a tour with a table of the marks that were met.
ghost use Rattle.std.specs.Prelude.{◌≡◌, ◌≤◌, length};
ghost use Rattle.rewritten.specs.Rewritten.{is_rewritten};

use crate::step::Cursor;
use crate::{look, next, seen};

// Right if 16,384 frames and 65,536 bytes for marks are lent.
fn read(tree: &[u8], frames: &mut [usize], seen: &mut [u8]) -> bool
    ensures { 16384 ≤ length frames.old → 65536 ≤ length seen.old → result ≡ is_rewritten tree.now }
{
    if tree.len() > 32768 || frames.len() < 16384 || seen.len() < 65536 {
        return false;
    }
    seen::clear(seen);
    let mut cursor = next::begin();
    // A tour ends by itself: nothing is counted.
    loop {
        let Cursor { at, deep, top } = cursor;
        if look::is_closed(top) {
            if deep == 0 {
                return at == tree.len();
            }
            cursor = Cursor {
                at,
                deep: deep - 1,
                top: next::frame_at(frames, deep - 1),
            };
        } else {
            let what = look::look(tree, at, top);
            if what % 16 == 0 || !seen::is_new_ahead(seen, what) {
                return false;
            }
            seen::note_ahead(seen, what);
            cursor = next::moved(tree, frames, at, deep, look::rest_of(top), what);
        }
    }
}

// The bytes are a rewritten tree: at most 32,768 of them, of any depth, all marks different.
pub fn is_rewritten(tree: &[u8]) -> bool
    ensures { result ≡ is_rewritten tree.now }
{
    let mut frames: [usize; 16384] = [0; 16384];
    let mut seen: [u8; 65536] = [0; 65536];
    read(tree, &mut frames, &mut seen)
}
