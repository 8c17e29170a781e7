// One step of the tour.
ghost use Rattle.std.specs.Prelude.{◌≡◌, ◌+◌, ◌/◌, ◌%◌, ◌≤◌, length, get_or, set};
ghost use Rattle.rewritten.specs.Steps.{StepIs, step_closed, coming_at, start, Took};
ghost use Rattle.rewritten.specs.Look.{deeper, end_for, frames_for, cursor_for};

use crate::step::{Cursor, Event, Step};
use crate::{look, tables};
use tree::{bytes, skip};

// Where a tour starts.
pub fn begin() -> Cursor
    ensures { result ≡ start }
{
    Cursor {
        at: 0,
        deep: 0,
        top: 1088,
    }
}

// A frame, 0 where there is none.
pub fn frame_at(frames: &[usize], i: usize) -> usize
    ensures { result ≡ get_or frames.now i 0 }
{
    tables::number_at(frames, i)
}

// The innermost task is done, a node or a list.
fn close(frames: &[usize], at: usize, deep: usize, node: bool) -> Step
    ensures { StepIs result (step_closed frames.now at deep node) }
{
    if deep == 0 {
        return Step::Done;
    }
    let top = frame_at(frames, deep - 1);
    let c = Cursor {
        at,
        deep: deep - 1,
        top,
    };
    let event = if node { Event::Ends } else { Event::Closes };
    Step::Next(event, c)
}

// A node or a list begins: `rest` goes into the next frame, and `top` is its own.
pub fn begun(frames: &mut [usize], end: usize, deep: usize, rest: usize, top: usize) -> Cursor
    ensures { (length frames.new ≡ length frames.old) × (frames.new ≡ set frames.old deep rest) × (result ≡ record { at = end; deep = deeper frames.old deep; top = top }) }
{
    if deep < frames.len() {
        frames[deep] = rest;
        return Cursor {
            at: end,
            deep: deep + 1,
            top,
        };
    }
    Cursor { at: end, deep, top }
}

// Where the tour stands after what `look` found.
pub fn moved(
    tree: &[u8],
    frames: &mut [usize],
    at: usize,
    deep: usize,
    rest: usize,
    what: usize,
) -> Cursor
    ensures { (length frames.new ≡ length frames.old) × (frames.new ≡ frames_for frames.old deep rest (what % 16)) × (end_for at (what % 16) (what / 16) ≤ length tree.now → result ≡ cursor_for frames.old at deep rest (what % 16) (what / 16)) }
{
    let end = skip::step(tree, at, look::size_of(what));
    let n = what / 16;
    match what % 16 {
        look::NODE => begun(frames, end, deep, rest, n * 2),
        look::LIST => begun(frames, end, deep, rest, n * 2 + 1),
        _ => Cursor {
            at: end,
            deep,
            top: rest,
        },
    }
}

// The next event, and where the tour stands then.
pub fn next(tree: &[u8], frames: &mut [usize], cursor: Cursor) -> Step
    ensures { (length frames.new ≡ length frames.old) × Took tree.now frames.old frames.new (coming_at tree.now frames.old cursor.at cursor.deep cursor.top) cursor.at cursor.deep result }
{
    let Cursor { at, deep, top } = cursor;
    if look::is_closed(top) {
        return close(frames, at, deep, top % 2 == 0);
    }
    let what = look::look(tree, at, top);
    let c = moved(tree, frames, at, deep, look::rest_of(top), what);
    let n = what / 16;
    match what % 16 {
        look::NODE => {
            if deep < frames.len() {
                let kind = bytes::peek(tree, at);
                Step::Next(Event::Begins(at, kind, bytes::peek(tree, at + 1)), c)
            } else {
                Step::Full
            }
        }
        look::LIST => {
            if deep < frames.len() {
                Step::Next(Event::Opens(n / 64), c)
            } else {
                Step::Full
            }
        }
        look::TEXT => Step::Next(Event::Text(at + 2, n), c),
        look::MARK => Step::Next(Event::Mark(n), c),
        look::BYTE => Step::Next(Event::Byte(n), c),
        look::NUMBER => Step::Next(Event::Number(n), c),
        look::HOLE => Step::Next(Event::Hole, c),
        _ => Step::Refused,
    }
}
