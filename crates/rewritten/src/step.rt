// Where a tour stands, what it meets, and what a step of it gives.

// The position, how many frames are open, and the innermost task as a number.
#[derive(Clone, Copy, Debug, PartialEq, Eq)]
pub struct Cursor {
    pub at: usize,
    pub deep: usize,
    pub top: usize,
}

// What is met: a node (position, kind, bit map), its end, a list (how many items), its end, a hole, a text (position,
// length), a byte, a mark, a number.
#[derive(Clone, Copy, Debug, PartialEq, Eq)]
pub enum Event {
    Begins(usize, usize, usize),
    Ends,
    Opens(usize),
    Closes,
    Hole,
    Text(usize, usize),
    Byte(usize),
    Mark(usize),
    Number(usize),
}

// An event and where the tour stands then; nothing is left; the bytes are no tree; no frame is left. As a `Result` of an
// `Option` of a pair it would be matched three deep for the same four ways on.
#[derive(Clone, Copy, Debug, PartialEq, Eq)]
pub enum Step {
    Next(Event, Cursor),
    Done,
    Refused,
    Full,
}
