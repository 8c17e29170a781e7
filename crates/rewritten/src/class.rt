// What a field holds, as the code in its row says it above the five digits of its place or its highest byte.
pub const NODE: usize = 1;

// A node whose place goes by the byte before it.
pub const CHOSEN: usize = 2;

pub const LIST: usize = 3;

// A list that may have holes.
pub const GAPS: usize = 4;

pub const TEXT: usize = 5;

pub const MARK: usize = 6;

// A byte, from 0, 1 or 2 on.
pub const BYTE: usize = 7;

pub const BYTE_FROM_1: usize = 8;

pub const BYTE_FROM_2: usize = 9;
