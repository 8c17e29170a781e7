// The output of the lowering: a tree and a list, written into lent slices while the input is walked.
#![tactic(auto)]

pub mod bytes;
pub mod cells;
pub mod ends;
pub mod keys;
pub mod list;
pub mod mask;
pub mod tree;

// Which helpers the tree uses.
#[derive(Clone, Copy, Default)]
pub struct Helpers {
    pub spread: bool,
    pub extends: bool,
    pub empty: bool,
    pub without: bool,
    pub key: bool,
}

// How many bytes the list and the excluded declarators have (one above the limit if there are more), how many entries and
// excluded declarators there are, which helpers the tree uses, how many bytes it has, the next mark of a statement, the next
// number of a temporary. The order of the fields counts for the time that a copy takes (docs/SPEED.md).
#[derive(Clone, Copy)]
pub struct Sink {
    pub list: usize,
    pub keys: usize,
    pub entries: usize,
    pub declarators: usize,
    pub helpers: Helpers,
    pub tree: usize,
    pub mark: usize,
    pub next: usize,
}

// What is handed back where tree and list fit: the helper mask, both lengths.
#[derive(Clone, Copy)]
pub struct Written {
    pub helpers: u8,
    pub tree: usize,
    pub list: usize,
}
