// What is written to the list.
ghost use Rattle.std.specs.Prelude.{◌≡◌, ℕ, ◌+◌, List, [], ◌∷◌, set};
ghost use Rattle.sink.specs.Machine.{state_of, step, steps, lists, low, high, part, set_wide};
ghost use Rattle.sink.specs.Machine.Event.{listed, listed_temporary, entry};

use crate::{Sink, bytes, cells};

// A byte goes into the still unwritten end of the list.
fn write_byte(rest: &mut [u8], b: u8)
    ensures { rest.new ≡ set rest.old 0 b }
{
    bytes::put_byte(rest, 0, b);
}

// The same, of a list that has `filled` bytes.
fn write_at(list: &mut [u8], filled: usize, b: u8)
    ensures { list.new ≡ set list.old filled b }
{
    if filled < list.len() {
        write_byte(&mut list[filled..], b);
    }
}

// The head of an entry goes into the still unwritten end of the list: a mark, and how many declarators follow.
fn write_entry(rest: &mut [u8], mark: usize, count: usize)
    ensures { rest.new ≡ set_wide (set_wide rest.old 0 mark) 2 count }
{
    bytes::put_wide(rest, 0, mark);
    bytes::put_wide(rest, 2, count);
}

// The same, of a list that has `filled` bytes.
fn write_entry_at(list: &mut [u8], filled: usize, mark: usize, count: usize)
    ensures { list.new ≡ set_wide (set_wide list.old filled mark) (filled + 2) count }
{
    if filled < list.len() {
        write_entry(&mut list[filled..], mark, count);
    }
}

impl Sink {
    fn listed(mut self, list: &mut [u8], b: u8) -> Sink
        ensures { (t w : List ℕ) → state_of t list.new w result ≡ step (state_of t list.old w self) (listed b) }
    {
        let filled = self.list;
        if filled < 16384 {
            write_at(list, filled, b);
            self.list = filled + 1;
            return self;
        }
        self.list = 16385;
        self
    }

    pub fn listed2(self, list: &mut [u8], a: u8, b: u8) -> Sink
        ensures { (t w : List ℕ) → state_of t list.new w result ≡ steps (state_of t list.old w self) (lists (a ∷ b ∷ [])) }
    {
        self.listed(list, a).listed(list, b)
    }

    fn listed4(self, list: &mut [u8], a: u8, b: u8, c: u8, d: u8) -> Sink
        ensures { (t w : List ℕ) → state_of t list.new w result ≡ steps (state_of t list.old w self) (lists (a ∷ b ∷ c ∷ d ∷ [])) }
    {
        self.listed2(list, a, b).listed2(list, c, d)
    }

    // A 16-bit number.
    pub(crate) fn listed_wide(self, list: &mut [u8], n: usize) -> Sink
        ensures { (t w : List ℕ) → state_of t list.new w result ≡ steps (state_of t list.old w self) (lists (low n ∷ high n ∷ [])) }
    {
        self.listed2(list, bytes::low(n), bytes::high(n))
    }

    // The bytes of `from` from a position up to another.
    pub fn listed_copy(mut self, list: &mut [u8], from: &[u8], start: usize, end: usize) -> Sink
        ensures { (t w : List ℕ) → state_of t list.new w result ≡ steps (state_of t list.old w self) (lists (part start end from.now)) }
    {
        for &b in bytes::part(from, start, end) {
            self = self.listed(list, b);
        }
        self
    }

    // The head of an entry: the mark of a statement, and how many declarators follow.
    pub fn entry(mut self, list: &mut [u8], mark: usize, count: usize) -> Sink
        ensures { (t w : List ℕ) → state_of t list.new w result ≡ step (state_of t list.old w self) (entry mark count) }
    {
        self.entries = bytes::one_more(self.entries, 65535);
        let filled = self.list;
        if filled < 16381 {
            write_entry_at(list, filled, mark, count);
            self.list = filled + 4;
            return self;
        }
        self.list = 16385;
        self
    }

    // A new temporary, in a cell and with its stem, whose node stands in the list.
    pub fn listed_temporary(self, list: &mut [u8], work: &mut [u8], c: usize, stem: u8) -> Sink
        ensures { (t : List ℕ) → state_of t list.new work.new result ≡ step (state_of t list.old work.old self) (listed_temporary c stem) }
    {
        cells::set_cell(work, c, cells::number_at(16384, self.list));
        self.listed4(list, 20, 3, 0, 0).listed(list, stem)
    }
}
