// Excluded declarators: gathered in the work slice, and appended to the list at the end.
ghost use Rattle.std.specs.Prelude.{◌≡◌, ℕ, List, [], ◌∷◌};
ghost use Rattle.sink.specs.Machine.{state_of, step, steps, excludes, low, high, part};
ghost use Rattle.sink.specs.Machine.Event.{excluded, excluded_temporary, declarator};

use crate::{Sink, bytes, cells};

impl Sink {
    pub fn excluded(mut self, work: &mut [u8], b: u8) -> Sink
        ensures { (t l : List ℕ) → state_of t l work.new result ≡ step (state_of t l work.old self) (excluded b) }
    {
        let at = self.keys;
        if at < 16384 {
            bytes::put_byte(work, 32768 + at, b);
            self.keys = at + 1;
            return self;
        }
        self.keys = 16385;
        self
    }

    pub fn excluded2(self, work: &mut [u8], a: u8, b: u8) -> Sink
        ensures { (t l : List ℕ) → state_of t l work.new result ≡ steps (state_of t l work.old self) (excludes (a ∷ b ∷ [])) }
    {
        self.excluded(work, a).excluded(work, b)
    }

    pub fn excluded4(self, work: &mut [u8], a: u8, b: u8, c: u8, d: u8) -> Sink
        ensures { (t l : List ℕ) → state_of t l work.new result ≡ steps (state_of t l work.old self) (excludes (a ∷ b ∷ c ∷ d ∷ [])) }
    {
        self.excluded2(work, a, b).excluded2(work, c, d)
    }

    // A 16-bit number.
    pub fn excluded_wide(self, work: &mut [u8], n: usize) -> Sink
        ensures { (t l : List ℕ) → state_of t l work.new result ≡ steps (state_of t l work.old self) (excludes (low n ∷ high n ∷ [])) }
    {
        self.excluded2(work, bytes::low(n), bytes::high(n))
    }

    // The bytes of `from` from a position up to another.
    pub fn excluded_copy(mut self, work: &mut [u8], from: &[u8], start: usize, end: usize) -> Sink
        ensures { (t l : List ℕ) → state_of t l work.new result ≡ steps (state_of t l work.old self) (excludes (part start end from.now)) }
    {
        for &b in bytes::part(from, start, end) {
            self = self.excluded(work, b);
        }
        self
    }

    // The head of a declarator that has both its fields.
    pub fn declarator(mut self, work: &mut [u8]) -> Sink
        ensures { (t l : List ℕ) → state_of t l work.new result ≡ step (state_of t l work.old self) declarator }
    {
        self.declarators = bytes::one_more(self.declarators, 65535);
        self.excluded2(work, 5, 3)
    }

    // A new temporary, in a cell and with its stem, whose node stands among the excluded declarators.
    pub fn excluded_temporary(self, work: &mut [u8], c: usize, stem: u8) -> Sink
        ensures { (t l : List ℕ) → state_of t l work.new result ≡ step (state_of t l work.old self) (excluded_temporary c stem) }
    {
        cells::set_cell(work, c, cells::number_at(32768, self.keys));
        self.excluded4(work, 20, 3, 0, 0).excluded(work, stem)
    }
}
