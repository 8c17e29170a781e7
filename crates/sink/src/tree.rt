// What is written to the tree.
ghost use Rattle.std.specs.Prelude.{◌≡◌, ℕ, ◌+◌, ◌≤◌, ltb, true, List, [], ◌∷◌, length};
ghost use Rattle.sink.specs.declared.Sink.{Sink};
ghost use Rattle.sink.specs.Machine.{tree_limit, with_tree, state_of, step, steps, puts, low, high, part};
ghost use Rattle.sink.specs.Machine.Event.{put, helper, temporary, new_mark};

use crate::{Sink, bytes, cells};

// A byte of the tree at a position; the next position. Past the limit nothing is written.
fn put_at(out: &mut [u8], at: usize, b: u8) -> usize
    ensures { (k : Sink) (l w : List ℕ) → state_of out.new l w (with_tree k result) ≡ step (state_of out.old l w (with_tree k at)) (put b) }
{
    if at < 32768 {
        bytes::put_byte(out, at, b);
        return at + 1;
    }
    32769
}

// Whether so many bytes have room behind `at`, within the limit and the slice.
fn has_room(at: usize, count: usize, slice: usize) -> bool
    ensures { result ≡ true → (at + count ≤ slice) × (at + count ≤ tree_limit) }
{
    let most = slice.min(32768);
    at <= most && count <= most - at
}

// Bytes that have room, in one block.
fn copy_whole(out: &mut [u8], at: usize, bytes: &[u8]) -> usize
    requires { (at + length bytes.now ≤ length out.old) × (at + length bytes.now ≤ tree_limit) }
    ensures { (k : Sink) (l w : List ℕ) → state_of out.new l w (with_tree k result) ≡ steps (state_of out.old l w (with_tree k at)) (puts bytes.now) }
{
    let end = at + bytes.len();
    bytes::copy_over(&mut out[at..end], bytes);
    end
}

impl Sink {
    pub fn put(mut self, out: &mut [u8], b: u8) -> Sink
        ensures { (l w : List ℕ) → state_of out.new l w result ≡ step (state_of out.old l w self) (put b) }
    {
        self.tree = put_at(out, self.tree, b);
        self
    }

    // Whether the tree is past its limit, so that nothing will be handed back.
    pub fn full(self) -> bool
        ensures { result ≡ ltb tree_limit self.tree }
    {
        32768 < self.tree
    }

    pub fn put2(self, out: &mut [u8], a: u8, b: u8) -> Sink
        ensures { (l w : List ℕ) → state_of out.new l w result ≡ steps (state_of out.old l w self) (puts (a ∷ b ∷ [])) }
    {
        self.put(out, a).put(out, b)
    }

    pub fn put4(self, out: &mut [u8], a: u8, b: u8, c: u8, d: u8) -> Sink
        ensures { (l w : List ℕ) → state_of out.new l w result ≡ steps (state_of out.old l w self) (puts (a ∷ b ∷ c ∷ d ∷ [])) }
    {
        self.put2(out, a, b).put2(out, c, d)
    }

    // A 16-bit number.
    pub fn put_wide(self, out: &mut [u8], n: usize) -> Sink
        ensures { (l w : List ℕ) → state_of out.new l w result ≡ steps (state_of out.old l w self) (puts (low n ∷ high n ∷ [])) }
    {
        self.put2(out, bytes::low(n), bytes::high(n))
    }

    // The bytes of `from` from a position up to another.
    pub fn copy(mut self, out: &mut [u8], from: &[u8], start: usize, end: usize) -> Sink
        ensures { (l w : List ℕ) → state_of out.new l w result ≡ steps (state_of out.old l w self) (puts (part start end from.now)) }
    {
        let bytes = bytes::part(from, start, end);
        if has_room(self.tree, bytes.len(), out.len()) {
            self.tree = copy_whole(out, self.tree, bytes);
        } else {
            for &b in bytes {
                self = self.put(out, b);
            }
        }
        self
    }

    // The node of helper h.
    pub fn helper(mut self, out: &mut [u8], h: u8) -> Sink
        ensures { (l w : List ℕ) → state_of out.new l w result ≡ step (state_of out.old l w self) (helper h) }
    {
        self.helpers = self.helpers.with(h);
        self.put2(out, 21, 1).put(out, h)
    }

    // The next mark, for a new statement.
    pub fn new_mark(mut self, out: &mut [u8]) -> Sink
        ensures { (l w : List ℕ) → state_of out.new l w result ≡ step (state_of out.old l w self) new_mark }
    {
        let m = self.mark;
        self.mark = bytes::one_more(m, 65535);
        self.put_wide(out, m)
    }

    // The node of the temporary that a cell stands for, with its stem.
    pub fn temporary(
        self,
        out: &mut [u8],
        list: &mut [u8],
        work: &mut [u8],
        c: usize,
        stem: u8,
    ) -> Sink
        ensures { state_of out.new list.new work.new result ≡ step (state_of out.old list.old work.old self) (temporary c stem) }
    {
        let n = self.number(work, c);
        let k = self.settled(list, work, c);
        k.put4(out, 20, 3, bytes::low(n), bytes::high(n))
            .put(out, stem)
    }
}
