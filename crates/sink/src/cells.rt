// Cells of the work slice: the number of a temporary, or where its number will stand.
ghost use Rattle.std.specs.Prelude.{◌≡◌, ◌≤◌, ◌+◌, ℕ, List, cond, ltb};
ghost use Rattle.sink.specs.Machine.{state_of, step, cell_of, set_cell, known, patch_list, patch_work, number_of, settle};
ghost use Rattle.sink.specs.Machine.Event.{make};

use crate::{Sink, bytes};

#[tactic(auto, unfolding(crate::specs::Machine::cell_of))]
fn cell(work: &[u8], c: usize) -> usize
    ensures { result ≡ cell_of work.now c }
{
    if c < 16384 {
        bytes::wide(work, 2 * c)
    } else {
        0
    }
}

#[tactic(auto, unfolding(crate::specs::Machine::set_cell))]
pub(crate) fn set_cell(work: &mut [u8], c: usize, n: usize)
    ensures { work.new ≡ set_cell work.old c n }
{
    if c < 16384 {
        bytes::put_wide(work, 2 * c, n);
    }
}

// A new temporary, in a cell.
pub fn make(work: &mut [u8], c: usize)
    ensures { (t l : List ℕ) (k : Sink) → state_of t l work.new k ≡ step (state_of t l work.old k) (make c) }
{
    set_cell(work, c, 0);
}

// What a cell says of a temporary whose node is written from a position of the list (`part` is 16384) or of the excluded
// declarators (32768): where its number stands, if that is within the limit.
pub(crate) fn number_at(part: usize, at: usize) -> usize
    requires { part ≤ 32768 }
    ensures { result ≡ cond (ltb at 16381) (part + (at + 2)) 0 }
{
    if at < 16381 { part + (at + 2) } else { 0 }
}

#[tactic(auto, unfolding(crate::specs::Machine::known))]
fn known(v: usize) -> bool
    ensures { result ≡ known v }
{
    0 < v && v < 16384
}

// The number goes to where the cell says.
#[tactic(auto, unfolding(crate::specs::Machine::patch_list, crate::specs::Machine::patch_work))]
fn patch(list: &mut [u8], work: &mut [u8], v: usize, n: usize)
    ensures { (list.new ≡ patch_list v n list.old) × (work.new ≡ patch_work v n work.old) }
{
    if 32768 <= v {
        bytes::put_wide(work, v, n);
    } else if 16384 <= v {
        bytes::put_wide(list, v - 16384, n);
    }
}

impl Sink {
    // The number of a cell: its own, or the next.
    #[tactic(auto, unfolding(crate::specs::Machine::number_of))]
    pub fn number(self, work: &[u8], c: usize) -> usize
        ensures { (t l : List ℕ) → result ≡ number_of (state_of t l work.now self) c }
    {
        let v = cell(work, c);
        if known(v) { v } else { self.next }
    }

    // A cell without a number takes the next one.
    #[tactic(auto, unfolding(crate::specs::Machine::settle))]
    pub(crate) fn settled(mut self, list: &mut [u8], work: &mut [u8], c: usize) -> Sink
        ensures { (t : List ℕ) → state_of t list.new work.new result ≡ settle (state_of t list.old work.old self) c }
    {
        let v = cell(work, c);
        if known(v) {
            return self;
        }
        let n = self.next;
        patch(list, work, v, n);
        set_cell(work, c, n);
        self.next = bytes::one_more(n, 16383);
        self
    }
}
