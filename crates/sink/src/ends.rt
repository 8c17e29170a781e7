// The first state, and what is handed back at the end.
ghost use Rattle.std.specs.Prelude.{◌≡◌, ℕ, List, length};
ghost use Rattle.sink.specs.Machine.{state_of, start, closed, end_of, handed_of, over, nothing, ended, finished};

use crate::{Helpers, Sink, Written, bytes};

// Every lent byte is 0, and the next mark is given.
#[tactic(auto, unfolding(crate::specs::Machine::start))]
pub fn begin(out: &mut [u8], list: &mut [u8], work: &mut [u8], mark: usize) -> Sink
    ensures { state_of out.new list.new work.new result ≡ start (length out.old) (length list.old) (length work.old) mark }
{
    out.fill(0);
    list.fill(0);
    work.fill(0);
    Sink {
        tree: 0,
        list: 2,
        keys: 0,
        entries: 0,
        declarators: 0,
        next: 1,
        mark,
        helpers: Helpers::default(),
    }
}

// Every lent byte is 0, and nothing is handed on: a refusal.
#[tactic(auto, unfolding(crate::specs::Machine::nothing))]
pub fn abandon(out: &mut [u8], list: &mut [u8], work: &mut [u8]) -> Option<Written>
    ensures { end_of out.new list.new work.new (handed_of result) ≡ nothing (length out.old) (length list.old) (length work.old) }
{
    out.fill(0);
    list.fill(0);
    work.fill(0);
    None
}

// Whether a length is above its limit or its slice.
#[tactic(auto, unfolding(crate::specs::Machine::over))]
fn over(limit: usize, slice: usize, n: usize) -> bool
    ensures { result ≡ over limit slice n }
{
    limit.min(slice) < n
}

impl Sink {
    // The count of entries goes to its place, and the excluded declarators after the entries.
    fn closed(mut self, list: &mut [u8], work: &[u8]) -> Sink
        ensures { (t : List ℕ) → state_of t list.new work.now result ≡ closed (state_of t list.old work.now self) }
    {
        let keys = self.keys;
        if keys < 16385 {
            bytes::put_wide(list, 0, self.entries);
            return self
                .listed_wide(list, self.declarators)
                .listed_copy(list, work, 32768, 32768 + keys);
        }
        self.list = 16385;
        self
    }

    #[tactic(auto, unfolding(crate::specs::Machine::ended))]
    fn ended(self, out: &mut [u8], list: &mut [u8], work: &mut [u8]) -> Option<Written>
        ensures { end_of out.new list.new work.new (handed_of result) ≡ ended (state_of out.old list.old work.old self) }
    {
        if over(32768, out.len(), self.tree) || over(16384, list.len(), self.list) {
            return abandon(out, list, work);
        }
        work.fill(0);
        Some(Written {
            helpers: self.helpers.mask(),
            tree: self.tree,
            list: self.list,
        })
    }

    // The whole tree and the whole list if both fit, else nothing.
    #[tactic(auto, unfolding(crate::specs::Machine::finished))]
    pub fn finish(self, out: &mut [u8], list: &mut [u8], work: &mut [u8]) -> Option<Written>
        ensures { end_of out.new list.new work.new (handed_of result) ≡ finished (state_of out.old list.old work.old self) }
    {
        self.closed(list, work).ended(out, list, work)
    }
}
