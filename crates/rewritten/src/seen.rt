// A table of the marks that were met: 1 at each of them.
ghost use Rattle.std.specs.Prelude.{◌≡◌, List, ℕ, ◌/◌, ◌%◌, length, get_or, set, nat_eq};
ghost use Rattle.rewritten.specs.Steps.{event_in};
ghost use Rattle.rewritten.specs.Look.{new_for, noted_for};
ghost use Rattle.rewritten.specs.Marks.{new_in, noted};

use crate::step::Event;

// Every entry 0.
pub fn clear(seen: &mut [u8])
    ensures { (length seen.new ≡ length seen.old) × ((x : ℕ) → get_or seen.new x 0 ≡ 0) }
{
    seen.fill(0);
}

// A mark was not met.
fn is_unseen(seen: &[u8], n: usize) -> bool
    ensures { result ≡ nat_eq (get_or seen.now n 0) 0 }
{
    seen.get(n).copied().unwrap_or(0) == 0
}

fn see(seen: &mut [u8], n: usize)
    ensures { seen.new ≡ set seen.old n 1 }
{
    if n < seen.len() {
        seen[n] = 1;
    }
}

// Whether a mark is new.
pub fn is_new(seen: &[u8], e: Event) -> bool
    ensures { (tree : List ℕ) → result ≡ new_in seen.now (event_in tree e) }
{
    match e {
        Event::Mark(n) => is_unseen(seen, n),
        _ => true,
    }
}

// A mark is noted.
pub fn note(seen: &mut [u8], e: Event)
    ensures { (tree : List ℕ) → seen.new ≡ noted seen.old (event_in tree e) }
{
    if let Event::Mark(n) = e {
        see(seen, n);
    }
}

// Whether what `look` found is no mark that was met.
pub fn is_new_ahead(seen: &[u8], what: usize) -> bool
    ensures { result ≡ new_for seen.now (what % 16) (what / 16) }
{
    what % 16 != 4 || is_unseen(seen, what / 16)
}

// A mark that `look` found is noted.
pub fn note_ahead(seen: &mut [u8], what: usize)
    ensures { seen.new ≡ noted_for seen.old (what % 16) (what / 16) }
{
    if what % 16 == 4 {
        see(seen, what / 16);
    }
}
