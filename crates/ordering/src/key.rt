// What an event is compared by.
ghost use Rattle.std.specs.Prelude.{◌≡◌, ◌+◌, ◌≤◌, List, [], ℕ, length, take, drop};
ghost use Rattle.rewritten.specs.Steps.{event_in};
ghost use Rattle.ordering.specs.Order.{by_event, opens_temporary};
ghost use Rattle.ordering.specs.Sides.{KeyIs, Within, number_in};

use rewritten::step::Event;
use std::cmp::Ordering;
use tree::kinds;

// Three numbers and a text, compared in this order.
#[derive(Clone, Copy, PartialEq, Eq, PartialOrd, Ord)]
struct Key<'a> {
    pub rank: usize,
    pub first: usize,
    pub second: usize,
    pub text: &'a [u8],
}

fn numbers<'a>(rank: usize, first: usize, second: usize) -> Key<'a>
    ensures { (result.rank ≡ rank) × (result.first ≡ first) × (result.second ≡ second) × (result.text.now ≡ []) }
{
    Key {
        rank,
        first,
        second,
        text: &[],
    }
}

fn key_of<'a>(tree: &'a [u8], e: Event) -> Key<'a>
    ensures { Within tree.now e → KeyIs tree.now e result }
{
    match e {
        Event::Closes => numbers(0, 0, 0),
        Event::Hole => numbers(1, 0, 0),
        Event::Begins(_, kind, map) => numbers(2, kind, map),
        Event::Opens(_) => numbers(3, 0, 0),
        Event::Text(at, n) => Key {
            text: text_at(tree, at, n),
            ..numbers(4, 0, 0)
        },
        Event::Byte(b) => numbers(5, b, 0),
        Event::Mark(n) => numbers(6, n, 0),
        Event::Number(n) => numbers(7, n, 0),
        Event::Ends => numbers(8, 0, 0),
    }
}

// The n bytes from `at` on, if there are so many.
fn text_at(tree: &[u8], at: usize, n: usize) -> &[u8]
    ensures { at + n ≤ length tree.now → result.now ≡ take n (drop at tree.now) }
{
    if at <= tree.len() && n <= tree.len() - at {
        &tree[at..at + n]
    } else {
        &[]
    }
}

// An event of the first tree against one of the second.
pub(crate) fn by_event(first: &[u8], e: Event, second: &[u8], f: Event) -> Ordering
    ensures { Within first.now e → Within second.now f → result ≡ by_event (event_in first.now e) (event_in second.now f) }
{
    key_of(first, e).cmp(&key_of(second, f))
}

// The number that an event is, if it is one.
pub(crate) fn number_in(e: Event) -> Option<usize>
    ensures { (tree : List ℕ) → result ≡ number_in (event_in tree e) }
{
    match e {
        Event::Number(n) => Some(n),
        _ => None,
    }
}

// The next event is the number of a temporary.
pub(crate) fn opens_temporary(e: Event) -> bool
    ensures { (tree : List ℕ) → result ≡ opens_temporary (event_in tree e) }
{
    match e {
        Event::Begins(_, kind, _) => kind == kinds::TEMPORARY,
        _ => false,
    }
}
