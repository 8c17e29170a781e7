// Handed-out declarations put into place: a rewritten tree and its list become the program that is loaded.
#![tactic(auto)]

mod bodies;
mod entries;
pub mod join;
mod search;
mod settle;
mod table;
mod write;

ghost use Rattle.std.specs.Prelude.{◌≡◌, length};
ghost use Rattle.joining.specs.Answer.{Answered};

// Why nothing is joined: the tree is no rewritten tree; the list is none, or a mark stands twice; an entry's mark is no
// statement's; the joined tree is longer than a tree may be or than the slice.
#[derive(Clone, Copy, Debug, PartialEq, Eq)]
pub enum Refusal {
    NoTree,
    NoList,
    NotFound,
    TooLong,
}

// The number of a refusal.
impl From<Refusal> for u8 {
    ghost use Rattle.joining.specs.Answer.{refusal_number};

    ghost from_gives = { λ e n. n ≡ refusal_number e };

    fn from(refusal: Refusal) -> u8 {
        match refusal {
            Refusal::NoTree => 3,
            Refusal::NoList => 12,
            Refusal::NotFound => 13,
            Refusal::TooLong => 7,
        }
    }
}

// Answer 0 and the length of the tree; or the number of a refusal and 0. Two numbers, since C reads them.
#[repr(C)]
#[derive(Clone, Copy)]
pub struct Joined {
    pub answer: u8,
    pub tree_len: usize,
}

impl From<Refusal> for Joined {
    ghost use Rattle.joining.specs.Answer.{refusal_number};

    ghost from_gives = { λ e j. (j.answer ≡ refusal_number e) × (j.tree_len ≡ 0) };

    fn from(refusal: Refusal) -> Joined {
        Joined {
            answer: u8::from(refusal),
            tree_len: 0,
        }
    }
}

// Request 10's entry. Any slices. The tree goes into the lent slice, then zeros; on a refusal all is zero.
pub fn rest_spread_join(tree: &[u8], list: &[u8], tree_out: &mut [u8]) -> Joined
    ensures { Answered tree.now list.now (length tree_out.old) result.answer result.tree_len tree_out.new }
{
    join::join(tree, list, tree_out)
}
