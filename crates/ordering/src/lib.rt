// An order over rewritten trees: two tours side by side until they part.
#![tactic(auto)]

pub mod compare;
pub mod key;
pub mod place;
pub mod side;

ghost use Rattle.std.specs.Prelude.{◌≡◌};
ghost use Rattle.rewritten.specs.Rewritten.{read_rewritten};
ghost use Rattle.ordering.specs.Outcome.{answer_of, answer_number, order_number};

// Answer 0 and -1, 0 or 1: the first is less than the second, equal or greater. Or the refusal 3, and 0. Two numbers, since C reads
// them.
#[repr(C)]
#[derive(Clone, Copy, Debug, PartialEq, Eq)]
pub struct Ordered {
    pub answer: u8,
    pub order: i8,
}

// Request 11's entry. Any two slices.
pub fn rest_spread_order(first: &[u8], second: &[u8]) -> Ordered
    ensures { (result.answer ≡ answer_number (answer_of (read_rewritten first.now) (read_rewritten second.now))) × (result.order ≡ order_number (answer_of (read_rewritten first.now) (read_rewritten second.now))) }
{
    match compare::order(first, second) {
        Some(order) => Ordered {
            answer: 0,
            order: order as i8,
        },
        None => Ordered {
            answer: 3,
            order: 0,
        },
    }
}
