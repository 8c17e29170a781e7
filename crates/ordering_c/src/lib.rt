// The order of rewritten trees, for C.
#![tactic(auto)]

ghost use Rattle.std.specs.Prelude.{◌≡◌};
ghost use Rattle.rewritten.specs.Rewritten.{read_rewritten};
ghost use Rattle.ordering.specs.Outcome.{answer_of, answer_number, order_number};

use ordering::Ordered;

#[unsafe(no_mangle)]
pub extern "C" fn rest_spread_order(first: &[u8], second: &[u8]) -> Ordered
    ensures { (result.answer ≡ answer_number (answer_of (read_rewritten first.now) (read_rewritten second.now))) × (result.order ≡ order_number (answer_of (read_rewritten first.now) (read_rewritten second.now))) }
{
    ordering::rest_spread_order(first, second)
}
