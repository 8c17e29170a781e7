// The count of calls for C.
#![tactic(auto)]

ghost use Rattle.std.specs.Prelude.{◌≡◌};
ghost use Rattle.counting.specs.Figures.{answer_of, number_of};

use counting::Counted;

#[unsafe(no_mangle)]
pub extern "C" fn rest_spread_calls(n: u32, c: u32) -> Counted
    ensures { (result.answer ≡ answer_of n) × (result.number ≡ number_of n c) }
{
    counting::rest_spread_calls(n, c)
}
