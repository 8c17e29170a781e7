// Joining a lowered tree and its list, for C.
#![tactic(auto)]

ghost use Rattle.std.specs.Prelude.{length};
ghost use Rattle.joining.specs.Answer.{Answered};

use joining::Joined;

#[unsafe(no_mangle)]
pub extern "C" fn rest_spread_join(tree: &[u8], list: &[u8], tree_out: &mut [u8]) -> Joined
    ensures { Answered tree.now list.now (length tree_out.old) result.answer result.tree_len tree_out.new }
{
    joining::rest_spread_join(tree, list, tree_out)
}
