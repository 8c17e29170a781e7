// Whether anything to lower is left, for C.
#![tactic(auto)]

ghost use Rattle.std.specs.Prelude.{◌≡◌, cond};
ghost use Rattle.result.specs.Leftover.{leftover};

#[unsafe(no_mangle)]
pub extern "C" fn rest_spread_leftover(tree: &[u8]) -> u8
    ensures { result ≡ cond (leftover tree.now) 1 0 }
{
    result::rest_spread_leftover(tree)
}
