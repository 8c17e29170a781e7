// What comes out of the lowering: the laws are in specs/ and proofs/; a test for loaders.
#![tactic(auto)]

pub mod leftover;

ghost use Rattle.std.specs.Prelude.{◌≡◌, cond};
ghost use Rattle.result.specs.Leftover.{leftover};

// 1 if an object rest is left in a rewritten tree, else 0; 0 for bytes that are none.
pub fn rest_spread_leftover(tree: &[u8]) -> u8
    ensures { result ≡ cond (leftover tree.now) 1 0 }
{
    leftover::leftover(tree) as u8
}
