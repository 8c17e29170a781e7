// Drawn trees for C.
#![tactic(auto)]

ghost use Rattle.std.specs.Prelude.{◌≡◌, length};
ghost use Rattle.drawing.specs.Xorshift.{step};
ghost use Rattle.drawing.specs.Outcome.{handed, outcome};

use drawing::{Drawn, Xorshift};

#[unsafe(no_mangle)]
pub extern "C" fn xorshift_next(g: &mut Xorshift) -> u32
    ensures { (result ≡ step g.old.state) × (g.new.state ≡ step g.old.state) }
{
    drawing::xorshift_next(g)
}

#[unsafe(no_mangle)]
pub extern "C" fn rest_spread_draw(seed: u32, tree_out: &mut [u8]) -> Drawn
    ensures { handed result tree_out.new ≡ outcome seed (length tree_out.old) }
{
    drawing::rest_spread_draw(seed, tree_out)
}
