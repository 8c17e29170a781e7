// The text of a rewritten tree, for C.
#![tactic(auto)]

ghost use Rattle.std.specs.Prelude.{◌≡◌, length};
ghost use Rattle.rewritten.specs.Rewritten.{read_rewritten};
ghost use Rattle.printer.specs.Outcome.{handed, outcome};

use printer::Printed;

#[unsafe(no_mangle)]
pub extern "C" fn rest_spread_text(tree: &[u8], text_out: &mut [u8]) -> Printed
    ensures { handed result text_out.new ≡ outcome (read_rewritten tree.now) (length text_out.old) }
{
    printer::rest_spread_text(tree, text_out)
}
