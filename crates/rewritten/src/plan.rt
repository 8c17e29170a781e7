// The fields of a node that are still to come, as one number; and the forms of the rewritten stage.
ghost use Rattle.std.specs.Prelude.{◌≡◌, ◌<◌, ◌^◌};
ghost use Rattle.tree.specs.Grammar.{form_at};
ghost use Rattle.tree.specs.Grammar.Stage.{rewritten};
ghost use Rattle.rewritten.specs.Steps.{Planned};

use tree::{grammar, kinds};

// The fields of a row whose bits stand, ten binary digits a field, the tenth always set. Of most nodes the first or the
// first two stand.
pub(crate) fn plan(row: usize, map: usize) -> usize
    ensures { (result < 1024 ^ 6) × Planned row map result }
{
    if 1152921504606846975 < row {
        return 0;
    }
    if map == 1 && 0 < row {
        return 512 + row % 512;
    }
    if map == 3 && 1023 < row {
        return 512 + row % 512 + 1024 * (512 + row / 1024 % 512);
    }
    // No counted loop: it ends where no field is left.
    let mut left = row;
    let mut bits = map;
    let mut made = 0;
    let mut scale = 1;
    while 0 < left {
        if bits % 2 == 1 {
            made += scale * (512 + left % 512);
            scale *= 1024;
        }
        left /= 1024;
        bits /= 2;
    }
    made
}

// The form of a kind at a place in a rewritten tree, 0 where the kind may not stand there.
pub(crate) fn form_at(place: usize, kind: usize) -> usize
    ensures { result ≡ form_at rewritten place kind }
{
    match kind {
        kinds::TEMPORARY => {
            if grammar::form_at(place, kinds::REFERENCE) == 0
                && grammar::form_at(place, kinds::BINDING) == 0
            {
                0
            } else {
                kinds::TEMPORARY
            }
        }
        kinds::HELPER => {
            if grammar::form_at(place, kinds::OBJECT) == 0 {
                0
            } else {
                kinds::HELPER
            }
        }
        _ => grammar::form_at(place, kind),
    }
}
