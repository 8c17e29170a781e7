// The second pass: the text.
ghost use Rattle.std.specs.Prelude.{◌≡◌, ◌≤◌, length};
ghost use Rattle.tree.specs.Tree.{Node};
ghost use Rattle.printer.specs.Logged.{Logged};
ghost use Rattle.printer.specs.Rows.{sort_numbers, slot_numbers, word_numbers};
ghost use Rattle.printer.specs.Stacks.{write, buffer_in};
ghost use Rattle.printer.specs.Text.{text_of};
ghost use Rattle.printer.specs.Turns.{start, empty};

use crate::print::State;
use crate::{frame, numbers, step};

// Around the Program, and nothing is written.
fn begin() -> State
    ensures { result ≡ start }
{
    State {
        top: frame::begun(0, 1, 0, 0, 0),
        level: 0,
        count: 0,
        spot: 0,
    }
}

// Right if the tables are lent, the numbers are those of the tree, and 16,384 of everything else are lent.
pub(crate) fn print(
    slots: &[u16],
    sorts: &[u32],
    words: &[usize],
    tree: &[u8],
    log: &[u32],
    count: usize,
    stack: &mut [usize],
    starts: &mut [u16],
    text: &mut [u8],
) -> usize
    ensures { slots.now ≡ slot_numbers → sorts.now ≡ sort_numbers → words.now ≡ word_numbers → (n : Node) → Logged tree.now log.now count n → 16384 ≤ length stack.old → 16384 ≤ length starts.old → buffer_in text.new result ≡ write (buffer_in text.old empty) (text_of n) }
{
    let mut s = begin();
    for i in 0..count {
        s = step::turn(
            slots,
            sorts,
            words,
            tree,
            stack,
            starts,
            text,
            s,
            numbers::entry_at(log, i),
        );
    }
    s.spot
}
