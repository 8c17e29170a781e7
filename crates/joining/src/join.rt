// The three slices, and the tables in between.
ghost use Rattle.std.specs.Prelude.{◌≤◌, length};
ghost use Rattle.joining.specs.Answer.{Answered, Joins};
ghost use Rattle.joining.specs.Files.{Lent};

use crate::search::Filed;
use crate::write::Source;
use crate::{Joined, Refusal, bodies, entries, settle};

// The length of the joined tree. Right if 16,384 frames, 65,536 bytes for marks and a place for each byte are lent.
fn joined(
    tree: &[u8],
    list: &[u8],
    out: &mut [u8],
    frames: &mut [usize],
    marks: &mut [u8],
    around: &mut [u16],
    earlier: &mut [u16],
    holds: &mut [u16],
    before: &mut [u16],
    ends: &mut [u16],
    more: &mut [u16],
    held: &mut [u16],
) -> Result<usize, Refusal>
    ensures { Lent frames.old marks.old around.old earlier.old holds.old before.old → 16384 ≤ length ends.old → 32768 ≤ length more.old → 32768 ≤ length held.old → Joins tree.now list.now (length out.old) result out.new }
{
    more.fill(0);
    held.fill(0);
    let latest = bodies::collect(tree, frames, marks, around, earlier, holds, before).ok_or(
        Refusal::NoTree,
    )?;
    let excluded = entries::read(list, frames, marks, ends).ok_or(Refusal::NoList)?;
    let filed = Filed {
        earlier,
        holds,
        before,
        latest,
    };
    if !settle::settle(tree, list, &filed, ends, more, held) {
        return Err(Refusal::NotFound);
    }
    out.fill(0);
    let source = Source {
        tree,
        list,
        seen: marks,
        ends,
        more,
        held,
    };
    let n = source.write(excluded, out);
    if 32768 < n || out.len() < n {
        return Err(Refusal::TooLong);
    }
    Ok(n)
}

pub fn join(tree: &[u8], list: &[u8], out: &mut [u8]) -> Joined
    ensures { Answered tree.now list.now (length out.old) result.answer result.tree_len out.new }
{
    let mut frames: [usize; 16384] = [0; 16384];
    let mut marks: [u8; 65536] = [0; 65536];
    let mut around: [u16; 16385] = [0; 16385];
    let mut earlier: [u16; 32768] = [0; 32768];
    let mut holds: [u16; 32768] = [0; 32768];
    let mut before: [u16; 32768] = [0; 32768];
    let mut ends: [u16; 16384] = [0; 16384];
    let mut more: [u16; 32768] = [0; 32768];
    let mut held: [u16; 32768] = [0; 32768];
    let told = joined(
        tree,
        list,
        out,
        &mut frames,
        &mut marks,
        &mut around,
        &mut earlier,
        &mut holds,
        &mut before,
        &mut ends,
        &mut more,
        &mut held,
    );
    match told {
        Ok(tree_len) => Joined {
            answer: 0,
            tree_len,
        },
        Err(refusal) => {
            out.fill(0);
            Joined::from(refusal)
        }
    }
}
