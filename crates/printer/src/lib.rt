// JavaScript text of a rewritten tree.
#![tactic(auto)]

pub mod entries;
pub mod frame;
pub mod layout;
pub mod names;
pub mod numbers;
pub mod out;
pub mod pass;
pub mod places;
pub mod print;
pub mod record;
pub mod step;
pub mod texts;
pub mod words;

ghost use Rattle.std.specs.Prelude.{◌≡◌, List, ℕ, ◌≤◌, length, replicate};
ghost use Rattle.rewritten.specs.Rewritten.{read_rewritten};
ghost use Rattle.rewritten.specs.Numbers.{place_numbers, plan_numbers, map_numbers};
ghost use Rattle.printer.specs.Rows.{sort_numbers, slot_numbers, word_numbers};
ghost use Rattle.printer.specs.Outcome.{handed, printed, fitted, outcome};
ghost use Rattle.printer.specs.Stacks.{write, buffer_in};
ghost use Rattle.printer.specs.Turns.{empty};

use rewritten::tables;

// No rewritten tree; or the text is longer than the slice.
#[derive(Clone, Copy, Debug, PartialEq, Eq)]
enum Refusal {
    NotATree,
    TextTooLong,
}

impl From<Refusal> for u8 {
    ghost use Rattle.std.specs.Prelude.{◌≡◌};
    ghost use Rattle.printer.specs.Outcome.{answer_of};

    ghost from_gives = { λ refusal answer. answer ≡ answer_of refusal };

    fn from(refusal: Refusal) -> u8 {
        match refusal {
            Refusal::NotATree => 3,
            Refusal::TextTooLong => 10,
        }
    }
}

// Answer 0 and the length of the text; or the refusal, and 0. Numbers, since C reads them.
#[repr(C)]
#[derive(Clone, Copy)]
pub struct Printed {
    pub answer: u8,
    pub text_len: usize,
}

impl From<Result<usize, Refusal>> for Printed {
    ghost use Rattle.std.specs.Prelude.{◌≡◌};
    ghost use Rattle.printer.specs.Outcome.{printed};

    ghost from_gives = { λ text answer. answer ≡ printed text };

    fn from(text: Result<usize, Refusal>) -> Printed {
        match text {
            Ok(text_len) => Printed {
                answer: 0,
                text_len,
            },
            Err(refusal) => Printed {
                answer: u8::from(refusal),
                text_len: 0,
            },
        }
    }
}

// What was written into zeros is handed back, unless there was more.
fn finish(text: &mut [u8], spot: usize) -> Result<usize, Refusal>
    ensures { (size : ℕ) (bs : List ℕ) → length text.old ≡ size → buffer_in text.old spot ≡ write (buffer_in (replicate size 0) empty) bs → handed (printed result) text.new ≡ fitted size bs }
{
    if text.len() < spot {
        text.fill(0);
        return Err(Refusal::TextTooLong);
    }
    Ok(spot)
}

// Both passes. Right if the tables, 16,384 of everything, 65,536 zeros for marks and 32,768 entries are lent, and the text is
// zeros.
fn both_passes(
    places: &[usize],
    plans: &[usize],
    maps: &[usize],
    slots: &[u16],
    sorts: &[u32],
    words: &[usize],
    tree: &[u8],
    frames: &mut [usize],
    seen: &mut [u8],
    stack: &mut [u16],
    log: &mut [u32],
    text: &mut [u8],
) -> Result<usize, Refusal>
    ensures { (size : ℕ) → places.now ≡ place_numbers → plans.now ≡ plan_numbers → maps.now ≡ map_numbers → slots.now ≡ slot_numbers → sorts.now ≡ sort_numbers → words.now ≡ word_numbers → text.old ≡ replicate size 0 → 16384 ≤ length frames.old → seen.old ≡ replicate 65536 0 → 16384 ≤ length stack.old → 32768 ≤ length log.old → handed (printed result) text.new ≡ outcome (read_rewritten tree.now) size }
{
    let met = record::record(places, plans, maps, tree, frames, seen, stack, log);
    let count = met.ok_or(Refusal::NotATree)?;
    let spot = pass::print(slots, sorts, words, tree, log, count, frames, stack, text);
    finish(text, spot)
}

// The arrays of a call.
fn fill(tree: &[u8], text: &mut [u8]) -> Result<usize, Refusal>
    ensures { (size : ℕ) → text.old ≡ replicate size 0 → handed (printed result) text.new ≡ outcome (read_rewritten tree.now) size }
{
    let places = tables::places();
    let plans = tables::plans();
    let maps = tables::maps();
    let slots = layout::slots();
    let sorts = layout::sorts();
    let words = words::words();
    let mut frames: [usize; 16384] = [0; 16384];
    let mut seen: [u8; 65536] = [0; 65536];
    let mut stack: [u16; 16384] = [0; 16384];
    let mut log: [u32; 32768] = [0; 32768];
    both_passes(
        &places,
        &plans,
        &maps,
        &slots,
        &sorts,
        &words,
        tree,
        &mut frames,
        &mut seen,
        &mut stack,
        &mut log,
        text,
    )
}

// Request 7's entry: the text of a rewritten tree, then zeros. Any bytes, a slice of any length.
pub fn rest_spread_text(tree: &[u8], text_out: &mut [u8]) -> Printed
    ensures { handed result text_out.new ≡ outcome (read_rewritten tree.now) (length text_out.old) }
{
    text_out.fill(0);
    fill(tree, text_out).into()
}
