// The lowering of object rest and spread (ES2018) to ECMAScript 2017, from tree bytes to tree bytes.
#![tactic(auto)]

pub mod version;

ghost use Rattle.std.specs.Prelude.{◌≡◌, List, ℕ, ◌+◌, ◌<◌, ◌≤◌, length};
ghost use Rattle.tree.specs.Tree.{Node};
ghost use Rattle.tree.specs.Grammar.Stage.{input};
ghost use Rattle.tree.specs.Read.{read_tree};
ghost use Rattle.tree.specs.Read.Got.{got};
ghost use Rattle.tree.specs.WellFormed.{Bytes};
ghost use Rattle.tree.proofs.NotesKnown.{Noted};
ghost use Rattle.lowering.specs.Answer.{highest_limit, limit_refused, after_reading, outcome_of, outcome};
ghost use Rattle.rest_spread.specs.Entry.{lent_of, handed_back, refused_with, Ends};

use emit::node;
use sink::bytes::low;
use sink::ends;
use tree::read;
use walk::place::Place;
use walk::walk::Walk;

// Document 01's answer (0, or the number of a refusal), the mask of helpers, that of options, and the lengths of tree and list.
// Numbers, since C reads them.
#[repr(C)]
#[derive(Clone, Copy)]
pub struct Lowered {
    pub answer: u8,
    pub helpers: u8,
    pub options: u8,
    pub tree_len: usize,
    pub list_len: usize,
}

// Why a call is refused: its limit, its options, its work slice, its tree, the number that the walk met, or a result that is too long.
#[derive(Clone, Copy)]
enum Refusal {
    Limit,
    Options,
    Work,
    Tree(read::Refusal),
    Walk(u8),
    TooLong,
}

impl From<read::Refusal> for Refusal {
    ghost use Rattle.std.specs.Prelude.{◌≡◌};
    ghost use Rattle.rest_spread.specs.declared.Refusal.TheVariants as refused;

    ghost from_gives = { λ e r. r ≡ refused.Tree e };

    fn from(refusal: read::Refusal) -> Refusal {
        Refusal::Tree(refusal)
    }
}

// The number of a refusal.
impl From<Refusal> for u8 {
    ghost use Rattle.std.specs.Prelude.{◌≡◌};
    ghost use Rattle.rest_spread.specs.Entry.{number_of};

    ghost from_gives = { λ e n. n ≡ number_of e };

    fn from(refusal: Refusal) -> u8 {
        match refusal {
            Refusal::Limit => 9,
            Refusal::Options => 1,
            Refusal::Work => 2,
            Refusal::Tree(refusal) => u8::from(refusal),
            Refusal::Walk(number) => number,
            Refusal::TooLong => 7,
        }
    }
}

// A refusal: all that was lent is zero.
fn refuse(refusal: Refusal, out: &mut [u8], list: &mut [u8], work: &mut [u8]) -> Lowered
    ensures { handed_back result out.new list.new work.new ≡ refused_with (lent_of out.old list.old work.old) refusal }
{
    ends::abandon(out, list, work);
    Lowered {
        answer: u8::from(refusal),
        helpers: 0,
        options: 0,
        tree_len: 0,
        list_len: 0,
    }
}

// The walk of a tree that is accepted within the limit, whose next mark is given. Its notes stand behind it. Of the work slice the
// cells alone are cleared at the beginning, and all of it at the end.
fn lower(
    limit: usize,
    options: u8,
    tree: &[u8],
    out: &mut [u8],
    list: &mut [u8],
    work: &mut [u8],
    mark: usize,
) -> Result<Lowered, Refusal>
    ensures { (l : List ℕ) (n : Node) (q : ℕ) → Bytes l → 65536 ≤ length work.old → read_tree input limit l ≡ got n q mark → Noted limit tree.now n q mark → Ends result out.new list.new work.new (lent_of out.old list.old work.old) (outcome_of (lent_of out.old list.old work.old) (after_reading options (lent_of out.old list.old work.old) (got n q mark))) }
{
    let cells = work.len().min(32768);
    let k = ends::begin(out, list, &mut work[..cells], mark);
    let w = Walk {
        sink: k,
        at: 0,
        refusal: 0,
    };
    let c = Place {
        root: true,
        statement: false,
        mark: 0,
        left: limit,
    };
    let v = node(w, tree, out, list, work, c);
    let refusal = v.refusal;
    if 0 < refusal {
        return Err(Refusal::Walk(low(refusal)));
    }
    // Where the result is too long, all that was lent is cleared by then, and not once more.
    let Some(written) = v.sink.finish(out, list, work) else {
        return Ok(Lowered {
            answer: u8::from(Refusal::TooLong),
            helpers: 0,
            options: 0,
            tree_len: 0,
            list_len: 0,
        });
    };
    Ok(Lowered {
        answer: 0,
        helpers: written.helpers,
        options,
        tree_len: written.tree,
        list_len: written.list,
    })
}

// The tree is read, noted in `room`, which is twice as long, and walked there.
fn read_and_lower(
    limit: usize,
    options: u8,
    tree: &[u8],
    room: &mut [u8],
    out: &mut [u8],
    list: &mut [u8],
    work: &mut [u8],
) -> Result<Lowered, Refusal>
    ensures { length room.old ≡ length tree.now + length tree.now → 65536 ≤ length work.old → Ends result out.new list.new work.new (lent_of out.old list.old work.old) (outcome_of (lent_of out.old list.old work.old) (after_reading options (lent_of out.old list.old work.old) (read_tree input limit tree.now))) }
{
    let reading = read::read_into(tree, room, limit)?;
    lower(limit, options, room, out, list, work, reading.mark)
}

// The highest limit, which is also that of a caller who names none (request 5).
const HIGHEST_LIMIT: u32 = 128;

fn limit_refused(limit: u32) -> bool
    ensures { result ≡ limit_refused limit }
{
    limit == 0 || HIGHEST_LIMIT < limit
}

// The tests that need no reading, then reading and lowering. The slices are for the caller to clear on a refusal.
fn attempt(
    depth: u32,
    options: u32,
    tree: &[u8],
    out: &mut [u8],
    list: &mut [u8],
    work: &mut [u8],
) -> Result<Lowered, Refusal>
    ensures { Ends result out.new list.new work.new (lent_of out.old list.old work.old) (outcome depth options tree.now (lent_of out.old list.old work.old)) }
{
    if limit_refused(depth) {
        return Err(Refusal::Limit);
    }
    if 15 < options {
        return Err(Refusal::Options);
    }
    if work.len() < 65536 {
        return Err(Refusal::Work);
    }
    let limit = depth as usize;
    let options = (options % 8) as u8;
    let n = tree.len();
    if 16384 < n {
        return Err(Refusal::Tree(read::Refusal::NotATree));
    }
    if n <= 1024 {
        let mut room = [0u8; 2048];
        return read_and_lower(limit, options, tree, &mut room[..2 * n], out, list, work);
    }
    let mut room = [0u8; 32768];
    read_and_lower(limit, options, tree, &mut room[..2 * n], out, list, work)
}

// The lowering of a tree of at most `depth` levels: document 01's first section with request 5's limit. Any bytes, any limit, any
// options, slices of any lengths.
pub fn rest_spread_lower_within(
    depth: u32,
    options: u32,
    tree: &[u8],
    tree_out: &mut [u8],
    list_out: &mut [u8],
    work: &mut [u8],
) -> Lowered
    ensures { handed_back result tree_out.new list_out.new work.new ≡ outcome depth options tree.now (lent_of tree_out.old list_out.old work.old) }
{
    match attempt(depth, options, tree, tree_out, list_out, work) {
        Ok(lowered) => lowered,
        Err(refusal) => refuse(refusal, tree_out, list_out, work),
    }
}

// The same where no limit is named.
pub fn rest_spread_lower(
    options: u32,
    tree: &[u8],
    tree_out: &mut [u8],
    list_out: &mut [u8],
    work: &mut [u8],
) -> Lowered
    ensures { handed_back result tree_out.new list_out.new work.new ≡ outcome highest_limit options tree.now (lent_of tree_out.old list_out.old work.old) }
{
    rest_spread_lower_within(HIGHEST_LIMIT, options, tree, tree_out, list_out, work)
}
