// What the pass knows of a node or a list that is open.
ghost use Rattle.std.specs.Prelude.{◌≡◌, ◌≤◌};
ghost use Rattle.printer.specs.Places.{lowest, without, field_in, noting, past, item_seen, listed, unlisted};
ghost use Rattle.printer.specs.Stacks.{frame_in, next_in, packed_frame};

use tree::kinds;

// The node's kind, bit map and byte; the word that stands behind it; what was noted of it; the bits of its fields still
// to come; and 1 if this is a list of the node.
#[derive(Clone, Copy)]
pub(crate) struct Frame {
    pub kind: usize,
    pub map: usize,
    pub note: usize,
    pub how: usize,
    pub seen: usize,
    pub rem: usize,
    pub list: usize,
}

// The number of the lowest bit.
pub(crate) fn lowest(bits: usize) -> usize
    ensures { (result ≡ lowest bits) × (result ≤ bits) }
{
    if bits == 0 {
        return 0;
    }
    usize::trailing_zeros(bits) as usize
}

// The bits without the lowest.
fn without(bits: usize) -> usize
    ensures { (result ≡ without bits) × (result ≤ bits) }
{
    if bits == 0 {
        return 0;
    }
    bits - (1usize << usize::trailing_zeros(bits))
}

// The next field is done, and this is noted.
#[tactic(auto, unfolding(crate::specs::Places::noting))]
fn noting(f: Frame, seen: usize) -> Frame
    ensures { result ≡ noting f seen }
{
    let rem = without(f.rem);
    Frame { seen, rem, ..f }
}

#[tactic(auto, unfolding(crate::specs::Places::item_seen))]
fn item_seen(f: Frame, seen: usize) -> Frame
    ensures { result ≡ item_seen f seen }
{
    Frame { seen, ..f }
}

#[tactic(auto, unfolding(crate::specs::Places::listed))]
fn listed(f: Frame) -> Frame
    ensures { result ≡ listed f }
{
    Frame {
        seen: 0,
        list: 1,
        ..f
    }
}

#[tactic(auto, unfolding(crate::specs::Places::unlisted))]
fn unlisted(f: Frame, n: usize) -> Frame
    ensures { result ≡ unlisted f n }
{
    if f.kind == kinds::DECLARATION {
        return noting(f, f.seen);
    }
    if n == 0 {
        return noting(f, 0);
    }
    noting(f, 1)
}

// A frame and the place of the next quasi, as one number.
#[tactic(auto, unfolding(crate::specs::Stacks::packed_frame))]
fn pack(f: Frame, next: usize) -> usize
    ensures { result ≡ packed_frame f next }
{
    let a = f.list % 2 + 2 * (f.how % 128 + 128 * (next % 16777216));
    let b = f.rem % 256 + 256 * (f.seen % 4 + 4 * a);
    f.kind % 64 + 64 * (f.map % 256 + 256 * (f.note % 256 + 256 * b))
}

fn frame_in(v: usize) -> Frame
    ensures { result ≡ frame_in v }
{
    let a = v / 64;
    let b = a / 256;
    let c = b / 256;
    let d = c / 256;
    let e = d / 4;
    let g = e / 2;
    Frame {
        kind: v % 64,
        map: a % 256,
        note: b % 256,
        how: g % 128,
        seen: d % 4,
        rem: c % 256,
        list: e % 2,
    }
}

pub(crate) fn next_in(v: usize) -> usize
    ensures { result ≡ next_in v }
{
    v / 64 / 256 / 256 / 256 / 4 / 2 / 128 % 16777216
}

// ---- the same of a packed frame. Each takes the number itself: the compiler then leaves alone what stays.

pub(crate) fn kind_in(v: usize) -> usize
    ensures { result ≡ (frame_in v).kind }
{
    v % 64
}

pub(crate) fn map_in(v: usize) -> usize
    ensures { result ≡ (frame_in v).map }
{
    v / 64 % 256
}

pub(crate) fn note_in(v: usize) -> usize
    ensures { result ≡ (frame_in v).note }
{
    v / 16384 % 256
}

pub(crate) fn how_in(v: usize) -> usize
    ensures { result ≡ (frame_in v).how }
{
    v / 8589934592 % 128
}

pub(crate) fn seen_in(v: usize) -> usize
    ensures { result ≡ (frame_in v).seen }
{
    v / 1073741824 % 4
}

pub(crate) fn rem_in(v: usize) -> usize
    ensures { result ≡ (frame_in v).rem }
{
    v / 4194304 % 256
}

pub(crate) fn list_in(v: usize) -> usize
    ensures { result ≡ (frame_in v).list }
{
    v / 4294967296 % 2
}

// The number of the next field.
#[tactic(auto, unfolding(crate::specs::Places::field_in))]
pub(crate) fn field_in(v: usize) -> usize
    ensures { result ≡ field_in (frame_in v) }
{
    lowest(rem_in(v))
}

// The next field is done: of the bits still to come, which stand from the twenty-third binary digit on, the lowest goes.
pub(crate) fn past_in(v: usize) -> usize
    ensures { result ≡ packed_frame (past (frame_in v)) (next_in v) }
{
    let rem = rem_in(v);
    v - 4194304 * (rem - without(rem))
}

pub(crate) fn noting_in(v: usize, seen: usize) -> usize
    ensures { result ≡ packed_frame (noting (frame_in v) seen) (next_in v) }
{
    pack(noting(frame_in(v), seen), next_in(v))
}

pub(crate) fn item_seen_in(v: usize, seen: usize) -> usize
    ensures { result ≡ packed_frame (item_seen (frame_in v) seen) (next_in v) }
{
    pack(item_seen(frame_in(v), seen), next_in(v))
}

pub(crate) fn listed_in(v: usize) -> usize
    ensures { result ≡ packed_frame (listed (frame_in v)) (next_in v) }
{
    pack(listed(frame_in(v)), next_in(v))
}

pub(crate) fn unlisted_in(v: usize, n: usize) -> usize
    ensures { result ≡ packed_frame (unlisted (frame_in v) n) (next_in v) }
{
    pack(unlisted(frame_in(v), n), next_in(v))
}

// Another quasi is the next.
pub(crate) fn with_next(v: usize, next: usize) -> usize
    ensures { result ≡ packed_frame (frame_in v) next }
{
    pack(frame_in(v), next)
}

// A node that begins: all its fields are still to come.
pub(crate) fn begun(kind: usize, map: usize, note: usize, seen: usize, how: usize) -> usize
    ensures { result ≡ packed_frame (record { kind = kind; map = map; note = note; how = how; seen = seen; rem = map; list = 0 }) 0 }
{
    let f = Frame {
        kind,
        map,
        note,
        how,
        seen,
        rem: map,
        list: 0,
    };
    pack(f, 0)
}
