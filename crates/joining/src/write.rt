// The joined tree, written.
ghost use Rattle.std.specs.Prelude.{◌≡◌, true, false, ◌+◌, ◌-◌, ◌<◌, ◌≤◌, length, get_or};
ghost use Rattle.tree.specs.Read.{wide_at};
ghost use Rattle.joining.specs.Writing.{Copied, Calm, Quiet, part, declared, free_after, var_bytes, var_last, vars_bytes, vars_last, before_bytes, before_last, step_bytes, step_last, step_skips, rest_bytes, head_bytes, head_last, whole_bytes};

use crate::table;
use drawing::pen;
use tree::bytes;

// Where the next byte goes, and the last mark that was given.
#[derive(Clone, Copy)]
struct Spot {
    pub at: usize,
    pub mark: usize,
}

// What the joined tree is written from: the tree and the list; the marks that are taken; where each entry ends; and how many
// statements are new in a list, and before a statement.
#[derive(Clone, Copy)]
pub(crate) struct Source<'a> {
    pub tree: &'a [u8],
    pub list: &'a [u8],
    pub seen: &'a [u8],
    pub ends: &'a [u16],
    pub more: &'a [u16],
    pub held: &'a [u16],
}

// The next mark that is not taken.
fn fresh(seen: &[u8], mark: usize) -> usize
    ensures { result ≡ free_after seen.now mark }
{
    for m in mark..65535 {
        if bytes::peek(seen, m + 1) != 1 {
            return m + 1;
        }
    }
    mark.max(65535)
}

// Bytes go over as many others. By hand: the library's `copy_from_slice` is a call of memmove in an archive for C, which asks for
// memset alone.
fn copy_over(to: &mut [u8], from: &[u8])
    requires { length to.old ≡ length from.now }
    ensures { to.new ≡ from.now }
{
    for i in 0..from.len() {
        to[i] = from[i];
    }
}

// Bytes that have room, in one block.
fn block(out: &mut [u8], at: usize, from: &[u8], start: usize, stop: usize) -> usize
    requires { (start ≤ stop) × (stop ≤ length from.now) × (at + (stop - start) ≤ length out.old) }
    ensures { Copied out.old at (part start stop from.now) result out.new }
{
    let end = at + (stop - start);
    copy_over(&mut out[at..end], &from[start..stop]);
    end
}

// Whether bytes have room in a slice from a position on.
fn has_room(size: usize, at: usize, start: usize, stop: usize) -> bool
    ensures { result ≡ true → (start ≤ stop) × (at + (stop - start) ≤ size) }
{
    at < size && start < stop && stop - start <= size - at
}

// The bytes from a position up to another.
fn copy(out: &mut [u8], at: usize, from: &[u8], start: usize, stop: usize) -> usize
    ensures { Copied out.old at (part start stop from.now) result out.new }
{
    if stop <= from.len() && has_room(out.len(), at, start, stop) {
        return block(out, at, from, start, stop);
    }
    let mut p = at;
    for i in start..stop.min(from.len()) {
        p = pen::put(out, p, from[i]);
    }
    p
}

// A Declaration of a kind with a mark; its declarator list stands in the list from a position up to another.
fn declaration(
    out: &mut [u8],
    at: usize,
    mark: usize,
    kind: u8,
    list: &[u8],
    start: usize,
    stop: usize,
) -> usize
    ensures { Copied out.old at (declared mark kind (part start stop list.now)) result out.new }
{
    let a = pen::put(out, at, 4);
    let b = pen::put(out, a, 7);
    let c = pen::put_wide(out, b, (mark % 65536) as u16);
    let d = pen::put(out, c, kind);
    copy(out, d, list, start, stop)
}

fn byte(tree: &[u8], p: usize) -> u8
    ensures { result ≡ get_or tree.now p 0 }
{
    tree.get(p).copied().unwrap_or(0)
}

// Whether the next byte is passed over: a count has two.
fn skips(more: &[u16], skip: bool, p: usize) -> bool
    ensures { result ≡ step_skips more.now skip p }
{
    !skip && 0 < table::at(more, p)
}

// Whether a table has 0 from a position up to another.
fn calm(table: &[u16], start: usize, stop: usize) -> bool
    requires { stop ≤ length table.now }
    ensures { result ≡ true → Calm table.now start stop }
{
    let mut still = true;
    for i in start..stop {
        still &= table[i] == 0;
    }
    still
}

// How far nothing changes, 64 positions at once.
fn blocks(more: &[u16], held: &[u16], start: usize, stop: usize) -> usize
    requires { (stop ≤ length more.now) × (stop ≤ length held.now) }
    ensures { Quiet more.now held.now start stop result }
{
    let mut i = start;
    // In steps of 64, to the first that is not calm.
    while i < stop && 64 <= stop - i && calm(more, i, i + 64) && calm(held, i, i + 64) {
        i += 64;
    }
    i
}

// How far nothing changes, up to an end.
fn quiet(more: &[u16], held: &[u16], start: usize, end: usize) -> usize
    ensures { Quiet more.now held.now start end result }
{
    let stop = end.min(more.len()).min(held.len());
    let calm_end = blocks(more, held, start, stop);
    for i in calm_end..stop {
        if more[i] != 0 || held[i] != 0 {
            return i;
        }
    }
    calm_end.max(stop)
}

// The next place to look at: the first byte of those that are left, if it is passed over.
fn place(more: &[u16], held: &[u16], skip: bool, start: usize, end: usize) -> usize
    ensures { Quiet more.now held.now start end result × (skip ≡ true → result ≡ start) }
{
    if skip {
        start
    } else {
        quiet(more, held, start, end)
    }
}

impl<'a> Source<'a> {
    // An entry as a `var`, if it has the mark.
    fn var(&self, out: &mut [u8], spot: Spot, mark: usize, at: usize, end: usize) -> Spot
        ensures { at < 65536 → Copied out.old spot.at (var_bytes self.now.list.now self.now.seen.now mark at end spot.mark) result.at out.new × (result.mark ≡ var_last self.now.list.now self.now.seen.now mark at spot.mark) }
    {
        if at < 65536 && bytes::wide_at(self.list, at) == mark {
            let mark = fresh(self.seen, spot.mark);
            let at = declaration(out, spot.at, mark, 1, self.list, at + 2, end);
            return Spot { at, mark };
        }
        spot
    }

    // The entries of a mark, each as a `var`.
    fn vars(&self, out: &mut [u8], spot: Spot, mark: usize) -> Spot
        ensures { Copied out.old spot.at (vars_bytes self.now.list.now self.now.ends.now self.now.seen.now mark (wide_at self.now.list.now 0) 2 spot.mark) result.at out.new × (result.mark ≡ vars_last self.now.list.now self.now.ends.now self.now.seen.now mark (wide_at self.now.list.now 0) 2 spot.mark) }
    {
        let mut at = 2;
        let mut to = spot;
        for _ in 0..bytes::wide_at(self.list, 0) {
            let end = table::at(self.ends, at);
            to = self.var(out, to, mark, at, end);
            at = end;
        }
        to
    }

    // The head: the Program's kind and bit map, its count, and a `const` if there are excluded keys.
    fn head(&self, out: &mut [u8], excluded: usize) -> Spot
        ensures { Copied out.old 0 (head_bytes self.now.tree.now self.now.list.now self.now.seen.now self.now.more.now excluded) result.at out.new × (result.mark ≡ head_last self.now.list.now self.now.seen.now excluded) }
    {
        let a = copy(out, 0, self.tree, 0, 2);
        let n = bytes::wide_at(self.tree, 2) + table::at(self.more, 2);
        if bytes::wide_at(self.list, excluded) == 0 {
            let at = pen::put_wide(out, a, (n % 65536) as u16);
            return Spot { at, mark: 0 };
        }
        let b = pen::put_wide(out, a, ((n + 1) % 65536) as u16);
        let mark = fresh(self.seen, 0);
        let at = declaration(out, b, mark, 3, self.list, excluded, self.list.len());
        Spot { at, mark }
    }

    // The `var`s before the statement at a position, if there are any.
    fn lead(&self, out: &mut [u8], spot: Spot, p: usize) -> Spot
        ensures { p < 65536 → Copied out.old spot.at (before_bytes self.now.tree.now self.now.list.now self.now.ends.now self.now.seen.now self.now.held.now p spot.mark) result.at out.new × (result.mark ≡ before_last self.now.tree.now self.now.list.now self.now.ends.now self.now.seen.now self.now.held.now p spot.mark) }
    {
        if p < 65536 && 0 < table::at(self.held, p) {
            return self.vars(out, spot, bytes::wide_at(self.tree, p + 2));
        }
        spot
    }

    // What is written for the byte at a position; nothing if it is passed over.
    fn step(&self, out: &mut [u8], spot: Spot, skip: bool, p: usize) -> Spot
        ensures { p < 65536 → Copied out.old spot.at (step_bytes self.now.tree.now self.now.list.now self.now.ends.now self.now.seen.now self.now.more.now self.now.held.now skip p spot.mark) result.at out.new × (result.mark ≡ step_last self.now.tree.now self.now.list.now self.now.ends.now self.now.seen.now self.now.more.now self.now.held.now skip p spot.mark) }
    {
        if skip {
            return spot;
        }
        let n = table::at(self.more, p);
        if 0 < n {
            let m = bytes::wide_at(self.tree, p) + n;
            let at = pen::put_wide(out, spot.at, (m % 65536) as u16);
            return Spot { at, ..spot };
        }
        let led = self.lead(out, spot, p);
        let at = pen::put(out, led.at, byte(self.tree, p));
        Spot { at, ..led }
    }

    // What is behind the head: what lies between the places that change is copied.
    fn rest(&self, out: &mut [u8], spot: Spot) -> usize
        ensures { length self.now.tree.now ≤ 32768 → Copied out.old spot.at (rest_bytes self.now.tree.now self.now.list.now self.now.ends.now self.now.seen.now self.now.more.now self.now.held.now (length self.now.tree.now - 4) false 4 spot.mark) result out.new }
    {
        let mut to = spot;
        let mut skip = false;
        let mut p = 4;
        // From one change to the next: how many there are is not known before.
        while p < self.tree.len() {
            let q = place(self.more, self.held, skip, p, self.tree.len() - 1);
            let at = copy(out, to.at, self.tree, p, q);
            to = self.step(out, Spot { at, ..to }, skip, q);
            skip = skips(self.more, skip, q);
            p = q + 1;
        }
        to.at
    }

    // The whole tree; where it ends, one byte past the slice at most.
    pub(crate) fn write(&self, excluded: usize, out: &mut [u8]) -> usize
        ensures { length self.now.tree.now ≤ 32768 → Copied out.old 0 (whole_bytes self.now.tree.now self.now.list.now self.now.ends.now self.now.seen.now self.now.more.now self.now.held.now excluded) result out.new }
    {
        let spot = self.head(out, excluded);
        self.rest(out, spot)
    }
}
