// A case of lowering is the options; the expected answer, helper mask and options mask (a byte each); the lengths of the
// tree, of the expected tree and of the expected list (16 bits each, little-endian; the last two are 0 on a refusal); then
// the three. Before it stands its depth limit, if it names one (32 bits, little-endian), and the entry that is called is the
// one that takes a limit, or the one that takes none. It is called on slices with bytes to spare and on ones that are as long
// as what they have to hold, or a byte shorter. Before a call no byte of them is 0; after it every byte is compared.
use crate::STDIN_FILENO;
use crate::bytes::{holds, number16, number32};
use crate::tally::{Tally, say, say_number};
use rest_spread::Lowered;

// What stands in front of a case's tree, expected tree and expected list.
#[derive(Clone, Copy)]
struct Head {
    limit: Option<u32>,
    options: u8,
    answer: u8,
    helpers: u8,
    mask: u8,
    tree: usize,
    result: usize,
    list: usize,
}

// One call: limit, options and the lengths of the slices that are lent, and what it has to return beside lengths.
#[derive(Clone, Copy)]
struct Call {
    limit: Option<u32>,
    options: u8,
    tree: usize,
    list: usize,
    work: usize,
    answer: u8,
    helpers: u8,
    mask: u8,
}

fn head_of(limit: Option<u32>, bytes: &[u8; 10]) -> Head {
    Head {
        limit,
        options: bytes[0],
        answer: bytes[1],
        helpers: bytes[2],
        mask: bytes[3],
        tree: number16(bytes[4], bytes[5]),
        result: number16(bytes[6], bytes[7]),
        list: number16(bytes[8], bytes[9]),
    }
}

fn say_answer(answer: u8, helpers: u8, mask: u8, tree: usize, list: usize) {
    say_number(answer as u64);
    say(b" ");
    say_number(helpers as u64);
    say(b" ");
    say_number(mask as u64);
    say(b" ");
    say_number(tree as u64);
    say(b" ");
    say_number(list as u64);
}

// Whether a call returned what it has to, with these lengths.
fn returned(r: Lowered, call: Call, tree: usize, list: usize) -> bool {
    r.answer == call.answer
        && r.helpers == call.helpers
        && r.options == call.mask
        && r.tree_len == tree
        && r.list_len == list
}

// A disagreement in what was returned.
fn differs(t: Tally, name: &[u8], r: Lowered, call: Call, tree: usize, list: usize) -> Tally {
    let t = t.failed();
    say(name);
    say(b": expected ");
    say_answer(call.answer, call.helpers, call.mask, tree, list);
    say(b", found ");
    say_answer(r.answer, r.helpers, r.options, r.tree_len, r.list_len);
    say(b"\n");
    t
}

// What a call returned, and the three slices after it, are compared with what is expected.
fn compared(
    t: Tally,
    name: &[u8],
    r: Lowered,
    call: Call,
    res: &[u8],
    listed: &[u8],
    out: &[u8],
    list: &[u8],
    work: &[u8],
) -> Tally {
    if !returned(r, call, res.len(), listed.len()) {
        return differs(t, name, r, call, res.len(), listed.len());
    }
    if holds(out, res) && holds(list, listed) && holds(work, b"") {
        return t;
    }
    let t = t.failed();
    say(name);
    say(b": other bytes\n");
    t
}

// The entry of a case: the one that takes a limit, if it names one.
fn entered(call: Call, tree: &[u8], out: &mut [u8], list: &mut [u8], work: &mut [u8]) -> Lowered {
    let options = call.options as u32;
    match call.limit {
        Some(limit) => rest_spread::rest_spread_lower_within(limit, options, tree, out, list, work),
        None => rest_spread::rest_spread_lower(options, tree, out, list, work),
    }
}

// The call, on slices that are lent whole.
fn made(
    t: Tally,
    name: &[u8],
    call: Call,
    tree: &[u8],
    res: &[u8],
    listed: &[u8],
    out: &mut [u8],
    list: &mut [u8],
    work: &mut [u8],
) -> Tally {
    let r = entered(call, tree, out, list, work);
    compared(t.called(), name, r, call, res, listed, out, list, work)
}

// The call, on the starts of slices.
fn lent(
    t: Tally,
    name: &[u8],
    call: Call,
    tree: &[u8],
    res: &[u8],
    listed: &[u8],
    out: &mut [u8],
    list: &mut [u8],
    work: &mut [u8],
) -> Tally {
    let a = call.tree;
    let b = call.list;
    let c = call.work;
    if a > out.len() || b > list.len() || c > work.len() {
        return t.broken(b": it is too long\n");
    }
    made(
        t,
        name,
        call,
        tree,
        res,
        listed,
        &mut out[..a],
        &mut list[..b],
        &mut work[..c],
    )
}

// The call. The arrays are longer than the limits of 32,768, 16,384 and 65,536 bytes.
fn tried(t: Tally, name: &[u8], call: Call, tree: &[u8], res: &[u8], listed: &[u8]) -> Tally {
    let mut out = [165u8; 33000];
    let mut list = [165u8; 17000];
    let mut work = [165u8; 66000];
    lent(
        t, name, call, tree, res, listed, &mut out, &mut list, &mut work,
    )
}

// Slices with bytes to spare.
fn spare(head: Head) -> Call {
    Call {
        limit: head.limit,
        options: head.options,
        tree: 33000,
        list: 17000,
        work: 66000,
        answer: head.answer,
        helpers: head.helpers,
        mask: head.mask,
    }
}

// Slices just long enough.
fn exact(head: Head) -> Call {
    Call {
        tree: head.result,
        list: head.list,
        work: 65536,
        ..spare(head)
    }
}

// Slices that are too short.
fn short(head: Head, tree: usize, list: usize, work: usize, answer: u8) -> Call {
    Call {
        tree,
        list,
        work,
        answer,
        helpers: 0,
        mask: 0,
        ..spare(head)
    }
}

// A tree that is lowered: slices as long as tree and list, and the one or the other a byte shorter.
fn narrow(t: Tally, head: Head, tree: &[u8], res: &[u8], listed: &[u8]) -> Tally {
    let a = head.result;
    let b = head.list;
    let tree_short = short(head, a.saturating_sub(1), b, 65536, 7);
    let list_short = short(head, a, b.saturating_sub(1), 65536, 7);
    let t = tried(t, b": just long enough", exact(head), tree, res, listed);
    let t = tried(t, b": tree slice too short", tree_short, tree, b"", b"");
    tried(t, b": list slice too short", list_short, tree, b"", b"")
}

// What a case is answered with where the work slice is too short: 9 and 1 come before 2.
fn without_work(head: Head) -> u8 {
    match head.limit {
        Some(limit) if limit == 0 || 128 < limit => 9,
        _ if 15 < head.options => 1,
        _ => 2,
    }
}

// What comes of a case.
fn judged(t: Tally, head: Head, tree: &[u8], res: &[u8], listed: &[u8]) -> Tally {
    let work_short = short(head, 33000, 17000, 65535, without_work(head));
    let t = t.answered(head.answer);
    let t = tried(t, b": bytes to spare", spare(head), tree, res, listed);
    let t = tried(t, b": work slice too short", work_short, tree, b"", b"");
    if head.answer == 0 {
        return narrow(t, head, tree, res, listed);
    }
    t
}

// The case after its head: tree, expected tree and expected list fill their rooms.
fn filled(t: Tally, head: Head, tree: &mut [u8], res: &mut [u8], listed: &mut [u8]) -> Tally {
    let a = io::read_full(STDIN_FILENO, tree);
    let b = io::read_full(STDIN_FILENO, res);
    let c = io::read_full(STDIN_FILENO, listed);
    if a < tree.len() || b < res.len() || c < listed.len() {
        return t.broken(b": the input ends in it\n");
    }
    judged(t, head, tree, res, listed)
}

// The same with the starts of longer rooms.
fn placed(t: Tally, head: Head, tree: &mut [u8], res: &mut [u8], listed: &mut [u8]) -> Tally {
    let a = head.tree;
    let b = head.result;
    let c = head.list;
    if a > tree.len() || b > res.len() || c > listed.len() {
        return t.broken(b": it is too long\n");
    }
    filled(t, head, &mut tree[..a], &mut res[..b], &mut listed[..c])
}

fn limited(t: Tally, limit: Option<u32>) -> Tally {
    let mut bytes = [0u8; 10];
    let n = io::read_full(STDIN_FILENO, &mut bytes);
    if n < 10 {
        return t.broken(b": the input ends in it\n");
    }
    let mut tree = [0u8; 20000];
    let mut result = [0u8; 32768];
    let mut listed = [0u8; 16384];
    placed(
        t,
        head_of(limit, &bytes),
        &mut tree,
        &mut result,
        &mut listed,
    )
}

pub(crate) fn case(t: Tally) -> Tally {
    limited(t, None)
}

pub(crate) fn case_within(t: Tally) -> Tally {
    let mut bytes = [0u8; 4];
    let n = io::read_full(STDIN_FILENO, &mut bytes);
    if n < 4 {
        return t.broken(b": the input ends in it\n");
    }
    let limit = number32(bytes[0], bytes[1], bytes[2], bytes[3]);
    limited(t, Some(limit))
}
