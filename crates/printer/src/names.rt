// Which bytes may stand in a name.
ghost use Rattle.std.specs.Prelude.{◌≡◌, ◌<◌, ◌≤◌, ◌-◌, length, get_or, take, drop};
ghost use Rattle.printer.specs.Names.{name_bytes, entry_in_of, all_follow, bare, rule_bits};

use crate::out;

// Entry b is two bits, 2 (b mod 4) and the next of byte b div 4: whether b may stand in the first place, and in later ones.
const NAME_BYTES: [u8; 64] = [
    0, 0, 0, 0, 0, 0, 0, 0, 0, 3, 0, 0, 170, 170, 10, 0, 252, 255, 255, 255, 255, 255, 63, 192,
    252, 255, 255, 255, 255, 255, 63, 0, 0, 0, 0, 0, 0, 0, 0, 0, 0, 0, 0, 0, 0, 0, 0, 0, 0, 0, 0,
    0, 0, 0, 0, 0, 0, 0, 0, 0, 0, 0, 0, 0,
];

// The two bits of a byte.
fn entry(table: &[u8], b: u8) -> usize
    ensures { result ≡ entry_in_of table.now b }
{
    let b = usize::from(b);
    let four = table.get(b / 4).copied().unwrap_or(0);
    (usize::from(four) >> (2 * (b % 4))) % 4
}

// Every byte from i to the end may stand in a later place.
fn all_follow(table: &[u8], tree: &[u8], from: usize, end: usize) -> bool
    ensures { table.now ≡ name_bytes → end ≤ length tree.now → result ≡ all_follow (take (end - from) (drop from tree.now)) }
{
    match tree.get(from..end) {
        Some(bytes) => bytes.iter().all(|&b| entry(table, b) / 2 == 1),
        None => true,
    }
}

// A name that is left bare: it has a byte, and each byte may stand where it does.
pub(crate) fn bare(tree: &[u8], at: usize, n: usize) -> bool
    ensures { result ≡ bare (take n (drop at tree.now)) }
{
    let end = out::end_of(tree, at, n);
    let table = NAME_BYTES;
    if at < end && entry(&table, tree[at]) % 2 == 1 {
        return all_follow(&table, tree, at + 1, end);
    }
    false
}

// The bits of a byte by the rule: letters, `$` and `_` both, digits the second.
#[tactic(auto, unfolding(crate::specs::Names::rule_bits))]
fn bits(b: usize) -> usize
    ensures { (result ≡ rule_bits b) × (result ≤ 3) }
{
    match b {
        36 | 65..=90 | 95 | 97..=122 => 3,
        48..=57 => 2,
        _ => 0,
    }
}

// A byte of the table, from the rule.
fn made(i: usize) -> usize
    ensures { (i < 64 → (result ≡ get_or name_bytes i 0)) × (result < 256) }
{
    if i < 64 {
        let low = bits(4 * i) + 4 * bits(4 * i + 1);
        let high = 16 * bits(4 * i + 2) + 64 * bits(4 * i + 3);
        return low + high;
    }
    0
}

// The table made from the rule.
pub fn make(table: &mut [u8])
    ensures { length table.old ≡ 64 → table.new ≡ name_bytes }
{
    for (i, four) in table.iter_mut().enumerate() {
        *four = made(i) as u8;
    }
}
