// Tables of 16-bit numbers, by byte position, total: past the end stands 0, and nothing is put.
ghost use Rattle.std.specs.Prelude.{◌≡◌, ◌<◌, get_or};
ghost use Rattle.joining.specs.Tables.{backward, stored};

pub(crate) fn at(table: &[u16], i: usize) -> usize
    ensures { (result ≡ get_or table.now i 0) × (result < 65536) }
{
    usize::from(table.get(i).copied().unwrap_or(0))
}

// The entry at i, if it is a position before it; else 0.
pub(crate) fn back(table: &[u16], i: usize) -> usize
    ensures { (result ≡ backward table.now i) × (0 < i → result < i) }
{
    let n = at(table, i);
    if n < i { n } else { 0 }
}

// A number of 16 bits; a greater one is not put.
pub(crate) fn put(table: &mut [u16], i: usize, n: usize)
    ensures { table.new ≡ stored table.old i n }
{
    if n < 65536 && i < table.len() {
        table[i] = n as u16;
    }
}
