// A table of the temporaries that were met: the place of first appearance at each number, 0 at the others.
ghost use Rattle.std.specs.Prelude.{◌≡◌, ◌<◌, length, get_or};
ghost use Rattle.ordering.specs.Places.{PlacedAs};

// A place, and how many were met then.
#[derive(Clone, Copy)]
pub(crate) struct Placed {
    pub place: usize,
    pub met: usize,
}

fn place_at(table: &[u16], n: usize) -> usize
    ensures { result ≡ get_or table.now n 0 }
{
    usize::from(table.get(n).copied().unwrap_or(0))
}

// The place of a number, of which so many were met; a new one gets the next place. Places have 16 bits.
pub(crate) fn place(table: &mut [u16], met: usize, n: usize) -> Placed
    ensures { (length table.new ≡ length table.old) × (met < 65535 → PlacedAs table.old table.new met n result) }
{
    let place = place_at(table, n);
    if place != 0 || met >= 65535 {
        return Placed { place, met };
    }
    if n < table.len() {
        table[n] = (met + 1) as u16;
    }
    Placed {
        place: met + 1,
        met: met + 1,
    }
}
