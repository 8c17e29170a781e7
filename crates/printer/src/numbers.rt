// Numbers in slices that a call lends: 0 where there is none, and nothing is kept past the end. One function a width, since a
// number of 32 bits has no `From` to `usize`.
ghost use Rattle.std.specs.Prelude.{◌≡◌, ◌<◌, get_or, set};

pub(crate) fn number_at(numbers: &[usize], i: usize) -> usize
    ensures { result ≡ get_or numbers.now i 0 }
{
    numbers.get(i).copied().unwrap_or(0)
}

pub(crate) fn short_at(numbers: &[u16], i: usize) -> usize
    ensures { result ≡ get_or numbers.now i 0 }
{
    usize::from(numbers.get(i).copied().unwrap_or(0))
}

pub(crate) fn entry_at(numbers: &[u32], i: usize) -> usize
    ensures { result ≡ get_or numbers.now i 0 }
{
    numbers.get(i).copied().unwrap_or(0) as usize
}

pub(crate) fn keep<T: Copy>(numbers: &mut [T], i: usize, n: T)
    ensures { numbers.new ≡ set numbers.old i n }
{
    if i < numbers.len() {
        numbers[i] = n;
    }
}

pub(crate) fn keep_short(numbers: &mut [u16], i: usize, n: usize)
    ensures { n < 65536 → numbers.new ≡ set numbers.old i n }
{
    keep(numbers, i, (n % 65536) as u16);
}

pub(crate) fn keep_entry(numbers: &mut [u32], i: usize, n: usize)
    ensures { n < 4294967296 → numbers.new ≡ set numbers.old i n }
{
    keep(numbers, i, (n % 4294967296) as u32);
}
