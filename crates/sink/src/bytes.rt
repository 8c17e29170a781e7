// Bytes and 16-bit numbers of a slice, total: what is past the end reads as 0, and is not written.
ghost use Rattle.std.specs.Prelude.{◌≡◌, get_or, set, length};
ghost use Rattle.sink.specs.Machine.{wide_in, set_wide, one_more_of, low, high, part};

fn byte(s: &[u8], at: usize) -> u8
    ensures { result ≡ get_or s.now at 0 }
{
    s.get(at).copied().unwrap_or(0)
}

#[tactic(auto, unfolding(crate::specs::Machine::wide_in))]
pub(crate) fn wide(s: &[u8], at: usize) -> usize
    ensures { result ≡ wide_in s.now at }
{
    if at < s.len() {
        usize::from(byte(s, at)) + 256 * usize::from(byte(s, at + 1))
    } else {
        0
    }
}

// The bytes from a position up to another, as many as there are.
#[tactic(auto, unfolding(crate::specs::Machine::part))]
pub(crate) fn part(s: &[u8], start: usize, end: usize) -> &[u8]
    ensures { result.now ≡ part start end s.now }
{
    let stop = end.min(s.len());
    if start < stop { &s[start..stop] } else { &[] }
}

pub(crate) fn put_byte(s: &mut [u8], at: usize, b: u8)
    ensures { s.new ≡ set s.old at b }
{
    if at < s.len() {
        s[at] = b;
    }
}

#[tactic(auto, unfolding(crate::specs::Machine::set_wide))]
pub(crate) fn put_wide(s: &mut [u8], at: usize, n: usize)
    ensures { s.new ≡ set_wide s.old at n }
{
    if at < s.len() {
        put_byte(s, at, low(n));
        put_byte(s, at + 1, high(n));
    }
}

#[tactic(auto, unfolding(crate::specs::Machine::low))]
pub fn low(n: usize) -> u8
    ensures { result ≡ low n }
{
    (n % 256) as u8
}

#[tactic(auto, unfolding(crate::specs::Machine::high))]
pub(crate) fn high(n: usize) -> u8
    ensures { result ≡ high n }
{
    (n / 256 % 256) as u8
}

// One more, up to a greatest number.
#[tactic(auto, unfolding(crate::specs::Machine::one_more_of))]
pub(crate) fn one_more(n: usize, greatest: usize) -> usize
    ensures { result ≡ one_more_of greatest n }
{
    n.saturating_add(1).min(greatest)
}

// Bytes go over as many others. By hand: the library's `copy_from_slice` is a call of memmove in an archive for C, which asks for
// memset alone.
pub(crate) fn copy_over(to: &mut [u8], from: &[u8])
    requires { length to.old ≡ length from.now }
    ensures { to.new ≡ from.now }
{
    for i in 0..from.len() {
        to[i] = from[i];
    }
}
