// The string of a number by its spelling: what a text is, and the digits of a value.
ghost use Rattle.std.specs.Prelude.{◌≡◌, ◌≤◌, suc, length, drop, IfSome, unwrap_or};
ghost use Rattle.lowering.specs.Numbers.{digit_of, digits_of, highest_number};
ghost use Rattle.pattern.specs.Numbers.{spelling_value, base_of, value_in, spelled_as_of};

use tree::bytes;

// The highest number for which a string is promised.
const HIGHEST: usize = 9007199254740991;

// A number by its spelling, with a value of at most the highest.
#[derive(Clone, Copy)]
pub enum Spelling {
    Decimal(usize),
    Hexadecimal(usize),
}

// The value of a digit, of either case.
fn digit(b: u8) -> Option<usize>
    ensures { unwrap_or result 16 ≡ digit_of b }
{
    match b {
        b'0'..=b'9' => Some(usize::from(b - b'0')),
        b'A'..=b'F' => Some(usize::from(b - b'A' + 10)),
        b'a'..=b'f' => Some(usize::from(b - b'a' + 10)),
        _ => None,
    }
}

fn base(hexadecimal: bool) -> usize
    ensures { result ≡ base_of hexadecimal }
{
    if hexadecimal { 16 } else { 10 }
}

// The value of digits, if each byte is one and the value is not above the highest.
fn value(digits: &[u8], hexadecimal: bool) -> Option<usize>
    ensures value { unwrap_or result (suc highest_number) ≡ value_in (base_of hexadecimal) 0 digits.now }
    ensures low { IfSome result (λ v. v ≤ highest_number) }
{
    let base = base(hexadecimal);
    let mut v = 0;
    for &b in digits {
        let d = digit(b)?;
        if base <= d {
            return None;
        }
        v = v * base + d;
        if HIGHEST < v {
            return None;
        }
    }
    Some(v)
}

// What a text is: another spelling, or a higher value, is none.
pub(crate) fn spelled(text: &[u8]) -> Option<Spelling>
    ensures { spelling_value result ≡ spelled_as_of text.now }
{
    let n = text.len();
    if n == 0 {
        return None;
    }
    if 1 < n && bytes::peek(text, 0) == 48 {
        if 2 < n && bytes::peek(text, 1) == 120 {
            let hexadecimal = value(&text[2..], true)?;
            return Some(Spelling::Hexadecimal(hexadecimal));
        }
        return None;
    }
    let decimal = value(text, false)?;
    Some(Spelling::Decimal(decimal))
}

// The digits of a value: the bytes of the array from a place on. They are made from the last to the first, without a heap.
#[derive(Clone, Copy)]
pub struct Digits {
    pub bytes: [u8; 20],
    pub from: usize,
}

pub fn digits_of(v: usize) -> Digits
    ensures { (length result.bytes ≡ 20) × (result.from ≤ 20) × (drop result.from result.bytes ≡ digits_of v) }
{
    let mut bytes = [0; 20];
    let mut n = v;
    let mut i = 19;
    // It ends by the value: how many digits there are is not known before.
    while 9 < n {
        bytes[i] = (48 + n % 10) as u8;
        n /= 10;
        i -= 1;
    }
    bytes[i] = (48 + n) as u8;
    Digits { bytes, from: i }
}
