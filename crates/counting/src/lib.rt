// How many patterns of n items, spread or ordinary, give c nested calls.
#![tactic(auto)]

ghost use Rattle.std.specs.Prelude.{◌≡◌, ◌<◌, ◌≤◌, IfOk, IfErr};
ghost use Rattle.counting.specs.Figures.{choose, figure, longest, answer_of, number_of};
ghost use Rattle.counting.specs.declared.Refusal.TheVariants.{PatternTooLong};

// The longest patterns that are counted.
pub const LONGEST: u32 = 32;

// Why a count is refused, by the numbers of the answers for C.
#[derive(Clone, Copy, Debug, PartialEq, Eq)]
enum Refusal {
    PatternTooLong = 14,
}

// Answer 0 and the number; or the refusal, and 0. Numbers, since C reads them.
#[repr(C)]
#[derive(Clone, Copy)]
pub struct Counted {
    pub answer: u8,
    pub number: u32,
}

// The ways to choose k of m, by the step from each to the next.
fn ways(m: u64, k: u64) -> u64
    requires { (m < longest) × (k ≤ m) }
    ensures { result ≡ choose m k }
{
    let mut ways: u64 = 1;
    for j in 0..k {
        ways = ways * (m - j) / (j + 1);
    }
    ways
}

fn figured(n: u32, c: u32) -> u32
    requires { n ≤ longest }
    ensures { result ≡ figure n c }
{
    if c > n {
        return 0;
    }
    if c < 2 {
        return 1;
    }
    (2 * ways((n - 1) as u64, (c - 1) as u64)) as u32
}

// How many patterns of n items give c nested calls.
fn count_calls(n: u32, c: u32) -> Result<u32, Refusal>
    ensures ok { IfOk result (λ number. (n ≤ longest) × (number ≡ figure n c)) }
    ensures err { IfErr result (λ refusal. (longest < n) × (refusal ≡ PatternTooLong)) }
{
    if n > LONGEST {
        return Err(Refusal::PatternTooLong);
    }
    Ok(figured(n, c))
}

// Request 14's entry. Any n and c.
pub fn rest_spread_calls(n: u32, c: u32) -> Counted
    ensures { (result.answer ≡ answer_of n) × (result.number ≡ number_of n c) }
{
    match count_calls(n, c) {
        Ok(number) => Counted { answer: 0, number },
        Err(refusal) => Counted {
            answer: refusal as u8,
            number: 0,
        },
    }
}
