// The words that a node's own bytes are made of, eight bytes to a number, 0 where there are none. tools/layout.py works them out.
ghost use Rattle.std.specs.Prelude.{◌≡◌};
ghost use Rattle.printer.specs.Rows.{word_numbers, low_of, middle_of, high_of};

use crate::numbers;

// The first eight bytes of each.
const WORDS: [usize; 128] = [
    0,
    0x20726176,
    0x2074656c,
    0x2074736e6f63,
    0x2820726f66,
    0x6961776120726f66,
    0x6665725f,
    0x6564756c6378655f,
    0x65756c61765f,
    0x79656b5f,
    0x70537463656a624f,
    0x73646e65747845,
    0x65447463656a624f,
    0x69577463656a624f,
    0x7265706f72506f54,
    0x203d20,
    0x203d3f20,
    0x203b203b,
    0x203b,
    0x29203b203b,
    0x29203b,
    0x29,
    0x29,
    0x3a746c7561666564,
    0xa3a,
    0x2e2e2e,
    0x2e2e2e202c,
    0x203a,
    0,
    0x203d20,
    0,
    0x6e6f6974636e7566,
    0,
    0x3b,
    0,
    0,
    0x3b,
    0,
    0,
    0,
    0x29,
    0,
    0,
    0x20746567,
    0x20746573,
    0x2074657320746567,
    0x20636974617473,
    0x6720636974617473,
    0x7320636974617473,
    0x6720636974617473,
    0,
    0x29,
    0xa,
    0xa29,
    0xa3b,
    0xa3b29,
    0x2029,
    0x202929,
    0x29,
    0x2929,
    0x5d,
    0x5d29,
    0x7d,
    0x7d29,
    0x28,
    0x7b,
    0x7d,
    0x5b,
    0x2c,
    0xa7b,
    0x202c,
    0x20,
    0x203e3d20,
    0xa7b2029,
    0x7b24,
    0x60,
    0x23,
    0x206e6920,
    0x20666f20,
    0x20797274,
    0x20686374616320,
    0x796c6c616e696620,
    0x6e7275746572,
    0x7373616c63,
    0x73646e6574786520,
    0xa7b20,
    0x7b20636974617473,
    0x2820686374697773,
    0x2065736163,
    0x3b29,
    0x2e,
    0x225b,
    0x5d22,
    0x22,
    0,
    0,
    0,
    0,
    0,
    0,
    0,
    0,
    0,
    0,
    0,
    0,
    0,
    0,
    0,
    0,
    0,
    0,
    0,
    0,
    0,
    0,
    0,
    0,
    0,
    0,
    0,
    0,
    0,
    0,
    0,
    0,
    0,
    0,
];

pub(crate) fn words() -> [usize; 128]
    ensures { result ≡ word_numbers }
{
    WORDS
}

// A word's first eight bytes, if the table is lent.
pub(crate) fn low(words: &[usize], id: usize) -> usize
    ensures { words.now ≡ word_numbers → result ≡ low_of id }
{
    numbers::number_at(words, id)
}

// The next eight.
pub(crate) fn middle(id: usize) -> usize
    ensures { result ≡ middle_of id }
{
    match id {
        5 => 0x282074,
        7 => 0x64,
        10 => 0x3264616572,
        12 => 0x7275746375727473,
        13 => 0x6f725074756f6874,
        14 => 0x79654b7974,
        23 => 0xa,
        47 => 0x207465,
        48 => 0x207465,
        49 => 0x20746573207465,
        81 => 0x20,
        84 => 0x20,
        86 => 0xa,
        _ => 0,
    }
}

// The last eight.
pub(crate) fn high(id: usize) -> usize
    ensures { result ≡ high_of id }
{
    match id {
        12 => 0x7974706d45676e69,
        13 => 0x73656974726570,
        _ => 0,
    }
}
