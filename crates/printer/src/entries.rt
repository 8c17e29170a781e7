// What is kept of a tree, as numbers in a list: four bytes each, in fixed memory. The last four binary digits are a code: those
// of `look` for a node, a list, a text, a number and a hole, 4 for a mark or a byte, 8 the end of a node, 9 the end of a list, and
// 10 to 13 a leaf from its begin to its end. In the sixteen digits above it stands a node's kind and bit map, a list's count, a
// number, or the position of a text or of a leaf's first text; above those the node's byte.
ghost use Rattle.std.specs.Prelude.{◌≡◌, cond, ◌+◌, ◌*◌, ◌/◌, ◌%◌, ◌<◌, eqb, get_or, set};
ghost use Rattle.printer.specs.Met.{number_of, Leafed};

use rewritten::task::{BYTE_AND_TEXTS, ONE_TEXT};
use tree::kinds;

pub(crate) const NODE: usize = 1;

pub(crate) const LIST: usize = 2;

pub(crate) const TEXT: usize = 3;

pub(crate) const QUIET: usize = 4;

pub(crate) const NUMBER: usize = 6;

pub(crate) const HOLE: usize = 7;

pub(crate) const NODE_ENDS: usize = 8;

pub(crate) const LIST_ENDS: usize = 9;

pub(crate) const REFERENCE: usize = 10;

pub(crate) const BINDING: usize = 11;

pub(crate) const STATIC_KEY: usize = 12;

pub(crate) const LITERAL: usize = 13;

// A node's, with no byte yet.
pub(crate) fn head(kind: usize, map: usize) -> usize
    ensures { result ≡ number_of 1 (kind % 64 + 64 * (map % 256)) 0 }
{
    NODE + 16 * (kind % 64 + 64 * (map % 256))
}

// The code of a node, if it is a leaf.
pub(crate) fn leaf_code(kind: usize, map: usize, what: usize) -> Option<usize>
    ensures { Leafed kind map what result }
{
    if what == ONE_TEXT && map == 1 {
        return match kind {
            kinds::REFERENCE => Some(REFERENCE),
            kinds::BINDING => Some(BINDING),
            kinds::STATIC_KEY => Some(STATIC_KEY),
            _ => None,
        };
    }
    if what == BYTE_AND_TEXTS && kind == kinds::LITERAL && map == 7 {
        Some(LITERAL)
    } else {
        None
    }
}

// That of a list's count, a number, or a position.
pub(crate) fn plain(code: usize, n: usize) -> usize
    ensures { result ≡ number_of (code % 16) (n % 65536) 0 }
{
    code % 16 + 16 * (n % 65536)
}

// A Literal's, with its byte.
pub(crate) fn literal(p: usize, b: usize) -> usize
    ensures { result ≡ number_of 13 (p % 65536) (b % 256) }
{
    LITERAL + 16 * (p % 65536 + 65536 * (b % 256))
}

// That of the end of a task.
pub(crate) fn closing(top: usize) -> usize
    ensures { result ≡ cond (eqb (top % 2) 0) 8 9 }
{
    if top % 2 == 0 { NODE_ENDS } else { LIST_ENDS }
}

// The byte of a node goes into its number.
pub(crate) fn note(log: &mut [u32], i: usize, b: usize)
    ensures { log.new ≡ set log.old i (get_or log.old i 0 % 1048576 + 1048576 * (b % 256)) }
{
    if i < log.len() {
        log[i] = log[i] % 1048576 + 1048576 * (b % 256) as u32;
    }
}
