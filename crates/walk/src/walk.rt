// What the walk hands on, and the small steps that emitters are made of.
ghost use Rattle.std.specs.Prelude.{◌≡◌, ◌&&◌, List, [], ◌∷◌, ◌++◌, ltb, ℕ, ◌%◌};
ghost use Rattle.tree.specs.Tree.{wide_bytes};
ghost use Rattle.lowering.specs.Numbers.{digits_of};
ghost use Rattle.sink.specs.Machine.{part, tree_limit};
ghost use Rattle.sink.specs.Machine.Event.{helper, temporary, new_mark, make, listed_temporary, entry, excluded_temporary, declarator};
ghost use Rattle.direct.specs.Events.{puts, lists, excludes};
ghost use Rattle.direct.specs.Events.Deed.{does, refuses};
ghost use Rattle.direct.specs.Emit.{call_head};
ghost use Rattle.direct.specs.Keys.{string_bytes_of};
ghost use Rattle.walk.specs.Run.{going_of, Runs};
ghost use Rattle.walk.specs.Turns.{declaration_head, block_head, string_at};

use crate::{helpers, stems, written};
use pattern::numbers::digits_of;
use sink::Sink;

// The output, the position in the input, the first refusal (0 for none). A refusal is a byte; as a word it is copied faster.
#[derive(Clone, Copy)]
pub struct Walk {
    pub sink: Sink,
    pub at: usize,
    pub refusal: usize,
}

impl Walk {
    // The same output at another position.
    pub fn to(self, at: usize) -> Walk
        ensures { ((o l w : List ℕ) → going_of o l w result ≡ going_of o l w self) × (result.at ≡ at) }
    {
        Walk { at, ..self }
    }

    // Whether what was written before need not be written again: the tree is full, and nothing of it will be handed back.
    pub fn passes(self, again: bool) -> bool
        ensures { result ≡ again && ltb tree_limit self.sink.tree }
    {
        again && self.sink.full()
    }

    pub fn put2(self, out: &mut [u8], a: u8, b: u8) -> Walk
        ensures { ((l w : List ℕ) → Runs (going_of out.old l w self) (going_of out.new l w result) (puts (a ∷ b ∷ []))) × (result.at ≡ self.at) }
    {
        Walk {
            sink: self.sink.put2(out, a, b),
            ..self
        }
    }

    // A 16-bit number: the low bits of n.
    pub fn wide(self, out: &mut [u8], n: usize) -> Walk
        ensures { ((l w : List ℕ) → Runs (going_of out.old l w self) (going_of out.new l w result) (puts (wide_bytes (n % 65536)))) × (result.at ≡ self.at) }
    {
        Walk {
            sink: self.sink.put_wide(out, n),
            ..self
        }
    }

    // The bytes of the input up to a position.
    pub fn copy(self, t: &[u8], out: &mut [u8], end: usize) -> Walk
        ensures { ((l w : List ℕ) → Runs (going_of out.old l w self) (going_of out.new l w result) (puts (part self.at end t.now))) × (result.at ≡ end) }
    {
        Walk {
            sink: self.sink.copy(out, t, self.at, end),
            at: end,
            ..self
        }
    }

    // The head of a call of helper h.
    pub fn call(self, out: &mut [u8], h: u8, args: usize) -> Walk
        ensures { ((l w : List ℕ) → Runs (going_of out.old l w self) (going_of out.new l w result) (call_head h (args % 65536))) × (result.at ≡ self.at) }
    {
        Walk {
            sink: self
                .sink
                .put2(out, written::CALL, written::FIRST_TWO)
                .helper(out, h)
                .put_wide(out, args),
            ..self
        }
    }

    // The node of the temporary that a cell stands for, with its stem.
    pub fn temporary(
        self,
        out: &mut [u8],
        list: &mut [u8],
        work: &mut [u8],
        c: usize,
        stem: u8,
    ) -> Walk
        ensures { (Runs (going_of out.old list.old work.old self) (going_of out.new list.new work.new result) (does (temporary c stem) ∷ [])) × (result.at ≡ self.at) }
    {
        Walk {
            sink: self.sink.temporary(out, list, work, c, stem),
            ..self
        }
    }

    // A refusal, and the two bytes that stand for what is refused.
    pub fn refuse(self, out: &mut [u8], n: u8) -> Walk
        ensures { ((l w : List ℕ) → Runs (going_of out.old l w self) (going_of out.new l w result) (refuses n ∷ puts (0 ∷ 0 ∷ []))) × (result.at ≡ self.at) }
    {
        let sink = self.sink.put2(out, 0, 0);
        if self.refusal == 0 {
            Walk {
                sink,
                refusal: usize::from(n),
                ..self
            }
        } else {
            Walk { sink, ..self }
        }
    }

    // The mark of the next new statement.
    pub fn mark(self) -> usize
        ensures { result ≡ self.sink.mark }
    {
        self.sink.mark
    }

    pub fn new_mark(self, out: &mut [u8]) -> Walk
        ensures { ((l w : List ℕ) → Runs (going_of out.old l w self) (going_of out.new l w result) (does new_mark ∷ [])) × (result.at ≡ self.at) }
    {
        Walk {
            sink: self.sink.new_mark(out),
            ..self
        }
    }

    // A temporary is made in a cell.
    pub fn make(self, work: &mut [u8], c: usize) -> Walk
        ensures { ((o l : List ℕ) → Runs (going_of o l work.old self) (going_of o l work.new result) (does (make c) ∷ [])) × (result.at ≡ self.at) }
    {
        sink::cells::make(work, c);
        self
    }

    // An assignment's head.
    pub fn assign(self, out: &mut [u8], op: u8) -> Walk
        ensures { ((l w : List ℕ) → Runs (going_of out.old l w self) (going_of out.new l w result) (puts (27 ∷ 7 ∷ op ∷ []))) × (result.at ≡ self.at) }
    {
        Walk {
            sink: self
                .sink
                .put2(out, written::ASSIGNMENT, written::FIRST_THREE)
                .put(out, op),
            ..self
        }
    }

    // The head of a new declaration of n declarators.
    pub fn declaration(self, out: &mut [u8], sort: u8, n: usize) -> Walk
        ensures { ((l w : List ℕ) → Runs (going_of out.old l w self) (going_of out.new l w result) (declaration_head sort (n % 65536))) × (result.at ≡ self.at) }
    {
        Walk {
            sink: self
                .sink
                .put2(out, written::DECLARATION, written::FIRST_THREE)
                .new_mark(out)
                .put(out, sort)
                .put_wide(out, n),
            ..self
        }
    }

    // The head of a new block of n statements.
    pub fn block(self, out: &mut [u8], n: usize) -> Walk
        ensures { ((l w : List ℕ) → Runs (going_of out.old l w self) (going_of out.new l w result) (block_head (n % 65536))) × (result.at ≡ self.at) }
    {
        Walk {
            sink: self
                .sink
                .put2(out, written::BLOCK, written::FIRST_TWO)
                .new_mark(out)
                .put_wide(out, n),
            ..self
        }
    }

    // What stands before the source where all properties are wanted: an assignment of a copy, and a check of the source.
    pub fn empty_rest(self, out: &mut [u8]) -> Walk
        ensures { ((l w : List ℕ) → Runs (going_of out.old l w self) (going_of out.new l w result) (call_head 2 2 ++ (puts (24 ∷ 1 ∷ 0 ∷ 0 ∷ 28 ∷ 1 ∷ 2 ∷ 0 ∷ []) ++ call_head 3 1))) × (result.at ≡ self.at) }
    {
        self.call(out, helpers::EXTENDS, 2)
            .put2(out, written::OBJECT, written::FIRST)
            .put2(out, 0, 0)
            .put2(out, written::SEQUENCE, written::FIRST)
            .put2(out, 2, 0)
            .call(out, helpers::OBJECT_DESTRUCTURING_EMPTY, 1)
    }

    // What stands behind keys that are mapped: `.map`, and the helper.
    pub fn mapped(self, out: &mut [u8]) -> Walk
        ensures { ((l w : List ℕ) → Runs (going_of out.old l w self) (going_of out.new l w result) (puts (3 ∷ 0 ∷ 109 ∷ 97 ∷ 112 ∷ 1 ∷ 0 ∷ []) ++ (does (helper 5) ∷ []))) × (result.at ≡ self.at) }
    {
        Walk {
            sink: self
                .sink
                .put4(out, 3, 0, b'm', b'a')
                .put(out, b'p')
                .put2(out, 1, 0)
                .helper(out, helpers::TO_PROPERTY_KEY),
            ..self
        }
    }

    // A string of n bytes of the input, or of as many as there are.
    pub(crate) fn string(self, t: &[u8], out: &mut [u8], from: usize, n: usize) -> Walk
        ensures { ((l w : List ℕ) → Runs (going_of out.old l w self) (going_of out.new l w result) (puts (string_at t.now from n))) × (result.at ≡ self.at) }
    {
        let end = tree::skip::step(t, from, n);
        Walk {
            sink: self
                .sink
                .put4(
                    out,
                    written::LITERAL,
                    written::FIRST_THREE,
                    written::STRING,
                    0,
                )
                .put(out, 0)
                .put_wide(out, n)
                .copy(out, t, from, end),
            ..self
        }
    }

    // A string of the digits of a value.
    pub(crate) fn number(self, out: &mut [u8], value: usize) -> Walk
        ensures { ((l w : List ℕ) → Runs (going_of out.old l w self) (going_of out.new l w result) (puts (string_bytes_of (digits_of value)))) × (result.at ≡ self.at) }
    {
        let d = digits_of(value);
        let bytes = d.bytes;
        let from = d.from;
        self.string(&bytes, out, from, 20 - from)
    }

    // ---- the list and the excluded keys

    pub(crate) fn entry(self, list: &mut [u8], mark: usize, n: usize) -> Walk
        ensures { ((o w : List ℕ) → Runs (going_of o list.old w self) (going_of o list.new w result) (does (entry mark n) ∷ [])) × (result.at ≡ self.at) }
    {
        Walk {
            sink: self.sink.entry(list, mark, n),
            ..self
        }
    }

    pub(crate) fn listed2(self, list: &mut [u8], a: u8, b: u8) -> Walk
        ensures { ((o w : List ℕ) → Runs (going_of o list.old w self) (going_of o list.new w result) (lists (a ∷ b ∷ []))) × (result.at ≡ self.at) }
    {
        Walk {
            sink: self.sink.listed2(list, a, b),
            ..self
        }
    }

    pub(crate) fn listed_temporary(
        self,
        list: &mut [u8],
        work: &mut [u8],
        c: usize,
        stem: u8,
    ) -> Walk
        ensures { ((o : List ℕ) → Runs (going_of o list.old work.old self) (going_of o list.new work.new result) (does (listed_temporary c stem) ∷ [])) × (result.at ≡ self.at) }
    {
        Walk {
            sink: self.sink.listed_temporary(list, work, c, stem),
            ..self
        }
    }

    pub(crate) fn listed_copy(self, list: &mut [u8], t: &[u8], from: usize, to: usize) -> Walk
        ensures { ((o w : List ℕ) → Runs (going_of o list.old w self) (going_of o list.new w result) (lists (part from to t.now))) × (result.at ≡ self.at) }
    {
        Walk {
            sink: self.sink.listed_copy(list, t, from, to),
            ..self
        }
    }

    pub(crate) fn excluded_copy(self, work: &mut [u8], t: &[u8], from: usize, to: usize) -> Walk
        ensures { ((o l : List ℕ) → Runs (going_of o l work.old self) (going_of o l work.new result) (excludes (part from to t.now))) × (result.at ≡ self.at) }
    {
        Walk {
            sink: self.sink.excluded_copy(work, t, from, to),
            ..self
        }
    }

    // The declarator of excluded keys: its temporary, and the head of an array of n.
    pub(crate) fn excluded_head(self, work: &mut [u8], c: usize, n: usize) -> Walk
        ensures { ((o l : List ℕ) → Runs (going_of o l work.old self) (going_of o l work.new result) (does declarator ∷ does (excluded_temporary c 2) ∷ excludes (32 ∷ 1 ∷ wide_bytes (n % 65536)))) × (result.at ≡ self.at) }
    {
        Walk {
            sink: self
                .sink
                .declarator(work)
                .excluded_temporary(work, c, stems::EXCLUDED)
                .excluded2(work, written::ARRAY, written::FIRST)
                .excluded_wide(work, n),
            ..self
        }
    }

    pub(crate) fn excluded_string(self, work: &mut [u8], t: &[u8], from: usize, n: usize) -> Walk
        ensures { ((o l : List ℕ) → Runs (going_of o l work.old self) (going_of o l work.new result) (excludes (string_at t.now from n))) × (result.at ≡ self.at) }
    {
        let end = tree::skip::step(t, from, n);
        Walk {
            sink: self
                .sink
                .excluded4(
                    work,
                    written::LITERAL,
                    written::FIRST_THREE,
                    written::STRING,
                    0,
                )
                .excluded(work, 0)
                .excluded_wide(work, n)
                .excluded_copy(work, t, from, end),
            ..self
        }
    }

    pub(crate) fn excluded_number(self, work: &mut [u8], value: usize) -> Walk
        ensures { ((o l : List ℕ) → Runs (going_of o l work.old self) (going_of o l work.new result) (excludes (string_bytes_of (digits_of value)))) × (result.at ≡ self.at) }
    {
        let d = digits_of(value);
        let bytes = d.bytes;
        let from = d.from;
        self.excluded_string(work, &bytes, from, 20 - from)
    }
}
