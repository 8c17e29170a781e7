// Counts. None goes past 65536, so that adding is total; a tree that is accepted has fewer of anything.
ghost use Rattle.std.specs.Prelude.{◌≡◌, ◌+◌};
ghost use Rattle.pattern.specs.Tally.{limited, tally_values, both};

// Why an object with rest is not lowered: a literal key without a form that is no number with a promised string, or one whose
// form is not the string of its number.
#[derive(Clone, Copy, Debug, PartialEq, Eq)]
pub enum Refusal {
    NoForm,
    OtherForm,
}

impl From<Refusal> for u8 {
    ghost use Rattle.pattern.specs.Refusals.{refusal_code};

    ghost from_gives = { λ r n. n ≡ refusal_code r };

    fn from(refusal: Refusal) -> u8 {
        match refusal {
            Refusal::NoForm => 6,
            Refusal::OtherForm => 11,
        }
    }
}

// What is counted of keys, and of objects with rest.
#[derive(Clone, Copy, Default)]
pub(crate) struct Tally {
    // Entries among the excluded keys.
    pub excluded: usize,
    // Key temporaries.
    pub temporaries: usize,
    // Keys that are not primitive.
    pub computed: usize,
    // The first refusal.
    pub refusal: Option<Refusal>,
    // Objects with rest.
    pub objects: usize,
    // Those of them that have properties.
    pub patterns: usize,
}

pub fn plus(a: usize, b: usize) -> usize
    ensures { result ≡ limited (a + b) }
{
    a.saturating_add(b).min(65536)
}

pub(crate) fn both(a: Tally, b: Tally) -> Tally
    ensures { tally_values result ≡ both (tally_values a) (tally_values b) }
{
    Tally {
        excluded: plus(a.excluded, b.excluded),
        temporaries: plus(a.temporaries, b.temporaries),
        computed: plus(a.computed, b.computed),
        refusal: a.refusal.or(b.refusal),
        objects: plus(a.objects, b.objects),
        patterns: plus(a.patterns, b.patterns),
    }
}
