// Where objects with rest are looked for below a target: anywhere, through objects alone, below arrays alone.
ghost use Rattle.std.specs.Prelude.{◌≡◌};
ghost use Rattle.direct.specs.Objects as objects;
ghost use Rattle.walk.specs.Turns.{reach_of};

#[derive(Clone, Copy)]
pub enum Reach {
    Anywhere,
    Straight,
    InArrays,
}

// Whether one that is come to through objects counts.
pub fn counts(reach: Reach) -> bool
    ensures { result ≡ objects.counts (reach_of reach) }
{
    matches!(reach, Reach::Anywhere | Reach::Straight)
}

// Whether arrays are entered.
pub(crate) fn enters(reach: Reach) -> bool
    ensures { result ≡ objects.enters (reach_of reach) }
{
    matches!(reach, Reach::Anywhere | Reach::InArrays)
}
