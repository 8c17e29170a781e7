// The version of what the archive's functions promise. It goes up when a promise changes, and a caller compares it with its own.

ghost use Rattle.std.specs.Prelude.{◌≡◌};
ghost use Rattle.rest_spread.specs.Version.{version};

pub fn rest_spread_version() -> u32
    ensures { result ≡ version }
{
    4
}
