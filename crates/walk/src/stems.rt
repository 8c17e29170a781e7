// The stems of temporaries: what one is made for (`lowering/specs/Made`).

// It stands in place of a pattern.
pub const PLACE: u8 = 1;

// It holds the excluded keys of an object pattern.
pub const EXCLUDED: u8 = 2;

// It holds the value that a pattern takes apart.
pub const VALUE: u8 = 3;

// It holds the key of a property.
pub const KEY: u8 = 4;
