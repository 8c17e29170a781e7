// The helpers by the names that callers of the lowering know them by.
use sink::mask;

pub(crate) const OBJECT_SPREAD: u8 = mask::SPREAD;

pub(crate) const EXTENDS: u8 = mask::EXTENDS;

pub(crate) const OBJECT_DESTRUCTURING_EMPTY: u8 = mask::EMPTY;

pub const OBJECT_WITHOUT_PROPERTIES: u8 = mask::WITHOUT;

pub(crate) const TO_PROPERTY_KEY: u8 = mask::KEY;
