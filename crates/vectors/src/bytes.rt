// Numbers in the input, little-endian, and slices that are compared.

pub(crate) fn number16(low: u8, high: u8) -> usize {
    u16::from_le_bytes([low, high]) as usize
}

pub(crate) fn number32(a: u8, b: u8, c: u8, d: u8) -> u32 {
    u32::from_le_bytes([a, b, c, d])
}

// Whether the bytes are those of `start`, then zeros.
pub(crate) fn holds(bytes: &[u8], start: &[u8]) -> bool {
    bytes
        .strip_prefix(start)
        .is_some_and(|rest| rest.iter().all(|byte| *byte == 0))
}
