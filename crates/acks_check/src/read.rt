// The numbers of a line. A field that is none reads as one that no good line has.
use lines::Fields;

// The number below 2 ^ 32 that is next.
pub(crate) fn word(fields: &mut Fields) -> u32 {
    match fields.number() {
        Some(n) => u32::try_from(n).unwrap_or(999999999),
        None => 999999999,
    }
}

// The number below 256 that is next.
pub(crate) fn small(fields: &mut Fields) -> u8 {
    u8::try_from(word(fields)).unwrap_or(255)
}
