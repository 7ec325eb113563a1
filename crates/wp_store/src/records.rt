/// The most bytes that a store's file may have: the most records, each of the most bytes, and a closed byte.
pub const MOST_STORE_BYTES: usize = 81_970_001;

/// The most records that a store may have.
pub const MOST_RECORDS: usize = 10_000;

/// The most bytes that a record may have.
pub const MOST_BODY_BYTES: usize = 8_192;

/// How many bytes of a record stand before its body: the opened byte, and the length.
pub(crate) const HEAD_BYTES: usize = 5;

/// The greatest piece that is written at once: a length, a body and a closed byte.
pub(crate) const ROOM_BYTES: usize = 8_197;
