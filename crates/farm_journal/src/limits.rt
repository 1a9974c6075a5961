//! How a journal begins, and how much it holds.

/// The most bytes that a header or a body has.
pub const MAX_BODY: usize = 16_777_216;

/// The most bodies that a journal holds.
pub const MAX_BODIES: u32 = 4_000_000_000;

/// How many bytes an opening has before its header: no journal has fewer.
pub const BEFORE_HEADER: usize = 13;

/// How many bytes the gate of the header and the name of the format have.
pub(crate) const SIGNATURE_BYTES: usize = 9;

/// The gate of the header, open, and the name of the format.
pub(crate) const SIGNATURE: [u8; SIGNATURE_BYTES] = [
    1, b'F', b'A', b'R', b'M', b'J', b'N', b'L', b'1',
];

/// How many bytes the length of a header or a body has.
pub(crate) const LENGTH_BYTES: usize = 4;

/// How many bytes stand around a body: a gate, a length, and the gate after the body.
pub(crate) const AROUND_BODY: usize = 6;
