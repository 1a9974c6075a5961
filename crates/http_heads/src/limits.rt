//! The limits of a request, and the statuses of broken bytes.

/// The most field lines of a head.
pub const MOST_FIELDS: usize = 64;

/// The most bytes of a head.
pub const MOST_HEAD_BYTES: usize = 16_384;

/// The most bytes of a body.
pub const MOST_BODY_BYTES: u64 = 65_536;

/// The most digits of a Content-Length.
pub const MOST_LENGTH_DIGITS: usize = 10;

/// Bad Request.
pub const BAD_REQUEST: u16 = 400;

/// Length Required.
pub const LENGTH_REQUIRED: u16 = 411;

/// Content Too Large.
pub const CONTENT_TOO_LARGE: u16 = 413;

/// Request Header Fields Too Large.
pub const HEADER_FIELDS_TOO_LARGE: u16 = 431;

// One more than a head may have, so that the parser of heads doesn't refuse a head within the limit for want of room.
pub(crate) const FIELD_SLOTS: usize = 65;
