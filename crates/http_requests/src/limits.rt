//! The limits of a request, and the statuses of what isn't asked.

/// The most digits of a parameter.
pub const MOST_PARAMETER_DIGITS: usize = 10;

/// Not Found.
pub const NOT_FOUND: u16 = 404;

/// Method Not Allowed.
pub const METHOD_NOT_ALLOWED: u16 = 405;

/// The most bytes of a request, its head and its body: that many are never too few.
pub const MOST_REQUEST_BYTES: usize = 81_920;
