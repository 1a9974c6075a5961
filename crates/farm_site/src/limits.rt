//! Limits of a site.

/// A format's number is from 1 up to this.
pub const MOST_FORMAT: u32 = 2;

/// An item's number is from 1 up to this.
pub const MOST_NUMBER: u32 = 65_535;

/// A name has at most this many bytes.
pub const MOST_NAME_BYTES: usize = 32;

/// A site has at most this many products.
pub const MOST_PRODUCTS: usize = 16;

/// A site has at most this many parties.
pub const MOST_PARTIES: usize = 256;

/// A site has at most this many tanks.
pub const MOST_TANKS: usize = 64;

/// A site has at most this many gauge lines.
pub const MOST_LINES: usize = 16;

/// An opening stock is at most this many litres or kilograms either way.
pub const MOST_STOCK: i64 = 1_000_000_000;
