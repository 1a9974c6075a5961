//! Limits of a batch's input, and the byte that ends a line.

/// The byte that ends a line.
pub const LINE_FEED: u8 = b'\n';

/// The most bytes of a line, without its line feed.
pub const MOST_REQUEST_LINE_BYTES: usize = 65_536;

/// The most bytes of all lines, with their line feeds.
pub const MOST_BYTES: usize = 1_073_741_824;
