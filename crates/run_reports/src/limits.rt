//! The limit of the program's book.

/// The limit of the program's book, in entries.
pub const BOOK_LIMIT: usize = 200_000;
