//! The writer of texts: pieces, which are texts, numbers and numbers, appended to a buffer one after another.
//!
//! Pieces are appended whole, or the buffer is as it was. Numbers are written on the stack, so a piece takes no memory but
//! the buffer's. docs/trade.md states the texts of numbers under "Texts of numbers".
#![tactic(auto)]

mod appending;
mod numbers;
mod pieces;

pub use appending::append;
pub use pieces::Piece;
