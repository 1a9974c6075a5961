//! Readers of bytes from left to right: what they are in definitions, the numbers at the beginning of bytes, and the lemmas by which a
//! format is read exactly from the bytes that it writes.
//!
//! Each crate that reads a format says which fault it answers where bytes are missing. `specs/` has the definitions, of which a format
//! is put together; `proofs/` has a lemma for each of them.
#![tactic(auto)]

mod laws;
mod numbers;

pub use laws::reader_laws;
pub use numbers::{i16_at, i64_at, u8_at, u16_at, u32_at, u64_at};
