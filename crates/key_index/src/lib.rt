//! Where a key stands in a list of entries: an account and a key, and the place at which they stand first.
//!
//! A look-up takes the same time however many keys there are. Only `reserve` takes memory.
#![tactic(auto)]

mod index;

pub use index::KeyIndex;
