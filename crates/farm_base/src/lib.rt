//! The words that every crate of the custody desk shares: counts of faults, what an object is known to hold, steps that may
//! fail, blanks and digits, a list that clauses see as a list, and `NoMemory`, the one answer whose cause no clause states.
//!
//! The definitions stand in `specs/`; docs/machine.md reads them aloud. `base_laws` states what follows from them.
#![tactic(auto)]

mod bytes;
mod items;
mod laws;
mod memory;

pub use bytes::{is_all_digits, is_blank, is_digit};
pub use items::Items;
pub use laws::base_laws;
pub use memory::NoMemory;
