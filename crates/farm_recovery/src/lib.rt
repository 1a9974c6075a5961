//! The history that the bytes of a journal encode: the book that its header and bodies make, taken one after another, or why they don't.
//!
//! The header is a site's bytes, and each body those of an entry that may come next, as `farm_history` defines it. Bytes encode one
//! history at most.
#![tactic(auto)]

mod laws;
mod recovering;

pub use laws::recovery_laws;
pub use recovering::Recovering;
