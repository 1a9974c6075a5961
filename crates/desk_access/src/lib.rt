//! How a post reaches a desk: it asks as one caller, and sees of the desk's history what its caller has seen.
//!
//! A post is written over any access. `SoleAccess` is that of the one caller of a desk: between two of its requests nobody else asks.
#![tactic(auto)]

mod access;
mod sole;
mod stops;

pub use access::DeskAccess;
pub use sole::SoleAccess;
pub use stops::has_stop_after;
