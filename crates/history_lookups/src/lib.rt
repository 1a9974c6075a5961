//! What the entries of a history say: readings and samples, the figures of a tank, which movements are open, tickets, and the books of
//! tanks.
//!
//! The definitions are those of `farm_history`; what stands here is how they are computed. Nothing here takes memory.
#![tactic(auto)]

mod amounts;
mod figures;
mod gauging;
mod last_places;
mod ledger;
mod movements;
mod past;
mod postings;
mod stocks;
mod tickets;

pub use figures::{Pairs, tank_of};
pub use gauging::gauged;
pub use last_places::{is_gauging_of, is_sample_of, settles};
pub use ledger::Ledger;
pub use movements::{ends, opens_on};
pub use past::Past;
pub use postings::{Posted, postings_of_ticket};
pub use tickets::{ToClose, closed, issues_ticket};
