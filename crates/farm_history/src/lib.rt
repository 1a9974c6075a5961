//! The history of a custody desk: its commands, its entries, and the rules by which a command is accepted.
//!
//! A history is a site and the list of the commands that were accepted, each stamped with its caller, account, key and moment.
//! The definitions of `specs/` say of each further command whether it repeats an entry, which rule refuses it, or that it is
//! accepted; and how an entry is written as bytes. docs/trade.md reads them aloud under "History", docs/formats.md has
//! the bytes of an entry and the table of rules. Nothing here takes memory but `Entry::write`.
#![tactic(auto)]

mod ask;
mod command;
mod decoding;
mod encoding;
mod entry;
mod few;
mod laws;
mod limits;
mod number_laws;
mod plan;
mod query;
mod reply;
mod rule;
mod verdict;

pub use ask::Ask;
pub use command::Command;
pub use decoding::BadEntry;
pub use entry::Entry;
pub use few::Few;
pub use laws::history_laws;
pub use limits::{LAST_MOMENT, MOST_ENTRY_BYTES, MOST_IN_LIST, MOST_LIMIT, STOPS_BEYOND_LIMIT};
pub use number_laws::defined_numbers;
pub use plan::{Gauged, Named, Plan};
pub use query::Query;
pub use reply::Reply;
pub use rule::{BELOW_DATUM, Rule, TAPE_COUNT, TAPE_SPREAD, WATER_TAPE_COUNT, WATER_TAPE_SPREAD};
pub use verdict::Verdict;
