//! A book and the journal that keeps it: how a request is answered on both.
//!
//! A command that is accepted is put into the journal, entered in the book, and its gate is opened. If its gate can't be opened, it is
//! in doubt, and the next request opens that gate first. `farm_desk` makes these records, and counts their faults.
#![tactic(auto)]

mod answer;
mod asking;
mod records;

pub use answer::{Answer, NoReply, answer_of};
pub use records::Records;
