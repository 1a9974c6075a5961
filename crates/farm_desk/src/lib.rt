//! The custody desk: a book, and the journal on a disk that keeps it whatever a crash does.
//!
//! A desk answers one request after another, as `farm_history` defines the answers. A command that is accepted is in the journal before
//! its answer is given. docs/architecture.md says what a crash leaves at each moment.
#![tactic(auto)]

mod chronicle;
mod desk;
mod found;
mod making;
mod opened;

pub use desk::Desk;
pub use farm_journal::{CreateFault, RecoverFault};
pub use found::Found;
pub use journaled_book::Answer;
pub use opened::Opened;
