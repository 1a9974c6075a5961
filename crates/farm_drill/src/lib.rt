//! A drill: movements that follow from a seed, asked of a desk in memory, and the summary of its books.
//!
//! `drilled` makes the row site and a desk of it on a disk in memory, asks the commands, recovers the desk from its disk, and answers the
//! summary of the recovered books. `specs/` has the commands and their history.
#![tactic(auto)]

mod asking;
mod course;
mod drills;
mod making;
mod movement_laws;
mod number_laws;
mod numbers;

pub use drills::drilled;
pub use movement_laws::drill_laws;
pub use number_laws::defined_numbers;
pub use numbers::MOST_DRILLED;
