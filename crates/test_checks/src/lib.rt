//! What tests compare: a comparison that differs is printed and counted, and the test fails at its end.
//!
//! An assertion written out in a test is proved anew in each, with the printing of both values; a call of `same` is proved in no time.
#![tactic(auto)]

mod checks;
mod differing;
mod sharing;

pub use checks::Checks;
pub use differing::Differing;
pub use sharing::shared;
