//! One value that many callers share by turns, and one past of what they did.
#![tactic(auto)]

mod chronicles;
mod one_turn;
mod passes;
mod sharing;
mod steps;
mod views;

pub use chronicles::{Chronicle, Job};
pub use passes::Pass;
pub use sharing::Turn;
