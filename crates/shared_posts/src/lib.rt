//! Posts that share one desk by turns, each as a caller of its own, whatever they do: they get their callers, run side by side, and hand their
//! passes back, with which the turn is closed.
//!
//! Desk posts and gauge lines are such posts. docs/machine.md says what all posts together did, under "Many posts".
#![tactic(auto)]

mod callers;
mod closing;
mod collecting;
mod post;
mod side_by_side;

pub use callers::give_callers;
pub use closing::close_posts;
pub use post::{Caller, DeskCaller, DeskPass, Post};
pub use side_by_side::run_both;
