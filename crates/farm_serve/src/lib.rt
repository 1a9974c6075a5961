//! Many posts: one desk that desk posts and gauge lines serve side by side, each as a caller of its own.
//!
//! Callers hand in posts, each over an object of the outside, and get the desk back. docs/machine.md says what all posts together did, under
//! "Many posts".
#![tactic(auto)]

mod ends;
mod lines;
mod rooms;
mod serving;

pub use ends::any_failed;
pub use post_turns::{DeskPost, LinePost};
pub use serving::serve;
pub use shared_posts::{Caller, DeskCaller, DeskPass, Post};
