//! The runs of desk posts and gauge lines that share one desk by turns, all side by side, each as its own caller.
//!
//! Callers hand in posts that have what they work with and their callers. docs/machine.md says what all did, under "Many posts".
#![tactic(auto)]

mod all_posts;
mod side_by_side;

pub use all_posts::run_all;
