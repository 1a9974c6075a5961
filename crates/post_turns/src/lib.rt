//! A desk post or a gauge line as one of several callers of a desk: it runs by turns, and has its pass again at the end.
//!
//! docs/machine.md says what each does, under "Desk posts" and "Gauge lines", and whose callers they are, under "Many posts".
#![tactic(auto)]

mod desk_post;
mod line_post;

pub use desk_post::{DeskPost, run_desk_post};
pub use line_post::{LinePost, run_line_post};
