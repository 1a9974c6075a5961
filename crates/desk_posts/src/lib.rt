//! Desk posts: who connects is answered, one connection after another, over any listener and any access to a desk.
//!
//! A post listens on a port. It takes requests from a connection, asks the desk what they ask, and puts a page for each, until the connection
//! has a cause to end; then it accepts the next one. docs/machine.md has the causes, under "Desk posts".
#![tactic(auto)]

mod exchanging;
mod hearing;
mod laws;
mod limits;
mod number_laws;
mod pages;
mod posts;
mod room;
mod serving;

pub use laws::post_laws;
pub use limits::MOST_REQUESTS;
pub use number_laws::defined_numbers;
pub use posts::{PostEnd, run_post};
pub use room::PostRoom;
