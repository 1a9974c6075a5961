//! Requests to the desk and its answers, as JSON.
//!
//! A line of a batch is a JSON object: what is to be done, for which account and under which key, and the command's own
//! members. An answer is a JSON object too. docs/formats.md has each member, its range and its fault.
#![tactic(auto)]

mod answers;
mod commands;
mod members;
mod number_laws;
mod page;
mod requests;
mod tickets;

pub use answers::{answer_laws, body};
pub use number_laws::defined_numbers;
pub use page::{Allow, Page};
pub use requests::{
    LineAsked, MOST_ACCOUNT, MOST_KEY, MOST_PARTY_NUMBER, MOST_PLACE, MOST_TANK_NUMBER, line,
    posted,
};
