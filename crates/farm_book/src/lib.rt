//! The book of a custody desk: a site and the entries of its history, in memory.
//!
//! A book judges a further entry by the rules of the history, and takes an accepted one in. The definitions are those of
//! `farm_history`; what stands here is how they are computed. `commit` can't fail: its room is made by `reserve` before.
#![tactic(auto)]

mod book;
mod calculated;
mod entering;
mod field_rule;
mod figure_rules;
mod gauging_rules;
mod judging;
mod looking;
mod movement_rules;
mod named_rules;
mod tables;

pub use book::Book;
pub use entering::EnterFault;
