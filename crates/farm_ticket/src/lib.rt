//! Tickets: what moved on each side of a movement, and the line that a ticket is printed as.
//!
//! Volumes are whole litres and masses whole kilograms. docs/trade.md states the rules under "Movements and tickets",
//! docs/formats.md the line under "The ticket line".
#![tactic(auto)]

mod amounts;
mod line;
mod reversing;
mod side;
mod ticket;

pub use amounts::{WrongWay, moved};
pub use side::{Moved, Side, Way};
pub use ticket::Ticket;
