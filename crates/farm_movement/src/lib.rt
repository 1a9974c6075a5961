//! Movements: opened on a reading of each of their tanks, and closed with a ticket or cancelled.
//!
//! Volumes are whole litres and masses whole kilograms. A movement that would have gone the wrong way stays open, and nothing
//! else fails. docs/trade.md states the rules under "Movements and tickets". Nothing here takes memory.
#![tactic(auto)]

mod cancelled;
mod closed;
mod leg;
mod movement;

pub use cancelled::CancelledMove;
pub use closed::ClosedMove;
pub use leg::Leg;
pub use movement::OpenMove;
