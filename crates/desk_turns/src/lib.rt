//! A desk that many callers share by turns: the jobs that are done on it, and the access of one caller.
//!
//! A caller waits for its turn, asks or looks, and gives the turn back. It sees the desk's history as of its last turn.
//! docs/machine.md says what the callers of one desk see, under "Callers of a desk".
#![tactic(auto)]

mod asking;
mod closing;
mod laws;
mod looking;
mod turn_access;

pub use asking::AskJob;
pub use closing::close_turn;
pub use laws::turn_laws;
pub use looking::LookJob;
pub use turn_access::TurnAccess;
