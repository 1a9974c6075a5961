//! Listeners: how connections come to a desk post, in memory and over the system.
//!
//! A listener counts its faults in a number that never falls, as a port does; the faults of its connections aren't its own. What a
//! listener in memory has seen is known to contracts, and so are the bytes of its connections; of a real one nothing is known.
#![tactic(auto)]

mod kept_events;
mod listeners;
mod talk;
mod tcp_post;
mod tcp_talk;
mod visit;
mod visits;

pub use listeners::{Accepted, Listener, listener_laws};
pub use talk::Talk;
pub use tcp_post::TcpPost;
pub use tcp_talk::TcpTalk;
pub use visit::Visit;
pub use visits::Visits;
