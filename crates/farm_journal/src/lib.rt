//! The journal of the custody desk: a header and bodies on one disk, each body in it whole or not at all, whatever a crash does.
//!
//! docs/formats.md has its bytes. A record's gate is opened by a write of its own once the record is synced, so that a crash leaves
//! the list from before or the list with the body. The journal knows nothing of what a body says; who recovers it judges each.
#![tactic(auto)]

mod creating;
mod faults;
mod journal;
mod laws;
mod limits;
mod record_buffer;
mod recovering;
mod taker;
mod window;
mod writing;

pub use faults::{CreateFault, DiskFault, RecoverFault};
pub use journal::Journal;
pub use laws::journal_laws;
pub use limits::{BEFORE_HEADER, MAX_BODIES, MAX_BODY};
pub use taker::{Taken, Taker};
