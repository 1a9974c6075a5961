//! The ports of the custody desk to the outside: sources of bytes, sinks for them, folders of files, links to devices
//! and clocks, in memory and real.
//!
//! A port counts its faults in a number that never falls, a call answers `Failed` only where the count rose in that call, and
//! a call that answers anything else leaves the count as it was. What a port in memory took, has left or holds is known to
//! contracts, and so are a folder's files and the calls that a link took; of a real one nothing is known.
#![tactic(auto)]

mod clock;
mod copy_room;
mod dir_folder;
mod failing_calls;
mod fault;
mod files;
mod folder;
mod gather;
mod kept_calls;
mod links;
mod ports;
mod responses;
mod script;
mod std_streams;
mod system_clock;
mod tcp_link;
mod whole_texts;
mod wire;

pub use clock::{Clock, Fixed};
pub use copy_room::CopyRoom;
pub use dir_folder::DirFolder;
pub use failing_calls::FailingCalls;
pub use fault::PortFault;
pub use files::Files;
pub use folder::{Folder, FolderFault};
pub use gather::Gather;
pub use links::{Bytes, Link, LinkCall, link_laws};
pub use ports::{Failed, Port, Sink, Source};
pub use script::Script;
pub use std_streams::{StdSink, StdSource};
pub use system_clock::SystemClock;
pub use tcp_link::TcpLink;
pub use whole_texts::{put_all, read_up_to};
pub use wire::Wire;
