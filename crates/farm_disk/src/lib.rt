//! Disks that keep what is written across a crash, by what each moment's crash may leave.
//!
//! A disk holds bytes, each at its position from 0. A write changes what reads give at once and what a crash leaves at some
//! time before the next sync that succeeds. Of a disk in memory each moment's state is known to contracts; of one over a file of
//! the system nothing is.
#![tactic(auto)]

mod bytes_at_offset;
mod crash_fill;
mod disk;
mod disk_call;
mod file_at_first_call;
mod file_disk;
mod mem_disk;
mod opening;
mod rebuilding;
mod recorded_calls;

pub use crash_fill::Fill;
pub use disk::{Disk, Stand, disk_laws};
pub use disk_call::DiskCall;
pub use file_disk::FileDisk;
pub use mem_disk::MemDisk;
