//! A disk on the heap, which is as large as a pointer whatever the disk is.
#![tactic(auto)]

mod boxed;

pub use boxed::BoxedDisk;
