//! What every run of a case uses.

use case_files::Sites;
use std::alloc::Global;

/// What every run of a case uses.
#[derive(Drop)]
pub struct Stage<'a, R> {
    /// The runtime, by which a run that serves waits.
    pub rt: &'a R,
    /// The allocator.
    pub alloc: Global,
    /// The sites that a run can name.
    pub sites: &'a Sites,
}
