//! Why a case can't be run.

use crate::trial::Trial;
use case_files::CaseFault;
use farm_base::NoMemory;
use farm_ports::Failed;
use std::alloc::{AllocError, AllocFailed};
use thiserror::Error;

/// Why a case can't be run. It says what to mend in the file of cases.
#[derive(Debug, Drop, Error)]
pub enum TrialFault {
    /// A file or a table of the case can't be read.
    #[error("{0}")]
    Unread(CaseFault),
    /// The run of this number before the case differs: 0 is the `init` of its journal, 1 the first of the others.
    #[error("the run {0} before it: {1}")]
    Before(u64, Trial),
    /// The moment of the crash is above the last one, which is this.
    #[error("the last moment of the disk is {0}")]
    NoMoment(u64),
    /// The fill of the image isn't `old`, `new` or a byte.
    #[error("there is no fill {0}")]
    NoFill(String),
    /// The disk has only this number of bytes, and a patch begins after them.
    #[error("the disk has {0} bytes, and a patch begins after them")]
    PatchBeyond(usize),
    /// The disk has only this number of bytes, fewer than it is to keep.
    #[error("the disk has {0} bytes, and not as many as it is to keep")]
    TooShort(usize),
    /// Of the calls that are to fail, one comes after those of the run, when its disk is read.
    #[error("a call of the disk that fails comes after those of its run")]
    FailsLater,
}

impl From<CaseFault> for TrialFault {
    fn from(fault: CaseFault) -> Self {
        TrialFault::Unread(fault)
    }
}

impl From<NoMemory> for TrialFault {
    fn from(_: NoMemory) -> Self {
        TrialFault::Unread(CaseFault::NoMemory)
    }
}

impl From<Failed> for TrialFault {
    fn from(_: Failed) -> Self {
        TrialFault::FailsLater
    }
}

impl From<AllocError> for TrialFault {
    fn from(_: AllocError) -> Self {
        TrialFault::Unread(CaseFault::NoMemory)
    }
}

impl<T: Drop> From<AllocFailed<T>> for TrialFault {
    fn from(_: AllocFailed<T>) -> Self {
        TrialFault::Unread(CaseFault::NoMemory)
    }
}
