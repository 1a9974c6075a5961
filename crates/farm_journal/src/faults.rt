//! Why a journal isn't made, recovered or written.

ghost use Rattle.std.specs.Prelude.{◌≡◌};

use farm_base::NoMemory;
use farm_ports::Failed;
use thiserror::Error;

/// The disk failed, and counted the fault.
#[derive(Clone, Copy, Debug, PartialEq, Eq, Error)]
#[error("disk fault")]
pub struct DiskFault;

/// Why a journal wasn't made.
#[derive(Clone, Copy, Debug, PartialEq, Eq, Error)]
pub enum CreateFault {
    /// The disk has bytes.
    #[error("journal not empty")]
    NotEmpty,
    /// The disk failed, and counted the fault.
    #[error("disk fault")]
    DiskFault,
    /// There was no memory, and the disk is as it was.
    #[error("no memory")]
    NoMemory,
}

/// Why a journal wasn't recovered.
#[derive(Clone, Copy, Debug, PartialEq, Eq, Error)]
pub enum RecoverFault {
    /// The bytes don't begin as a journal's.
    #[error("not a journal")]
    NotJournal,
    /// At this place the journal is cut short, has a length over the limit, or has bytes that the taker refuses: 0 is the
    /// header, 1 the first body.
    #[error("journal damaged at {0}")]
    Damaged(u32),
    /// The disk failed, and counted the fault.
    #[error("disk fault")]
    DiskFault,
    /// There was no memory.
    #[error("no memory")]
    NoMemory,
}

impl From<Failed> for DiskFault {
    fn from(_: Failed) -> Self {
        DiskFault
    }
}

impl From<Failed> for CreateFault {
    ghost use Rattle.farm_journal.specs.declared.faults.CreateFault.TheVariants.{DiskFault};

    ghost from_gives = { λ _ fault. fault ≡ DiskFault };

    fn from(_: Failed) -> Self {
        CreateFault::DiskFault
    }
}

impl From<NoMemory> for CreateFault {
    ghost use Rattle.farm_journal.specs.declared.faults.CreateFault.TheVariants.{NoMemory};

    ghost from_gives = { λ _ fault. fault ≡ NoMemory };

    fn from(_: NoMemory) -> Self {
        CreateFault::NoMemory
    }
}

impl From<DiskFault> for CreateFault {
    ghost use Rattle.farm_journal.specs.declared.faults.CreateFault.TheVariants.{DiskFault};

    ghost from_gives = { λ _ fault. fault ≡ DiskFault };

    fn from(_: DiskFault) -> Self {
        CreateFault::DiskFault
    }
}

impl From<Failed> for RecoverFault {
    ghost use Rattle.farm_journal.specs.declared.faults.RecoverFault.TheVariants.{DiskFault};

    ghost from_gives = { λ _ fault. fault ≡ DiskFault };

    fn from(_: Failed) -> Self {
        RecoverFault::DiskFault
    }
}

impl From<NoMemory> for RecoverFault {
    ghost use Rattle.farm_journal.specs.declared.faults.RecoverFault.TheVariants.{NoMemory};

    ghost from_gives = { λ _ fault. fault ≡ NoMemory };

    fn from(_: NoMemory) -> Self {
        RecoverFault::NoMemory
    }
}
