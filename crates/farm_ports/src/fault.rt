//! What stops a call that needs both the outside and memory.

ghost use Rattle.std.specs.Prelude.{◌≡◌};

use crate::Failed;
use std::alloc::AllocError;
use thiserror::Error;

/// Why a call that moves bytes from the outside into memory stopped.
#[derive(Clone, Copy, Debug, PartialEq, Eq, Error)]
pub enum PortFault {
    /// The object of the outside failed, and counted the fault.
    #[error("a port failed")]
    Failed,
    /// There was no memory for the bytes.
    #[error("no memory")]
    NoMemory,
}

impl From<Failed> for PortFault {
    ghost use Rattle.farm_ports.specs.declared.fault.PortFault.TheVariants.{Failed};

    ghost from_gives = { λ _ fault. fault ≡ Failed };

    fn from(_: Failed) -> Self {
        PortFault::Failed
    }
}

impl From<AllocError> for PortFault {
    ghost use Rattle.farm_ports.specs.declared.fault.PortFault.TheVariants.{NoMemory};

    ghost from_gives = { λ _ fault. fault ≡ NoMemory };

    fn from(_: AllocError) -> Self {
        PortFault::NoMemory
    }
}
