//! Why bytes aren't read as a site.

ghost use Rattle.std.specs.Prelude.{◌≡◌};
ghost use Rattle.site_decoding.specs.declared.fault.SiteBytesFault.TheVariants.{NoMemory};

use std::alloc::{AllocError, AllocFailed};
use thiserror::Error;

/// Why bytes aren't read as a site.
#[derive(Clone, Copy, Debug, PartialEq, Eq, Error)]
pub enum SiteBytesFault {
    /// They aren't the bytes of a site.
    #[error("bad site")]
    BadSite,
    /// There was no memory for it.
    #[error("no memory")]
    NoMemory,
}

impl From<AllocError> for SiteBytesFault {
    ghost from_gives = { λ _ fault. fault ≡ NoMemory };

    fn from(_: AllocError) -> Self {
        SiteBytesFault::NoMemory
    }
}

impl<T: Drop> From<AllocFailed<T>> for SiteBytesFault {
    ghost from_gives = { λ _ fault. fault ≡ NoMemory };

    fn from(_: AllocFailed<T>) -> Self {
        SiteBytesFault::NoMemory
    }
}

impl From<farm_base::NoMemory> for SiteBytesFault {
    ghost from_gives = { λ _ fault. fault ≡ NoMemory };

    fn from(_: farm_base::NoMemory) -> Self {
        SiteBytesFault::NoMemory
    }
}
