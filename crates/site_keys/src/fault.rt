//! Why no site was read.

ghost use Rattle.std.specs.Prelude.{◌≡◌};
ghost use Rattle.site_keys.specs.Faults.{detail, fault_at, of_folder};
ghost use Rattle.site_keys.specs.declared.fault.SiteReadFault.TheVariants.{Bad, NoMemory};

use farm_ports::FolderFault;
use std::alloc::{AllocError, AllocFailed};
use thiserror::Error;

/// The first fault of a site's files.
#[derive(Clone, Copy, Debug, PartialEq, Eq)]
pub struct SiteFault {
    /// What is wrong: 1 text, 2 field, 3 range, 4 repeated, 5 unknown, 6 strap, 7 table, 8 factors, 9 too many, 10 too long.
    pub code: u8,
    /// The item of its list, counted from 1; 0 for the top. A gauge's fault has the item of its line.
    pub item: u32,
    /// The record, row or number that the code names, else 0.
    pub detail: u32,
}

/// Why no site was read.
#[derive(Clone, Copy, Debug, PartialEq, Eq, Error)]
pub enum SiteReadFault {
    /// Out of memory.
    #[error("no memory")]
    NoMemory,
    /// The folder failed, and counted the fault. An expected file that is missing is such a fault.
    #[error("the folder failed")]
    Folder,
    /// The files describe no site.
    #[error("the files describe no site")]
    Bad(SiteFault),
}

impl From<AllocError> for SiteReadFault {
    ghost from_gives = { λ _ fault. fault ≡ NoMemory };

    fn from(_: AllocError) -> Self {
        SiteReadFault::NoMemory
    }
}

impl<T: Drop> From<AllocFailed<T>> for SiteReadFault {
    ghost from_gives = { λ _ fault. fault ≡ NoMemory };

    fn from(_: AllocFailed<T>) -> Self {
        SiteReadFault::NoMemory
    }
}

impl From<FolderFault> for SiteReadFault {
    ghost from_gives = { λ fault reported. reported ≡ of_folder fault };

    fn from(fault: FolderFault) -> Self {
        match fault {
            FolderFault::Failed => SiteReadFault::Folder,
            FolderFault::NoMemory => SiteReadFault::NoMemory,
        }
    }
}

impl From<SiteFault> for SiteReadFault {
    ghost from_gives = { λ fault reported. reported ≡ Bad fault };

    fn from(fault: SiteFault) -> Self {
        SiteReadFault::Bad(fault)
    }
}

/// A fault of an item, without a detail.
pub fn bad(code: u8, item: u32) -> SiteFault
    ensures fault { result ≡ fault_at code item 0 }
{
    bad_at(code, item, 0)
}

/// A fault of an item, with the record, row or number that it names.
///
/// A detail has at most 32 bits. No file within the limit has more records.
pub fn bad_at(code: u8, item: u32, number: usize) -> SiteFault
    ensures fault { result ≡ fault_at code item (detail number) }
{
    SiteFault {
        code,
        item,
        detail: u32::try_from(number).unwrap_or(u32::MAX),
    }
}
