//! Desks of the row site on a disk in memory.

ghost use Rattle.std.specs.Prelude.{◌≡◌, IfOk};
ghost use Rattle.farm_desk.specs.States.{IsJustMade};
ghost use Rattle.farm_history.specs.History.{last_place};

use farm_desk::Desk;
use farm_disk::{Disk, MemDisk};
use std::alloc::Global;
use std::test::Fail;

/// A desk of twenty entries at most, and Stops beyond them.
pub type RowDesk = Desk<MemDisk, 20>;

/// A disk without a byte, whose calls of these numbers fail.
pub(crate) fn empty_disk(alloc: Global, fails: &[u64]) -> Result<MemDisk, Fail> {
    Ok(MemDisk::new(alloc, Vec::new(alloc), fails.to_vec(alloc)?)?)
}

/// A desk of the row site, without an entry, on an empty disk.
pub(crate) fn new_desk(alloc: Global, disk: MemDisk) -> Result<RowDesk, Fail>
    ensures new { IfOk result (λ desk. IsJustMade ⟦<MemDisk as Disk>⟧.moment ⟦<MemDisk as Disk>⟧.faults desk (last_place desk.history)) }
{
    let site = match sample_site::sample_site(alloc) {
        Ok(site) => site,
        Err(fault) => {
            drop(disk);
            return Err(fault.into());
        }
    };
    match Desk::create(alloc, disk, site) {
        Ok(desk) => Ok(desk),
        Err((disk, fault)) => {
            drop(disk);
            Err(fault.into())
        }
    }
}

/// The desk of the journal on a disk.
pub(crate) fn recovered_desk(alloc: Global, disk: MemDisk) -> Result<RowDesk, Fail>
    ensures new { IfOk result (λ desk. IsJustMade ⟦<MemDisk as Disk>⟧.moment ⟦<MemDisk as Disk>⟧.faults desk (last_place desk.history)) }
{
    match Desk::recover(alloc, disk) {
        Ok(desk) => Ok(desk),
        Err((disk, fault)) => {
            drop(disk);
            Err(fault.into())
        }
    }
}
