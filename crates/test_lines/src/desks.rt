//! An access to a desk of the row site on a disk in memory.

ghost use Rattle.std.specs.Prelude.{◌≡◌, IfOk};
ghost use Rattle.farm_desk.specs.States.{IsJustMade};
ghost use Rattle.farm_history.specs.History.{last_place};

use desk_access::SoleAccess;
use farm_desk::Desk;
use farm_disk::{Disk, MemDisk};
use std::alloc::Global;
use std::test::Fail;

/// A desk of twenty entries at most, and Stops beyond them.
pub type RowDesk = Desk<MemDisk, 20>;

/// The access of the only caller of such a desk.
pub type Access = SoleAccess<MemDisk, 20>;

// A desk of the row site, without an entry.
fn new_desk(alloc: Global) -> Result<RowDesk, Fail>
    ensures new { IfOk result (λ desk. IsJustMade ⟦<MemDisk as Disk>⟧.moment ⟦<MemDisk as Disk>⟧.faults desk 0) }
    ensures empty { IfOk result (λ desk. last_place desk.history ≡ 0) }
{
    let disk = MemDisk::new(alloc, Vec::new(alloc), Vec::new(alloc))?;
    let site = sample_site::sample_site(alloc)?;
    match Desk::create(alloc, disk, site) {
        Ok(desk) => Ok(desk),
        Err((_disk, fault)) => Err(fault)?,
    }
}

/// The access of a caller to a desk of the row site that was opened without an entry.
pub(crate) fn new_access(alloc: Global, caller: u32) -> Result<Access, Fail>
    ensures opened { IfOk result (λ access. access.desk.opened.entries ≡ 0) }
{
    Ok(SoleAccess::new(new_desk(alloc)?, caller))
}
