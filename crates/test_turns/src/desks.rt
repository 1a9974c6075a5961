//! A desk of the row site on a disk in memory, and what it has at the end.

ghost use Rattle.std.specs.Prelude.{IfOk};
ghost use Rattle.desk_turns.specs.Closing.{IsUnused};

use boxed_disk::BoxedDisk;
use farm_base::NoMemory;
use farm_desk::Desk;
use farm_disk::{Disk, MemDisk};
use std::alloc::Global;
use std::test::Fail;
use test_checks::Checks;

/// A disk in memory, on the heap.
pub type RowDisk = BoxedDisk<MemDisk>;

/// A desk of twenty entries at most, and Stops beyond them.
pub type RowDesk = Desk<RowDisk, 20>;

/// Entries in their order, each by its caller, its key and its moment.
pub type Entries = &'static [(u32, u64, i64)];

// A disk without a byte, whose calls of these numbers fail.
fn empty_disk(alloc: Global, fails: &[u64]) -> Result<RowDisk, Fail> {
    let disk = MemDisk::new(alloc, Vec::new(alloc), fails.to_vec(alloc)?)?;
    match BoxedDisk::new(alloc, disk) {
        Ok(boxed) => Ok(boxed),
        Err(_disk) => Err(NoMemory)?,
    }
}

/// A desk without an entry, on a disk whose calls of these numbers fail.
pub(crate) fn new_desk(alloc: Global, fails: &[u64]) -> Result<RowDesk, Fail>
    ensures unused { IfOk result (λ desk. IsUnused desk) }
{
    let site = sample_site::sample_site(alloc)?;
    match Desk::create(alloc, empty_disk(alloc, fails)?, site) {
        Ok(desk) => Ok(desk),
        Err((_disk, fault)) => Err(fault)?,
    }
}

/// The desk of the journal on a disk.
pub(crate) fn recovered_desk(alloc: Global, disk: RowDisk) -> Result<RowDesk, Fail>
    ensures unused { IfOk result (λ desk. IsUnused desk) }
{
    match Desk::recover(alloc, disk) {
        Ok(desk) => Ok(desk),
        Err((_disk, fault)) => Err(fault)?,
    }
}

// A desk has these entries, and no others.
fn check_entries<R: Print>(checks: &mut Checks<'_, R>, desk: &RowDesk, wants: Entries) {
    let entries = desk.book().entries();
    checks.same_at("how many entries", entries.len(), wants.len());
    for (entry, want) in entries.iter().zip(wants) {
        checks.same_at("an entry", (entry.caller, entry.key, entry.at), *want);
    }
}

/// At its end a desk has these entries, of which none is in doubt, and this many of its answers were faults of the disk. Its disk is left.
pub(crate) fn disk_at_end<R: Print>(
    checks: &mut Checks<'_, R>,
    desk: RowDesk,
    wants: Entries,
    failed: u64,
) -> RowDisk {
    check_entries(checks, &desk, wants);
    checks.same_at("faults that were answered", desk.failed(), failed);
    let (disk, doubt) = desk.finish();
    checks.same_at("in doubt", doubt, false);
    checks.same_at("faults of the disk", disk.stand().faults, failed);
    disk
}
