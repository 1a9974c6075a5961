//! A write that is synced at once.

ghost use Rattle.std.specs.Prelude.{◌≡◌, ◌≤◌, OnErr, OnOk};
ghost use Rattle.farm_base.specs.Counts.{CountsOnce};
ghost use Rattle.farm_journal.specs.Steps.{AddsOneWrite, WritesSynced};

use crate::DiskFault;
use farm_disk::Disk;

/// Writes bytes at an offset and syncs them.
pub(crate) fn write_synced<D: Disk>(disk: &mut D, at: u64, bytes: &[u8]) -> Result<(), DiskFault>
    ensures step { WritesSynced at bytes.now (D.trace disk.old) (D.trace disk.new) result }
    ensures one_write { OnOk result (AddsOneWrite at bytes.now (D.trace disk.old) (D.trace disk.new)) }
    ensures moment { D.moment disk.old ≤ D.moment disk.new }
    ensures counts { CountsOnce (D.faults disk.old) (D.faults disk.new) result }
{
    disk.write_at(at, bytes)?;
    disk.sync()?;
    Ok(())
}
