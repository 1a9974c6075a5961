//! A disk that is moved to the heap, and what is reported without memory for it.

ghost use Rattle.std.specs.Prelude.{◌≡◌, ◌≤◌, IfErr, IfOk, OnOk, Some};
ghost use Rattle.run_reports.specs.Reports.{LacksMemory, output_of};

use crate::done::Done;
use crate::reports::report_no_memory;
use boxed_disk::BoxedDisk;
use farm_ports::Sink;
use std::alloc::Global;

/// Moves a disk to the heap. Without memory for it that is reported, and the disk handed back.
pub fn on_heap<K: Sink, D>(alloc: Global, disk: D, output: &mut K) -> Result<BoxedDisk<D>, Done<D>>
    ensures moved { IfOk result (λ boxed. boxed.disk.value ≡ disk) }
    ensures output_kept { OnOk result (output.new ≡ output.old) }
    ensures given_back { IfErr result (λ done. done.disk ≡ Some disk) }
    ensures lacks_memory { IfErr result (λ done. LacksMemory (output_of K.held K.faults output.old output.new) done.status) }
    ensures never_falls { K.faults output.old ≤ K.faults output.new }
{
    match BoxedDisk::new(alloc, disk) {
        Ok(disk) => Ok(disk),
        Err(disk) => Err(Done {
            status: report_no_memory(output),
            disk: Some(disk),
        }),
    }
}
