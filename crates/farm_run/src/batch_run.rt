//! `batch`: the lines of an input, asked of the desk of a journal.

ghost use Rattle.std.specs.Prelude.{◌≤◌, IfSome, IsSome};
ghost use Rattle.farm_base.specs.Counts.{count_of};
ghost use Rattle.farm_desk.specs.States.{IsJustMade};
ghost use Rattle.farm_history.specs.History.{last_place};
ghost use Rattle.farm_run.specs.BatchRuns.{BatchRun, DeskBatch, EndReported};
ghost use Rattle.run_reports.specs.Disks.{IsLater};
ghost use Rattle.run_reports.specs.Reports.{output_of};

use crate::statuses::REFUSED;
use crate::texts::too_long_text;
use boxed_disk::BoxedDisk;
use farm_base::NoMemory;
use farm_batch::{BatchEnd, answer_lines};
use farm_desk::Desk;
use farm_disk::Disk;
use farm_ports::{Clock, Sink, Source};
use run_reports::{
    BOOK_LIMIT, DONE, Done, on_heap, refuse, report_disk_fault, report_fault, report_no_memory,
    report_recover,
};
use std::alloc::Global;

/// `batch`: the journal is read whole before the first line is taken.
pub(crate) fn batch<S: Source, K: Sink, D: Disk, C: Clock>(
    alloc: Global,
    input: &mut S,
    output: &mut K,
    disk: D,
    clock: &C,
) -> Done<D>
    ensures batch_run { IfSome result.disk (λ left. BatchRun D.trace D.moment D.faults (C.may_give clock.now) disk left
        (S.stream input.old) (S.stream input.new) (count_of S.faults input.old input.new)
        (output_of K.held K.faults output.old output.new) result.status) }
    ensures handed_back { IsSome result.disk }
    ensures disk_later { IfSome result.disk (λ left. IsLater (D.trace disk) (D.trace left) (D.moment disk) (D.moment left) (count_of D.faults disk left)) }
    ensures input_never_falls { S.faults input.old ≤ S.faults input.new }
    ensures output_never_falls { K.faults output.old ≤ K.faults output.new }
{
    farm_recovery::recovery_laws();
    let disk = match on_heap(alloc, disk, output) {
        Ok(disk) => disk,
        Err(done) => return done,
    };
    match Desk::<BoxedDisk<D>, BOOK_LIMIT>::recover(alloc, disk) {
        Ok(desk) => ask_lines(alloc, desk, input, output, clock),
        Err((disk, fault)) => Done {
            status: report_recover(alloc, fault, output),
            disk: Some(disk.into_inner()),
        },
    }
}

// Asks the lines of the input of a desk that was recovered, and opens the gate of an entry in doubt once more.
fn ask_lines<S: Source, K: Sink, D: Disk, C: Clock>(
    alloc: Global,
    desk: Desk<BoxedDisk<D>, BOOK_LIMIT>,
    input: &mut S,
    output: &mut K,
    clock: &C,
) -> Done<D>
    requires new { IsJustMade (λ boxed. D.moment boxed.disk.value) (λ boxed. D.faults boxed.disk.value) desk (last_place desk.history) }
    ensures desk_batch { IfSome result.disk (λ left. DeskBatch (C.may_give clock.now) desk.history (D.moment desk.disk.disk.value) (D.trace left)
        (count_of D.faults desk.disk.disk.value left) (S.stream input.old) (S.stream input.new) (count_of S.faults input.old input.new)
        (output_of K.held K.faults output.old output.new) result.status) }
    ensures handed_back { IsSome result.disk }
    ensures disk_later { IfSome result.disk (λ left. IsLater (D.trace desk.disk.disk.value) (D.trace left) (D.moment desk.disk.disk.value) (D.moment left)
        (count_of D.faults desk.disk.disk.value left)) }
    ensures input_never_falls { S.faults input.old ≤ S.faults input.new }
    ensures output_never_falls { K.faults output.old ≤ K.faults output.new }
{
    farm_batch::batch_laws(clock);
    let mut desk = desk;
    let end = answer_lines(alloc, &mut desk, input, output, clock);
    let (disk, doubt) = desk.finish();
    Done {
        status: report_end(alloc, end, doubt, output),
        disk: Some(disk.into_inner()),
    }
}

// Reports how a batch ended, with an entry in doubt or none. The least status that holds is answered, but in one case: without memory
// for the line of a line too many, the status is 7 (or 6) also with an entry in doubt.
fn report_end<K: Sink>(
    alloc: Global,
    end: Result<BatchEnd, NoMemory>,
    doubt: bool,
    output: &mut K,
) -> u8
    ensures reports { EndReported end doubt (output_of K.held K.faults output.old output.new) result }
    ensures never_falls { K.faults output.old ≤ K.faults output.new }
{
    match end {
        Ok(BatchEnd::Long(number)) => refuse(too_long_text(alloc, number), REFUSED, output),
        Ok(BatchEnd::Done) if doubt => report_disk_fault(output),
        Ok(BatchEnd::Failed) if doubt => report_disk_fault(output),
        Ok(BatchEnd::Done) => DONE,
        Ok(BatchEnd::Failed) => report_fault(output),
        Err(NoMemory) => report_no_memory(output),
    }
}
