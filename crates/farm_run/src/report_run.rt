//! `report`: the balances and the tickets of a day, from a journal.

ghost use Rattle.std.specs.Prelude.{◌≡◌, ◌≤◌, IfOk, IfSome, IsSome, MatchResult, Some};
ghost use Rattle.book_texts.specs.DayReports.{IsDayReport, day_report_text};
ghost use Rattle.calendar_days.specs.Calendar.{IsFirstSecond};
ghost use Rattle.farm_base.specs.Counts.{count_of};
ghost use Rattle.farm_desk.specs.States.{IsJustMade};
ghost use Rattle.farm_history.specs.History.{last_place};
ghost use Rattle.farm_run.specs.ReportRuns.{PutsReport, ReportRun};
ghost use Rattle.run_reports.specs.Disks.{IsLater};
ghost use Rattle.run_reports.specs.Reports.{Delivers, LacksMemory, output_of};

use book_texts::day_report;
use boxed_disk::BoxedDisk;
use farm_base::NoMemory;
use farm_book::Book;
use farm_desk::Desk;
use farm_disk::Disk;
use farm_ports::Sink;
use run_reports::{BOOK_LIMIT, Done, deliver, on_heap, report_no_memory, report_recover};
use std::alloc::Global;

/// `report`: the journal is read whole, and the report of the day with this first second is made whole before the first byte is put.
pub(crate) fn report<K: Sink, D: Disk>(alloc: Global, output: &mut K, disk: D, day: i64) -> Done<D>
    requires day { IsFirstSecond day }
    ensures report_run { IfSome result.disk (λ left. ReportRun D.trace D.faults day disk left (output_of K.held K.faults output.old output.new) result.status) }
    ensures handed_back { IsSome result.disk }
    ensures disk_later { IfSome result.disk (λ left. IsLater (D.trace disk) (D.trace left) (D.moment disk) (D.moment left) (count_of D.faults disk left)) }
    ensures output_never_falls { K.faults output.old ≤ K.faults output.new }
{
    farm_recovery::recovery_laws();
    let disk = match on_heap(alloc, disk, output) {
        Ok(disk) => disk,
        Err(done) => return done,
    };
    match Desk::<BoxedDisk<D>, BOOK_LIMIT>::recover(alloc, disk) {
        Ok(desk) => report_desk(alloc, desk, day, output),
        Err((disk, fault)) => Done {
            status: report_recover(alloc, fault, output),
            disk: Some(disk.into_inner()),
        },
    }
}

// Puts the report of a day of a desk that was recovered, on which nothing is in doubt.
fn report_desk<K: Sink, D: Disk>(
    alloc: Global,
    desk: Desk<BoxedDisk<D>, BOOK_LIMIT>,
    day: i64,
    output: &mut K,
) -> Done<D>
    requires new { IsJustMade (λ boxed. D.moment boxed.disk.value) (λ boxed. D.faults boxed.disk.value) desk (last_place desk.history) }
    requires day { IsFirstSecond day }
    ensures report { PutsReport desk.history day (output_of K.held K.faults output.old output.new) result.status }
    ensures disk_kept { result.disk ≡ Some desk.disk.disk.value }
    ensures never_falls { K.faults output.old ≤ K.faults output.new }
{
    let text = report_of(alloc, desk.book(), day);
    let (disk, _) = desk.finish();
    Done {
        status: put_text(text, output),
        disk: Some(disk.into_inner()),
    }
}

// The report of a day of a book.
fn report_of<const LIMIT: usize>(
    alloc: Global,
    book: &Book<LIMIT>,
    day: i64,
) -> Result<Vec<u8>, NoMemory>
    requires day { IsFirstSecond day }
    ensures text { IfOk result (λ text. text.items ≡ day_report_text book.now.history day) }
    ensures meaning { IsDayReport book.now.history day (day_report_text book.now.history day) }
{
    let mut text = Vec::new(alloc);
    match day_report(book, day, &mut text) {
        Ok(()) => Ok(text),
        Err(lacking) => Err(lacking),
    }
}

/// Puts a text, if there was memory for it.
pub(crate) fn put_text<K: Sink>(text: Result<Vec<u8>, NoMemory>, output: &mut K) -> u8
    ensures puts { MatchResult text (λ text. Delivers (output_of K.held K.faults output.old output.new) text.items result)
        (λ _. LacksMemory (output_of K.held K.faults output.old output.new) result) }
    ensures never_falls { K.faults output.old ≤ K.faults output.new }
{
    match text {
        Ok(text) => deliver(output, &text),
        Err(_) => report_no_memory(output),
    }
}
