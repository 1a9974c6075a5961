//! `serve`: the desk of a journal, served by desk posts and gauge lines.

ghost use Rattle.std.specs.Prelude.{◌^◌, ◌+◌, ◌<◌, ◌≤◌, IfSome, IsSome};
ghost use Rattle.farm_base.specs.Counts.{count_of};
ghost use Rattle.farm_desk.specs.States.{IsDurable, IsJustMade};
ghost use Rattle.farm_history.specs.History.{last_place};
ghost use Rattle.farm_history.specs.Verdicts.{IsLegal};
ghost use Rattle.line_posts.specs.Limits.{most_rounds};
ghost use Rattle.run_reports.specs.Disks.{IsLater};
ghost use Rattle.run_reports.specs.Reports.{output_of};
ghost use Rattle.serve_run.specs.Endings.{EndsDesk};
ghost use Rattle.serve_run.specs.ServeRuns.{ServedOrNot, ServeRun};

use crate::summaries::{report_summary, summary_of};
use boxed_disk::BoxedDisk;
use farm_desk::Desk;
use farm_disk::Disk;
use farm_listeners::Listener;
use farm_ports::{Clock, Link, Sink};
use farm_serve::{DeskPost, LinePost, any_failed};
use run_reports::{BOOK_LIMIT, Done, on_heap, report_no_memory, report_recover};
use std::alloc::Global;
use std::sync::Wait;
use std::thread::Threads;

/// A desk post of a run.
pub type RunPost<L, D> = DeskPost<L, D, BOOK_LIMIT>;

/// A gauge line of a run.
pub type RunLine<M, D> = LinePost<M, D, BOOK_LIMIT>;

/// `serve`: the journal is read whole before the first call on a listener or a link. Then the first desk posts, as many as there are workers,
/// serve its desk on ports from this one on, and the gauge lines of its site are polled for these rounds, side by side.
///
/// With fewer listeners or links only the first ones have posts. When all posts have ended, the summary of the book is made, the gate of an
/// entry in doubt is opened once more, and the summary is put. Its statuses are 0 if a Stop or the listener's end ended each desk post, nothing
/// is in doubt and the summary was put whole; 3 if the disk has no whole journal; 5 if the disk failed before the desk was recovered, or an
/// entry is in doubt at the end; 6 if the output or a listener failed and 7 without memory. The least that holds is answered, but without
/// memory for the summary it is 7. Links and connections decide no status.
pub fn serve<
    R: Threads + Wait + Sync,
    K: Sink,
    D: Disk + Send + Drop,
    L: Listener<Conn: Send> + Send + Drop,
    M: Link + Send + Drop,
    C: Clock + Sync,
>(
    rt: &R,
    alloc: Global,
    output: &mut K,
    disk: D,
    desks: &mut [RunPost<L, D>],
    links: &mut [RunLine<M, D>],
    clock: &C,
    port: u16,
    workers: u8,
    rounds: u32,
) -> Done<D>
    requires ports { port + workers ≤ 65536 }
    requires rounds { rounds ≤ most_rounds }
    ensures serve_run { IfSome result.disk (λ left. ServeRun D.trace D.moment D.faults L.events L.faults M.calls M.faults (C.may_give clock.now) port workers rounds
        desks.old desks.new links.old links.new disk left (output_of K.held K.faults output.old output.new) result.status) }
    ensures handed_back { IsSome result.disk }
    ensures disk_later { IfSome result.disk (λ left. IsLater (D.trace disk) (D.trace left) (D.moment disk) (D.moment left) (count_of D.faults disk left)) }
    ensures output_never_falls { K.faults output.old ≤ K.faults output.new }
{
    farm_recovery::recovery_laws();
    let disk = match on_heap(alloc, disk, output) {
        Ok(disk) => disk,
        Err(done) => return done,
    };
    match Desk::<BoxedDisk<D>, BOOK_LIMIT>::recover(alloc, disk) {
        Ok(desk) => serve_desk(
            rt, alloc, output, desk, desks, links, clock, port, workers, rounds,
        ),
        Err((disk, fault)) => Done {
            status: report_recover(alloc, fault, output),
            disk: Some(disk.into_inner()),
        },
    }
}

// Serves a desk that was recovered, by the posts that the options ask for and the lines of its site, and puts its summary.
fn serve_desk<
    R: Threads + Wait + Sync,
    K: Sink,
    D: Disk + Send + Drop,
    L: Listener<Conn: Send> + Send + Drop,
    M: Link + Send + Drop,
    C: Clock + Sync,
>(
    rt: &R,
    alloc: Global,
    output: &mut K,
    desk: Desk<BoxedDisk<D>, BOOK_LIMIT>,
    desks: &mut [RunPost<L, D>],
    links: &mut [RunLine<M, D>],
    clock: &C,
    port: u16,
    workers: u8,
    rounds: u32,
) -> Done<D>
    requires just_made { IsJustMade (λ boxed. D.moment boxed.disk.value) (λ boxed. D.faults boxed.disk.value) desk (last_place desk.history) }
    requires ports { port + workers ≤ 65536 }
    requires rounds { rounds ≤ most_rounds }
    ensures served { IfSome result.disk (λ left. ServedOrNot L.events L.faults M.calls M.faults (C.may_give clock.now) port workers rounds desk.history
        (D.moment desk.disk.disk.value) (D.trace left) (count_of D.faults desk.disk.disk.value left) desks.old desks.new links.old links.new
        (output_of K.held K.faults output.old output.new) result.status) }
    ensures handed_back { IsSome result.disk }
    ensures disk_later { IfSome result.disk (λ left. IsLater (D.trace desk.disk.disk.value) (D.trace left) (D.moment desk.disk.disk.value) (D.moment left)
        (count_of D.faults desk.disk.disk.value left)) }
    ensures output_never_falls { K.faults output.old ≤ K.faults output.new }
{
    faults_fit(&desk);
    let posts = desks.len().min(workers as usize);
    let lines = links.len().min(desk.book().site().lines.get().len());
    let desks = &mut desks[..posts];
    let lines = &mut links[..lines];
    match farm_serve::serve(rt, alloc, desk, desks, lines, clock, port, rounds) {
        Ok(desk) => end(alloc, desk, any_failed(desks), output),
        Err(desk) => Done {
            status: report_no_memory(output),
            disk: Some(desk.finish().0.into_inner()),
        },
    }
}

// Does nothing: its contract is that the disk of a desk had counted no more faults than the last `u64` when the desk was made.
fn faults_fit<D: Disk>(desk: &Desk<BoxedDisk<D>, BOOK_LIMIT>)
    ensures fits { desk.now.opened.faults < 2 ^ 64 }
{
    let _ = desk.opened();
}

// Ends a run whose desk was served: its summary is made, the gate of an entry in doubt is opened once more, and the summary is put.
fn end<K: Sink, D: Disk>(
    alloc: Global,
    desk: Desk<BoxedDisk<D>, BOOK_LIMIT>,
    listener_failed: bool,
    output: &mut K,
) -> Done<D>
    ensures ended { IfSome result.disk (λ left. EndsDesk D.trace D.moment D.faults desk listener_failed left
        (output_of K.held K.faults output.old output.new) result.status) }
    ensures legal { IsLegal BOOK_LIMIT desk.history }
    ensures handed_back { IsSome result.disk }
    ensures output_never_falls { K.faults output.old ≤ K.faults output.new }
{
    let _ = desk.book().entries();
    let text = summary_of(alloc, desk.book());
    let (disk, doubt) = desk.finish();
    Done {
        status: report_summary(text, doubt, listener_failed, output),
        disk: Some(disk.into_inner()),
    }
}
