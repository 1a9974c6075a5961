//! What the program does.

ghost use Rattle.std.specs.Prelude.{◌≡◌, ◌≤◌, map, string_bytes, false, None, Some, IfSome, IsSome, ℤ};
ghost use Rattle.farm_base.specs.Counts.{count_of};
ghost use Rattle.farm_base.specs.Known.{Stays};
ghost use Rattle.command_line.specs.Commands.{command_of};
ghost use Rattle.command_line.specs.declared.drill.DrillOptions.{DrillOptions};
ghost use Rattle.command_line.specs.declared.serve.ServeOptions.{ServeOptions};
ghost use Rattle.run_reports.specs.Disks.{IsLater};
ghost use Rattle.run_reports.specs.Reports.{output_of};
ghost use Rattle.serve_run.specs.ServeRuns.{ServeRun};
ghost use Rattle.farm_run.specs.BatchRuns.{BatchRun};
ghost use Rattle.farm_run.specs.DrillRuns.{DrillRun};
ghost use Rattle.farm_run.specs.InitRuns.{InitRun};
ghost use Rattle.farm_run.specs.ReportRuns.{ReportRun};
ghost use Rattle.farm_run.specs.Runs.{CalcRun, StopsAtMissing, TableRun, UsageRun, given, uses_disk, uses_folder, uses_input, uses_posts};

use crate::alone::run_command;
use crate::words::command_in;
use command_line::Subcommand;
use farm_disk::Disk;
use farm_listeners::Listener;
use farm_ports::{Clock, Folder, Link, Sink, Source};
use run_reports::{Done, report_no_memory};
use serve_run::{RunLine, RunPost};
use std::alloc::Global;
use std::sync::Wait;
use std::thread::Threads;

/// Runs the command of the arguments, the words after the program's name, and answers the status that the program ends with, and the disk.
///
/// - `serve` recovers the desk of the journal on the disk. As many desk posts as the options have workers serve it on ports from theirs on, until
///   a Stop, the listener's end or its failure, and the gauge lines of its site are polled for the rounds of the options, side by side. Then the
///   summary is printed. Its statuses are 0 if a Stop or the end ended each desk post, nothing is in doubt and the summary was printed whole; 3
///   if the disk has no whole journal; 5 if the disk failed before the desk was recovered, or an entry is in doubt at the end; 6 if a
///   listener or the output failed and 7 without memory. It may wait, and need not return.
/// - Every other command, and arguments that are no command, are run as by `run_alone`.
///
/// The least status that holds is answered, but for the two cases in which there is no memory for a last text: `serve`'s summary, then 7, and
/// `batch`'s line of a line too many, then 7 or 6. A command makes no call on a port, a listener, a link or a disk that it doesn't use. A text
/// follows what was printed before it. The disk is always handed back.
pub fn run<
    R: Threads + Wait + Sync,
    S: Source,
    K: Sink,
    F: Folder,
    D: Disk + Send + Drop,
    L: Listener<Conn: Send> + Send + Drop,
    M: Link + Send + Drop,
    C: Clock + Sync,
>(
    rt: &R,
    alloc: Global,
    words: &[String],
    input: &mut S,
    output: &mut K,
    folder: &mut F,
    disk: D,
    desks: &mut [RunPost<L, D>],
    links: &mut [RunLine<M, D>],
    clock: &C,
) -> Done<D>
    ensures usage { command_of (map string_bytes words.now) ≡ None → UsageRun (output_of K.held K.faults output.old output.new) result.status }
    ensures calc { command_of (map string_bytes words.now) ≡ Some Subcommand.Calc →
        CalcRun (given (S.stream input.old) (S.stream input.new)) (count_of S.faults input.old input.new)
        (output_of K.held K.faults output.old output.new) result.status }
    ensures table { command_of (map string_bytes words.now) ≡ Some Subcommand.Table →
        TableRun (F.files folder.new) (count_of F.faults folder.old folder.new) (output_of K.held K.faults output.old output.new) result.status }
    ensures init { command_of (map string_bytes words.now) ≡ Some Subcommand.Init → IfSome result.disk (λ left.
        InitRun D.trace D.faults (F.files folder.new) (count_of F.faults folder.old folder.new) disk left
        (output_of K.held K.faults output.old output.new) result.status) }
    ensures batch { command_of (map string_bytes words.now) ≡ Some Subcommand.Batch → IfSome result.disk (λ left.
        BatchRun D.trace D.moment D.faults (C.may_give clock.now) disk left (S.stream input.old) (S.stream input.new)
        (count_of S.faults input.old input.new) (output_of K.held K.faults output.old output.new) result.status) }
    ensures report { (day : ℤ) → command_of (map string_bytes words.now) ≡ Some (Subcommand.Report day) → IfSome result.disk (λ left.
        ReportRun D.trace D.faults day disk left (output_of K.held K.faults output.old output.new) result.status) }
    ensures serve { (options : ServeOptions) → command_of (map string_bytes words.now) ≡ Some (Subcommand.Serve options) → IfSome result.disk (λ left.
        ServeRun D.trace D.moment D.faults L.events L.faults M.calls M.faults (C.may_give clock.now) options.port options.workers options.rounds
        desks.old desks.new links.old links.new disk left (output_of K.held K.faults output.old output.new) result.status) }
    ensures drill { (options : DrillOptions) → command_of (map string_bytes words.now) ≡ Some (Subcommand.Drill options) →
        DrillRun options.seed options.count (output_of K.held K.faults output.old output.new) result.status }

    // Over a folder that lists no failure and an output that didn't fail, `table` ends with 6 only if a file is missing.
    ensures table_missing { command_of (map string_bytes words.now) ≡ Some Subcommand.Table → F.lists_no_failure folder.old →
        StopsAtMissing (F.files folder.new) (output_of K.held K.faults output.old output.new) result.status }

    // A port that the command doesn't use gets no call, and no count ever falls.
    ensures input_kept { uses_input (command_of (map string_bytes words.now)) ≡ false → input.new ≡ input.old }
    ensures folder_kept { uses_folder (command_of (map string_bytes words.now)) ≡ false → folder.new ≡ folder.old }
    ensures desks_kept { uses_posts (command_of (map string_bytes words.now)) ≡ false → desks.new ≡ desks.old }
    ensures links_kept { uses_posts (command_of (map string_bytes words.now)) ≡ false → links.new ≡ links.old }
    ensures files { Stays (F.files folder.old) (F.files folder.new) }
    ensures input_never_falls { S.faults input.old ≤ S.faults input.new }
    ensures output_never_falls { K.faults output.old ≤ K.faults output.new }
    ensures folder_never_falls { F.faults folder.old ≤ F.faults folder.new }

    // The disk is handed back, by a command that doesn't use it as it was.
    ensures handed_back { IsSome result.disk }
    ensures disk_kept { uses_disk (command_of (map string_bytes words.now)) ≡ false → result.disk ≡ Some disk }
    ensures disk_later { IfSome result.disk (λ left. IsLater (D.trace disk) (D.trace left) (D.moment disk) (D.moment left) (count_of D.faults disk left)) }
{
    let command = match command_in(alloc, words) {
        Ok(command) => command,
        Err(_) => {
            return Done {
                status: report_no_memory(output),
                disk: Some(disk),
            };
        }
    };
    match command {
        Some(Subcommand::Serve(options)) => serve_run::serve(
            rt,
            alloc,
            output,
            disk,
            desks,
            links,
            clock,
            options.port,
            options.workers,
            options.rounds,
        ),
        _ => run_command(alloc, command, input, output, folder, disk, clock),
    }
}
