//! The run of each command but `serve`, over the ports and the disk that it is handed.

ghost use Rattle.std.specs.Prelude.{◌≡◌, ◌≤◌, ◌⊎◌, map, string_bytes, false, None, Some, Ok, Err, IfOk, IfSome, IsSome, ℤ};
ghost use Rattle.farm_base.specs.Counts.{count_of};
ghost use Rattle.farm_base.specs.Known.{Stays};
ghost use Rattle.farm_report.specs.Figures.{figures_text};
ghost use Rattle.farm_report.specs.Issued.{issued_text};
ghost use Rattle.command_line.specs.Commands.{asks_to_serve, command_of, is_serve};
ghost use Rattle.command_line.specs.declared.drill.DrillOptions.{DrillOptions};
ghost use Rattle.calc_input.specs.declared.refusal.Refused.{Refused};
ghost use Rattle.farm_run.specs.OutputTexts.{calc_of, calc_text};
ghost use Rattle.farm_run.specs.BatchRuns.{BatchRun};
ghost use Rattle.run_reports.specs.Disks.{IsLater};
ghost use Rattle.farm_run.specs.DrillRuns.{DrillRun};
ghost use Rattle.farm_run.specs.InitRuns.{InitRun};
ghost use Rattle.farm_run.specs.ReportRuns.{ReportRun};
ghost use Rattle.farm_run.specs.Texts.{refusal_text};
ghost use Rattle.run_reports.specs.Reports.{Delivers, LacksMemory, output_of};
ghost use Rattle.farm_run.specs.Runs.{AreValues, CalcRun, OutputHas, StopsAtMissing, TableRun, UsageRun, given, uses_disk, uses_folder, uses_input};

use crate::batch_run::batch;
use crate::drill_run::drill;
use crate::init_run::init;
use crate::report_run::report;
use crate::statuses::{NO_COMMAND, REFUSED, SITE_REFUSED};
use crate::texts::{USAGE_LINE, refusal_text, site_refused_text};
use crate::words::command_in;
use calc_input::{MOST_INPUT_BYTES, NoFigures, figures_of_input};
use command_line::Subcommand;
use farm_base::NoMemory;
use farm_disk::Disk;
use farm_fixed::Quantities;
use farm_ports::{Clock, Folder, PortFault, Sink, Source, read_up_to};
use farm_report::{figures_text, issued};
use farm_site::Site;
use run_reports::{Done, deliver, refuse, report_fault, report_no_memory, say};
use site_file::ReadSite;
use site_keys::SiteReadFault;
use std::alloc::Global;

/// Runs the command of the arguments, which isn't `serve`, and answers the status that the program ends with, and the disk.
///
/// - `calc` reads observed volumes, or levels with a capacity table and factors, and prints ten lines of figures. Its statuses
///   are 0 if they were printed whole, 4 if the input was refused, 6 if a port failed and 7 without memory.
/// - `table` reads the site of the folder and prints the capacity table of each tank. Its statuses are 0 if they were printed
///   whole, 2 if the folder describes no site, 6 if the folder or the output failed and 7 without memory.
/// - `init` reads the site of the folder and makes its journal on an empty disk. Its statuses are 0 if it was made, 2 if the folder
///   describes no site, 3 if the disk isn't empty, 5 if it failed, 6 if the folder or the output failed and 7 without memory.
/// - `batch` recovers the desk of the journal on the disk and asks it the lines of the input, one after another, each answered by a line
///   of its own. Its statuses are 0 if every line was answered, or a Stop was entered, and nothing is in doubt; 3 if the disk has no
///   whole journal; 4 at a line too many; 5 if the disk failed before the desk was recovered, or an entry is in doubt at the end; 6 if
///   a port failed and 7 without memory.
/// - `report` recovers the desk of the journal on the disk and prints the report of a day. It writes nothing. Its statuses are 0 if the report
///   was printed whole, 3 if the disk has no whole journal, 5 if the disk failed, 6 if the output failed and 7 without memory.
/// - `drill` makes movements in memory that follow from a seed, and prints the summary of their books. Its statuses are 0 if it was printed
///   whole, 6 if the output failed and 7 without memory.
/// - Arguments that are no command print the usage line, and end with 1.
///
/// It returns, whatever the words are, and takes no runtime: `run` calls it for every command but `serve`. The least status that holds is
/// answered, but in one case: without memory for the line of a line too many, `batch` ends with 7 (or 6) also with an entry in
/// doubt. A command makes no call on a port or a disk that it doesn't use. A text follows what was printed before it. The disk is always
/// handed back.
pub fn run_alone<S: Source, K: Sink, F: Folder, D: Disk, C: Clock>(
    alloc: Global,
    words: &[String],
    input: &mut S,
    output: &mut K,
    folder: &mut F,
    disk: D,
    clock: &C,
) -> Done<D>
    requires alone { asks_to_serve (map string_bytes words.now) ≡ false }
    ensures usage { command_of (map string_bytes words.now) ≡ None → UsageRun (output_of K.held K.faults output.old output.new) result.status }
    ensures calc { command_of (map string_bytes words.now) ≡ Some Subcommand.Calc →
        CalcRun (given (S.stream input.old) (S.stream input.new)) (count_of S.faults input.old input.new)
        (output_of K.held K.faults output.old output.new) result.status }
    ensures table { command_of (map string_bytes words.now) ≡ Some Subcommand.Table →
        TableRun (F.files folder.new) (count_of F.faults folder.old folder.new) (output_of K.held K.faults output.old output.new) result.status }
    ensures init { command_of (map string_bytes words.now) ≡ Some Subcommand.Init → IfSome result.disk (λ left.
        InitRun D.trace D.faults (F.files folder.new) (count_of F.faults folder.old folder.new) disk left
        (output_of K.held K.faults output.old output.new) result.status) }
    ensures batch { command_of (map string_bytes words.now) ≡ Some Subcommand.Batch → IfSome result.disk (λ left.
        BatchRun D.trace D.moment D.faults (C.may_give clock.now) disk left (S.stream input.old) (S.stream input.new)
        (count_of S.faults input.old input.new) (output_of K.held K.faults output.old output.new) result.status) }
    ensures report { (day : ℤ) → command_of (map string_bytes words.now) ≡ Some (Subcommand.Report day) → IfSome result.disk (λ left.
        ReportRun D.trace D.faults day disk left (output_of K.held K.faults output.old output.new) result.status) }
    ensures drill { (options : DrillOptions) → command_of (map string_bytes words.now) ≡ Some (Subcommand.Drill options) →
        DrillRun options.seed options.count (output_of K.held K.faults output.old output.new) result.status }

    // Over a folder that lists no failure and an output that didn't fail, `table` ends with 6 only if a file is missing.
    ensures table_missing { command_of (map string_bytes words.now) ≡ Some Subcommand.Table → F.lists_no_failure folder.old →
        StopsAtMissing (F.files folder.new) (output_of K.held K.faults output.old output.new) result.status }

    // A port that the command doesn't use gets no call, and no count ever falls.
    ensures input_kept { uses_input (command_of (map string_bytes words.now)) ≡ false → input.new ≡ input.old }
    ensures folder_kept { uses_folder (command_of (map string_bytes words.now)) ≡ false → folder.new ≡ folder.old }
    ensures files { Stays (F.files folder.old) (F.files folder.new) }
    ensures input_never_falls { S.faults input.old ≤ S.faults input.new }
    ensures output_never_falls { K.faults output.old ≤ K.faults output.new }
    ensures folder_never_falls { F.faults folder.old ≤ F.faults folder.new }

    // The disk is handed back, by a command that doesn't use it as it was.
    ensures handed_back { IsSome result.disk }
    ensures disk_kept { uses_disk (command_of (map string_bytes words.now)) ≡ false → result.disk ≡ Some disk }
    ensures disk_later { IfSome result.disk (λ left. IsLater (D.trace disk) (D.trace left) (D.moment disk) (D.moment left) (count_of D.faults disk left)) }
{
    match command_in(alloc, words) {
        Ok(command) => run_command(alloc, command, input, output, folder, disk, clock),
        Err(_) => Done {
            status: report_no_memory(output),
            disk: Some(disk),
        },
    }
}

/// Runs a command that isn't `serve`, or answers arguments that are no command, as `run_alone` says.
pub(crate) fn run_command<S: Source, K: Sink, F: Folder, D: Disk, C: Clock>(
    alloc: Global,
    command: Option<Subcommand>,
    input: &mut S,
    output: &mut K,
    folder: &mut F,
    disk: D,
    clock: &C,
) -> Done<D>
    requires alone { IfSome command (λ command. is_serve command ≡ false) }
    requires values { AreValues command }
    ensures usage { command ≡ None → UsageRun (output_of K.held K.faults output.old output.new) result.status }
    ensures calc { command ≡ Some Subcommand.Calc →
        CalcRun (given (S.stream input.old) (S.stream input.new)) (count_of S.faults input.old input.new)
        (output_of K.held K.faults output.old output.new) result.status }
    ensures table { command ≡ Some Subcommand.Table →
        TableRun (F.files folder.new) (count_of F.faults folder.old folder.new) (output_of K.held K.faults output.old output.new) result.status }
    ensures init { command ≡ Some Subcommand.Init → IfSome result.disk (λ left.
        InitRun D.trace D.faults (F.files folder.new) (count_of F.faults folder.old folder.new) disk left
        (output_of K.held K.faults output.old output.new) result.status) }
    ensures batch { command ≡ Some Subcommand.Batch → IfSome result.disk (λ left.
        BatchRun D.trace D.moment D.faults (C.may_give clock.now) disk left (S.stream input.old) (S.stream input.new)
        (count_of S.faults input.old input.new) (output_of K.held K.faults output.old output.new) result.status) }
    ensures report { (day : ℤ) → command ≡ Some (Subcommand.Report day) → IfSome result.disk (λ left.
        ReportRun D.trace D.faults day disk left (output_of K.held K.faults output.old output.new) result.status) }
    ensures drill { (options : DrillOptions) → command ≡ Some (Subcommand.Drill options) →
        DrillRun options.seed options.count (output_of K.held K.faults output.old output.new) result.status }

    // Over a folder that lists no failure and an output that didn't fail, `table` ends with 6 only if a file is missing.
    ensures table_missing { command ≡ Some Subcommand.Table → F.lists_no_failure folder.old →
        StopsAtMissing (F.files folder.new) (output_of K.held K.faults output.old output.new) result.status }

    // A port that the command doesn't use gets no call, and no count ever falls.
    ensures input_kept { uses_input command ≡ false → input.new ≡ input.old }
    ensures folder_kept { uses_folder command ≡ false → folder.new ≡ folder.old }
    ensures files { Stays (F.files folder.old) (F.files folder.new) }
    ensures input_never_falls { S.faults input.old ≤ S.faults input.new }
    ensures output_never_falls { K.faults output.old ≤ K.faults output.new }
    ensures folder_never_falls { F.faults folder.old ≤ F.faults folder.new }

    // The disk is handed back, by a command that doesn't use it as it was.
    ensures handed_back { IsSome result.disk }
    ensures disk_kept { uses_disk command ≡ false → result.disk ≡ Some disk }
    ensures disk_later { IfSome result.disk (λ left. IsLater (D.trace disk) (D.trace left) (D.moment disk) (D.moment left) (count_of D.faults disk left)) }
{
    let status = match command {
        Some(Subcommand::Init) => return init(alloc, output, folder, disk),
        Some(Subcommand::Batch) => return batch(alloc, input, output, disk, clock),
        Some(Subcommand::Report(day)) => return report(alloc, output, disk, day),
        Some(Subcommand::Calc) => calc(alloc, input, output),
        Some(Subcommand::Table) => table(alloc, folder, output),
        Some(Subcommand::Drill(options)) => drill(alloc, output, options),
        Some(Subcommand::Serve(_)) => unreachable!(),
        None => print_usage(output),
    };
    Done {
        status,
        disk: Some(disk),
    }
}

// Arguments that are no command. A failing output changes nothing: they are no command all the same.
fn print_usage<K: Sink>(output: &mut K) -> u8
    ensures usage_run { UsageRun (output_of K.held K.faults output.old output.new) result }
    ensures never_falls { K.faults output.old ≤ K.faults output.new }
{
    say(USAGE_LINE, NO_COMMAND, output)
}

// `calc`: one byte more than an input may have is asked for, so that a longer one shows.
fn calc<S: Source, K: Sink>(alloc: Global, input: &mut S, output: &mut K) -> u8
    ensures calc_run { CalcRun (given (S.stream input.old) (S.stream input.new)) (count_of S.faults input.old input.new)
        (output_of K.held K.faults output.old output.new) result }
    ensures input_never_falls { S.faults input.old ≤ S.faults input.new }
    ensures output_never_falls { K.faults output.old ≤ K.faults output.new }
{
    match read_up_to(alloc, input, MOST_INPUT_BYTES + 1) {
        Ok(bytes) => answer_input(alloc, &bytes, output),
        Err(PortFault::Failed) => report_fault(output),
        Err(PortFault::NoMemory) => report_no_memory(output),
    }
}

// What `calc` does with the bytes that it read. The text is made whole before the first byte is put.
fn answer_input<K: Sink>(alloc: Global, bytes: &[u8], output: &mut K) -> u8
    ensures answers { OutputHas 4 refusal_text (calc_of bytes.now) (output_of K.held K.faults output.old output.new) result }
    ensures never_falls { K.faults output.old ≤ K.faults output.new }
{
    match calc_text(alloc, bytes) {
        Ok(text) => deliver(output, &text),
        Err(NoFigures::Refused(why)) => refuse(refusal_text(alloc, why), REFUSED, output),
        Err(NoFigures::NoMemory) => report_no_memory(output),
    }
}

// The ten lines of an input, or its refusal.
#[tactic(auto, unfolding(crate::specs::OutputTexts::calc_text))]
fn calc_text(alloc: Global, bytes: &[u8]) -> Result<Vec<u8>, NoFigures>
    ensures text { IfOk result (λ text. calc_text bytes.now ≡ Ok text.items) }
    ensures refused { (why : Refused) → result ≡ Err (NoFigures.Refused why) → calc_text bytes.now ≡ Err why }
{
    match figures_of_input(alloc, bytes) {
        Ok(figures) => Ok(ten_lines(alloc, &figures)?),
        Err(NoFigures::Refused(why)) => Err(NoFigures::Refused(why)),
        Err(NoFigures::NoMemory) => Err(NoFigures::NoMemory),
    }
}

// The ten lines of figures.
fn ten_lines(alloc: Global, figures: &Quantities) -> Result<Vec<u8>, NoMemory>
    ensures lines { IfOk result (λ text. text.items ≡ figures_text figures.now) }
{
    let mut text = Vec::new(alloc);
    figures_text(figures, &mut text)?;
    Ok(text)
}

// `table`: the site is read whole before the first byte is put.
fn table<K: Sink, F: Folder>(alloc: Global, folder: &mut F, output: &mut K) -> u8
    ensures table_run { TableRun (F.files folder.new) (count_of F.faults folder.old folder.new) (output_of K.held K.faults output.old output.new) result }
    ensures missing_only { F.lists_no_failure folder.old →
        StopsAtMissing (F.files folder.new) (output_of K.held K.faults output.old output.new) result }
    ensures files { Stays (F.files folder.old) (F.files folder.new) }
    ensures folder_never_falls { F.faults folder.old ≤ F.faults folder.new }
    ensures output_never_falls { K.faults output.old ≤ K.faults output.new }
{
    match Site::read(alloc, folder) {
        Ok(site) => issue(alloc, &site, output),
        Err(SiteReadFault::Bad(fault)) => {
            refuse(site_refused_text(alloc, fault), SITE_REFUSED, output)
        }
        Err(SiteReadFault::Folder) => report_fault(output),
        Err(SiteReadFault::NoMemory) => report_no_memory(output),
    }
}

// Prints the capacity tables of a site. The text is made whole before the first byte is put.
fn issue<K: Sink>(alloc: Global, site: &Site, output: &mut K) -> u8
    ensures issues { Delivers (output_of K.held K.faults output.old output.new) (issued_text site.now.tanks) result
        ⊎ LacksMemory (output_of K.held K.faults output.old output.new) result }
    ensures never_falls { K.faults output.old ≤ K.faults output.new }
{
    let mut text = Vec::new(alloc);
    match issued(site, &mut text) {
        Ok(()) => deliver(output, &text),
        Err(_) => report_no_memory(output),
    }
}
