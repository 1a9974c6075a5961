//! `drill`: movements in memory, and the summary of their books.

ghost use Rattle.std.specs.Prelude.{◌≤◌};
ghost use Rattle.farm_drill.specs.Numbers.{most_drilled};
ghost use Rattle.farm_run.specs.DrillRuns.{DrillRun};
ghost use Rattle.run_reports.specs.Reports.{output_of};

use crate::report_run::put_text;
use command_line::DrillOptions;
use farm_drill::drilled;
use farm_ports::Sink;
use run_reports::BOOK_LIMIT;
use std::alloc::Global;

/// `drill`: the summary is made whole before the first byte is put.
pub(crate) fn drill<K: Sink>(alloc: Global, output: &mut K, options: DrillOptions) -> u8
    requires few { options.count ≤ most_drilled }
    ensures drill_run { DrillRun options.seed options.count (output_of K.held K.faults output.old output.new) result }
    ensures never_falls { K.faults output.old ≤ K.faults output.new }
{
    let text = drilled::<BOOK_LIMIT>(alloc, options.seed, options.count);
    put_text(text, output)
}
