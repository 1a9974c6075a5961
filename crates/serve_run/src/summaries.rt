//! The summary of a desk that was served, and the status that comes with it.

ghost use Rattle.std.specs.Prelude.{◌≡◌, ◌≤◌, IfOk, Ok, MatchResult};
ghost use Rattle.book_texts.specs.Summaries.{IsSummary, summary_text};
ghost use Rattle.run_reports.specs.Reports.{Puts, output_of};
ghost use Rattle.run_reports.specs.Texts.{no_memory_line};
ghost use Rattle.serve_run.specs.Summaries.{ReportsSummary};

use book_texts::summary;
use farm_base::NoMemory;
use farm_book::Book;
use farm_ports::{Sink, put_all};
use run_reports::{DONE, NO_MEMORY_LINE, OUT_OF_MEMORY, report_disk_fault, report_fault, say};
use std::alloc::Global;

/// The summary of a book.
pub(crate) fn summary_of<const LIMIT: usize>(
    alloc: Global,
    book: &Book<LIMIT>,
) -> Result<Vec<u8>, NoMemory>
    ensures text { IfOk result (λ text. text.items ≡ summary_text book.now.history) }
    ensures summary { IsSummary book.now.history (summary_text book.now.history) }
{
    let mut text = Vec::new(alloc);
    summary(book, &mut text)?;
    Ok(text)
}

/// Puts a summary, and then the line of the least status that holds: an entry is in doubt, or a call on a listener or on the output failed.
///
/// Without memory for the summary the status is 7, whatever else holds, also if that can't be put.
pub(crate) fn report_summary<K: Sink>(
    text: Result<Vec<u8>, NoMemory>,
    doubt: bool,
    listener_failed: bool,
    output: &mut K,
) -> u8
    ensures reports { MatchResult text (λ text. ReportsSummary text.items doubt listener_failed (output_of K.held K.faults output.old output.new) result)
        (λ _. (result ≡ 7) × Puts (output_of K.held K.faults output.old output.new) no_memory_line) }
    ensures never_falls { K.faults output.old ≤ K.faults output.new }
{
    let Ok(text) = text else {
        return say(NO_MEMORY_LINE, OUT_OF_MEMORY, output);
    };
    let put = put_all(output, &text);
    if doubt {
        report_disk_fault(output)
    } else if listener_failed || put.is_err() {
        report_fault(output)
    } else {
        DONE
    }
}
