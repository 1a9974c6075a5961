//! A drill, and the summary of its books.

ghost use Rattle.std.specs.Prelude.{◌≡◌, ◌≤◌, IfOk, Ok, OnOk};
ghost use Rattle.book_texts.specs.Summaries.{IsSummary, summary_text};
ghost use Rattle.farm_drill.specs.Drills.{drill_history, row_site};
ghost use Rattle.farm_drill.specs.Numbers.{most_drilled};
ghost use Rattle.farm_history.specs.declared.limits.TheConstants.{MOST_LIMIT};
ghost use Rattle.site_file.specs.Files.{site_of_files};
ghost use Rattle.sample_site.specs.Files.{row_files};

use crate::asking::ask_drill;
use crate::making::{new_desk, recovered};
use book_texts::summary;
use farm_base::NoMemory;
use farm_book::Book;
use std::alloc::Global;

/// The summary of the books after a drill of a seed and this many movements, under a limit of entries.
///
/// The commands are asked of a desk of the row site on a disk in memory, and the summary is of the desk that is then recovered from that
/// disk. Whatever fails on the way is `NoMemory`.
pub fn drilled<const LIMIT: usize>(
    alloc: Global,
    seed: u64,
    count: u32,
) -> Result<Vec<u8>, NoMemory>
    requires limit { LIMIT ≤ MOST_LIMIT }
    requires few { count ≤ most_drilled }
    ensures summary { IfOk result (λ text. text.items ≡ summary_text (drill_history LIMIT seed count)) }
    ensures looked_up { OnOk result (IsSummary (drill_history LIMIT seed count) (summary_text (drill_history LIMIT seed count))) }

    // The site of the history is the one that the row site's files describe.
    ensures site { OnOk result (site_of_files row_files ≡ Ok row_site) }
{
    let mut desk = new_desk::<LIMIT>(alloc)?;
    if let Err(fault) = ask_drill(&mut desk, seed, count) {
        drop(desk);
        return Err(fault);
    }
    let desk = recovered(alloc, desk)?;
    let text = summary_of(alloc, desk.book());
    drop(desk);
    text
}

// The summary of a book.
fn summary_of<const LIMIT: usize>(alloc: Global, book: &Book<LIMIT>) -> Result<Vec<u8>, NoMemory>
    ensures text { IfOk result (λ text. text.items ≡ summary_text book.now.history) }
    ensures summary { IsSummary book.now.history (summary_text book.now.history) }
{
    let mut text = Vec::new(alloc);
    summary(book, &mut text)?;
    Ok(text)
}
