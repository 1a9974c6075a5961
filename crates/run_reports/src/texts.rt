//! The lines that end a run of any command whose output, disk or journal fails.

ghost use Rattle.std.specs.Prelude.{◌≡◌, IfOk};
ghost use Rattle.run_reports.specs.Texts.{journal_damaged_text};

use farm_base::NoMemory;
use std::alloc::Global;
use text_pieces::{Piece, append};

/// There was no memory.
pub const NO_MEMORY_LINE: &[u8] = b"no memory\n";
/// The input, the folder or the output failed.
pub const PORT_FAULT_LINE: &[u8] = b"port fault\n";
/// The disk failed.
pub const DISK_FAULT_LINE: &[u8] = b"disk fault\n";
/// The bytes of the disk don't begin as a journal's.
pub const NOT_A_JOURNAL_LINE: &[u8] = b"not a journal\n";

/// The line of a journal that is damaged at a place: 0 is its site, 1 the first entry.
#[tactic(auto, unfolding(crate::specs::Texts::journal_damaged_text))]
pub fn journal_damaged_text(alloc: Global, place: u32) -> Result<Vec<u8>, NoMemory>
    ensures line { IfOk result (λ text. text.items ≡ journal_damaged_text place) }
{
    let mut text = Vec::new(alloc);
    append(
        &mut text,
        &[
            Piece::Text(b"journal damaged at "),
            Piece::Number(u64::from(place)),
            Piece::Text(b"\n"),
        ],
    )?;
    Ok(text)
}
