//! The text of the table of the row site.

ghost use Rattle.std.specs.Prelude.{◌≡◌, ◌≤◌, IfOk};
ghost use Rattle.farm_base.specs.Appended.{Appends};
ghost use Rattle.sample_site.specs.Files.{table_line, table_text};

use farm_base::NoMemory;
use std::alloc::Global;
use text_pieces::{Piece, append};

// How many rows the table has, from 0 to 15,000 mm.
const ROWS: u64 = 1_501;

/// What `table.csv` has: a header, and for each row its level in mm and its litres.
#[tactic(auto, unfolding(crate::specs::Files::table_lines))]
pub(crate) fn table_text(alloc: Global) -> Result<Vec<u8>, NoMemory>
    ensures text { IfOk result (λ text. text.items ≡ table_text) }
{
    let mut text = Vec::from_slice(alloc, b"mm,litres\n")?;
    for row in 0..ROWS {
        add_line(&mut text, row)?;
    }
    Ok(text)
}

// Adds the line of a row.
fn add_line(text: &mut Vec<u8>, row: u64) -> Result<(), NoMemory>
    requires { row ≤ ROWS }
    ensures line { Appends text.old.items text.new.items (table_line row) result }
{
    append(
        text,
        &[
            Piece::Number(10 * row),
            Piece::Text(b","),
            Piece::Number(10_000 * row),
            Piece::Text(b"\n"),
        ],
    )
}
