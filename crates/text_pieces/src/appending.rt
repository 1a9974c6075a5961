//! Pieces at the end of a buffer.

ghost use Rattle.farm_base.specs.Appended.{Appends};
ghost use Rattle.text_pieces.specs.Pieces.{Lengthens, piece_text, text_of_pieces};

use crate::Piece;
use crate::numbers::{write_number, write_quantity, write_signed};
use farm_base::NoMemory;

/// Appends the texts of pieces, one after another. On `NoMemory` the buffer is as before.
#[inline]
pub fn append(out: &mut Vec<u8>, pieces: &[Piece<'_>]) -> Result<(), NoMemory>
    ensures appended { Appends out.old.items out.new.items (text_of_pieces pieces.now) result }
{
    let before = out.len();
    let written = write_pieces(out, pieces);
    if written.is_err() {
        out.truncate(before);
    }
    written
}

// Appends the texts of pieces, or a prefix of them. What is inlined is small, so that the compiler unrolls the loop over
// pieces that it knows and makes of each the one call that it needs.
#[inline(always)]
fn write_pieces(out: &mut Vec<u8>, pieces: &[Piece<'_>]) -> Result<(), NoMemory>
    ensures pieces { Lengthens out.old.items out.new.items (text_of_pieces pieces.now) result }
{
    for piece in pieces {
        write_piece(out, piece)?;
    }
    Ok(())
}

// Appends the text of a piece, or a prefix of it.
#[inline(always)]
fn write_piece(out: &mut Vec<u8>, piece: &Piece<'_>) -> Result<(), NoMemory>
    ensures piece { Lengthens out.old.items out.new.items (piece_text piece.now) result }
{
    match piece {
        Piece::Text(bytes) => write_text(out, bytes),
        Piece::Number(n) => write_number(out, *n),
        Piece::Signed(n) => write_signed(out, *n),
        Piece::Quantity { places, units } => write_quantity(out, *places, *units),
    }
}

// Appends a text.
#[inline(always)]
fn write_text(out: &mut Vec<u8>, bytes: &[u8]) -> Result<(), NoMemory>
    ensures text { Lengthens out.old.items out.new.items bytes.now result }
{
    match bytes {
        // Most separators are one byte, which is faster pushed than copied.
        [byte] => out.push(*byte)?,
        _ => out.extend_from_slice(bytes)?,
    }
    Ok(())
}
