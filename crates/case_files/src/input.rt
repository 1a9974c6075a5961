//! The pieces in which what is sent to a case comes.

ghost use Rattle.std.specs.Prelude.{◌≡◌, ◌<◌, [], flat_map, IfOk, Some};

use farm_base::NoMemory;
use farm_ports::{Port, Script};
use std::alloc::{AllocError, Global};

/// A source of these bytes in pieces of a number of bytes, or in one piece, whose takes of these numbers fail.
pub fn source_of(
    alloc: Global,
    bytes: &[u8],
    piece_bytes: Option<u64>,
    fails: Vec<u64>,
) -> Result<Script, NoMemory>
    ensures left { IfOk result (λ source. ⟦<Script as Port>⟧.stream source ≡ Some (record { taken = []; left = bytes.now })) }
{
    let size = piece_bytes.map_or(bytes.len(), |size| size as usize);
    let pieces = pieces_of(alloc, bytes, size.max(1))?;
    Script::new(alloc, pieces, fails)
}

/// The bytes in pieces of a number of bytes; the last may be shorter.
pub(crate) fn pieces_of(
    alloc: Global,
    bytes: &[u8],
    size: usize,
) -> Result<Vec<Vec<u8>>, AllocError>
    requires size { 0 < size }
    ensures joined { IfOk result (λ pieces. flat_map (λ piece. piece.items) pieces.items ≡ bytes.now) }
{
    let mut pieces = Vec::new(alloc);
    let mut rest = bytes;
    while !rest.is_empty() {
        let (piece, after) = rest.split_at(size.min(rest.len()));
        pieces.push(piece.to_vec(alloc)?)?;
        rest = after;
    }
    Ok(pieces)
}
