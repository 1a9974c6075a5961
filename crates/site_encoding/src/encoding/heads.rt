//! The head of a site's bytes: their format, the site's name and how figures are rounded.

ghost use Rattle.std.specs.Prelude.{◌+◌, ◌<◌, ◌≤◌, ◌≡◌, ◌∷◌, ◌++◌, length};
ghost use Rattle.std.specs.List.{flat_map};
ghost use Rattle.farm_rounding.specs.Table.{row_at};
ghost use Rattle.farm_site.specs.Formats.{format_number};
ghost use Rattle.farm_site.specs.declared.limits.TheConstants.{MOST_NAME_BYTES};
ghost use Rattle.site_encoding.specs.Buffers.{HasRoom, IsPut};
ghost use Rattle.site_encoding.specs.Encoding.{mode_byte, row_bytes, text_bytes};

use crate::encoding::encoded::{put, put_text};
use farm_rounding::{Mode, ROUNDING_ROWS, RoundTable};
use farm_site::Format;

/// Puts the format, the name and the rounding table.
pub fn put_head(format: Format, out: &mut Vec<u8>, name: &[u8], rounding: &RoundTable)
    requires name { length name.now ≤ MOST_NAME_BYTES }
    requires rounding { length rounding.now ≡ ROUNDING_ROWS }
    requires room { HasRoom out.old (format_number format ∷ text_bytes name.now ++ flat_map row_bytes rounding.now) }
    ensures put { IsPut out.old out.new (format_number format ∷ text_bytes name.now ++ flat_map row_bytes rounding.now) }
{
    put(out, &[format.number()]);
    put_text(out, name);
    put_rounding(out, rounding);
}

/// How many bytes the format, the name and the rounding table have.
pub fn len_of_head(_format: Format, name: &[u8], rounding: &RoundTable) -> usize
    requires name { length name.now ≤ MOST_NAME_BYTES }
    requires rounding { length rounding.now ≡ ROUNDING_ROWS }
    ensures len { result ≡ length (format_number _format ∷ text_bytes name.now ++ flat_map row_bytes rounding.now) }
    ensures short { result ≤ 58 }
{
    2 + name.len() + 24
}

// Puts the twelve rows of the rounding table.
fn put_rounding(out: &mut Vec<u8>, rounding: &RoundTable)
    requires rounding { length rounding.now ≡ ROUNDING_ROWS }
    requires room { HasRoom out.old (flat_map row_bytes rounding.now) }
    ensures put { IsPut out.old out.new (flat_map row_bytes rounding.now) }
{
    for index in 0..ROUNDING_ROWS as u8 {
        put_row(out, rounding, index);
    }
}

// Puts a row of the rounding table, which has this many before it.
fn put_row(out: &mut Vec<u8>, rounding: &RoundTable, index: u8)
    requires index { index < ROUNDING_ROWS }
    requires room { HasRoom out.old (row_bytes (row_at rounding.now (index + 1))) }
    ensures put { IsPut out.old out.new (row_bytes (row_at rounding.now (index + 1))) }
{
    let (step, mode) = rounding.row(index + 1);
    put(out, &[step as u8, mode_byte(mode)]);
}

// The byte of a mode.
fn mode_byte(mode: Mode) -> u8
    ensures { result ≡ mode_byte mode }
{
    match mode {
        Mode::HalfAway => 0,
        Mode::TowardZero => 1,
        Mode::HalfEven => 2,
    }
}
