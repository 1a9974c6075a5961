//! The head of a site at the front of bytes: its format, its name and its rounding table.

ghost use Rattle.std.specs.Prelude.{◌≡◌, Ok, Err, if◌then◌else◌, is_none};
ghost use Rattle.farm_rounding.specs.Table.{first_bad_row};
ghost use Rattle.site_decoding.specs.ByteReaders.{Gives, counted_at};
ghost use Rattle.site_decoding.specs.Decoding.{format_at, mode_at, mode_of, most_mode_byte, name_at, row_at, rounding_at};

use super::numbers::{byte_up_to, text_at};
use crate::SiteBytesFault;
use crate::SiteBytesFault::BadSite;
use byte_readers::u8_at;
use farm_rounding::{Mode, ROUNDING_ROWS, RoundTable};
use farm_site::{Format, MOST_FORMAT, Name, is_name};
use std::alloc::Global;

/// The format of a site.
#[tactic(auto, unfolding(crate::specs::Decoding::format_at))]
pub(crate) fn format_at(bytes: &[u8]) -> Result<(Format, &[u8]), SiteBytesFault>
    ensures reads { Gives (λ x. (x.0, x.1.now)) result (format_at bytes.now) }
{
    let (byte, rest) = u8_at(BadSite, bytes)?;
    let number = u32::from(byte);
    if number == 0 || number > MOST_FORMAT {
        return Err(BadSite);
    }
    Ok((Format::of(number), rest))
}

/// The name of a site.
#[tactic(auto, unfolding(crate::specs::Decoding::name_at))]
pub(crate) fn name_at(alloc: Global, bytes: &[u8]) -> Result<(Name, &[u8]), SiteBytesFault>
    ensures reads { Gives (λ x. (x.0, x.1.now)) result (name_at bytes.now) }
{
    let (name, rest) = text_at(alloc, bytes)?;
    if !is_name(name.get()) {
        return Err(BadSite);
    }
    Ok((name, rest))
}

/// The rounding table.
#[tactic(auto, unfolding(crate::specs::Decoding::rounding_at))]
pub(crate) fn rounding_at(
    format: Format,
    bytes: &[u8],
) -> Result<(RoundTable, &[u8]), SiteBytesFault>
    ensures reads { Gives (λ x. (x.0, x.1.now)) result (rounding_at format bytes.now) }
{
    let (rows, rest) = rows_at(format, bytes)?;
    Ok((table_of(rows)?, rest))
}

// Twelve rows of a rounding table.
fn rows_at(
    format: Format,
    bytes: &[u8],
) -> Result<([(u8, Mode); ROUNDING_ROWS], &[u8]), SiteBytesFault>
    ensures reads { Gives (λ x. (x.0, x.1.now)) result (counted_at (row_at format) ROUNDING_ROWS bytes.now) }
{
    let mut rows = [(1, Mode::HalfAway); ROUNDING_ROWS];
    let mut rest = bytes;
    for index in 0..ROUNDING_ROWS {
        let (row, after) = row_at(format, rest)?;
        rows[index] = row;
        rest = after;
    }
    Ok((rows, rest))
}

// A row of a rounding table.
#[tactic(auto, unfolding(crate::specs::Decoding::row_at))]
fn row_at(format: Format, bytes: &[u8]) -> Result<((u8, Mode), &[u8]), SiteBytesFault>
    ensures reads { Gives (λ x. (x.0, x.1.now)) result (row_at format bytes.now) }
{
    let (step, rest) = u8_at(BadSite, bytes)?;
    let (mode, rest) = mode_at(format, rest)?;
    Ok(((step, mode), rest))
}

// A mode of a format.
#[tactic(auto, unfolding(crate::specs::Decoding::mode_at))]
fn mode_at(format: Format, bytes: &[u8]) -> Result<(Mode, &[u8]), SiteBytesFault>
    ensures reads { Gives (λ x. (x.0, x.1.now)) result (mode_at format bytes.now) }
{
    let (byte, rest) = byte_up_to(most_mode_byte(format), bytes)?;
    Ok((mode_of(byte), rest))
}

// The last of the modes that a format has.
fn most_mode_byte(format: Format) -> u8
    ensures byte { result ≡ most_mode_byte format }
{
    match format {
        Format::One => 1,
        Format::Two => 2,
    }
}

// How a quotient is rounded, by the byte of a mode.
fn mode_of(byte: u8) -> Mode
    ensures mode { result ≡ mode_of byte }
{
    match byte {
        0 => Mode::HalfAway,
        1 => Mode::TowardZero,
        _ => Mode::HalfEven,
    }
}

// The rounding table of these rows, if they are one.
fn table_of(rows: [(u8, Mode); ROUNDING_ROWS]) -> Result<RoundTable, SiteBytesFault>
    ensures table { result ≡ (if is_none (first_bad_row 1 rows) then Ok rows else Err SiteBytesFault.BadSite) }
{
    match RoundTable::new(rows) {
        Ok(table) => Ok(table),
        Err(_) => Err(BadSite),
    }
}
