//! How a site rounds: the rounding table of a site file.

ghost use Rattle.std.specs.Prelude.{◌≡◌, ◌==◌, [], map, Ok, IfOk, IfSome, IsTrue};
ghost use Rattle.std.specs.List.{after_first, before_first, position};
ghost use Rattle.toml.specs.View.{view};
ghost use Rattle.farm_rounding.specs.Table.{IsTable, is_row};
ghost use Rattle.site_toml.specs.Rounding.{half_or_zero, half_zero_or_even, mode_of, row_in, row_of_value, rounding_at, step_of, twelve_rows};

use farm_rounding::{FACTOR_TIES, Mode, ROUNDING_ROWS, RoundTable};
use farm_site::Format;
use site_keys::{FIELD, Keys, RANGE, SiteFault, bad};
use toml::Value;

/// How the site rounds: the twelve rows of a list, or the usual ones where the list is missing.
#[tactic(auto, unfolding(crate::specs::Rounding::rounding_at))]
pub fn rounding_at(format: Format, top: &Keys<'_>) -> Result<RoundTable, SiteFault>
    ensures rounding { result ≡ rounding_at format top.now }
    ensures table { IfOk result IsTable }
{
    if !top.has("rounding") {
        return Ok(RoundTable::usual());
    }
    twelve_rows(format, top.array("rounding")?)
}

// The rounding table of twelve values.
fn twelve_rows(format: Format, values: &[Value]) -> Result<RoundTable, SiteFault>
    ensures rounding { result ≡ twelve_rows format (map view values.now) }
    ensures table { IfOk result IsTable }
{
    if values.len() != ROUNDING_ROWS {
        return Err(bad(FIELD, 0));
    }
    let mut rows = [(1, Mode::HalfAway); ROUNDING_ROWS];
    for (index, value) in values.iter().enumerate() {
        rows[index] = row_of_value(format, index as u8 + 1, value)?;
    }
    Ok(RoundTable::new(rows).unwrap())
}

// Row `number` of the rounding table.
#[tactic(auto, unfolding(crate::specs::Rounding::row_of_value))]
fn row_of_value(format: Format, number: u8, value: &Value) -> Result<(u8, Mode), SiteFault>
    ensures row { result ≡ row_of_value format number (view value.now) }
    ensures allowed { IfOk result (λ row. IsTrue (is_row number row)) }
{
    let Some(text) = value.as_str() else {
        return Err(bad(FIELD, 0));
    };
    match row_in(format, number, text.as_bytes()) {
        Some(row) => Ok(row),
        None => Err(bad(RANGE, 0)),
    }
}

// Row `number`, written `STEP MODE`.
#[tactic(auto, unfolding(crate::specs::Rounding::row_in))]
fn row_in(format: Format, number: u8, text: &[u8]) -> Option<(u8, Mode)>
    ensures row { result ≡ row_in format number text.now }
    ensures allowed { IfSome result (λ row. IsTrue (is_row number row)) }
{
    let (step, mode) = split_at_blank(text);
    let step = step_of(step)?;
    let mode = mode_of(format, mode)?;
    if number == FACTOR_TIES && step != 1 {
        return None;
    }
    Some((step, mode))
}

// What stands before the first blank, and what stands after it.
fn split_at_blank(text: &[u8]) -> (&[u8], &[u8])
    ensures before { result.0.now ≡ before_first (λ byte. byte == 32) text.now }
    ensures after { result.1.now ≡ after_first (λ byte. byte == 32) text.now }
{
    match blank_offset(text) {
        Some(offset) => (&text[..offset], &text[offset + 1..]),
        None => (text, &[]),
    }
}

// Where the first blank stands.
fn blank_offset(text: &[u8]) -> Option<usize>
    ensures offset { result ≡ position (λ byte. byte == 32) text.now }
{
    text.iter().position(|byte| *byte == b' ')
}

// A step, as it is written.
fn step_of(text: &[u8]) -> Option<u8>
    ensures step { result ≡ step_of text.now }
{
    match text {
        b"1" => Some(1),
        b"2" => Some(2),
        b"5" => Some(5),
        b"10" => Some(10),
        b"20" => Some(20),
        b"50" => Some(50),
        b"100" => Some(100),
        _ => None,
    }
}

// A mode, as the format has it written.
fn mode_of(format: Format, text: &[u8]) -> Option<Mode>
    ensures mode { result ≡ mode_of format text.now }
{
    match format {
        Format::One => half_or_zero(text),
        Format::Two => half_zero_or_even(text),
    }
}

// One of two modes, as it is written.
fn half_or_zero(text: &[u8]) -> Option<Mode>
    ensures mode { result ≡ half_or_zero text.now }
{
    match text {
        b"half" => Some(Mode::HalfAway),
        b"zero" => Some(Mode::TowardZero),
        _ => None,
    }
}

// One of three modes, as it is written.
fn half_zero_or_even(text: &[u8]) -> Option<Mode>
    ensures mode { result ≡ half_zero_or_even text.now }
{
    match text {
        b"even" => Some(Mode::HalfEven),
        _ => half_or_zero(text),
    }
}
