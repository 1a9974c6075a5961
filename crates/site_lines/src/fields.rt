//! The fields of a gauge: which registers of its answer make a number, and which bit says that they are valid.

ghost use Rattle.std.specs.Prelude.{◌≡◌, IfOk, Some, IsTrue};
ghost use Rattle.gauge_maps.specs.Maps.{is_field, is_field_or_none, is_valid_or_none};
ghost use Rattle.site_lines.specs.Fields.{field_at, field_of, field_or_none, is_low_first_at, is_signed_at, valid_of, valid_or_none, is_low_first};

use gauge_maps::{Field, MOST_BIT, MOST_MULTIPLIER, MOST_WORDS, Valid};
use modbus_frame::MOST_QUANTITY;
use site_keys::{FIELD, Keys, RANGE, SiteFault, bad};

/// A field at a key.
#[tactic(auto, unfolding(crate::specs::Fields::field_at))]
pub(crate) fn field_at(quantity: u8, keys: &Keys<'_>, key: &str) -> Result<Field, SiteFault>
    ensures field { result ≡ field_at quantity keys.now key.now }
    ensures sound { IfOk result (λ field. IsTrue (is_field quantity field)) }
{
    field_of(quantity, &keys.inner(key)?)
}

/// A field that may be missing.
#[tactic(auto, unfolding(crate::specs::Fields::field_or_none))]
pub(crate) fn field_or_none(
    quantity: u8,
    keys: &Keys<'_>,
    key: &str,
) -> Result<Option<Field>, SiteFault>
    ensures field { result ≡ field_or_none quantity keys.now key.now }
    ensures sound { IfOk result (λ field. IsTrue (is_field_or_none quantity field)) }
{
    if !keys.has(key) {
        return Ok(None);
    }
    Ok(Some(field_at(quantity, keys, key)?))
}

// A field among this number of registers.
#[tactic(auto, unfolding(crate::specs::Fields::field_of))]
fn field_of(quantity: u8, keys: &Keys<'_>) -> Result<Field, SiteFault>
    ensures field { result ≡ field_of quantity keys.now }
    ensures sound { IfOk result (λ field. IsTrue (is_field quantity field)) }
{
    let offset = keys.natural("offset", 0, MOST_QUANTITY as u32 - 1)? as u8;
    let words = keys.natural_or(1, "words", 1, MOST_WORDS as u32)? as u8;
    if offset + words > quantity {
        return Err(bad(RANGE, keys.item));
    }
    Ok(Field {
        offset,
        words,
        swapped: is_low_first_at(keys)?,
        signed: is_signed_at(keys)?,
        mul: keys.natural_or(1, "mul", 1, MOST_MULTIPLIER)?,
        div: keys.natural_or(1, "div", 1, MOST_MULTIPLIER)?,
    })
}

// The order of words: whether the low one of two stands first.
#[tactic(auto, unfolding(crate::specs::Fields::is_low_first_at))]
fn is_low_first_at(keys: &Keys<'_>) -> Result<bool, SiteFault>
    ensures swapped { result ≡ is_low_first_at keys.now }
{
    if !keys.has("order") {
        return Ok(false);
    }
    is_low_first(keys.item, keys.text("order")?.as_bytes())
}

// The same, as it is written.
fn is_low_first(item: u32, text: &[u8]) -> Result<bool, SiteFault>
    ensures swapped { result ≡ is_low_first item text.now }
{
    match text {
        b"high" => Ok(false),
        b"low" => Ok(true),
        _ => Err(bad(RANGE, item)),
    }
}

// Whether a number is signed.
#[tactic(auto, unfolding(crate::specs::Fields::is_signed_at))]
fn is_signed_at(keys: &Keys<'_>) -> Result<bool, SiteFault>
    ensures signed { result ≡ is_signed_at keys.now }
{
    match keys.table.get("signed") {
        Some(value) => match value.as_bool() {
            Some(signed) => Ok(signed),
            None => Err(bad(FIELD, keys.item)),
        },
        None => Ok(false),
    }
}

/// The validity bit, if there is one.
#[tactic(auto, unfolding(crate::specs::Fields::valid_or_none))]
pub(crate) fn valid_or_none(quantity: u8, keys: &Keys<'_>) -> Result<Option<Valid>, SiteFault>
    ensures valid { result ≡ valid_or_none quantity keys.now }
    ensures sound { IfOk result (λ valid. IsTrue (is_valid_or_none quantity valid)) }
{
    if !keys.has("valid") {
        return Ok(None);
    }
    Ok(Some(valid_of(quantity, &keys.inner("valid")?)?))
}

// A bit among this number of registers.
#[tactic(auto, unfolding(crate::specs::Fields::valid_of))]
fn valid_of(quantity: u8, keys: &Keys<'_>) -> Result<Valid, SiteFault>
    ensures valid { result ≡ valid_of quantity keys.now }
    ensures sound { IfOk result (λ valid. IsTrue (is_valid_or_none quantity (Some valid))) }
{
    let offset = keys.natural("offset", 0, MOST_QUANTITY as u32 - 1)? as u8;
    if offset >= quantity {
        return Err(bad(RANGE, keys.item));
    }
    let bit = keys.natural("bit", 0, MOST_BIT as u32)? as u8;
    Ok(Valid { offset, bit })
}
