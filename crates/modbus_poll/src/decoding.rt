//! What the registers of a gauge say.

ghost use Rattle.std.specs.Prelude.{◌≡◌, ◌<◌, ◌≤◌, ◌^◌, ◌==◌, false, IfSome, IsTrue};
ghost use Rattle.std.specs.Int.RustNames.{unsigned_abs};
ghost use Rattle.modbus_poll.specs.Decoding.{IsScaled, is_valid, number_of, quantity_of, quantity_or, raw_of, raw_reading, register_at, signed_number, two_words};
ghost use Rattle.gauge_maps.specs.Maps.{is_gauge_map};

use crate::{Field, GaugeMap, Raw, Valid};
use farm_rounding::{Mode, nearest, product};

/// What a gauge's registers say, whether they are valid or not.
///
/// The gauge's map is one that a site may have. Registers past the last one count as 0.
#[tactic(auto, unfolding(crate::specs::Decoding::raw_reading))]
pub(crate) fn raw_reading(gauge: &GaugeMap, words: &[u16]) -> Raw
    requires map { IsTrue (is_gauge_map gauge.now) }
    ensures reading { result ≡ raw_reading gauge.now words.now }
{
    Raw {
        tank: gauge.tank,
        level: quantity_of(gauge.level, words),
        water: quantity_or(0, gauge.water, words),
        temperature: quantity_of(gauge.temperature, words),
        ambient: quantity_or(gauge.ambient_fixed, gauge.ambient, words),
    }
}

/// Whether the bit is 1 that says that a reading is valid; true where a gauge has none.
pub(crate) fn is_valid(valid: Option<Valid>, words: &[u16]) -> bool
    requires bit { IfSome valid (λ valid. valid.bit < 16) }
    ensures valid { result ≡ is_valid valid words.now }
{
    match valid {
        Some(valid) => (register_at(words, usize::from(valid.offset)) >> valid.bit) & 1 == 1,
        None => true,
    }
}

// What a field says that may be missing, or this number without one.
fn quantity_or(absent: i64, field: Option<Field>, words: &[u16]) -> i64
    requires scale { IfSome field IsScaled }
    ensures { result ≡ quantity_or absent field words.now }
{
    match field {
        Some(field) => quantity_of(field, words),
        None => absent,
    }
}

// What a field says, in its own unit.
#[tactic(auto, unfolding(crate::specs::Decoding::quantity_of))]
fn quantity_of(field: Field, words: &[u16]) -> i64
    requires scale { IsScaled field }
    ensures { result ≡ quantity_of field words.now }
{
    let scaled = product::<4_294_967_296, 1_000_000>(number_of(field, words), i64::from(field.mul));
    narrowed(nearest(scaled, i128::from(field.div), 1, Mode::HalfAway))
}

// A number that is known to be small, in fewer bits.
fn narrowed(number: i128) -> i64
    requires { unsigned_abs number ≤ 10 ^ 17 }
    ensures { result ≡ number }
{
    number as i64
}

// The number that a field's words are.
#[tactic(auto, unfolding(crate::specs::Decoding::number_of))]
fn number_of(field: Field, words: &[u16]) -> i64
    ensures value { result ≡ number_of field words.now }
    ensures size { unsigned_abs result ≤ 4_294_967_296 }
{
    let raw = raw_of(field, words);
    if field.signed {
        signed_number(field, raw)
    } else {
        i64::from(raw)
    }
}

// A field's words as one number.
fn raw_of(field: Field, words: &[u16]) -> u32
    ensures value { result ≡ raw_of field words.now }
    ensures one_word { field.words == 2 ≡ false → result < 2 ^ 16 }
{
    let offset = usize::from(field.offset);
    let first = register_at(words, offset);
    if field.words != 2 {
        return u32::from(first);
    }
    let second = register_at(words, offset + 1);
    if field.swapped {
        two_words(second, first)
    } else {
        two_words(first, second)
    }
}

// Two words as one number.
fn two_words(high: u16, low: u16) -> u32
    ensures { result ≡ two_words high low }
{
    65_536 * u32::from(high) + u32::from(low)
}

// A field's words, given as one number, as a two's complement number.
fn signed_number(field: Field, raw: u32) -> i64
    requires one_word { field.words == 2 ≡ false → raw < 2 ^ 16 }
    ensures value { result ≡ signed_number field raw }
    ensures size { unsigned_abs result ≤ 4_294_967_296 }
{
    if field.words == 2 {
        i64::from(raw.cast_signed())
    } else {
        i64::from((raw as u16).cast_signed())
    }
}

// The register at an offset, 0 past the last.
fn register_at(words: &[u16], offset: usize) -> u16
    ensures { result ≡ register_at words.now offset }
{
    words.get(offset).copied().unwrap_or(0)
}
