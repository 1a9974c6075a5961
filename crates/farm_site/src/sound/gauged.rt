//! Whether gauge lines are sound, and which tanks their gauges are on.

ghost use Rattle.std.specs.Prelude.{◌≡◌, ◌&&◌, ◌++◌, length, map, IfOk};
ghost use Rattle.std.specs.List.{list_all};
ghost use Rattle.farm_fixed.specs.Range.{is_within, is_between};
ghost use Rattle.gauge_maps.specs.declared.limits.TheConstants.{MOST_GAUGES};
ghost use Rattle.gauge_maps.specs.Maps.{is_field, is_field_or_none, is_gauge_map, is_line_map, is_valid_or_none};
ghost use Rattle.farm_site.specs.Tanks.{tank_number};
ghost use Rattle.farm_site.specs.Numbers.{is_among};
ghost use Rattle.farm_site.specs.Lines.{are_distinct, are_gauged, tanks_gauged, all_gauged};

use super::is_within;
use crate::{Tank, is_among, is_host};
use farm_fixed::{LEAST_TEMPERATURE, MOST_TEMPERATURE};
use gauge_maps::{
    Field, GaugeMap, LineMap, MOST_BIT, MOST_DEADBAND, MOST_GAUGES, MOST_MULTIPLIER, MOST_WORDS,
    REGISTERS, Valid,
};
use modbus_frame::{LEAST_QUANTITY, MOST_QUANTITY, READ_HOLDING_REGISTERS, READ_INPUT_REGISTERS};
use std::alloc::{AllocError, Global};

/// Whether each line is sound.
pub(crate) fn are_sound_lines(lines: &[LineMap]) -> bool
    ensures { result ≡ list_all is_line_map lines.now }
{
    lines.iter().all(is_line_map)
}

// Whether a line is sound.
fn is_line_map(line: &LineMap) -> bool
    ensures { result ≡ is_line_map line.now }
{
    is_host(line.host.get()) && line.port >= 1 && are_gauge_maps(line.gauges.get())
}

// Whether a line may have these gauges.
fn are_gauge_maps(gauges: &[GaugeMap]) -> bool
    ensures { result ≡ (is_between 1 MOST_GAUGES (length gauges.now) && list_all is_gauge_map gauges.now) }
{
    !gauges.is_empty() && gauges.len() <= MOST_GAUGES && are_sound_gauges(gauges)
}

// Whether each gauge is sound.
fn are_sound_gauges(gauges: &[GaugeMap]) -> bool
    ensures { result ≡ list_all is_gauge_map gauges.now }
{
    gauges.iter().all(is_gauge_map)
}

// Whether a gauge is sound.
fn is_gauge_map(gauge: &GaugeMap) -> bool
    ensures { result ≡ is_gauge_map gauge.now }
{
    let quantity = gauge.quantity;
    is_between(
        READ_HOLDING_REGISTERS as u32,
        READ_INPUT_REGISTERS as u32,
        u32::from(gauge.function),
    ) && is_between(
        LEAST_QUANTITY as u32,
        MOST_QUANTITY as u32,
        u32::from(quantity),
    ) && u32::from(gauge.start) + u32::from(quantity) <= REGISTERS
        && is_field(quantity, gauge.level)
        && is_field(quantity, gauge.temperature)
        && is_field_or_none(quantity, gauge.water)
        && is_field_or_none(quantity, gauge.ambient)
        && is_within(LEAST_TEMPERATURE, MOST_TEMPERATURE, gauge.ambient_fixed)
        && is_valid_or_none(quantity, gauge.valid)
        && is_between(1, MOST_DEADBAND as u32, u32::from(gauge.deadband_mm))
        && is_between(1, MOST_DEADBAND as u32, u32::from(gauge.deadband_centi))
}

// Whether a field's words lie within the registers that are read.
fn is_field(quantity: u8, field: Field) -> bool
    ensures { result ≡ is_field quantity field }
{
    is_between(1, MOST_WORDS as u32, u32::from(field.words))
        && u32::from(field.offset) + u32::from(field.words) <= u32::from(quantity)
        && is_between(1, MOST_MULTIPLIER, field.mul)
        && is_between(1, MOST_MULTIPLIER, field.div)
}

// The same of a field that may be missing.
fn is_field_or_none(quantity: u8, field: Option<Field>) -> bool
    ensures { result ≡ is_field_or_none quantity field }
{
    match field {
        None => true,
        Some(field) => is_field(quantity, field),
    }
}

// Whether the register of a validity bit is one of those that are read.
fn is_valid_or_none(quantity: u8, valid: Option<Valid>) -> bool
    ensures { result ≡ is_valid_or_none quantity valid }
{
    match valid {
        None => true,
        Some(valid) => valid.offset < quantity && valid.bit <= MOST_BIT,
    }
}

// Whether a number lies in a range, both ends included.
fn is_between(least: u32, most: u32, number: u32) -> bool
    ensures { result ≡ is_between least most number }
{
    least <= number && number <= most
}

/// The tanks that lines have gauges on.
pub(crate) fn all_gauged(alloc: Global, lines: &[LineMap]) -> Result<Vec<u16>, AllocError>
    ensures { IfOk result (λ gauged. gauged.items ≡ all_gauged lines.now) }
{
    let mut gauged = Vec::new(alloc);
    for line in lines {
        put_tanks(&mut gauged, line.gauges.get())?;
    }
    Ok(gauged)
}

// Appends the tanks that gauges are on.
fn put_tanks(gauged: &mut Vec<u16>, gauges: &[GaugeMap]) -> Result<(), AllocError>
    ensures { IfOk result (λ _. gauged.new.items ≡ gauged.old.items ++ tanks_gauged gauges.now) }
{
    for gauge in gauges {
        gauged.push(gauge.tank)?;
    }
    Ok(())
}

/// Whether each of these is one of the site's tanks, and none stands twice.
pub(crate) fn are_gauged(tanks: &[Tank], gauged: &[u16]) -> bool
    ensures { result ≡ are_gauged (map tank_number tanks.now) gauged.now }
{
    are_known(tanks, gauged) && are_distinct(gauged)
}

// Whether each of these is one of the site's tanks.
fn are_known(tanks: &[Tank], gauged: &[u16]) -> bool
    ensures { result ≡ list_all (λ tank. is_among tank (map tank_number tanks.now)) gauged.now }
{
    gauged.iter().all(|tank| is_among(*tank, tanks))
}

// Whether no number stands twice.
fn are_distinct(numbers: &[u16]) -> bool
    ensures { result ≡ are_distinct numbers.now }
{
    for (index, number) in numbers.iter().enumerate() {
        if numbers[index + 1..].contains(number) {
            return false;
        }
    }
    true
}
