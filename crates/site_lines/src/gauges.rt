//! The gauges of a line: what is asked of the device, and which registers are a tank's level and temperatures.

ghost use Rattle.std.specs.Prelude.{◌≡◌, ◌+◌, ◌++◌, [], nat_le, length, map, MatchResult, IfOk, Ok, IsTrue, IsFalse, IfErr};
ghost use Rattle.std.specs.List.{list_all};
ghost use Rattle.toml.specs.View.{view};
ghost use Rattle.farm_fixed.specs.Range.{is_within, is_between};
ghost use Rattle.farm_fixed.specs.declared.limits.TheConstants.{LEAST_TEMPERATURE, MOST_TEMPERATURE};
ghost use Rattle.modbus_frame.specs.declared.expect.TheConstants.{LEAST_QUANTITY, MOST_QUANTITY};
ghost use Rattle.gauge_maps.specs.declared.limits.TheConstants.{MOST_DEADBAND, REGISTERS};
ghost use Rattle.gauge_maps.specs.Maps.{is_gauge_map};
ghost use Rattle.farm_base.specs.Steps.{IsRefusedAs};
ghost use Rattle.site_keys.specs.Faults.{IsNotTheFolders, reported};
ghost use Rattle.farm_site.specs.Numbers.{is_among};
ghost use Rattle.site_lines.specs.Gauges.{ambient_fixed_at, are_fields, deadbands_at, fields_of_gauge, gauge_of, gauged_tank_at, gauges_from, is_request, quantity_from, request_at};
ghost use Rattle.farm_site.specs.Lines.{are_gauged, tanks_gauged};

use crate::fields::{field_at, field_or_none, valid_or_none};
use farm_fixed::{LEAST_TEMPERATURE, MOST_TEMPERATURE};
use farm_site::Numbered;
use gauge_maps::{Field, GaugeMap, MOST_DEADBAND, MOST_UNIT, REGISTERS, Request};
use modbus_frame::{LEAST_QUANTITY, MOST_QUANTITY, READ_HOLDING_REGISTERS, READ_INPUT_REGISTERS};
use site_keys::{Keys, RANGE, REPEATED, SiteFault, SiteReadFault, bad, reference};
use std::alloc::Global;
use toml::Value;

// The ambient temperature where a gauge gives none and its table doesn't say it, in 0.01 C.
pub(crate) const USUAL_AMBIENT: i64 = 1_500;

// The deadband of the levels where a gauge's table doesn't say it, in mm.
pub(crate) const USUAL_DEADBAND_MM: u32 = 1;

// The deadband of the temperature where a gauge's table doesn't say it, in 0.01 C.
pub(crate) const USUAL_DEADBAND_CENTI: u32 = 5;

/// The gauges of a line's tables, after gauges on some tanks.
pub(crate) fn gauges_from<T: Numbered>(
    alloc: Global,
    item: u32,
    tanks: &[T],
    gauged: &mut Vec<u16>,
    tables: &[Value],
) -> Result<Vec<GaugeMap>, SiteReadFault>
    requires { IsTrue (are_gauged (map T.numbered tanks.now) gauged.old.items) }
    ensures gauges { MatchResult result (λ gauges. gauges_from item (map T.numbered tanks.now) gauged.old.items [] (map view tables.now) ≡ Ok gauges.items)
        (λ fault. IsRefusedAs (reported fault) (gauges_from item (map T.numbered tanks.now) gauged.old.items [] (map view tables.now))) }
    ensures gauged { IfOk result (λ gauges. gauged.new.items ≡ gauged.old.items ++ tanks_gauged gauges.items) }
    ensures count { IfOk result (λ gauges. length gauges.items ≡ length tables.now) }
    ensures sound { IfOk result (λ gauges. IsTrue (list_all is_gauge_map gauges.items)) }
    ensures tanks { IfOk result (λ _. IsTrue (are_gauged (map T.numbered tanks.now) gauged.new.items)) }
    ensures not_the_folders { IfErr result IsNotTheFolders }
{
    let mut gauges = Vec::new(alloc);
    for table in tables {
        let gauge = gauge_of(tanks, gauged, &Keys { item, table })?;
        gauged.push(gauge.tank)?;
        gauges.push(gauge)?;
    }
    Ok(gauges)
}

// The gauge of a table, after gauges on some tanks.
#[tactic(auto, unfolding(crate::specs::Gauges::gauge_of))]
fn gauge_of<T: Numbered>(
    tanks: &[T],
    gauged: &[u16],
    keys: &Keys<'_>,
) -> Result<GaugeMap, SiteFault>
    ensures gauge { result ≡ gauge_of (map T.numbered tanks.now) gauged.now keys.now }
    ensures sound { IfOk result (λ gauge. IsTrue (is_gauge_map gauge)) }
    ensures known { IfOk result (λ gauge. IsTrue (is_among gauge.tank (map T.numbered tanks.now))) }
    ensures new { IfOk result (λ gauge. IsFalse (is_among gauge.tank gauged.now)) }
{
    let tank = gauged_tank_at(tanks, gauged, keys)?;
    let request = request_at(keys)?;
    let fields = fields_of_gauge(request.quantity, keys)?;
    let ambient_fixed = ambient_fixed_at(keys)?;
    let valid = valid_or_none(request.quantity, keys)?;
    let (deadband_mm, deadband_centi) = deadbands_at(keys)?;
    Ok(GaugeMap {
        tank,
        unit: request.unit,
        function: request.function,
        start: request.start,
        quantity: request.quantity,
        level: fields.level,
        temperature: fields.temperature,
        water: fields.water,
        ambient: fields.ambient,
        ambient_fixed,
        valid,
        deadband_mm,
        deadband_centi,
    })
}

// The fields of a gauge.
#[derive(Clone, Copy)]
struct GaugeFields {
    level: Field,
    temperature: Field,
    water: Option<Field>,
    ambient: Option<Field>,
}

// The fields of a gauge, among this number of registers.
#[tactic(auto, unfolding(crate::specs::Gauges::fields_of_gauge))]
fn fields_of_gauge(quantity: u8, keys: &Keys<'_>) -> Result<GaugeFields, SiteFault>
    ensures fields { result ≡ fields_of_gauge quantity keys.now }
    ensures sound { IfOk result (λ fields. IsTrue (are_fields quantity fields)) }
{
    let level = field_at(quantity, keys, "level")?;
    let temperature = field_at(quantity, keys, "temperature")?;
    let water = field_or_none(quantity, keys, "water")?;
    let ambient = field_or_none(quantity, keys, "ambient")?;
    Ok(GaugeFields {
        level,
        temperature,
        water,
        ambient,
    })
}

// The tank of a gauge: one of the site that no earlier gauge is on.
#[tactic(auto, unfolding(crate::specs::Gauges::gauged_tank_at))]
fn gauged_tank_at<T: Numbered>(
    tanks: &[T],
    gauged: &[u16],
    keys: &Keys<'_>,
) -> Result<u16, SiteFault>
    ensures tank { result ≡ gauged_tank_at (map T.numbered tanks.now) gauged.now keys.now }
    ensures known { IfOk result (λ tank. IsTrue (is_among tank (map T.numbered tanks.now))) }
    ensures new { IfOk result (λ tank. IsFalse (is_among tank gauged.now)) }
{
    let tank = reference(keys, "tank", tanks)?;
    if gauged.contains(&tank) {
        return Err(bad(REPEATED, keys.item));
    }
    Ok(tank)
}

// What is asked of a device.
#[tactic(auto, unfolding(crate::specs::Gauges::request_at))]
fn request_at(keys: &Keys<'_>) -> Result<Request, SiteFault>
    ensures request { result ≡ request_at keys.now }
    ensures sound { IfOk result (λ request. IsTrue (is_request request)) }
{
    let unit = keys.natural("unit", 0, MOST_UNIT as u32)? as u8;
    let function = keys.natural(
        "function",
        READ_HOLDING_REGISTERS as u32,
        READ_INPUT_REGISTERS as u32,
    )? as u8;
    let start = keys.natural("start", 0, REGISTERS - 1)? as u16;
    let quantity = quantity_from(start, keys)?;
    Ok(Request {
        unit,
        function,
        start,
        quantity,
    })
}

// How many registers are read from the first.
#[tactic(auto, unfolding(crate::specs::Gauges::quantity_from))]
fn quantity_from(start: u16, keys: &Keys<'_>) -> Result<u8, SiteFault>
    ensures quantity { result ≡ quantity_from start keys.now }
    ensures count { IfOk result (λ quantity. IsTrue (is_between LEAST_QUANTITY MOST_QUANTITY quantity)) }
    ensures within { IfOk result (λ quantity. IsTrue (nat_le (start + quantity) REGISTERS)) }
{
    let quantity = keys.natural("quantity", LEAST_QUANTITY as u32, MOST_QUANTITY as u32)?;
    if u32::from(start) + quantity > REGISTERS {
        return Err(bad(RANGE, keys.item));
    }
    Ok(quantity as u8)
}

// The ambient temperature where the gauge gives none.
#[tactic(auto, unfolding(crate::specs::Gauges::ambient_fixed_at))]
fn ambient_fixed_at(keys: &Keys<'_>) -> Result<i64, SiteFault>
    ensures ambient { result ≡ ambient_fixed_at keys.now }
    ensures range { IfOk result (λ ambient. IsTrue (is_within LEAST_TEMPERATURE MOST_TEMPERATURE ambient)) }
{
    if !keys.has("ambient_fixed") {
        return Ok(USUAL_AMBIENT);
    }
    keys.whole("ambient_fixed", LEAST_TEMPERATURE, MOST_TEMPERATURE)
}

// The deadbands: of the levels, in mm, and of the temperature, in 0.01 C.
#[tactic(auto, unfolding(crate::specs::Gauges::deadbands_at))]
fn deadbands_at(keys: &Keys<'_>) -> Result<(u16, u16), SiteFault>
    ensures deadbands { result ≡ deadbands_at keys.now }
    ensures levels { IfOk result (λ deadbands. IsTrue (is_between 1 MOST_DEADBAND deadbands.0)) }
    ensures temperature { IfOk result (λ deadbands. IsTrue (is_between 1 MOST_DEADBAND deadbands.1)) }
{
    let levels = keys.natural_or(USUAL_DEADBAND_MM, "deadband_mm", 1, MOST_DEADBAND as u32)? as u16;
    let temperature = keys.natural_or(
        USUAL_DEADBAND_CENTI,
        "deadband_centi",
        1,
        MOST_DEADBAND as u32,
    )? as u16;
    Ok((levels, temperature))
}
