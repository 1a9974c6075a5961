//! Gaugings: from tapes to a reading.

ghost use Rattle.std.specs.Prelude.{◌≡◌, IsTrue, None, take, pos};
ghost use Rattle.std.specs.List.{list_all};
ghost use Rattle.farm_fixed.specs.Range.{is_within};
ghost use Rattle.farm_fixed.specs.declared.limits.TheConstants.{LEAST_DENSITY, MOST_DENSITY, MOST_SHARE};
ghost use Rattle.farm_readings.specs.Readings.{AreTemperatures, tape_reading};
ghost use Rattle.farm_history.specs.Commands.{IsShortList, IsWellFormedCommand, numbers_of};
ghost use Rattle.farm_history.specs.Fields.{first_bad_field};
ghost use Rattle.farm_history.specs.Gauging.{dip_level, dip_reading, dip_water, gauge_reading, gauged, tapes_numbered};

use farm_fixed::{Centi, Dens, Mm, Permil5, Quantity, Reading, Sample, Unit};
use farm_history::{
    BELOW_DATUM, Command, Few, MOST_IN_LIST, TAPE_COUNT, TAPE_SPREAD, WATER_TAPE_COUNT,
    WATER_TAPE_SPREAD,
};
use farm_readings::{TapeFault, innage, mean_temp, tape};
use farm_rounding::RoundTable;

/// What a gauging in a tank of this reference height gives: a reading, or the number of what is wrong with its tapes. `None` for a
/// command that is no gauging.
pub fn gauged(rounding: &RoundTable, height: Mm, command: &Command) -> Option<Result<Reading, u8>>
    requires well_formed { IsWellFormedCommand command.now }
    requires in_range { first_bad_field command.now ≡ None }
    ensures gauged { result ≡ gauged rounding.now height command.now }
{
    match command {
        Command::Gauge {
            level,
            water,
            temperature,
            ambient,
            ..
        } => Some(Ok(gauge_reading(
            rounding,
            quantity_of(*level),
            quantity_of(*water),
            quantity_of(*temperature),
            quantity_of(*ambient),
        ))),
        Command::Dip {
            outage,
            tapes,
            water,
            temperatures,
            ambient,
            ..
        } => Some(dip_reading(
            rounding,
            height,
            *outage,
            &quantities_of(tapes)[..usize::from(tapes.count)],
            &quantities_of(water)[..usize::from(water.count)],
            &quantities_of(temperatures)[..usize::from(temperatures.count)],
            quantity_of(*ambient),
        )),
        _ => None,
    }
}

// The reading of an automatic gauge.
#[tactic(auto, unfolding(farm_history::specs::Gauging::gauge_reading))]
fn gauge_reading(
    rounding: &RoundTable,
    level: Mm,
    water: Mm,
    temperature: Centi,
    ambient: Centi,
) -> Reading
    ensures gauge_reading { result ≡ gauge_reading rounding.now level water temperature ambient }
{
    Reading {
        level,
        water,
        liquid: mean_temp(&[temperature], rounding),
        ambient,
    }
}

// The reading of a dip, or the number of the first thing that is wrong with its tapes.
#[tactic(auto, unfolding(farm_history::specs::Gauging::dip_reading))]
fn dip_reading(
    rounding: &RoundTable,
    height: Mm,
    outage: bool,
    tapes: &[Mm],
    water: &[Mm],
    temperatures: &[Centi],
    ambient: Centi,
) -> Result<Reading, u8>
    requires temperatures { AreTemperatures temperatures.now }
    ensures dip_reading { result ≡ dip_reading rounding.now height outage tapes.now water.now temperatures.now ambient }
{
    let tape = tape_numbered::<TAPE_COUNT, TAPE_SPREAD>(rounding, tapes)?;
    let level = dip_level(height, outage, tape)?;
    let water = dip_water(rounding, water)?;
    Ok(Reading {
        level,
        water,
        liquid: mean_temp(temperatures, rounding),
        ambient,
    })
}

// The reading of tapes, or the number of what is wrong with them.
fn tape_numbered<const COUNT: u8, const SPREAD: u8>(
    rounding: &RoundTable,
    tapes: &[Mm],
) -> Result<Mm, u8>
    ensures tape { result ≡ tapes_numbered COUNT SPREAD (tape_reading rounding.now tapes.now) }
{
    match tape(tapes, rounding) {
        Ok(reading) => Ok(reading),
        Err(TapeFault::Count) => Err(COUNT),
        Err(TapeFault::Spread) => Err(SPREAD),
    }
}

// The level of a dip.
fn dip_level(height: Mm, outage: bool, tape: Mm) -> Result<Mm, u8>
    ensures dip_level { result ≡ dip_level height outage tape }
{
    if !outage {
        return Ok(tape);
    }
    match innage(height, tape) {
        Ok(level) => Ok(level),
        Err(_) => Err(BELOW_DATUM),
    }
}

// The free water of a dip.
fn dip_water(rounding: &RoundTable, tapes: &[Mm]) -> Result<Mm, u8>
    ensures dip_water { result ≡ dip_water rounding.now tapes.now }
{
    if tapes.is_empty() {
        return Ok(quantity_of(0));
    }
    tape_numbered::<WATER_TAPE_COUNT, WATER_TAPE_SPREAD>(rounding, tapes)
}

// The quantities of a list of a command, and zeros after them.
fn quantities_of<U: Unit + Copy>(few: &Few) -> [Quantity<U>; MOST_IN_LIST as usize]
    requires short { IsShortList few.now }
    requires zero { IsTrue (is_within U.LEAST U.MOST (pos 0)) }
    requires in_range { IsTrue (list_all (λ number. is_within U.LEAST U.MOST number) (numbers_of few.now)) }
    ensures quantities { take few.now.count result ≡ numbers_of few.now }
{
    let mut quantities = [quantity_of(0); MOST_IN_LIST as usize];
    for index in 0..usize::from(few.count) {
        quantities[index] = quantity_of(few.values[index]);
    }
    quantities
}

// A quantity of a number that is known to be in range.
fn quantity_of<U: Unit>(number: i64) -> Quantity<U>
    requires { IsTrue (is_within U.LEAST U.MOST number) }
    ensures quantity { result ≡ number }
{
    Quantity::in_range(i128::from(number))
}

// The sample of numbers that are known to be in range.
pub(crate) fn sample_fields(density: i64, sw: i64) -> Sample
    requires density { IsTrue (is_within LEAST_DENSITY MOST_DENSITY density) }
    requires sw { IsTrue (is_within (pos 0) MOST_SHARE sw) }
    ensures density { result.density ≡ density }
    ensures sw { result.sw ≡ sw }
{
    Sample {
        density: Dens::in_range(i128::from(density)),
        sw: Permil5::in_range(i128::from(sw)),
    }
}
