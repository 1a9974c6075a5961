//! The mean of temperatures taken at several heights of a tank.

ghost use Rattle.std.specs.Prelude.{◌≡◌, ◌≤◌, ◌*◌, length, pos, ◌+ℤ◌, ◌≤ℤ◌};
ghost use Rattle.std.specs.Int.RustNames.{unsigned_abs};
ghost use Rattle.farm_rounding.specs.Multiple.{IsAllowedStep, IsNearest, nearest_multiple};
ghost use Rattle.farm_rounding.specs.Table.{row_at};
ghost use Rattle.farm_rounding.specs.declared.table.TheConstants.{LIQUID_TEMPERATURE};
ghost use Rattle.farm_readings.specs.declared.temperatures.TheConstants.{MOST_TEMPERATURES};
ghost use Rattle.farm_readings.specs.Readings.{AreTemperatures, mean_temperature, total};

use farm_fixed::Centi;
use farm_rounding::{LIQUID_TEMPERATURE, Mode, RoundTable, nearest, sum};

/// How many temperatures a mean may have.
pub const MOST_TEMPERATURES: usize = 8;

/// The mean of 1 to 8 temperatures, rounded.
pub fn mean_temp(list: &[Centi], rounding: &RoundTable) -> Centi
    requires temperatures { AreTemperatures list.now }
    ensures mean_temperature { result ≡ mean_temperature rounding.now list.now }
    ensures meaning { IsNearest (row_at rounding.now LIQUID_TEMPERATURE).1 (total list.now) (length list.now) (row_at rounding.now LIQUID_TEMPERATURE).0 result }
{
    let (step, mode) = rounding.row(LIQUID_TEMPERATURE);
    rounded_mean(total(list), list.len(), step, mode)
}

// The mean of as many temperatures as this, by their sum.
fn rounded_mean(total: i128, count: usize, step: i64, mode: Mode) -> Centi
    requires some { 1 ≤ count }
    requires few { count ≤ MOST_TEMPERATURES }
    requires low { pos 0 ≤ℤ (total +ℤ pos (10000 * count)) }
    requires high { total ≤ℤ pos (30000 * count) }
    requires step { IsAllowedStep step }
    ensures value { result ≡ nearest_multiple mode total count (unsigned_abs step) }
    ensures meaning { IsNearest mode total count (unsigned_abs step) result }
{
    Centi::in_range(nearest(total, count as i128, step, mode))
}

// The sum of temperatures.
fn total(list: &[Centi]) -> i128
    requires temperatures { AreTemperatures list.now }
    ensures value { result ≡ total list.now }
    ensures low { pos 0 ≤ℤ (result +ℤ pos (10000 * length list.now)) }
    ensures high { result ≤ℤ pos (30000 * length list.now) }
{
    let mut total = 0;
    for temperature in list {
        total = sum(total, i128::from(temperature.get()));
    }
    total
}
