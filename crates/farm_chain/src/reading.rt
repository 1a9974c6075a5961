//! The figures of a reading: the volumes, the factor and the roof's share that the calculation begins with.

ghost use Rattle.std.specs.Prelude.{◌≡◌, IfOk, IfSome, pos};
ghost use Rattle.farm_fixed.specs.Range.{IsWithin};
ghost use Rattle.farm_fixed.specs.declared.limits.TheConstants.{MOST_COEFFICIENT, MOST_LITRES};
ghost use Rattle.farm_chain.specs.Volumes.{AreInRange};
ghost use Rattle.strap_table.specs.Roofs.{IsFloatingRoof};
ghost use Rattle.farm_chain.specs.Reading.{calculated_quantities, correction_factor, free_water, total_observed, volume_at};

use crate::roofs::roof_share;
use crate::volumes::adjusted_figures;
use farm_fixed::{ChainRule, Fac5, Litres, Mm, Quantities, Reading, Sample};
use farm_rounding::{FACTOR_TIES, RoundTable, TABLE_VOLUME};
use farm_vcf::Vcf;
use strap_table::{CapTable, TankSpec};

/// The ten figures of what a gauge reads and a sample says of a tank.
///
/// Volumes are those of the capacity table, the factor is that of the factor file, and a floating roof has a share in the volume
/// above its critical zone alone: what it displaces at the observed density is taken off, and if the table includes the roof, what
/// it displaces at the reference density is added back. Refused in the order of `ChainRule`. Takes no memory.
pub fn quantities(
    tank: &TankSpec,
    table: &CapTable,
    vcf: &Vcf,
    rounding: &RoundTable,
    reading: &Reading,
    sample: &Sample,
) -> Result<Quantities, ChainRule>
    requires coefficient { IsWithin (pos 0) MOST_COEFFICIENT tank.now.shell.coefficient }
    requires roof { IfSome tank.now.roof IsFloatingRoof }
    ensures range { IfOk result AreInRange }
    ensures quantities { result ≡ calculated_quantities rounding.now tank.now table.now vcf.now reading.now sample.now }
{
    let tov = total_observed(table, rounding, reading)?;
    let fw = free_water(table, rounding, reading)?;
    let factor = correction_factor(vcf, rounding, reading, sample)?;
    let fra = roof_share(rounding, &tank.roof, reading.level, sample.density, factor)?;
    adjusted_figures(
        tov,
        fw,
        &tank.shell,
        reading.liquid,
        reading.ambient,
        fra,
        sample,
        factor,
        rounding,
    )
}

// The volume at a height, if the table goes that high.
fn volume_at(table: &CapTable, rounding: &RoundTable, height: Mm) -> Option<Litres>
    ensures value { result ≡ volume_at rounding.now table.now height }
    ensures range { IfSome result (IsWithin (pos 0) MOST_LITRES) }
{
    let (step, mode) = rounding.row(TABLE_VOLUME);
    match table.at(height, step, mode) {
        Ok(volume) => Some(volume),
        Err(_) => None,
    }
}

// TOV, the volume at the level.
#[tactic(auto, unfolding(crate::specs::Reading::total_observed))]
fn total_observed(
    table: &CapTable,
    rounding: &RoundTable,
    reading: &Reading,
) -> Result<Litres, ChainRule>
    ensures value { result ≡ total_observed rounding.now table.now reading.now }
    ensures range { IfOk result (IsWithin (pos 0) MOST_LITRES) }
{
    match volume_at(table, rounding, reading.level) {
        Some(volume) => Ok(volume),
        None => Err(ChainRule::AboveTable),
    }
}

// FW, the volume at the height of the water.
#[tactic(auto, unfolding(crate::specs::Reading::free_water))]
fn free_water(
    table: &CapTable,
    rounding: &RoundTable,
    reading: &Reading,
) -> Result<Litres, ChainRule>
    ensures value { result ≡ free_water rounding.now table.now reading.now }
    ensures range { IfOk result (IsWithin (pos 0) MOST_LITRES) }
{
    if reading.water.get() > reading.level.get() {
        return Err(ChainRule::WaterAboveLevel);
    }
    match volume_at(table, rounding, reading.water) {
        Some(volume) => Ok(volume),
        None => Err(ChainRule::WaterAboveLevel),
    }
}

// VCF, the entry of the factor file.
#[tactic(auto, unfolding(crate::specs::Reading::correction_factor))]
fn correction_factor(
    vcf: &Vcf,
    rounding: &RoundTable,
    reading: &Reading,
    sample: &Sample,
) -> Result<Fac5, ChainRule>
    ensures { result ≡ correction_factor rounding.now vcf.now reading.now sample.now }
{
    let (_, mode) = rounding.row(FACTOR_TIES);
    match vcf.entry(sample.density, reading.liquid, mode) {
        Ok(factor) => Ok(factor),
        Err(_) => Err(ChainRule::NoEntry),
    }
}
