//! The figures of observed volumes.

ghost use Rattle.std.specs.Prelude.{◌≡◌, IfOk, pos};
ghost use Rattle.farm_fixed.specs.Range.{IsWithin};
ghost use Rattle.farm_fixed.specs.declared.limits.TheConstants.{MOST_COEFFICIENT, MOST_LITRES, MOST_ROOF_MASS};
ghost use Rattle.farm_chain.specs.Roofs.{IsShare};
ghost use Rattle.farm_chain.specs.Volumes.{AreInRange, adjusted_figures, calculated_figures, standard_figures};

use crate::steps::{
    gross_observed, gross_standard, mass_of, net_standard, roof_adjustment, sediment_and_water,
    shell_correction,
};
use farm_fixed::{Centi, ChainRule, Fac5, Kg, Litres, Quantities, Sample, Shell};
use farm_rounding::RoundTable;

/// The ten figures of observed volumes: total and water, with the factor as given.
///
/// `floating` is the mass of a floating roof, 0 for none. Volumes are at most 10^9 litres, the mass at most 10^7 kg.
/// Refused in this order: `WaterAboveLevel` where the water is more than the total, `Negative` where the gross observed
/// volume is below zero. Takes no memory.
#[tactic(auto, unfolding(crate::specs::Volumes::calculated_figures))]
pub fn figures(
    tov: Litres,
    fw: Litres,
    shell: &Shell,
    liquid: Centi,
    ambient: Centi,
    floating: Kg,
    sample: &Sample,
    vcf: Fac5,
    rounding: &RoundTable,
) -> Result<Quantities, ChainRule>
    requires tov { IsWithin (pos 0) MOST_LITRES tov }
    requires fw { IsWithin (pos 0) MOST_LITRES fw }
    requires coefficient { IsWithin (pos 0) MOST_COEFFICIENT shell.now.coefficient }
    requires floating { IsWithin (pos 0) MOST_ROOF_MASS floating }
    ensures figures { result ≡ calculated_figures rounding.now tov fw shell.now liquid ambient floating sample.now vcf }
    ensures range { IfOk result AreInRange }
{
    let fra = roof_adjustment(rounding, floating, sample.density, vcf);
    adjusted_figures(tov, fw, shell, liquid, ambient, fra, sample, vcf, rounding)
}

/// The ten figures under the adjustment for a roof. This is the one body of them, whatever the roof's share is computed from.
#[tactic(auto, unfolding(crate::specs::Volumes::adjusted_figures))]
pub(crate) fn adjusted_figures(
    tov: Litres,
    fw: Litres,
    shell: &Shell,
    liquid: Centi,
    ambient: Centi,
    fra: Litres,
    sample: &Sample,
    vcf: Fac5,
    rounding: &RoundTable,
) -> Result<Quantities, ChainRule>
    requires tov { IsWithin (pos 0) MOST_LITRES tov }
    requires fw { IsWithin (pos 0) MOST_LITRES fw }
    requires coefficient { IsWithin (pos 0) MOST_COEFFICIENT shell.now.coefficient }
    requires fra { IsShare fra }
    ensures range { IfOk result AreInRange }
    ensures figures { result ≡ adjusted_figures rounding.now tov fw shell.now liquid ambient fra sample.now vcf }
{
    if fw.get() > tov.get() {
        return Err(ChainRule::WaterAboveLevel);
    }
    let ctsh = shell_correction(rounding, shell, liquid, ambient);
    let gov = gross_observed(rounding, tov, fw, ctsh, fra);
    if gov.get() < 0 {
        return Err(ChainRule::Negative);
    }
    Ok(standard_figures(rounding, tov, fw, ctsh, vcf, fra, gov, sample))
}

// The figures from the gross observed volume on, with those before them.
#[tactic(auto, unfolding(crate::specs::Volumes::standard_figures))]
fn standard_figures(
    rounding: &RoundTable,
    tov: Litres,
    fw: Litres,
    ctsh: Fac5,
    vcf: Fac5,
    fra: Litres,
    gov: Litres,
    sample: &Sample,
) -> Quantities
    requires { IsWithin (pos 0) (pos 1525000200) gov }
    ensures range { AreInRange result }
    ensures figures { result ≡ standard_figures rounding.now tov fw ctsh vcf fra gov sample.now }
{
    let gsv = gross_standard(rounding, gov, vcf);
    let nsv = net_standard(rounding, gsv, sample.sw);
    Quantities {
        tov,
        fw,
        ctsh,
        vcf,
        fra,
        gov,
        gsv,
        nsv,
        swv: sediment_and_water(gsv, nsv),
        mass: mass_of(rounding, nsv, sample.density),
    }
}
