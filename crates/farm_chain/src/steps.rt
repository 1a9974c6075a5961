//! The steps of the calculation, each on the rounded results of those before it.

ghost use Rattle.std.specs.Prelude.{◌≡◌, ◌≤◌, ◌+◌, ◌*◌, ◌^◌, pos, ◌≤ℤ◌, ◌*ℤ◌, ◌-ℤ◌, ◌+ℤ◌};
ghost use Rattle.std.specs.Int.RustNames.{unsigned_abs};
ghost use Rattle.farm_fixed.specs.Range.{IsWithin};
ghost use Rattle.farm_fixed.specs.declared.limits.TheConstants.{MOST_COEFFICIENT, MOST_LITRES, MOST_ROOF_MASS};
ghost use Rattle.farm_fixed.specs.Limits.{least_density, most_density};
ghost use Rattle.farm_chain.specs.Roofs.{FollowsDensity, IsShare};
ghost use Rattle.farm_chain.specs.Steps.{gross_observed, gross_standard, mass_of, net_standard, reference_adjustment, roof_adjustment, shell_correction, shell_difference, shell_growth};

use farm_fixed::{Centi, Dens, Fac5, Kg, Litres, Permil5, Shell};
use farm_rounding::{
    GROSS_OBSERVED, GROSS_STANDARD, MASS, NET_STANDARD, ROOF_ADJUSTMENT, RoundTable,
    SHELL_CORRECTION, difference, negated, product, sum,
};

// The difference of an insulated shell, which is at the liquid's temperature.
fn insulated_difference(liquid: i64, reference: i64) -> i64
    requires liquid { unsigned_abs liquid ≤ 30000 }
    requires reference { unsigned_abs reference ≤ 30000 }
    ensures value { result ≡ pos 8 *ℤ liquid -ℤ pos 8 *ℤ reference }
    ensures size { unsigned_abs result ≤ 480000 }
{
    8 * liquid - 8 * reference
}

// The difference of a bare shell, at seven parts liquid to one part ambient.
fn bare_difference(liquid: i64, ambient: i64, reference: i64) -> i64
    requires liquid { unsigned_abs liquid ≤ 30000 }
    requires ambient { unsigned_abs ambient ≤ 30000 }
    requires reference { unsigned_abs reference ≤ 30000 }
    ensures value { result ≡ pos 7 *ℤ liquid +ℤ ambient -ℤ pos 8 *ℤ reference }
    ensures size { unsigned_abs result ≤ 480000 }
{
    7 * liquid + ambient - 8 * reference
}

// Eight times the shell's temperature less the reference, in 0.01 C.
#[tactic(auto, unfolding(crate::specs::Steps::shell_difference))]
fn shell_difference(shell: &Shell, liquid: Centi, ambient: Centi) -> i64
    ensures value { result ≡ shell_difference shell.now liquid ambient }
    ensures size { unsigned_abs result ≤ 480000 }
{
    let liquid = liquid.get();
    let ambient = ambient.get();
    let reference = shell.reference.get();
    if shell.insulated {
        insulated_difference(liquid, reference)
    } else {
        bare_difference(liquid, ambient, reference)
    }
}

// The growth of the shell's girth, in parts of 8,000,000,000 with the whole.
#[tactic(auto, unfolding(crate::specs::Steps::shell_growth))]
fn shell_growth(shell: &Shell, liquid: Centi, ambient: Centi) -> i128
    requires { IsWithin (pos 0) MOST_COEFFICIENT shell.now.coefficient }
    ensures value { result ≡ shell_growth shell.now liquid ambient }
    ensures low { pos 7520000000 ≤ℤ result }
    ensures high { result ≤ℤ pos 8480000000 }
{
    let difference = shell_difference(shell, liquid, ambient);
    sum(
        8_000_000_000,
        product::<1_000, 480_000>(shell.coefficient, difference),
    )
}

// A hundred thousand times the square of the shell's growth, in its parts.
fn hundred_thousand_squares(growth: i128) -> i128
    requires low { pos 7520000000 ≤ℤ growth }
    requires high { growth ≤ℤ pos 8480000000 }
    ensures value { result ≡ growth *ℤ growth *ℤ pos 100000 }
    ensures low { pos (7520000000 * 7520000000 * 100000) ≤ℤ result }
    ensures high { result ≤ℤ pos (8480000000 * 8480000000 * 100000) }
{
    growth * growth * 100_000
}

/// CTSh, the correction for the temperature of the shell: the square of its growth.
#[tactic(auto, unfolding(crate::specs::Steps::shell_correction))]
pub(crate) fn shell_correction(
    rounding: &RoundTable,
    shell: &Shell,
    liquid: Centi,
    ambient: Centi,
) -> Fac5
    requires { IsWithin (pos 0) MOST_COEFFICIENT shell.now.coefficient }
    ensures { result ≡ shell_correction rounding.now shell.now liquid ambient }
{
    let growth = shell_growth(shell, liquid, ambient);
    Fac5::in_range(rounding.round(
        SHELL_CORRECTION,
        hundred_thousand_squares(growth),
        64_000_000_000_000_000_000,
    ))
}

// The observed density: that at 15 C times the factor, in 0.1 kg/m3 and 0.00001.
fn observed_density(density: Dens, vcf: Fac5) -> i64
    ensures value { result ≡ density *ℤ vcf }
    ensures low { pos 200000000 ≤ℤ result }
    ensures high { result ≤ℤ pos 1800000000 }
{
    density.get() * vcf.get()
}

// Ten thousand times the observed density, less the reference density in the same parts.
fn above_reference(observed: i64, reference: i64) -> i64
    requires observed { IsWithin (pos 200000000) (pos 1800000000) observed }
    requires reference { IsWithin least_density most_density reference }
    ensures value { result ≡ pos (10 ^ 4) *ℤ observed -ℤ pos (10 ^ 9) *ℤ reference }
    ensures size { unsigned_abs result ≤ 18000000000000 }
{
    10_000 * observed - 1_000_000_000 * reference
}

/// FRA, the adjustment for a floating roof that the table leaves out: its mass over the observed density, taken off.
#[tactic(auto, unfolding(crate::specs::Steps::roof_adjustment))]
pub(crate) fn roof_adjustment(
    rounding: &RoundTable,
    floating: Kg,
    density: Dens,
    vcf: Fac5,
) -> Litres
    requires { IsWithin (pos 0) MOST_ROOF_MASS floating }
    ensures value { result ≡ roof_adjustment rounding.now floating density vcf }
    ensures range { IsShare result }
    ensures never_adds { result ≤ℤ pos 0 }
{
    if floating.get() == 0 {
        return Litres::in_range(0);
    }
    let mass = product::<10_000_000, 1_000_000_000>(floating.get(), 1_000_000_000);
    let observed = product::<12_000, 150_000>(density.get(), vcf.get());
    Litres::in_range(negated(rounding.round(ROOF_ADJUSTMENT, mass, observed)))
}

/// FRA of a roof that the table includes at a reference density: what its mass displaces there is added back, and what it displaces
/// at the observed density is taken off.
#[tactic(auto, unfolding(crate::specs::Steps::reference_adjustment))]
pub(crate) fn reference_adjustment(
    rounding: &RoundTable,
    mass: Kg,
    density: Dens,
    vcf: Fac5,
    reference: Dens,
) -> Litres
    requires { IsWithin (pos 0) MOST_ROOF_MASS mass }
    ensures value { result ≡ reference_adjustment rounding.now mass density vcf reference }
    ensures range { IsShare result }
    ensures sign { FollowsDensity reference density vcf result }
{
    let observed = observed_density(density, vcf);
    let above = above_reference(observed, reference.get());
    let gained = product::<10_000_000, 18_000_000_000_000>(mass.get(), above);
    let both = product::<12_000, 1_800_000_000>(reference.get(), observed);
    Litres::in_range(rounding.round(ROOF_ADJUSTMENT, gained, both))
}

/// GOV, the gross observed volume: the volume above the water at the shell's temperature, and the roof's adjustment.
#[tactic(auto, unfolding(crate::specs::Steps::gross_observed))]
pub(crate) fn gross_observed(
    rounding: &RoundTable,
    tov: Litres,
    fw: Litres,
    ctsh: Fac5,
    fra: Litres,
) -> Litres
    requires tov { IsWithin (pos 0) MOST_LITRES tov }
    requires fw { IsWithin (pos 0) MOST_LITRES fw }
    requires fra { IsShare fra }
    ensures value { result ≡ gross_observed rounding.now tov fw ctsh fra }
    ensures most { result ≤ℤ pos 1525000200 }
{
    let above_water = difference(tov.get(), fw.get());
    let observed = product::<1_000_000_000, 150_000>(above_water, ctsh.get());
    let roof = product::<50_000_100, 100_000>(fra.get(), 100_000);
    Litres::in_range(rounding.round(GROSS_OBSERVED, sum(observed, roof), 100_000))
}

/// GSV, the gross standard volume.
#[tactic(auto, unfolding(crate::specs::Steps::gross_standard))]
pub(crate) fn gross_standard(rounding: &RoundTable, gov: Litres, vcf: Fac5) -> Litres
    requires { IsWithin (pos 0) (pos 1525000200) gov }
    ensures value { result ≡ gross_standard rounding.now gov vcf }
    ensures range { IsWithin (pos 0) (pos 2287500400) result }
{
    let observed = product::<1_525_000_200, 150_000>(gov.get(), vcf.get());
    Litres::in_range(rounding.round(GROSS_STANDARD, observed, 100_000))
}

/// NSV, the net standard volume: the gross one less sediment and water.
#[tactic(auto, unfolding(crate::specs::Steps::net_standard))]
pub(crate) fn net_standard(rounding: &RoundTable, gsv: Litres, sw: Permil5) -> Litres
    requires { IsWithin (pos 0) (pos 2287500400) gsv }
    ensures value { result ≡ net_standard rounding.now gsv sw }
    ensures range { IsWithin (pos 0) (pos 2287500500) result }
{
    let clean = difference(100_000, sw.get());
    let net = product::<2_287_500_400, 100_000>(gsv.get(), clean);
    Litres::in_range(rounding.round(NET_STANDARD, net, 100_000))
}

/// SWV, the volume of sediment and water.
pub(crate) fn sediment_and_water(gsv: Litres, nsv: Litres) -> Litres
    requires gsv { IsWithin (pos 0) (pos 2287500400) gsv }
    requires nsv { IsWithin (pos 0) (pos 2287500500) nsv }
    ensures { result ≡ gsv -ℤ nsv }
{
    Litres::in_range(i128::from(difference(gsv.get(), nsv.get())))
}

/// The mass of a net standard volume in vacuum.
#[tactic(auto, unfolding(crate::specs::Steps::mass_of))]
pub(crate) fn mass_of(rounding: &RoundTable, nsv: Litres, density: Dens) -> Kg
    requires { IsWithin (pos 0) (pos 2287500500) nsv }
    ensures value { result ≡ mass_of rounding.now nsv density }
    ensures range { IsWithin (pos 0) (pos 2745000700) result }
{
    let tenths = product::<2_287_500_500, 12_000>(nsv.get(), density.get());
    Kg::in_range(rounding.round(MASS, tenths, 10_000))
}
