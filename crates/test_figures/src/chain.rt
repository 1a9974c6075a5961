//! The figures of observed volumes, and their refusals.

ghost use Rattle.std.specs.Prelude.{◌^◌, pos};
ghost use Rattle.farm_fixed.specs.Range.{IsWithin};

use crate::ten_figures::{Figure, Figures, check_figures};
use farm_chain::figures;
use farm_fixed::{
    Centi, ChainRule, Dens, Fac5, Kg, Litres, OutOfRange, Permil5, Quantities, Sample, Shell,
};
use farm_rounding::{MASS, Mode, RoundTable};
use std::test::Fail;
use test_checks::Checks;

const BARE: bool = false;

// The figures of a bare shell at 25.00 C and 33.00 C ambient, with density 850.0, factor 0.99150 and 0.250 percent.
fn figures_of(tov: i64, fw: i64, roof: i64) -> Result<Result<Quantities, ChainRule>, OutOfRange>
    requires tov { IsWithin (pos 0) (pos (10 ^ 9)) tov }
    requires fw { IsWithin (pos 0) (pos (10 ^ 9)) fw }
    requires roof { IsWithin (pos 0) (pos (10 ^ 7)) roof }
{
    let shell = Shell {
        insulated: BARE,
        coefficient: 112,
        reference: Centi::new(1_500)?,
    };
    let sample = Sample {
        density: Dens::new(8_500)?,
        sw: Permil5::new(250)?,
    };
    Ok(figures(
        Litres::new(tov)?,
        Litres::new(fw)?,
        &shell,
        Centi::new(2_500)?,
        Centi::new(3_300)?,
        Kg::new(roof)?,
        &sample,
        Fac5::new(99_150)?,
        &RoundTable::usual(),
    ))
}

const WITHOUT_A_ROOF: Figures = &[
    ("tov", Figure::Tov, 12_345_000),
    ("fw", Figure::Fw, 45_000),
    ("ctsh", Figure::Ctsh, 100_025),
    ("vcf", Figure::Vcf, 99_150),
    ("fra", Figure::Fra, 0),
    ("gov", Figure::Gov, 12_303_075),
    ("gsv", Figure::Gsv, 12_198_499),
    ("nsv", Figure::Nsv, 12_168_003),
    ("swv", Figure::Swv, 30_496),
    ("mass", Figure::Mass, 10_342_803),
];

const UNDER_A_ROOF: Figures = &[
    ("tov under a roof", Figure::Tov, 12_345_000),
    ("fw under a roof", Figure::Fw, 45_000),
    ("ctsh under a roof", Figure::Ctsh, 100_025),
    ("vcf under a roof", Figure::Vcf, 99_150),
    ("fra under a roof", Figure::Fra, -100_857),
    ("gov under a roof", Figure::Gov, 12_202_218),
    ("gsv under a roof", Figure::Gsv, 12_098_499),
    ("nsv under a roof", Figure::Nsv, 12_068_253),
    ("swv under a roof", Figure::Swv, 30_246),
    ("mass under a roof", Figure::Mass, 10_258_015),
];

#[test]
fn observed_volumes_with_and_without_a_roof(rt: HostRuntime) -> Result<(), Fail> {
    let mut checks = Checks::new(&rt);
    for (roof, wants) in [(0, WITHOUT_A_ROOF), (85_000, UNDER_A_ROOF)] {
        let figures = figures_of(12_345_000, 45_000, roof)?;
        check_figures(&mut checks, figures, wants);
    }
    Ok(checks.end()?)
}

#[test]
fn water_above_level_comes_before_a_negative_volume(rt: HostRuntime) -> Result<(), Fail> {
    let mut checks = Checks::new(&rt);
    let cases = [
        (
            "water above the level",
            (40_000, 45_000, 0),
            ChainRule::WaterAboveLevel,
        ),
        (
            "the same under a roof",
            (40_000, 45_000, 85_000),
            ChainRule::WaterAboveLevel,
        ),
        (
            "a roof on water alone",
            (45_000, 45_000, 85_000),
            ChainRule::Negative,
        ),
    ];
    for (name, (tov, fw, roof), want) in cases {
        checks.same_at(name, figures_of(tov, fw, roof)?, Err(want));
    }
    Ok(checks.end()?)
}

// The mass in kg of 10 litres at 15.00 C and 850.0 kg/m3, which is 8.5 kg, rounded by a mode.
fn mass_by(mode: Mode) -> Result<Result<i64, ChainRule>, Fail> {
    let mut rows = [(1, Mode::HalfAway); 12];
    rows[usize::from(MASS) - 1] = (1, mode);
    let shell = Shell {
        insulated: true,
        coefficient: 112,
        reference: Centi::new(1_500)?,
    };
    let sample = Sample {
        density: Dens::new(8_500)?,
        sw: Permil5::new(0)?,
    };
    let figures = figures(
        Litres::new(10)?,
        Litres::new(0)?,
        &shell,
        Centi::new(1_500)?,
        Centi::new(1_500)?,
        Kg::new(0)?,
        &sample,
        Fac5::new(100_000)?,
        &RoundTable::new(rows)?,
    );
    Ok(figures.map(|figures| figures.mass.get()))
}

#[test]
fn a_half_kilogram_goes_by_the_mode(rt: HostRuntime) -> Result<(), Fail> {
    let mut checks = Checks::new(&rt);
    let cases = [
        ("away from zero", Mode::HalfAway, 9),
        ("toward zero", Mode::TowardZero, 8),
        ("to the even kilogram", Mode::HalfEven, 8),
    ];
    for (name, mode, want) in cases {
        checks.same_at(name, mass_by(mode)?, Ok(want));
    }
    Ok(checks.end()?)
}
