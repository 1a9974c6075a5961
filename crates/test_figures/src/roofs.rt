//! The figures of a reading under a floating roof, and their refusals in order.

ghost use Rattle.std.specs.Prelude.{IfOk, pos};
ghost use Rattle.farm_fixed.specs.Limits.{most_roof_mass};
ghost use Rattle.farm_fixed.specs.Range.{IsWithin};
ghost use Rattle.strap_table.specs.Roofs.{IsFloatingRoof};

use crate::factors::grid_of;
use crate::ten_figures::{Figure, Figures, check_figures};
use farm_chain::quantities;
use farm_fixed::{
    Centi, ChainRule, Dens, Kg, Mm, NoMemory, OutOfRange, Permil5, Quantities, Reading, Sample,
    Shell,
};
use farm_rounding::RoundTable;
use farm_vcf::Vcf;
use std::alloc::Global;
use std::test::Fail;
use strap_table::{CapTable, Roof, TankSpec};
use test_checks::Checks;

// Appends rows of ten thousand litres each.
fn add_rows(rows: &mut Vec<i64>) -> Result<(), NoMemory> {
    for row in 0..200_u8 {
        rows.push(i64::from(row) * 10_000)?;
    }
    Ok(())
}

// A thousand litres to each millimetre, up to 1,990 mm.
fn table(alloc: Global) -> Result<CapTable, Fail> {
    let mut rows = Vec::new(alloc);
    if let Err(fault) = add_rows(&mut rows) {
        drop(rows);
        return Err(fault.into());
    }
    Ok(CapTable::from_rows(rows)?)
}

// A factor of 1.00000 at 15.00 C and of 0.99150 at 25.00 C, at a density of 850.0 alone.
fn vcf(alloc: Global) -> Result<Vcf, Fail> {
    grid_of(alloc, &[8_500], &[1_500, 2_500], &[100_000, 99_150])
}

// The capacity table and the factors.
fn tables(alloc: Global) -> Result<(CapTable, Vcf), Fail> {
    let table = table(alloc)?;
    match vcf(alloc) {
        Ok(vcf) => Ok((table, vcf)),
        Err(fail) => {
            drop(table);
            Err(fail)
        }
    }
}

// A level and water in mm, and a density in 0.1 kg/m3.
type Gauged = (i64, i64, i64);

// The mass of a roof in kg, and the density in 0.1 kg/m3 that the table includes it at, if it does.
type Floating = (i64, Option<i64>);

// A roof with its zone from 1,500 to 1,800 mm.
fn roof_of(floating: Floating) -> Result<Roof, OutOfRange>
    requires { IsWithin (pos 0) most_roof_mass floating.0 }
    ensures { IfOk result IsFloatingRoof }
{
    let (mass, reference) = floating;
    let reference = match reference {
        None => None,
        Some(density) => Some(Dens::new(density)?),
    };
    Ok(Roof {
        mass: Kg::new(mass)?,
        low: Mm::new(1_500)?,
        high: Mm::new(1_800)?,
        reference,
    })
}

// The figures of a bare shell under a roof of 85,000 kg that the table leaves out, at 15.00 C.
fn figures_at(alloc: Global, gauged: Gauged) -> Result<Result<Quantities, ChainRule>, Fail> {
    figures_under(alloc, (85_000, None), 1_500, gauged)
}

// The figures of a bare shell under a roof, at a temperature of liquid and air in 0.01 C.
fn figures_under(
    alloc: Global,
    floating: Floating,
    temperature: i64,
    gauged: Gauged,
) -> Result<Result<Quantities, ChainRule>, Fail>
    requires { IsWithin (pos 0) most_roof_mass floating.0 }
{
    let (level, water, density) = gauged;
    let tank = TankSpec {
        shell: Shell {
            insulated: false,
            coefficient: 112,
            reference: Centi::new(1_500)?,
        },
        height: Mm::new(15_000)?,
        roof: Some(roof_of(floating)?),
    };
    let reading = Reading {
        level: Mm::new(level)?,
        water: Mm::new(water)?,
        liquid: Centi::new(temperature)?,
        ambient: Centi::new(temperature)?,
    };
    let sample = Sample {
        density: Dens::new(density)?,
        sw: Permil5::new(0)?,
    };
    let rounding = RoundTable::usual();
    let (table, vcf) = tables(alloc)?;
    let figures = quantities(&tank, &table, &vcf, &rounding, &reading, &sample);
    drop((table, vcf));
    Ok(figures)
}

// The adjustment for the roof at a level.
const ZONE: &[(&str, i64, Result<i64, ChainRule>)] = &[
    ("below the zone", 1_499, Ok(0)),
    ("its low end", 1_500, Err(ChainRule::CriticalZone)),
    ("its high end", 1_800, Err(ChainRule::CriticalZone)),
    ("above the zone", 1_801, Ok(-100_000)),
];

const ABOVE_THE_ZONE: Figures = &[
    ("tov", Figure::Tov, 1_801_000),
    ("fw", Figure::Fw, 5_000),
    ("gov", Figure::Gov, 1_696_000),
    ("mass", Figure::Mass, 1_441_600),
];

#[test]
fn a_roof_floats_above_its_zone(rt: HostRuntime) -> Result<(), Fail> {
    let mut checks = Checks::new(&rt);
    for (name, level, want) in ZONE {
        let figures = figures_at(rt.alloc(), (*level, 0, 8_500))?;
        checks.same_at(name, figures.map(|q| q.fra.get()), *want);
    }
    let figures = figures_at(rt.alloc(), (1_801, 5, 8_500))?;
    check_figures(&mut checks, figures, ABOVE_THE_ZONE);
    Ok(checks.end()?)
}

// FRA, GOV, NSV and mass.
type Four = (i64, i64, i64, i64);

fn four(figures: Quantities) -> Four {
    (
        figures.fra.get(),
        figures.gov.get(),
        figures.nsv.get(),
        figures.mass.get(),
    )
}

// A reference density, a temperature, and the figures at 1,801 mm, where the roof displaces 100,000 litres of 850.0 kg/m3.
const REFERENCES: &[(&str, Option<i64>, i64, Four)] = &[
    (
        "left out of the table",
        None,
        1_500,
        (-100_000, 1_701_000, 1_701_000, 1_445_850),
    ),
    (
        "a lighter reference",
        Some(8_400),
        1_500,
        (1_190, 1_802_190, 1_802_190, 1_531_862),
    ),
    (
        "the reference density itself",
        Some(8_500),
        1_500,
        (0, 1_801_000, 1_801_000, 1_530_850),
    ),
    (
        "a heavier reference",
        Some(8_600),
        1_500,
        (-1_163, 1_799_837, 1_799_837, 1_529_861),
    ),
    (
        "a warm liquid",
        Some(8_400),
        2_500,
        (333, 1_801_729, 1_786_414, 1_518_452),
    ),
];

// The adjustment for a roof that the table includes at 840.0 kg/m3, at a level.
const REFERENCE_ZONE: &[(&str, i64, Result<i64, ChainRule>)] = &[
    ("below the zone, with a reference", 1_499, Ok(0)),
    (
        "its low end, with a reference",
        1_500,
        Err(ChainRule::CriticalZone),
    ),
    (
        "its high end, with a reference",
        1_800,
        Err(ChainRule::CriticalZone),
    ),
    ("above the zone, with a reference", 1_801, Ok(1_190)),
];

#[test]
fn roof_with_reference_density(rt: HostRuntime) -> Result<(), Fail> {
    let mut checks = Checks::new(&rt);
    for (name, reference, temperature, want) in REFERENCES {
        let figures = figures_under(
            rt.alloc(),
            (85_000, *reference),
            *temperature,
            (1_801, 0, 8_500),
        )?;
        checks.same_at(name, figures.map(four), Ok(*want));
    }
    Ok(checks.end()?)
}

#[test]
fn a_reference_leaves_the_zone_as_it_is(rt: HostRuntime) -> Result<(), Fail> {
    let mut checks = Checks::new(&rt);
    for (name, level, want) in REFERENCE_ZONE {
        let figures = figures_under(rt.alloc(), (85_000, Some(8_400)), 1_500, (*level, 0, 8_500))?;
        checks.same_at(name, figures.map(|q| q.fra.get()), *want);
    }
    Ok(checks.end()?)
}

// 10^7 kg displace 8,333,333 litres of 1,200.0 kg/m3 and 11,764,706 of 850.0 kg/m3, and the tank holds 1,801,000.
#[test]
fn a_reference_may_take_off_more_than_the_tank_holds(rt: HostRuntime) -> Result<(), Fail> {
    let mut checks = Checks::new(&rt);
    let figures = figures_under(
        rt.alloc(),
        (10_000_000, Some(12_000)),
        1_500,
        (1_801, 0, 8_500),
    )?;
    checks.same_at(
        "10^7 kg at 1,200.0 kg/m3",
        figures.map(four),
        Err(ChainRule::Negative),
    );
    Ok(checks.end()?)
}

const REFUSALS: &[(&str, Gauged, ChainRule)] = &[
    (
        "above the table, and water above it",
        (1_991, 1_992, 9_000),
        ChainRule::AboveTable,
    ),
    (
        "water above the level, and no factor",
        (1_600, 1_601, 9_000),
        ChainRule::WaterAboveLevel,
    ),
    (
        "no factor, and within the zone",
        (1_600, 1_600, 9_000),
        ChainRule::NoEntry,
    ),
    (
        "within the zone",
        (1_600, 1_600, 8_500),
        ChainRule::CriticalZone,
    ),
    (
        "less than the roof displaces",
        (1_801, 1_801, 8_500),
        ChainRule::Negative,
    ),
];

#[test]
fn the_first_refusal_of_a_reading_is_answered(rt: HostRuntime) -> Result<(), Fail> {
    let mut checks = Checks::new(&rt);
    for (name, gauged, want) in REFUSALS {
        let figures = figures_at(rt.alloc(), *gauged)?;
        checks.same_at(name, figures, Err(*want));
    }
    Ok(checks.end()?)
}
