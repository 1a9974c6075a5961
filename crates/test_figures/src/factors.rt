//! The factor at the nearest listed density and temperature, by lists and by a file.

use farm_fixed::{Centi, Dens, OutOfRange, Quantity, Unit};
use farm_rounding::Mode;
use farm_vcf::Vcf;
use std::alloc::Global;
use std::test::Fail;
use test_checks::{Checks, shared};

// Appends the quantities of these numbers of units to a list.
fn add_quantities<U: Unit>(list: &mut Vec<Quantity<U>>, values: &[i64]) -> Result<(), Fail> {
    for value in values {
        list.push(Quantity::new(*value)?)?;
    }
    Ok(())
}

// The quantities of these numbers of units.
fn list_of<U: Unit>(alloc: Global, values: &[i64]) -> Result<Vec<Quantity<U>>, Fail> {
    let mut list = Vec::new(alloc);
    if let Err(fail) = add_quantities(&mut list, values) {
        drop(list);
        return Err(fail);
    }
    Ok(list)
}

// Densities and temperatures, in units.
fn axes_of(
    alloc: Global,
    densities: &[i64],
    temperatures: &[i64],
) -> Result<(Vec<Dens>, Vec<Centi>), Fail> {
    let densities = list_of(alloc, densities)?;
    match list_of(alloc, temperatures) {
        Ok(temperatures) => Ok((densities, temperatures)),
        Err(fail) => {
            drop(densities);
            Err(fail)
        }
    }
}

/// The grid of these lists, in units.
pub(crate) fn grid_of(
    alloc: Global,
    densities: &[i64],
    temperatures: &[i64],
    factors: &[i64],
) -> Result<Vcf, Fail> {
    let (densities, temperatures) = axes_of(alloc, densities, temperatures)?;
    match list_of(alloc, factors) {
        Ok(factors) => Ok(Vcf::from_grid(densities, temperatures, factors)?),
        Err(fail) => {
            drop((densities, temperatures));
            Err(fail)
        }
    }
}

// The factor of a grid, where there is one.
fn factor_at(grid: &Vcf, density: i64, liquid: i64, mode: Mode) -> Result<Option<i64>, OutOfRange> {
    let found = grid.entry(Dens::new(density)?, Centi::new(liquid)?, mode);
    Ok(found.ok().map(|factor| factor.get()))
}

// Densities and temperatures, each with a mode and the factor that is taken.
type Factors = &'static [(&'static str, i64, i64, Mode, Option<i64>)];

// The factors of a grid are those of these rows.
fn check_factors<R: Print>(checks: &mut Checks<'_, R>, grid: &Vcf, factors: Factors) {
    for (name, density, liquid, mode, want) in factors {
        let factor = factor_at(grid, *density, *liquid, *mode);
        checks.same_at(name, factor, Ok(*want));
    }
}

// Three densities, three temperatures, and factors whose digits tell their row and their column.
const DENSITIES: &[i64] = &[8400, 8500, 8600];

const TEMPERATURES: &[i64] = &[1500, 2000, 2500];

const FACTORS: &[i64] = &[
    99011, 99012, 99013, 99021, 99022, 99023, 99031, 99032, 99033,
];

const NEAREST: Factors = &[
    ("the first", 8400, 1500, Mode::HalfAway, Some(99011)),
    ("the last", 8600, 2500, Mode::HalfAway, Some(99033)),
    ("below both halves", 8449, 1749, Mode::HalfAway, Some(99011)),
    ("above both halves", 8451, 1751, Mode::HalfAway, Some(99022)),
    ("half a density up", 8450, 2000, Mode::HalfAway, Some(99022)),
    (
        "half a density down",
        8450,
        2000,
        Mode::TowardZero,
        Some(99012),
    ),
    (
        "half a temperature up",
        8500,
        1750,
        Mode::HalfAway,
        Some(99022),
    ),
    (
        "half a temperature down",
        8500,
        1750,
        Mode::TowardZero,
        Some(99021),
    ),
    (
        "half a density up, even",
        8450,
        2000,
        Mode::HalfEven,
        Some(99022),
    ),
    (
        "half a temperature up, even",
        8500,
        1750,
        Mode::HalfEven,
        Some(99022),
    ),
    ("too cold", 8500, 1499, Mode::HalfAway, None),
    ("too hot", 8500, 2501, Mode::HalfAway, None),
    ("too light", 8399, 2000, Mode::TowardZero, None),
    ("too heavy", 8601, 2000, Mode::HalfAway, None),
];

#[test]
fn the_nearest_listed_factor_is_taken(rt: HostRuntime) -> Result<(), Fail> {
    let mut checks = Checks::new(&rt);
    let grid = shared(grid_of(rt.alloc(), DENSITIES, TEMPERATURES, FACTORS)?);
    check_factors(&mut checks, &grid, NEAREST);
    drop(grid);
    Ok(checks.end()?)
}

// Densities 840.0, 850.0 and 860.0 at 15.00, 20.00 and 25.00 C, by lists and as a file.
const GRID: &[u8] =
    b"density,temperature,factor\n840.0,15.00,1.00000\n840.0,20.00,0.99570\n840.0,25.00,0.99140\n850.0,15.00,1.00000\n850.0,20.00,0.99580\n850.0,25.00,0.99150\n860.0,15.00,1.00000\n860.0,20.00,0.99590\n860.0,25.00,0.99160\n";

const GRID_FACTORS: &[i64] = &[
    100_000, 99_570, 99_140, 100_000, 99_580, 99_150, 100_000, 99_590, 99_160,
];

// A list of a grid.
#[derive(Clone, Copy)]
enum List {
    Densities,
    Temperatures,
    Factors,
}

const LISTS: &[(&str, List)] = &[
    ("the densities", List::Densities),
    ("the temperatures", List::Temperatures),
    ("the factors", List::Factors),
];

// Two grids have the same list.
fn check_list<R: Print>(
    checks: &mut Checks<'_, R>,
    read: &Vcf,
    listed: &Vcf,
    (name, list): (&str, List),
) {
    match list {
        List::Densities => checks.same_at(name, read.densities(), listed.densities()),
        List::Temperatures => checks.same_at(name, read.temperatures(), listed.temperatures()),
        List::Factors => checks.same_at(name, read.factors(), listed.factors()),
    }
}

// A grid has the lists of the one that is made of lists.
fn check_lists<R: Print>(
    checks: &mut Checks<'_, R>,
    alloc: Global,
    read: &Vcf,
) -> Result<(), Fail> {
    let listed = grid_of(alloc, DENSITIES, TEMPERATURES, GRID_FACTORS)?;
    for list in LISTS {
        check_list(checks, read, &listed, *list);
    }
    drop(listed);
    Ok(())
}

const GRID_NEAREST: Factors = &[
    (
        "half a density up",
        8450,
        2000,
        Mode::HalfAway,
        Some(99_580),
    ),
    (
        "half a density down",
        8450,
        2000,
        Mode::TowardZero,
        Some(99_570),
    ),
    (
        "half a temperature up",
        8500,
        1750,
        Mode::HalfAway,
        Some(99_580),
    ),
    ("too cold", 8500, 1499, Mode::HalfAway, None),
];

#[test]
fn a_file_and_its_lists_are_one_grid(rt: HostRuntime) -> Result<(), Fail> {
    let mut checks = Checks::new(&rt);
    let read = Vcf::read(rt.alloc(), GRID)?;
    let lists = check_lists(&mut checks, rt.alloc(), &read);
    check_factors(&mut checks, &read, GRID_NEAREST);
    drop(read);
    lists?;
    Ok(checks.end()?)
}

const OPPOSITE: Factors = &[
    ("by one mode", 8500, 0, Mode::HalfAway, Some(99900)),
    ("by another", 8500, 0, Mode::TowardZero, Some(99900)),
    ("by the third", 8500, 0, Mode::HalfEven, Some(99900)),
];

#[test]
fn of_opposite_temperatures_the_greater(rt: HostRuntime) -> Result<(), Fail> {
    let mut checks = Checks::new(&rt);
    let grid = grid_of(rt.alloc(), &[8500], &[-500, 500], &[100100, 99900])?;
    check_factors(&mut checks, &grid, OPPOSITE);
    drop(grid);
    Ok(checks.end()?)
}

// A file of two densities and two temperatures.
const FILE: &[u8] =
    b"density,temperature,factor\n840.0,15.00,0.99100\n840.0 ,20.00,0.98700\n850.0, 15.00,0.99150\n850.0,20.00,\t0.98750\n";

const LENGTHS: &[(&str, List, usize)] = &[
    ("the densities", List::Densities, 2),
    ("the temperatures", List::Temperatures, 2),
    ("the factors", List::Factors, 4),
];

// How long a list of a grid is.
fn length_of(grid: &Vcf, list: List) -> usize {
    match list {
        List::Densities => grid.densities().len(),
        List::Temperatures => grid.temperatures().len(),
        List::Factors => grid.factors().len(),
    }
}

// The lists of a grid are as long as these rows say.
fn check_lengths<R: Print>(checks: &mut Checks<'_, R>, grid: &Vcf) {
    for (name, list, want) in LENGTHS {
        checks.same_at(name, length_of(grid, *list), *want);
    }
}

const FILE_NEAREST: Factors = &[("its factor", 8460, 1600, Mode::HalfAway, Some(99150))];

#[test]
fn a_file_is_read(rt: HostRuntime) -> Result<(), Fail> {
    let mut checks = Checks::new(&rt);
    let grid = Vcf::read(rt.alloc(), FILE)?;
    check_lengths(&mut checks, &grid);
    check_factors(&mut checks, &grid, FILE_NEAREST);
    drop(grid);
    Ok(checks.end()?)
}
