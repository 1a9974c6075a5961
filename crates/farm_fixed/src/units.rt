//! The units: the range and the decimals of each, and the quantities in them.

ghost use Rattle.std.specs.Prelude.{pos};
ghost use Rattle.std.proofs.Common.{lit≤};
ghost use Rattle.farm_fixed.specs.Limits.{least_density, least_factor, least_temperature, least_units, most_density, most_factor, most_height, most_share, most_temperature, most_tenths, most_units};

use crate::{
    LEAST_DENSITY, LEAST_FACTOR, LEAST_TEMPERATURE, LEAST_UNITS, MOST_DENSITY, MOST_FACTOR,
    MOST_HEIGHT, MOST_SHARE, MOST_TEMPERATURE, MOST_TENTHS, MOST_UNITS, Quantity, Unit,
};

/// The unit of `Mm`: one millimetre.
#[derive(Clone, Copy, Debug, PartialEq, Eq)]
pub struct Millimetre;

/// A height in whole millimetres, from 0 to 50,000.
pub type Mm = Quantity<Millimetre>;

impl Unit for Millimetre {
    ghost LEAST = { pos 0 };

    ghost MOST = { most_height };

    ghost PLACES = { 0 };

    ghost small = { record { low = lit≤ tt; high = lit≤ tt; decimals = lit≤ tt } };

    const LEAST: i64 = 0;

    const MOST: i64 = MOST_HEIGHT;

    const PLACES: u8 = 0;
}

/// The unit of `Deci`: 0.1 mm.
#[derive(Clone, Copy, Debug, PartialEq, Eq)]
pub struct TenthMillimetre;

/// A circumference, a deduction from one or a thickness in 0.1 mm, from 0.0 to 500,000.0 mm.
pub type Deci = Quantity<TenthMillimetre>;

impl Unit for TenthMillimetre {
    ghost LEAST = { pos 0 };

    ghost MOST = { most_tenths };

    ghost PLACES = { 1 };

    ghost small = { record { low = lit≤ tt; high = lit≤ tt; decimals = lit≤ tt } };

    const LEAST: i64 = 0;

    const MOST: i64 = MOST_TENTHS;

    const PLACES: u8 = 1;
}

/// The unit of `Centi`: 0.01 C.
#[derive(Clone, Copy, Debug, PartialEq, Eq)]
pub struct HundredthDegree;

/// A temperature in 0.01 C, from -100.00 to 300.00 C.
pub type Centi = Quantity<HundredthDegree>;

impl Unit for HundredthDegree {
    ghost LEAST = { least_temperature };

    ghost MOST = { most_temperature };

    ghost PLACES = { 2 };

    const LEAST: i64 = LEAST_TEMPERATURE;

    const MOST: i64 = MOST_TEMPERATURE;

    const PLACES: u8 = 2;

    ghost small = { record { low = lit≤ tt; high = lit≤ tt; decimals = lit≤ tt } };
}

/// The unit of `Dens`: 0.1 kg/m3.
#[derive(Clone, Copy, Debug, PartialEq, Eq)]
pub struct TenthKilogramPerCubicMetre;

/// A density at 15 C in 0.1 kg/m3, from 400.0 to 1200.0 kg/m3.
pub type Dens = Quantity<TenthKilogramPerCubicMetre>;

impl Unit for TenthKilogramPerCubicMetre {
    ghost LEAST = { least_density };

    ghost MOST = { most_density };

    ghost PLACES = { 1 };

    const LEAST: i64 = LEAST_DENSITY;

    const MOST: i64 = MOST_DENSITY;

    const PLACES: u8 = 1;

    ghost small = { record { low = lit≤ tt; high = lit≤ tt; decimals = lit≤ tt } };
}

/// The unit of `Fac5`: 0.00001.
#[derive(Clone, Copy, Debug, PartialEq, Eq)]
pub struct HundredThousandth;

/// A factor in 0.00001, from 0.50000 to 1.50000.
pub type Fac5 = Quantity<HundredThousandth>;

impl Unit for HundredThousandth {
    ghost LEAST = { least_factor };

    ghost MOST = { most_factor };

    ghost PLACES = { 5 };

    const LEAST: i64 = LEAST_FACTOR;

    const MOST: i64 = MOST_FACTOR;

    const PLACES: u8 = 5;

    ghost small = { record { low = lit≤ tt; high = lit≤ tt; decimals = lit≤ tt } };
}

/// The unit of `Permil5`: 0.001 percent.
#[derive(Clone, Copy, Debug, PartialEq, Eq)]
pub struct ThousandthPercent;

/// A share in 0.001 percent, from 0.000 to 100.000 percent. Its text is in percent.
pub type Permil5 = Quantity<ThousandthPercent>;

impl Unit for ThousandthPercent {
    ghost LEAST = { pos 0 };

    ghost MOST = { most_share };

    ghost PLACES = { 3 };

    const LEAST: i64 = 0;

    const MOST: i64 = MOST_SHARE;

    const PLACES: u8 = 3;

    ghost small = { record { low = lit≤ tt; high = lit≤ tt; decimals = lit≤ tt } };
}

/// The unit of `Litres`: one litre.
#[derive(Clone, Copy, Debug, PartialEq, Eq)]
pub struct Litre;

/// A volume in whole litres, at most 10^17 either way.
pub type Litres = Quantity<Litre>;

impl Unit for Litre {
    ghost LEAST = { least_units };

    ghost MOST = { most_units };

    ghost PLACES = { 0 };

    const LEAST: i64 = LEAST_UNITS;

    const MOST: i64 = MOST_UNITS;

    const PLACES: u8 = 0;

    ghost small = { record { low = lit≤ tt; high = lit≤ tt; decimals = lit≤ tt } };
}

/// The unit of `Kg`: one kilogram.
#[derive(Clone, Copy, Debug, PartialEq, Eq)]
pub struct Kilogram;

/// A mass in whole kilograms, at most 10^17 either way.
pub type Kg = Quantity<Kilogram>;

impl Unit for Kilogram {
    ghost LEAST = { least_units };

    ghost MOST = { most_units };

    ghost PLACES = { 0 };

    const LEAST: i64 = LEAST_UNITS;

    const MOST: i64 = MOST_UNITS;

    const PLACES: u8 = 0;

    ghost small = { record { low = lit≤ tt; high = lit≤ tt; decimals = lit≤ tt } };
}
