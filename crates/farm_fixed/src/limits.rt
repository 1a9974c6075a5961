//! Limits of quantities, of a tank, its volumes and its roof.

/// The greatest number of units that any quantity has.
pub const MOST_UNITS: i64 = 100_000_000_000_000_000;

/// The least number of units that any quantity has.
pub const LEAST_UNITS: i64 = -100_000_000_000_000_000;

/// The greatest height of a tank, in mm.
pub const MOST_HEIGHT: i64 = 50_000;

/// The greatest circumference, deduction or thickness, in 0.1 mm.
pub const MOST_TENTHS: i64 = 5_000_000;

/// The lowest temperature, in 0.01 C.
pub const LEAST_TEMPERATURE: i64 = -10_000;

/// The highest temperature, in 0.01 C.
pub const MOST_TEMPERATURE: i64 = 30_000;

/// The least density at 15 C, in 0.1 kg/m3.
pub const LEAST_DENSITY: i64 = 4_000;

/// The greatest density at 15 C, in 0.1 kg/m3.
pub const MOST_DENSITY: i64 = 12_000;

/// The least factor, in 0.00001.
pub const LEAST_FACTOR: i64 = 50_000;

/// The greatest factor, in 0.00001.
pub const MOST_FACTOR: i64 = 150_000;

/// The greatest share, the whole, in 0.001 percent.
pub const MOST_SHARE: i64 = 100_000;

/// The most litres of a row of a capacity table, of an observed volume, and of a deadwood either way.
pub const MOST_LITRES: i64 = 1_000_000_000;

/// A bound on the litres of net standard volume, and on the kilograms of mass, that a calculation answers.
pub const MOST_NET: u64 = 3_000_000_000;

/// The most kilograms of a floating roof.
pub const MOST_ROOF_MASS: i64 = 10_000_000;

/// The greatest linear expansion of a shell, in 0.0000001 per C.
pub const MOST_COEFFICIENT: i64 = 1_000;
