//! The records of a custody calculation, and why one is refused.

use crate::{Centi, Dens, Fac5, Kg, Litres, Mm, Permil5};
use thiserror::Error;

/// What a tank's shell does with temperature.
#[derive(Clone, Copy, Debug, PartialEq, Eq)]
pub struct Shell {
    /// Whether it is insulated, so that the ambient temperature has no part in the shell's.
    pub insulated: bool,
    /// The linear expansion in 0.0000001 per C, from 0 to 1,000.
    pub coefficient: i64,
    /// The temperature at which the capacity table holds.
    pub reference: Centi,
}

/// What a gauge of a tank reads.
#[derive(Clone, Copy, Debug, PartialEq, Eq)]
pub struct Reading {
    /// How high the liquid stands above the datum plate.
    pub level: Mm,
    /// How high the free water stands.
    pub water: Mm,
    /// The liquid's temperature.
    pub liquid: Centi,
    /// The ambient temperature.
    pub ambient: Centi,
}

/// What a sample of the liquid says.
#[derive(Clone, Copy, Debug, PartialEq, Eq)]
pub struct Sample {
    /// The density at 15 C.
    pub density: Dens,
    /// Sediment and water, in 0.001 percent.
    pub sw: Permil5,
}

/// The ten figures of a custody calculation, in the order in which they are computed and printed.
#[derive(Clone, Copy, Debug, PartialEq, Eq)]
pub struct Quantities {
    /// Total observed volume.
    pub tov: Litres,
    /// Free water.
    pub fw: Litres,
    /// Correction for the temperature of the shell.
    pub ctsh: Fac5,
    /// Volume correction factor.
    pub vcf: Fac5,
    /// Floating roof adjustment.
    pub fra: Litres,
    /// Gross observed volume.
    pub gov: Litres,
    /// Gross standard volume.
    pub gsv: Litres,
    /// Net standard volume.
    pub nsv: Litres,
    /// Volume of sediment and water.
    pub swv: Litres,
    /// Mass in vacuum.
    pub mass: Kg,
}

/// An amount of a product in a tank, or of what was moved.
#[derive(Clone, Copy, Debug, PartialEq, Eq)]
pub struct Amount {
    /// Whole litres of net standard volume.
    pub litres: i64,
    /// Whole kilograms.
    pub kg: i64,
}

/// Why a custody calculation is refused. The first of the causes below, in their order, is reported.
#[derive(Clone, Copy, Debug, PartialEq, Eq, Error)]
pub enum ChainRule {
    /// The level is above the last row of the capacity table.
    #[error("the level is above the last row of the capacity table")]
    AboveTable,
    /// The water is above the level, or its volume above the total.
    #[error("the water is above the level")]
    WaterAboveLevel,
    /// The factor file has no entry for the density and the temperature.
    #[error("the factor file has no entry for the density and the temperature")]
    NoEntry,
    /// The level is in the critical zone of the floating roof.
    #[error("the level is in the critical zone of the floating roof")]
    CriticalZone,
    /// The gross observed volume is below zero.
    #[error("the gross observed volume is below zero")]
    Negative,
}
