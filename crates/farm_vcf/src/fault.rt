//! What is wrong with factors: lists that form no grid, a density or temperature outside it, and a text that is no factor file.

ghost use Rattle.std.specs.Prelude.{◌≡◌};
ghost use Rattle.farm_vcf.specs.declared.fault.VcfFault.TheVariants.{NoMemory};

use farm_fixed::NoMemory;
use std::alloc::{AllocError, AllocFailed};
use thiserror::Error;

/// Lists that are no grid: densities or temperatures that don't rise, another number of factors than one for each density
/// and temperature, no factor, or more than 100,000.
#[derive(Clone, Copy, Debug, PartialEq, Eq, Error)]
#[error("the densities, temperatures and factors are no grid")]
pub struct BadGrid;

/// A density or a temperature below the first listed one, or above the last.
#[derive(Clone, Copy, Debug, PartialEq, Eq, Error)]
#[error("no factor is listed for the density and the temperature")]
pub struct NoEntry;

/// Why a text is no factor file. The first of the causes below, in their order, is reported.
///
/// Records are counted from 1 after the header.
#[derive(Clone, Copy, Debug, PartialEq, Eq, Error)]
pub enum VcfFault {
    /// Some record has another number of fields than the header.
    #[error("a record has another number of fields than the header")]
    Csv,
    /// This record is the first that isn't a density, a temperature and a factor.
    #[error("record {0} isn't a density, a temperature and a factor")]
    BadField(usize),
    /// There are more than 100,000 records.
    #[error("there are more than 100,000 records")]
    TooMany,
    /// This record is the first at which the records are no grid. It is one more than their number where the last density
    /// has too few, or where there are no records.
    #[error("the records are no grid at record {0}")]
    NotGrid(usize),
    /// The call is out of memory.
    #[error("no memory")]
    NoMemory,
}

impl From<AllocError> for VcfFault {
    ghost from_gives = { λ _ fault. fault ≡ NoMemory };

    fn from(_: AllocError) -> Self {
        VcfFault::NoMemory
    }
}

impl<T: Drop> From<AllocFailed<T>> for VcfFault {
    ghost from_gives = { λ _ fault. fault ≡ NoMemory };

    fn from(_: AllocFailed<T>) -> Self {
        VcfFault::NoMemory
    }
}

impl From<NoMemory> for VcfFault {
    ghost from_gives = { λ _ fault. fault ≡ NoMemory };

    fn from(_: NoMemory) -> Self {
        VcfFault::NoMemory
    }
}
