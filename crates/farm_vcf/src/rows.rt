//! The rows of a factor file, and the grid that they are.

ghost use Rattle.std.specs.Prelude.{◌≡◌, ◌≤◌, ◌<◌, ◌∷◌, length, IfSome, MatchResult, Ok};
ghost use Rattle.farm_base.specs.Steps.{IsRefusedAs};
ghost use Rattle.farm_vcf.specs.Faults.{reported};
ghost use Rattle.farm_vcf.specs.declared.grid.TheConstants.{MOST_FACTORS};
ghost use Rattle.farm_vcf.specs.Blocks.{IsFaultOfRows, IsGridOf};
ghost use Rattle.farm_vcf.specs.Rows.{grid_of_rows};

use crate::{Growing, Vcf, VcfFault};
use farm_fixed::{Centi, Dens, Fac5};
use std::alloc::Global;

/// A row of a factor file.
#[derive(Clone, Copy, Debug)]
pub struct Listed {
    /// The density.
    pub density: Dens,
    /// The temperature.
    pub temperature: Centi,
    /// The factor for both.
    pub factor: Fac5,
}

/// The grid of these rows, or the first row at which they are no grid, as `NotGrid`. Out of memory is `NoMemory`.
///
/// At most 100,000 rows are asked for. Whatever lists factors row by row is a grid by this one rule.
pub fn grid_of_rows(alloc: Global, rows: &[Listed]) -> Result<Vcf, VcfFault>
    requires most_factors { length rows.now ≤ MOST_FACTORS }
    ensures grid { MatchResult result (λ grid. grid_of_rows rows.now ≡ Ok grid) (λ fault. IsRefusedAs (reported fault) (grid_of_rows rows.now)) }
    ensures meaning { MatchResult result (λ grid. IsGridOf rows.now grid) (λ fault. IfSome (reported fault) (IsFaultOfRows rows.now)) }
{
    match rows {
        [] => Err(VcfFault::NotGrid(1)),
        [first, others @ ..] => grid_from(alloc, *first, others),
    }
}

// The grid of a first row and of those after it.
fn grid_from(alloc: Global, first: Listed, others: &[Listed]) -> Result<Vcf, VcfFault>
    requires few { length others.now < MOST_FACTORS }
    ensures { MatchResult result (λ grid. grid_of_rows (first ∷ others.now) ≡ Ok grid) (λ fault. IsRefusedAs (reported fault) (grid_of_rows (first ∷ others.now))) }
{
    let mut growing = Growing::begin(alloc, first, others.len() + 1)?;
    for (index, row) in others.iter().enumerate() {
        if !growing.push(*row)? {
            return Err(VcfFault::NotGrid(index + 2));
        }
    }
    match growing.finish() {
        Some(grid) => Ok(grid),
        None => Err(VcfFault::NotGrid(others.len() + 2)),
    }
}
