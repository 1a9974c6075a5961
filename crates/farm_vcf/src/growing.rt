//! A factor grid that grows row by row.

ghost use Rattle.std.specs.Prelude.{◌≡◌, ◌≢◌, ◌+◌, ◌<◌, ◌∷◌, List, length, IfOk, OnOk, Some, None, Ok, true, false};
ghost use Rattle.farm_vcf.specs.declared.rows.Listed.{Listed};
ghost use Rattle.farm_vcf.specs.GrowingRows.{Finishes, begun, first_grown, grown_by, grown_on, later_grown};
ghost use Rattle.farm_vcf.specs.Rows.{continues, grid_of_rows, next_column};

use crate::Vcf;
use crate::rows::Listed;
use farm_fixed::{Centi, Dens, Fac5, NoMemory};
use std::alloc::Global;
use std::marker::Model;

/// The rows of a factor grid so far.
#[derive(Debug, Drop)]
pub struct Growing {
    densities: Vec<Dens>,
    temperatures: Vec<Centi>,
    factors: Vec<Fac5>,
    density: Dens,
    temperature: Centi,
    column: usize,
}

impl Model for Growing {
    ghost use Rattle.std.specs.Prelude.{◌<◌, length};
    ghost use Rattle.farm_vcf.specs.GrowingRows.{Grown};

    ghost Value = { Grown };

    ghost view = { λ g. record {
      densities = g.densities.items;
      temperatures = g.temperatures.items;
      factors = g.factors.items;
      density = g.density;
      temperature = g.temperature;
      column = g.column;
    } };

    ghost invariant = { λ g. g.column < length g.temperatures.items };
}

impl Growing {
    /// One row, with room for the factors of this many.
    pub fn begin(alloc: Global, row: Listed, rows: usize) -> Result<Growing, NoMemory>
        ensures begun { IfOk result (λ growing. growing ≡ begun row) }
        ensures grows { IfOk result (λ growing. (rows : List Listed) → grid_of_rows (row ∷ rows) ≡ grown_on growing rows) }
    {
        let mut densities = Vec::new(alloc);
        let mut temperatures = Vec::new(alloc);
        let mut factors = Vec::with_capacity(alloc, rows)?;
        densities.push(row.density)?;
        temperatures.push(row.temperature)?;
        factors.push(row.factor)?;
        Ok(Growing {
            densities,
            temperatures,
            factors,
            density: row.density,
            temperature: row.temperature,
            column: 0,
        })
    }

    /// Takes a row more, and says whether it continues those before.
    pub fn push(&mut self, row: Listed) -> Result<bool, NoMemory>
        ensures grown { result ≡ Ok true → grown_by self.old row ≡ Some self.new }
        ensures broken { result ≡ Ok false → grown_by self.old row ≡ None }
        ensures counted { result ≡ Ok true → length self.new.factors ≡ length self.old.factors + 1 }
        ensures as_before { result ≢ Ok true → self.new ≡ self.old }
    {
        if self.densities.len() == 1 && row.density.get() == self.density.get() {
            self.push_first(row)
        } else {
            self.push_later(row)
        }
    }

    /// The grid of the rows, `None` where the last block is short.
    pub fn finish(self) -> Option<Vcf>
        ensures finishes { Finishes self result }
    {
        if self.column != 0 {
            return None;
        }
        Vcf::from_grid(self.densities, self.temperatures, self.factors).ok()
    }

    // Takes a row more of the first block.
    fn push_first(&mut self, row: Listed) -> Result<bool, NoMemory>
        ensures grown { result ≡ Ok true → first_grown self.old row ≡ Some self.new }
        ensures broken { result ≡ Ok false → first_grown self.old row ≡ None }
        ensures counted { result ≡ Ok true → length self.new.factors ≡ length self.old.factors + 1 }
        ensures as_before { result ≢ Ok true → self.new ≡ self.old }
    {
        if row.temperature.get() <= self.temperature.get() {
            return Ok(false);
        }
        self.temperatures.reserve(1)?;
        self.factors.reserve(1)?;
        self.temperatures.push_reserved(row.temperature);
        self.factors.push_reserved(row.factor);
        self.temperature = row.temperature;
        Ok(true)
    }

    // Takes a row more of a later block.
    fn push_later(&mut self, row: Listed) -> Result<bool, NoMemory>
        ensures grown { result ≡ Ok true → later_grown self.old row ≡ Some self.new }
        ensures broken { result ≡ Ok false → later_grown self.old row ≡ None }
        ensures counted { result ≡ Ok true → length self.new.factors ≡ length self.old.factors + 1 }
        ensures as_before { result ≢ Ok true → self.new ≡ self.old }
    {
        if !continues(
            self.temperatures[self.column],
            self.density,
            self.column,
            &row,
        ) {
            return Ok(false);
        }
        self.densities.reserve(1)?;
        self.factors.reserve(1)?;
        if self.column == 0 {
            self.densities.push_reserved(row.density);
        }
        self.factors.push_reserved(row.factor);
        self.density = row.density;
        self.column = next_column(self.temperatures.len(), self.column);
        Ok(true)
    }
}

// Whether a row continues the blocks.
fn continues(temperature: Centi, before: Dens, column: usize, row: &Listed) -> bool
    ensures { result ≡ continues temperature before column row.now }
{
    let density = row.density.get();
    row.temperature.get() == temperature.get()
        && if column == 0 {
            before.get() < density
        } else {
            density == before.get()
        }
}

// The column after this one.
fn next_column(width: usize, column: usize) -> usize
    requires { column < width }
    ensures value { result ≡ next_column width column }
    ensures within { result < width }
{
    if column + 1 == width { 0 } else { column + 1 }
}
