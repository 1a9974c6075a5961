//! A capacity table, and the volume that it gives for a level.

ghost use Rattle.std.specs.Prelude.{◌≡◌, ◌<◌, ◌-◌, ◌*◌, length, Err, IfOk, MatchResult, None, Some};
ghost use Rattle.std.specs.Int.RustNames.{unsigned_abs};
ghost use Rattle.farm_fixed.specs.Range.{IsVolume};
ghost use Rattle.farm_rounding.specs.Multiple.{IsAllowedStep};
ghost use Rattle.strap_table.specs.Capacity.{IsCapTable, row_at, table_volume, top_of};
ghost use Rattle.strap_table.specs.Faults.{HaveFault, first_fault};

use crate::faults::first_fault;
use crate::interpolation::{between, volume};
use crate::{AboveTable, TableFault};
use farm_fixed::{Litres, Mm};
use farm_rounding::Mode;
use std::marker::Model;

/// The volume of a tank at each height, in litres: row i is the volume at 10 i mm.
#[derive(Debug, Drop)]
pub struct CapTable {
    rows: Vec<i64>,
}

impl Model for CapTable {
    ghost use Rattle.std.specs.Prelude.{List, ℤ};
    ghost use Rattle.strap_table.specs.Capacity.{IsCapTable};

    ghost Value = { List ℤ };

    ghost view = { λ t. t.rows.items };

    ghost invariant = { λ t. IsCapTable t.rows.items };
}

impl CapTable {
    /// The table of these rows: from 2 to 5,001, each from 0 to 10^9 litres and none below the one before it.
    ///
    /// The faults are looked for in the order of `TableFault`, each over all rows. Takes no memory.
    pub fn from_rows(rows: Vec<i64>) -> Result<CapTable, TableFault>
        ensures first { MatchResult result (λ _. first_fault rows.items ≡ None) (λ fault. first_fault rows.items ≡ Some fault) }
        ensures meaning { MatchResult result (λ _. IsCapTable rows.items) (λ fault. HaveFault rows.items fault) }
        ensures one_answer { (fault : TableFault) → HaveFault rows.items fault → result ≡ Err fault }
        ensures rows { IfOk result (λ table. table ≡ rows.items) }
    {
        match first_fault(&rows) {
            Some(fault) => Err(fault),
            None => Ok(CapTable { rows }),
        }
    }

    /// The rows, in litres.
    pub fn rows(&self) -> &[i64]
        ensures rows { result.now ≡ self.now }
        ensures table { IsCapTable self.now }
    {
        &self.rows
    }

    /// The volume at this level, to a step of the rounding table. `AboveTable` exactly above the last row.
    ///
    /// At a row it is the row; between two rows it is interpolated. Both are rounded. Takes no memory.
    pub fn at(&self, level: Mm, step: i64, mode: Mode) -> Result<Litres, AboveTable>
        requires allowed_step { IsAllowedStep step }
        ensures volume { MatchResult result (λ volume. table_volume mode (unsigned_abs step) self.now level ≡ Some volume) (λ _. table_volume mode (unsigned_abs step) self.now level ≡ None) }
        ensures range { IfOk result IsVolume }
    {
        let height = level.get().unsigned_abs() as usize;
        let below = height / 10;
        let over = height % 10;
        let top = self.top();
        if height > top {
            return Err(AboveTable);
        }
        if over == 0 {
            return Ok(volume::<1>(self.row(below), step, mode));
        }
        let tenths = between(self.row(below), self.row(below + 1), over as i64);
        Ok(volume::<10>(tenths, step, mode))
    }

    /// The height of the last row, in mm.
    pub fn top(&self) -> usize
        ensures top { result ≡ top_of self.now }
        ensures table { IsCapTable self.now }
    {
        10 * (self.rows.len() - 1)
    }

    // The volume at row `i`.
    fn row(&self, i: usize) -> i64
        requires { i < length self.now }
        ensures value { result ≡ row_at self.now i }
        ensures range { IsVolume result }
    {
        self.rows[i]
    }
}
