//! The rounding table: how each figure of the custody calculation is rounded.

ghost use Rattle.std.specs.Prelude.{◌≡◌, ◌≤◌, ◌+◌, ◌/◌, ◌^◌, None, Some, IfErr, IfOk, OnOk, pos, ◌≤ℤ◌};
ghost use Rattle.std.specs.Int.RustNames.{unsigned_abs};
ghost use Rattle.farm_rounding.specs.Multiple.{IsAllowedStep};
ghost use Rattle.farm_rounding.specs.Table.{IsFirstBadRow, IsTable, first_bad_row, is_row, row_at, rounded, usual_rows};

use crate::{Mode, nearest};
use std::marker::Model;
use thiserror::Error;

/// The mean of three tapes, in mm.
pub const TAPE_MEAN: u8 = 1;
/// A liquid temperature, in 0.01 C.
pub const LIQUID_TEMPERATURE: u8 = 2;
/// A row of a strapped capacity table, in litres.
pub const STRAPPED_ROW: u8 = 3;
/// The part of one deadwood, in litres.
pub const DEADWOOD_PART: u8 = 4;
/// A total observed volume or a volume of free water, in litres.
pub const TABLE_VOLUME: u8 = 5;
/// The correction for the temperature of the shell, in 0.00001.
pub const SHELL_CORRECTION: u8 = 6;
/// Which of two listed values a tie of the factor grid takes. Only the mode is used.
pub const FACTOR_TIES: u8 = 7;
/// The adjustment for a floating roof, in litres.
pub const ROOF_ADJUSTMENT: u8 = 8;
/// A gross observed volume, in litres.
pub const GROSS_OBSERVED: u8 = 9;
/// A gross standard volume, in litres.
pub const GROSS_STANDARD: u8 = 10;
/// A net standard volume, in litres.
pub const NET_STANDARD: u8 = 11;
/// A mass, in kg.
pub const MASS: u8 = 12;

/// How many rows a rounding table has.
pub const ROUNDING_ROWS: usize = 12;

/// Rows that are no rounding table: the number, from 1, of the first row whose step isn't 1, 2, 5, 10, 20, 50 or 100, or of
/// the seventh row with another step than 1.
#[derive(Clone, Copy, Debug, PartialEq, Eq, Error)]
#[error("row {0} of the rounding table has a step that it may not have")]
pub struct BadRow(pub u8);

/// How each of twelve figures is rounded: a step and a mode.
///
/// Each step is 1, 2, 5, 10, 20, 50 or 100 units of its figure, and that of the factor ties is 1.
#[derive(Clone, Copy, Debug)]
pub struct RoundTable {
    rows: [(u8, Mode); ROUNDING_ROWS],
}

impl Model for RoundTable {
    ghost use Rattle.std.specs.Prelude.{List};
    ghost use Rattle.farm_rounding.specs.Table.{Row, IsTable};

    ghost Value = { List Row };

    ghost view = { λ t. t.rows };

    ghost invariant = { λ t. IsTable t.rows };

    ghost inverse = { λ rows. record { rows = rows } };
}

impl RoundTable {
    /// The table of these rows, each a step and a mode.
    pub fn new(rows: [(u8, Mode); ROUNDING_ROWS]) -> Result<RoundTable, BadRow>
        ensures rows { IfOk result (λ table. table ≡ rows) }
        ensures good { OnOk result (first_bad_row 1 rows ≡ None) }
        ensures bad { IfErr result (λ bad. first_bad_row 1 rows ≡ Some bad.0) }
        ensures allowed { OnOk result (IsTable rows) }
        ensures first_bad { IfErr result (λ bad. IsFirstBadRow rows bad.0) }
    {
        for (index, row) in rows.iter().enumerate() {
            let number = index as u8 + 1;
            if !is_row(number, *row) {
                return Err(BadRow(number));
            }
        }
        Ok(RoundTable { rows })
    }

    /// The table in use where a site gives no other: half away from zero, to 5 units for the liquid temperature and to 1 elsewhere.
    pub fn usual() -> RoundTable
        ensures usual_rows { result ≡ usual_rows }
    {
        let mut rows = [(1, Mode::HalfAway); ROUNDING_ROWS];
        rows[1] = (5, Mode::HalfAway);
        RoundTable { rows }
    }

    /// The step and the mode of row `n`, counted from 1.
    pub fn row(&self, n: u8) -> (i64, Mode)
        requires low { 1 ≤ n }
        requires high { n ≤ ROUNDING_ROWS }
        ensures step { result.0 ≡ pos (row_at self.now n).0 }
        ensures mode { result.1 ≡ (row_at self.now n).1 }
        ensures allowed { IsAllowedStep result.0 }
        ensures ties { n ≡ FACTOR_TIES → result.0 ≡ pos 1 }
    {
        let (step, mode) = self.rows[n as usize - 1];
        (i64::from(step), mode)
    }

    /// `num / den` rounded by row `n`, counted from 1.
    pub fn round(&self, n: u8, num: i128, den: i128) -> i128
        requires row_low { 1 ≤ n }
        requires row_high { n ≤ ROUNDING_ROWS }
        requires numerator { unsigned_abs num ≤ 10 ^ 36 }
        requires denominator_low { pos 1 ≤ℤ den }
        requires denominator_high { den ≤ℤ pos (10 ^ 20) }
        ensures rounded { result ≡ rounded self.now n num (unsigned_abs den) }
        ensures above { unsigned_abs result ≤ unsigned_abs num / unsigned_abs den + 100 }
        ensures below { unsigned_abs num / unsigned_abs den ≤ unsigned_abs result + 100 }
        ensures size { unsigned_abs result ≤ unsigned_abs num + 100 }
        ensures sign { pos 0 ≤ℤ num → pos 0 ≤ℤ result }
    {
        let (step, mode) = self.row(n);
        nearest(num, den, step, mode)
    }
}

// Whether row `number` may be this one.
fn is_row(number: u8, row: (u8, Mode)) -> bool
    ensures { result ≡ is_row number row }
{
    let (step, _) = row;
    matches!(step, 1 | 2 | 5 | 10 | 20 | 50 | 100) && (number != FACTOR_TIES || step == 1)
}
