//! The factor lines of the form `table`.

ghost use Rattle.std.specs.Prelude.{◌≡◌, ℕ, ◌+◌, ◌<◌, ◌≤◌, List, drop, length, IfOk, MatchResult, Some, None, Ok, true, false};
ghost use Rattle.farm_base.specs.Steps.{IsRefusedAs};
ghost use Rattle.farm_vcf.specs.declared.grid.TheConstants.{MOST_FACTORS};
ghost use Rattle.strap_table.specs.declared.faults.TheConstants.{MOST_ROWS};
ghost use Rattle.calc_input.specs.FactorRows.{grid_from, grown_line, listed_of};
ghost use Rattle.calc_input.specs.Forms.{refused_line};

use crate::fault::FormFault;
use crate::lines::{Lines, first_field};
use farm_base::NoMemory;
use farm_vcf::{Growing, Listed, Vcf, row_of_fields};
use std::alloc::Global;

// The grid of the next `count` lines, after the first `first` ones.
pub(crate) fn grid_from(
    alloc: Global,
    count: usize,
    first: usize,
    lines: &mut Lines<'_>,
) -> Result<Vcf, FormFault>
    requires some { 0 < count }
    requires count { count ≤ MOST_FACTORS }
    requires first { first ≤ MOST_ROWS + 2 }
    ensures grid { (all : List (List ℕ)) → lines.old ≡ drop first all → MatchResult result (λ grid. grid_from count first all ≡ Ok grid)
        (λ fault. IsRefusedAs (refused_line fault) (grid_from count first all)) }
    ensures rest { IfOk result (λ _. lines.new ≡ drop count lines.old) }
{
    let Some(row) = listed_of(lines.due()) else {
        return Err(FormFault::Line(first + 1));
    };
    let mut growing = Growing::begin(alloc, row, count)?;
    for index in 1..count {
        if !push_line(&mut growing, lines.due())? {
            return Err(FormFault::Line(first + index + 1));
        }
    }
    match growing.finish() {
        Some(grid) => Ok(grid),
        None => Err(FormFault::Line(first + count)),
    }
}

// Takes the row that a line is. False if it is no row, or doesn't continue the rows before.
fn push_line(growing: &mut Growing, line: &[u8]) -> Result<bool, NoMemory>
    ensures on { result ≡ Ok true → grown_line growing.old (listed_of line.now) ≡ Some growing.new }
    ensures off { result ≡ Ok false → grown_line growing.old (listed_of line.now) ≡ None }
    ensures counted { result ≡ Ok true → length growing.new.factors ≡ length growing.old.factors + 1 }
{
    match listed_of(line) {
        Some(row) => growing.push(row),
        None => Ok(false),
    }
}

// The row of the factor grid that a line is: three fields, separated by commas.
#[tactic(auto, unfolding(crate::specs::FactorRows::listed_of))]
fn listed_of(line: &[u8]) -> Option<Listed>
    ensures { result ≡ listed_of line.now }
{
    let (density, rest) = first_field(line)?;
    let (temperature, factor) = first_field(rest)?;
    match first_field(factor) {
        Some(_) => None,
        None => row_of_fields(density, temperature, factor),
    }
}
