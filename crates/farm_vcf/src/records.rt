//! The records of a factor file, and the grid that they list.

ghost use Rattle.std.specs.Prelude.{◌≡◌, MatchResult, Ok};
ghost use Rattle.csv.specs.Records.{fields_of};
ghost use Rattle.farm_base.specs.Steps.{IsRefusedAs};
ghost use Rattle.farm_vcf.specs.Faults.{fault_of, reported};
ghost use Rattle.farm_vcf.specs.Records.{grid_within_limit, row_of, row_of_fields, vcf_of};

use crate::grid::MOST_FACTORS;
use crate::rows::{Listed, grid_of_rows};
use crate::{Vcf, VcfFault};
use csv::ByteRecord;
use farm_csv::{CsvFault, RowOf, rows_below_header, without_blanks};
use farm_fixed::{Centi, Dens, Fac5};
use std::alloc::Global;

/// The grid of a text.
pub(crate) fn vcf_of(alloc: Global, text: &[u8]) -> Result<Vcf, VcfFault>
    ensures { MatchResult result (λ grid. vcf_of text.now ≡ Ok grid) (λ fault. IsRefusedAs (reported fault) (vcf_of text.now)) }
{
    match rows_below_header::<FactorRows>(alloc, text) {
        Ok(rows) => grid_within_limit(alloc, rows.as_slice()),
        Err(fault) => Err(fault_of(fault)),
    }
}

// What a fault of the records is reported as.
fn fault_of(fault: CsvFault) -> VcfFault
    ensures { result ≡ fault_of fault }
{
    match fault {
        CsvFault::Uneven => VcfFault::Csv,
        CsvFault::NoRow(number) => VcfFault::BadField(number),
        CsvFault::NoMemory => VcfFault::NoMemory,
    }
}

// The grid of rows, of which there may be at most 100,000.
fn grid_within_limit(alloc: Global, rows: &[Listed]) -> Result<Vcf, VcfFault>
    ensures { MatchResult result (λ grid. grid_within_limit (Ok rows.now) ≡ Ok grid) (λ fault. IsRefusedAs (reported fault) (grid_within_limit (Ok rows.now))) }
{
    if rows.len() > MOST_FACTORS {
        return Err(VcfFault::TooMany);
    }
    grid_of_rows(alloc, rows)
}

// A record of a factor file is read as a density, a temperature and a factor.
struct FactorRows;

impl RowOf for FactorRows {
    type Row = Listed;

    ghost read = { λ above fields. row_of fields };

    fn read(_above: usize, fields: &ByteRecord) -> Option<Listed> {
        row_of(fields)
    }
}

// The row of a record.
fn row_of(fields: &ByteRecord) -> Option<Listed>
    ensures { result ≡ row_of (fields_of fields.now) }
{
    if fields.len() != 3 {
        return None;
    }
    let density = fields.get(0)?;
    let temperature = fields.get(1)?;
    let factor = fields.get(2)?;
    row_of_fields(density, temperature, factor)
}

/// The row of three fields, blanks at their ends dropped; `None` where one isn't the text of its quantity.
pub fn row_of_fields(density: &[u8], temperature: &[u8], factor: &[u8]) -> Option<Listed>
    ensures row_of_fields { result ≡ row_of_fields density.now temperature.now factor.now }
{
    let Ok(density) = Dens::read(without_blanks(density)) else {
        return None;
    };
    let Ok(temperature) = Centi::read(without_blanks(temperature)) else {
        return None;
    };
    let Ok(factor) = Fac5::read(without_blanks(factor)) else {
        return None;
    };
    Some(Listed {
        density,
        temperature,
        factor,
    })
}
