//! Capacity tables of a site.

ghost use Rattle.std.specs.Prelude.{◌≡◌, ◌*◌, ◌-◌, pos, MatchResult, Ok, IfErr};
ghost use Rattle.std.specs.Ordering.{int_eq};
ghost use Rattle.csv.specs.Records.{fields_of};
ghost use Rattle.farm_base.specs.Steps.{IsRefusedAs};
ghost use Rattle.site_keys.specs.Faults.{IsNotTheFolders, reported};
ghost use Rattle.site_tables.specs.Tables.{fault_of, litres_at, litres_of, number_in, table_of_file, table_of_rows};

use csv::ByteRecord;
use farm_csv::{CsvFault, RowOf, rows_below_header, without_blanks};
use farm_fixed::whole_number;
use site_keys::{FIELD, SiteFault, SiteReadFault, TABLE, TEXT, bad, bad_at};
use std::alloc::Global;
use strap_table::{CapTable, TableFault};

/// The capacity table of a file: a header that isn't looked at, and a level and its litres each 10 mm.
pub fn table_of_file(alloc: Global, item: u32, bytes: &[u8]) -> Result<CapTable, SiteReadFault>
    ensures table { MatchResult result (λ table. table_of_file item bytes.now ≡ Ok table) (λ fault. IsRefusedAs (reported fault) (table_of_file item bytes.now)) }
    ensures not_the_folders { IfErr result IsNotTheFolders }
{
    match rows_below_header::<Litres>(alloc, bytes) {
        Ok(rows) => Ok(table_of_rows(item, rows)?),
        Err(fault) => Err(fault_of(item, fault)),
    }
}

// What a fault of the records is reported as.
fn fault_of(item: u32, fault: CsvFault) -> SiteReadFault
    ensures fault { result ≡ fault_of item fault }
    ensures not_the_folders { IsNotTheFolders result }
{
    match fault {
        CsvFault::Uneven => bad(TEXT, item).into(),
        CsvFault::NoRow(number) => bad_at(FIELD, item, number).into(),
        CsvFault::NoMemory => SiteReadFault::NoMemory,
    }
}

/// The capacity table of rows.
pub(crate) fn table_of_rows(item: u32, rows: Vec<i64>) -> Result<CapTable, SiteFault>
    ensures table { result ≡ table_of_rows item rows.items }
{
    match CapTable::from_rows(rows) {
        Ok(table) => Ok(table),
        Err(TableFault::OutOfRange(row) | TableFault::Falling(row)) => Err(bad_at(
            TABLE, item, row,
        )),
        Err(TableFault::Short | TableFault::TooMany) => Err(bad(TABLE, item)),
    }
}

// A record of a table file is read as the litres at the expected level.
struct Litres;

impl RowOf for Litres {
    type Row = i64;

    ghost read = { λ above fields. litres_of (10 * above) fields };

    fn read(above: usize, fields: &ByteRecord) -> Option<i64> {
        litres_of(above, fields)
    }
}

// The litres of a record whose level is that of row `row`.
#[tactic(auto, unfolding(crate::specs::Tables::litres_of))]
fn litres_of(row: usize, fields: &ByteRecord) -> Option<i64>
    ensures { result ≡ litres_of (10 * row) (fields_of fields.now) }
{
    if fields.len() != 2 {
        return None;
    }
    litres_at(row, number_in(fields, 0), number_in(fields, 1))
}

// The litres at a level, where it is that of row `row`.
fn litres_at(row: usize, level: Option<i64>, litres: Option<i64>) -> Option<i64>
    ensures { result ≡ litres_at (10 * row) level litres }
{
    if is_due(level?, row) { litres } else { None }
}

// The whole number in a field, blanks at its ends dropped.
#[tactic(auto, unfolding(crate::specs::Tables::number_in))]
fn number_in(fields: &ByteRecord, n: usize) -> Option<i64>
    ensures { result ≡ number_in (fields_of fields.now) n }
{
    match fields.get(n) {
        Some(field) => whole_number(without_blanks(field)),
        None => None,
    }
}

// Whether a level is that of row `row`.
fn is_due(level: i64, row: usize) -> bool
    ensures { result ≡ int_eq level (pos (10 * row)) }
{
    u64::try_from(level).is_ok_and(|level| level % 10 == 0 && level / 10 == row as u64)
}
