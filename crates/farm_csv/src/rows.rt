//! The rows below the header of a text.

ghost use Rattle.std.specs.Prelude.{◌≡◌, ◌<◌, ◌^◌, ℕ, Err, List, length, MatchResult, Option};
ghost use Rattle.csv.specs.Records.{fields_of};
ghost use Rattle.farm_csv.specs.Reader.{IsAtRecord, is_even_left, left_of};
ghost use Rattle.farm_csv.specs.Records.{have_equal_lengths, records_of};
ghost use Rattle.farm_csv.specs.Rows.{AreRows, IsFaultOfRows, IsFirstNoRow, below_header};
ghost use Rattle.farm_csv.specs.declared.fault.CsvFault.TheVariants.{NoRow};

use crate::CsvFault;
use crate::reader::{next, read_on, reader_of};
use csv::{ByteRecord, Reader};
use std::alloc::Global;

/// What the records below a header are read as: each a row, or the text is refused.
pub trait RowOf {
    /// A row.
    type Row: Drop;

    ghost read: { ℕ → List (List ℕ) → Option Self.Row };

    /// The row of a record that stands below `above` rows, if it is one.
    fn read(above: usize, fields: &ByteRecord) -> Option<Self::Row>
        ensures row { result ≡ read above (fields_of fields.now) };
}

/// The rows of the records below the header of a text; none where there is no header.
///
/// `Uneven` where a record has another number of fields than the header, wherever it stands; else `NoRow` at the first record
/// that is no row.
pub fn rows_below_header<R: RowOf>(alloc: Global, text: &[u8]) -> Result<Vec<R::Row>, CsvFault>
    ensures rows { MatchResult result (λ rows. AreRows R.read (have_equal_lengths (records_of text.now)) (below_header (records_of text.now)) rows.items)
        (IsFaultOfRows R.read (have_equal_lengths (records_of text.now)) (below_header (records_of text.now))) }
    ensures first { (n : ℕ) → result ≡ Err (NoRow n) → IsFirstNoRow R.read (below_header (records_of text.now)) n }
{
    let mut reader = reader_of(alloc, text);
    let mut fields = ByteRecord::new(alloc);
    if next(&mut reader, &mut fields)? {
        rows_left::<R>(alloc, &mut reader, &mut fields)
    } else {
        Ok(Vec::new(alloc))
    }
}

// The rows of the records that a reader has left.
//
// After the first that is no row nothing is made any more, and the rest is read for the lengths of its records alone.
fn rows_left<R: RowOf>(
    alloc: Global,
    reader: &mut Reader<&[u8]>,
    fields: &mut ByteRecord,
) -> Result<Vec<R::Row>, CsvFault>
    requires at_record { IsAtRecord reader.old }
    requires countable { length (left_of reader.old) < 2 ^ 63 }
    ensures { MatchResult result (λ rows. AreRows R.read (is_even_left reader.old) (left_of reader.old) rows.items)
        (IsFaultOfRows R.read (is_even_left reader.old) (left_of reader.old)) }
{
    let mut rows = Vec::new(alloc);
    while next(reader, fields)? {
        let above = rows.len();
        match R::read(above, fields) {
            Some(row) => rows.push(row)?,
            None => {
                read_on(reader, fields)?;
                return Err(CsvFault::NoRow(above + 1));
            }
        }
    }
    Ok(rows)
}
