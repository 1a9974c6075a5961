//! A reader over a text, taken from one record to the next.

ghost use Rattle.std.specs.Prelude.{◌≡◌, ◌∷◌, [], true, false, IfErr, IfOk, OnOk};
ghost use Rattle.csv.specs.Reading.{error_kind};
ghost use Rattle.csv.specs.Records.{fields_of};
ghost use Rattle.farm_csv.specs.Reader.{IsAtRecord, fault_of, is_even_left, left_of};
ghost use Rattle.farm_csv.specs.Records.{have_equal_lengths, records_of};
ghost use Rattle.farm_csv.specs.Rows.{IsFaultOfLengths};

use crate::CsvFault;
use csv::{ByteRecord, Error, ErrorKind, Reader, ReaderBuilder};
use std::alloc::Global;

/// A reader that stands before the first record of a text.
pub(crate) fn reader_of(alloc: Global, text: &[u8]) -> Reader<&[u8]>
    ensures at_record { IsAtRecord result }
    ensures left { left_of result ≡ records_of text.now }
    ensures even { is_even_left result ≡ have_equal_lengths (records_of text.now) }
{
    ReaderBuilder::new()
        .has_headers(false)
        .from_reader(alloc, text)
}

/// Reads the next record into `fields`, and says whether there was one.
pub(crate) fn next(reader: &mut Reader<&[u8]>, fields: &mut ByteRecord) -> Result<bool, CsvFault>
    requires at_record { IsAtRecord reader.old }
    ensures at_record { IfOk result (λ found. found ≡ true → IsAtRecord reader.new) }
    ensures record { IfOk result (λ found. found ≡ true → left_of reader.old ≡ fields_of fields.new ∷ left_of reader.new) }
    ensures even { IfOk result (λ found. found ≡ true → is_even_left reader.old ≡ is_even_left reader.new) }
    ensures end { IfOk result (λ found. found ≡ false → left_of reader.old ≡ []) }
    ensures all_even { IfOk result (λ found. found ≡ false → is_even_left reader.old ≡ true) }
    ensures fault { IfErr result (IsFaultOfLengths (is_even_left reader.old)) }
{
    match reader.read_byte_record(fields) {
        Ok(found) => Ok(found),
        Err(error) => Err(fault_of(&error)),
    }
}

/// Reads on to the end of the text, to see whether a record has another number of fields than the first.
pub(crate) fn read_on(reader: &mut Reader<&[u8]>, fields: &mut ByteRecord) -> Result<(), CsvFault>
    requires at_record { IsAtRecord reader.old }
    ensures even { OnOk result (is_even_left reader.old ≡ true) }
    ensures fault { IfErr result (IsFaultOfLengths (is_even_left reader.old)) }
{
    'records: while next(reader, fields)? {}
    Ok(())
}

// What an error of the reader is reported as. Over bytes in memory the only one but unequal lengths is out of memory.
fn fault_of(error: &Error) -> CsvFault
    ensures { result ≡ fault_of (error_kind error.now) }
{
    match error.kind() {
        ErrorKind::UnequalLengths { .. } => CsvFault::Uneven,
        _ => CsvFault::NoMemory,
    }
}
