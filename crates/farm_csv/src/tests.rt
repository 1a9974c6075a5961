//! Tests of the reader: records and their fields, rows below a header, and the faults of rows.

ghost use Rattle.std.specs.Prelude.{◌≡◌, ◌==◌, if◌then◌else◌, IfOk, None, Ok, Some};
ghost use Rattle.farm_csv.specs.Records.{records_of};
ghost use Rattle.farm_csv.specs.Rows.{below_header, rows_from};

use super::*;
use crate::reader::{next, reader_of};
use csv::ByteRecord;
use std::alloc::Global;
use std::test::Fail;

// Two records are rows, each the number of those above it.
struct FirstTwo;

impl RowOf for FirstTwo {
    type Row = usize;

    ghost read = { λ above fields. if above == 2 then None else Some above };

    fn read(above: usize, _fields: &ByteRecord) -> Option<usize> {
        if above == 2 { None } else { Some(above) }
    }
}

// The rows of a text.
fn first_two(alloc: Global, text: &[u8]) -> Result<Vec<usize>, CsvFault>
    ensures { IfOk result (λ rows. rows_from (λ above fields. if above == 2 then None else Some above) 0 (below_header (records_of text.now)) ≡ Ok rows.items) }
{
    rows_below_header::<FirstTwo>(alloc, text)
}

#[test]
fn rows_stand_below_a_header(rt: HostRuntime) -> Result<(), Fail> {
    let cases: [(&[u8], &[usize]); 4] = [
        (b"", &[]),
        (b"a,b", &[]),
        (b"a,b\n1,2\n\n3,4", &[0, 1]),
        (b"a\n1\n", &[0]),
    ];
    for (text, want) in cases {
        let rows = first_two(rt.alloc(), text)?;
        assert_eq!(rt; rows.as_slice(), want);
    }
    Ok(())
}

// The records of a text, each field after a bar and each record before a slash.
fn shown(alloc: Global, text: &[u8]) -> Result<Vec<u8>, Fail> {
    let mut shown = Vec::new(alloc);
    let mut reader = reader_of(alloc, text);
    let mut record = ByteRecord::new(alloc);
    while next(&mut reader, &mut record)? {
        for field in &record {
            shown.push(b'|')?;
            shown.extend_from_slice(without_blanks(field))?;
        }
        shown.push(b'/')?;
    }
    Ok(shown)
}

#[test]
fn records_and_their_fields(rt: HostRuntime) -> Result<(), Fail> {
    let cases: [(&[u8], &[u8]); 8] = [
        (b"", b""),
        (b"a,b\n1,2\n", b"|a|b/|1|2/"),
        (b"a,b\r\n1,2", b"|a|b/|1|2/"),
        (b"a\n\n\n1\n", b"|a/|1/"),
        (b"\xef\xbb\xbfa,b\n", b"|a|b/"),
        (b"\"a,b\",\"say \"\"no\"\"\"\n", b"|a,b|say \"no\"/"),
        (b" a \t,\tb c\n,\n", b"|a|b c/||/"),
        (b"\xff,\x80\n", b"|\xff|\x80/"),
    ];
    for (text, want) in cases {
        let found = shown(rt.alloc(), text)?;
        assert_eq!(rt; found.as_slice(), want);
    }
    Ok(())
}

#[test]
fn faults_of_rows(rt: HostRuntime) {
    let cases: [(&[u8], CsvFault); 5] = [
        (b"a,b\n1\n", CsvFault::Uneven),
        (b"a\n1,2\n", CsvFault::Uneven),
        (b"a,b\n1,2\n1,2,3\n", CsvFault::Uneven),
        (b"a\n1\n2\n3\n4\n", CsvFault::NoRow(3)),
        (b"a\n1\n2\n3\n4\n5,6\n", CsvFault::Uneven),
    ];
    for (text, want) in cases {
        let fault = first_two(rt.alloc(), text).err();
        assert_eq!(rt; fault, Some(want));
    }
}
