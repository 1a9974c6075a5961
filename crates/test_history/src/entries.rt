//! Entries as bytes one by one, and the offsets of bad bytes.

ghost use Rattle.farm_history.specs.History.{IsWellFormed};

use crate::entry_bytes::{
    CANCEL, CLOSING, CLOSING_OF_TWO, DIP, LAST, RECEIPT, REVERSE, SETTLE, STOP, TRANSFER,
};
use crate::entry_rows::{ENDS, Entries, MOVEMENTS, READINGS, SETTLEMENTS};
use farm_base::NoMemory;
use farm_history::{BadEntry, Entry};
use std::alloc::Global;
use std::test::Fail;
use test_checks::{Checks, shared};

// The bytes of an entry.
fn written(alloc: Global, entry: &Entry) -> Result<Vec<u8>, NoMemory>
    requires { IsWellFormed entry.now }
{
    let mut out = Vec::new(alloc);
    if let Err(fault) = entry.write(&mut out) {
        drop(out);
        return Err(fault);
    }
    Ok(out)
}

// An entry is read from its bytes, and has these bytes.
fn check_entry<R: Print>(
    checks: &mut Checks<'_, R>,
    alloc: Global,
    name: &str,
    entry: &Entry,
    bytes: &[u8],
) {
    let read = shared(Entry::read(bytes));
    checks.same_at(name, read.as_ref(), Ok(entry));
    if let Ok(read) = read {
        let written = written(alloc, &read);
        checks.same_at(name, written.as_deref(), Ok(bytes));
        drop((written, read));
    }
}

// Each entry is read from its bytes, and has these bytes.
fn check_entries<R: Print>(checks: &mut Checks<'_, R>, alloc: Global, entries: Entries) {
    for (name, entry, bytes) in entries {
        check_entry(checks, alloc, name, entry, bytes);
    }
}

// The offset of the first bad byte.
fn bad_offset(bytes: &[u8]) -> Option<usize> {
    match Entry::read(bytes) {
        Ok(entry) => {
            drop(entry);
            None
        }
        Err(bad) => Some(bad.0),
    }
}

#[test]
fn entries_have_their_bytes(rt: HostRuntime) -> Result<(), Fail> {
    let mut checks = Checks::new(&rt);
    check_entries(&mut checks, rt.alloc(), READINGS);
    Ok(checks.end()?)
}

#[test]
fn entries_of_movements_have_their_bytes(rt: HostRuntime) -> Result<(), Fail> {
    let mut checks = Checks::new(&rt);
    check_entries(&mut checks, rt.alloc(), MOVEMENTS);
    Ok(checks.end()?)
}

#[test]
fn entries_that_end_movements_have_their_bytes(rt: HostRuntime) -> Result<(), Fail> {
    let mut checks = Checks::new(&rt);
    check_entries(&mut checks, rt.alloc(), ENDS);
    Ok(checks.end()?)
}

#[test]
fn a_settlement_has_its_bytes(rt: HostRuntime) -> Result<(), Fail> {
    let mut checks = Checks::new(&rt);
    check_entries(&mut checks, rt.alloc(), SETTLEMENTS);
    Ok(checks.end()?)
}

// The offset of the first bad byte of an entry with another byte at an offset.
fn bad_offset_with(entry: &[u8], offset: usize, byte: u8) -> Option<usize> {
    let mut bytes = [0; 64];
    for (copy, own) in bytes.iter_mut().zip(entry) {
        *copy = *own;
    }
    if let Some(own) = bytes.get_mut(offset) {
        *own = byte;
    }
    bad_offset(&bytes[..entry.len().min(64)])
}

// The same of an entry and one byte more.
fn bad_offset_of_longer(entry: &[u8]) -> Option<usize> {
    let mut longer = [0; 64];
    if let Some(front) = longer.get_mut(..entry.len()) {
        front.copy_from_slice(entry);
    }
    bad_offset(&longer[..(entry.len() + 1).min(64)])
}

// The first bytes of an entry are bad where they end.
fn check_first_bytes<R: Print>(checks: &mut Checks<'_, R>, name: &str, entry: &[u8]) {
    for length in 0..entry.len() {
        let offset = bad_offset(&entry[..length]);
        checks.same_at(name, (length, offset), (length, Some(length)));
    }
}

// An entry, an offset, a byte that can't stand there, and the offset of the first bad byte.
type BadBytes = &'static [(&'static str, &'static [u8], usize, u8, usize)];

const BAD_BYTES: BadBytes = &[
    ("the tag 0", &STOP, 24, 0, 24),
    ("a settlement without its fields", &STOP, 24, 7, 25),
    ("the tag 0 with fields", &SETTLE, 24, 0, 24),
    ("the tag 10 with fields", &SETTLE, 24, 10, 24),
    ("the way 0", &RECEIPT, 25, 0, 25),
    ("the way 4", &RECEIPT, 25, 4, 25),
    ("a transfer without its last fields", &RECEIPT, 25, 3, 38),
    ("neither one tank nor two", &CLOSING, 37, 2, 37),
    ("a second tank without its fields", &CLOSING, 37, 1, 38),
    ("fields of no second tank", &CLOSING_OF_TWO, 37, 0, 38),
    ("a gauge without its last fields", &CANCEL, 24, 1, 29),
    ("the tag 10", &STOP, 24, 10, 24),
    ("a gauge without its fields", &STOP, 24, 1, 25),
    ("a moment one second late", &LAST, 23, 1, 23),
    ("a moment below zero", &LAST, 16, 0x80, 16),
    (
        "a moment too great from its fourth byte on",
        &LAST,
        19,
        0x3b,
        19,
    ),
    ("a dip's kind", &DIP, 27, 2, 27),
    ("nine tapes", &DIP, 28, 9, 28),
    ("nine tapes of the water", &DIP, 45, 9, 45),
    ("nine temperatures", &DIP, 46, 9, 46),
];

// Each entry has no bad byte, and one where its row says once its byte is replaced.
fn check_bad_bytes<R: Print>(checks: &mut Checks<'_, R>, rows: BadBytes) {
    for (name, whole, offset, byte, want) in rows {
        checks.same_at(name, bad_offset(whole), None);
        checks.same_at(name, bad_offset_with(whole, *offset, *byte), Some(*want));
    }
}

// Entries, and where the byte after each stands.
type Ends = &'static [(&'static str, &'static [u8], usize)];

const LONGER: Ends = &[
    ("a receipt", &RECEIPT, 38),
    ("a transfer", &TRANSFER, 46),
    ("a closing", &CLOSING, 38),
    ("a closing of two tanks", &CLOSING_OF_TWO, 46),
    ("a cancel", &CANCEL, 29),
    ("a reversal", &REVERSE, 29),
    ("a settlement", &SETTLE, 35),
    ("a dip", &DIP, 63),
];

// The first bytes of each entry are bad where they end, and one byte more where it stands.
fn check_ends<R: Print>(checks: &mut Checks<'_, R>, rows: Ends) {
    for (name, entry, want) in rows {
        check_first_bytes(checks, name, entry);
        checks.same_at(name, bad_offset_of_longer(entry), Some(*want));
    }
}

#[test]
fn a_bad_byte_is_refused_at_its_offset(rt: HostRuntime) -> Result<(), Fail> {
    let mut checks = Checks::new(&rt);
    check_bad_bytes(&mut checks, BAD_BYTES);
    check_first_bytes(&mut checks, "a Stop", &STOP);
    check_ends(&mut checks, LONGER);
    Ok(checks.end()?)
}

#[test]
fn a_bad_entry_has_a_text(rt: HostRuntime) -> Result<(), Fail> {
    let mut checks = Checks::new(&rt);
    let text = format!(in rt.alloc(); "{}", shared(BadEntry(24)))?;
    checks.same(text.as_str(), "no entry: byte 24 can't stand there");
    drop(text);
    Ok(checks.end()?)
}
