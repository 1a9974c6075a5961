//! A journal cut at every length, and other damage.

use crate::files::{TWO, check_recovery};
use std::alloc::{AllocError, Global};
use std::test::Fail;
use test_checks::Checks;

// What the first bytes of a journal with two bodies are recovered as. The header ends at 17, the first record at 25, the second
// at 35, and the last gate stands there.
fn want_of(length: usize) -> &'static str {
    match length {
        0..13 => "not a journal",
        13..17 => "journal damaged at 0",
        17..25 => "journal damaged at 1",
        25..35 => "journal damaged at 2",
        35 => "journal damaged at 3",
        _ => " site one three",
    }
}

#[test]
fn a_journal_cut_short_is_damaged_where_it_ends(rt: HostRuntime) -> Result<(), Fail> {
    let mut checks = Checks::new(&rt);
    for length in 0..=TWO.len() {
        check_recovery(
            &mut checks,
            rt.alloc(),
            length,
            &TWO[..length],
            want_of(length),
        )?;
    }
    Ok(checks.end()?)
}

// The journal of two bodies with another byte at an offset.
fn changed(alloc: Global, offset: usize, byte: u8) -> Result<Vec<u8>, AllocError> {
    let mut bytes = TWO.to_vec(alloc)?;
    if let Some(at) = bytes.get_mut(offset) {
        *at = byte;
    }
    Ok(bytes)
}

// An offset, another byte that stands there, and what is recovered.
const CHANGES: &[(&str, usize, u8, &str)] = &[
    ("the first gate 0", 0, 0, "not a journal"),
    ("the first gate 2", 0, 2, "not a journal"),
    ("the first letter", 1, b'f', "not a journal"),
    ("the version", 8, b'2', "not a journal"),
    ("a header of 2^24 bytes", 9, 1, "journal damaged at 0"),
    ("a header of 2^25 bytes", 9, 2, "journal damaged at 0"),
    ("a header of 250 bytes", 12, 250, "journal damaged at 0"),
    ("a header of 3 bytes", 12, 3, " sit"),
    ("a closed gate after the header", 17, 0, " site"),
    ("a body of 2^24 bytes", 18, 1, "journal damaged at 1"),
    ("a body of 2^25 bytes", 18, 2, "journal damaged at 1"),
    ("a body of 250 bytes", 21, 250, "journal damaged at 1"),
    ("another gate after a body", 25, 0x37, " site one"),
    ("another gate at the end", 35, 0x37, " site one three"),
    ("an open gate at the end", 35, 1, "journal damaged at 3"),
];

// The journal with one change is recovered as its row says.
fn check_change<R: Print>(
    checks: &mut Checks<'_, R>,
    alloc: Global,
    (name, offset, byte, want): (&'static str, usize, u8, &str),
) -> Result<(), Fail> {
    let bytes = changed(alloc, offset, byte)?;
    check_recovery(checks, alloc, name, &bytes, want)
}

#[test]
fn damage_is_found_where_it_stands(rt: HostRuntime) -> Result<(), Fail> {
    let mut checks = Checks::new(&rt);
    for change in CHANGES {
        check_change(&mut checks, rt.alloc(), *change)?;
    }
    Ok(checks.end()?)
}

const REFUSED: &[(&str, &[u8], &str)] = &[
    (
        "the header",
        b"\x01FARMJNL1\0\0\0\x03bad\0",
        "journal damaged at 0",
    ),
    (
        "the first body",
        b"\x01FARMJNL1\0\0\0\x04site\x01\0\0\0\x03bad\0",
        "journal damaged at 1",
    ),
    (
        "the second body",
        b"\x01FARMJNL1\0\0\0\x04site\x01\0\0\0\x03one\x01\0\0\0\x03bad\0",
        "journal damaged at 2",
    ),
    (
        "nothing, of a header and a body without a byte",
        b"\x01FARMJNL1\0\0\0\0\x01\0\0\0\0\0",
        "  ",
    ),
];

#[test]
fn what_a_taker_refuses_is_damage(rt: HostRuntime) -> Result<(), Fail> {
    let mut checks = Checks::new(&rt);
    for (name, bytes, want) in REFUSED {
        check_recovery(&mut checks, rt.alloc(), *name, bytes, want)?;
    }
    Ok(checks.end()?)
}
