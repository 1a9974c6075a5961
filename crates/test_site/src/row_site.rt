//! The bytes of the row site.

use farm_site::Site;
use sample_site::sample_site;
use site_decoding::{SiteBytesFault, SiteFromBytes};
use site_encoding::SiteToBytes;
use std::alloc::{AllocError, Global};
use std::test::Fail;
use test_checks::Checks;

// The top has 33 bytes, the products 137, the parties 22, the tanks 1 and 6,034 each, a roof 8 more, and no lines 1.
const LEN: usize = 36_406;

// Where the number of the first tank stands, and that of the second.
const FIRST: usize = 193;

const SECOND: usize = 6_227;

// The bytes of a site.
fn bytes_of(alloc: Global, site: Site) -> Result<Vec<u8>, Fail> {
    let bytes = site.to_bytes(alloc);
    drop(site);
    Ok(bytes?)
}

// The bytes of the row site.
fn row_bytes(alloc: Global) -> Result<Vec<u8>, Fail> {
    bytes_of(alloc, sample_site(alloc)?)
}

// Whether bytes are no site's.
fn is_bad(alloc: Global, bytes: &[u8]) -> bool {
    Site::from_bytes(alloc, bytes).err() == Some(SiteBytesFault::BadSite)
}

// Where bytes of the row site stand.
const PARTS: &[(&str, usize, &[u8])] = &[
    ("the format and the name", 0, b"\x01\x07Rowsite"),
    ("the first tank", FIRST, &[0, 101, 0, 1]),
    ("the second tank", SECOND, &[0, 102, 0, 1]),
];

// As many bytes from an offset on.
fn part(bytes: &[u8], offset: usize, len: usize) -> Option<&[u8]> {
    bytes.get(offset..)?.get(..len)
}

// Each part of the bytes of the row site is as its row says.
fn check_parts<R: Print>(checks: &mut Checks<'_, R>, bytes: &[u8]) {
    for (name, offset, want) in PARTS {
        checks.same_at(name, part(bytes, *offset, want.len()), Some(*want));
    }
}

// The bytes of a site are those that it was read from.
fn check_again<R: Print>(
    checks: &mut Checks<'_, R>,
    alloc: Global,
    bytes: &[u8],
) -> Result<(), Fail> {
    let again = bytes_of(alloc, Site::from_bytes(alloc, bytes)?)?;
    checks.same_at("read and written again", again.as_slice(), bytes);
    drop(again);
    Ok(())
}

#[test]
fn the_row_site_is_read_from_its_bytes_and_written_again(rt: HostRuntime) -> Result<(), Fail> {
    let mut checks = Checks::new(&rt);
    let bytes = row_bytes(rt.alloc())?;
    checks.same_at("how many bytes", bytes.len(), LEN);
    check_parts(&mut checks, &bytes);
    let again = check_again(&mut checks, rt.alloc(), &bytes);
    drop(bytes);
    again?;
    Ok(checks.end()?)
}

// Each prefix of bytes is no site's.
fn check_prefixes<R: Print>(checks: &mut Checks<'_, R>, alloc: Global, bytes: &[u8]) {
    for len in 0..bytes.len() {
        checks.same_at(len, is_bad(alloc, &bytes[..len]), true);
    }
}

// Bytes of a site are no site's with one more.
fn check_longer<R: Print>(
    checks: &mut Checks<'_, R>,
    alloc: Global,
    bytes: &mut Vec<u8>,
) -> Result<(), AllocError> {
    bytes.push(0)?;
    checks.same_at("one byte too many", is_bad(alloc, bytes), true);
    Ok(())
}

#[test]
fn bytes_of_the_row_site_are_neither_missing_nor_too_many(rt: HostRuntime) -> Result<(), Fail> {
    let mut checks = Checks::new(&rt);
    let mut bytes = row_bytes(rt.alloc())?;
    check_prefixes(&mut checks, rt.alloc(), &bytes);
    let longer = check_longer(&mut checks, rt.alloc(), &mut bytes);
    drop(bytes);
    longer?;
    Ok(checks.end()?)
}

// Puts another byte at an offset.
fn put(bytes: &mut [u8], offset: usize, byte: u8) {
    if let Some(own) = bytes.get_mut(offset) {
        *own = byte;
    }
}

// Puts bytes at their offsets.
fn put_all(bytes: &mut [u8], puts: &[(usize, u8)]) {
    for (offset, byte) in puts {
        put(bytes, *offset, *byte);
    }
}

// Bytes put one after another, and whether the whole is no site's then.
const EDITS: &[(&str, &[(usize, u8)], bool)] = &[
    ("format 2", &[(0, 2)], true),
    ("format 1", &[(0, 1)], false),
    (
        "tank 102 before tank 101",
        &[(FIRST + 1, 102), (SECOND + 1, 101)],
        true,
    ),
];

// After each edit of the bytes of the row site the whole is as its row says.
fn check_edits<R: Print>(checks: &mut Checks<'_, R>, alloc: Global, bytes: &mut [u8]) {
    for (name, puts, want) in EDITS {
        put_all(bytes, puts);
        checks.same_at(name, is_bad(alloc, bytes), *want);
    }
}

// Where the mode of the third row of the rounding table stands, and where the roof of the last tank stands and ends.
const THIRD_MODE: usize = 14;

const ROOF: usize = 30_374;

const ROOF_END: usize = 30_383;

// The bytes of the row site in format 2, with the mode of its third row and with what follows the zone of its roof.
fn in_format_2(
    alloc: Global,
    bytes: &[u8],
    mode: u8,
    reference: &[u8],
) -> Result<Vec<u8>, AllocError> {
    let mut two = Vec::new(alloc);
    two.extend_from_slice(&bytes[..ROOF_END.min(bytes.len())])?;
    two.extend_from_slice(reference)?;
    two.extend_from_slice(&bytes[ROOF_END.min(bytes.len())..])?;
    put_all(&mut two, &[(0, 2), (THIRD_MODE, mode)]);
    Ok(two)
}

// The mode of the third row, what follows the zone of the roof, how many bytes there are, and the roof.
const FORMAT_2: &[(&str, u8, &[u8], usize, &[u8])] = &[
    (
        "a row half to even",
        2,
        &[0],
        36_407,
        &[1, 0, 1, 0x4c, 8, 5, 0xdc, 7, 8, 0],
    ),
    (
        "with the reference density 840.0",
        2,
        &[1, 0x20, 0xd0],
        36_409,
        &[1, 0, 1, 0x4c, 8, 5, 0xdc, 7, 8, 1, 0x20, 0xd0],
    ),
];

// Bytes of format 2 are as their row says, and read and written again.
fn check_format_2<R: Print>(
    checks: &mut Checks<'_, R>,
    alloc: Global,
    bytes: &[u8],
    (name, len, roof): (&str, usize, &[u8]),
) -> Result<(), Fail> {
    checks.same_at(name, bytes.len(), len);
    checks.same_at(name, part(bytes, 0, 1), Some(b"\x02".as_slice()));
    checks.same_at(
        name,
        part(bytes, THIRD_MODE - 1, 2),
        Some(b"\x01\x02".as_slice()),
    );
    checks.same_at(name, part(bytes, ROOF, roof.len()), Some(roof));
    check_again(checks, alloc, bytes)
}

#[test]
fn the_row_site_in_format_2_is_read_and_written_again(rt: HostRuntime) -> Result<(), Fail> {
    let mut checks = Checks::new(&rt);
    let bytes = row_bytes(rt.alloc())?;
    for (name, mode, reference, len, roof) in FORMAT_2 {
        let two = in_format_2(rt.alloc(), &bytes, *mode, reference)?;
        let checked = check_format_2(&mut checks, rt.alloc(), &two, (name, *len, roof));
        drop(two);
        checked?;
    }
    drop(bytes);
    Ok(checks.end()?)
}

#[test]
fn another_format_and_tanks_in_falling_order_are_no_site(rt: HostRuntime) -> Result<(), Fail> {
    let mut checks = Checks::new(&rt);
    let mut bytes = row_bytes(rt.alloc())?;
    check_edits(&mut checks, rt.alloc(), &mut bytes);
    drop(bytes);
    Ok(checks.end()?)
}
