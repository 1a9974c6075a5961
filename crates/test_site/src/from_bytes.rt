//! A site from its bytes, and bytes that are no site's.

use crate::bytes::BYTES;
use farm_site::Site;
use site_decoding::{SiteBytesFault, SiteFromBytes};
use site_encoding::SiteToBytes;
use std::alloc::Global;
use std::test::Fail;
use test_checks::Checks;

// Where the count of the tanks stands, the tank, the lines, the count of the gauges, and the gauge.
const TANKS: usize = 66;

const TANK: usize = 67;

const LINES: usize = 113;

const GAUGES: usize = 118;

const GAUGE: usize = 119;

/// Some bytes of the site.
pub(crate) fn bytes_from(start: usize, end: usize) -> &'static [u8] {
    BYTES.get(start..end).unwrap_or(&[])
}

/// Bytes in a row.
pub(crate) fn joined(alloc: Global, parts: &[&[u8]]) -> Result<Vec<u8>, Fail> {
    let mut bytes = Vec::new(alloc);
    for part in parts {
        bytes.extend_from_slice(part)?;
    }
    Ok(bytes)
}

/// Why these parts in a row are no site's bytes.
pub(crate) fn fault_of(alloc: Global, parts: &[&[u8]]) -> Result<Option<SiteBytesFault>, Fail> {
    let bytes = joined(alloc, parts)?;
    Ok(Site::from_bytes(alloc, &bytes).err())
}

/// They are no site's bytes.
pub(crate) const BAD: Option<SiteBytesFault> = Some(SiteBytesFault::BadSite);

#[test]
fn a_site_is_read_from_its_bytes_and_written_as_it_was(rt: HostRuntime) -> Result<(), Fail> {
    let mut checks = Checks::new(&rt);
    let site = Site::from_bytes(rt.alloc(), BYTES)?;
    let bytes = site.to_bytes(rt.alloc());
    drop(site);
    checks.same(bytes?.as_slice(), BYTES);
    Ok(checks.end()?)
}

#[test]
fn bytes_are_neither_missing_nor_too_many(rt: HostRuntime) -> Result<(), Fail> {
    let mut checks = Checks::new(&rt);
    for length in 0..BYTES.len() {
        let fault = fault_of(rt.alloc(), &[bytes_from(0, length)])?;
        checks.same_at(length, fault, BAD);
    }
    let fault = fault_of(rt.alloc(), &[BYTES, &[0]])?;
    checks.same_at("one byte too many", fault, BAD);
    Ok(checks.end()?)
}

// An offset, a byte that may not stand there, and what it would say.
const BAD_BYTES: [(usize, u8, &str); 7] = [
    (0, 2, "another format"),
    (3, 3, "a step that no row may have"),
    (4, 2, "another mode"),
    (70, 2, "a product that the site doesn't have"),
    (71, 2, "another insulation"),
    (78, 2, "a roof that is neither there nor missing"),
    (128, 4, "flags of no field"),
];

#[test]
fn a_byte_that_may_not_stand_there_is_bad(rt: HostRuntime) -> Result<(), Fail> {
    let mut checks = Checks::new(&rt);
    for (offset, byte, what) in BAD_BYTES {
        let front = bytes_from(0, offset);
        let rest = bytes_from(offset.saturating_add(1), BYTES.len());
        let fault = fault_of(rt.alloc(), &[front, &[byte], rest])?;
        checks.same_at(what, fault, BAD);
    }
    Ok(checks.end()?)
}

// The numbers of the tank and of the same tank once more, and why they are no site's.
const TWO_TANKS: [(&str, u8, u8, Option<SiteBytesFault>); 3] = [
    ("tanks in rising order", 6, 7, None),
    ("equal tank numbers", 7, 7, BAD),
    ("tanks in falling order", 7, 6, BAD),
];

// Why the site with its tank under two numbers is no site.
fn fault_of_tanks(alloc: Global, first: u8, second: u8) -> Result<Option<SiteBytesFault>, Fail> {
    let front = bytes_from(0, TANKS);
    let tank = bytes_from(TANK + 2, LINES);
    let lines = bytes_from(LINES, BYTES.len());
    fault_of(
        alloc,
        &[front, &[2, 0, first], tank, &[0, second], tank, lines],
    )
}

// Why the site with its gauge twice is no site.
fn fault_of_gauges(alloc: Global) -> Result<Option<SiteBytesFault>, Fail> {
    let gauge = bytes_from(GAUGE, BYTES.len());
    fault_of(alloc, &[bytes_from(0, GAUGES), &[2], gauge, gauge])
}

#[test]
fn tanks_rise_and_have_one_gauge(rt: HostRuntime) -> Result<(), Fail> {
    let mut checks = Checks::new(&rt);
    for (name, first, second, want) in TWO_TANKS {
        let fault = fault_of_tanks(rt.alloc(), first, second)?;
        checks.same_at(name, fault, want);
    }
    let twice = fault_of_gauges(rt.alloc())?;
    checks.same_at("two gauges on one tank", twice, BAD);
    Ok(checks.end()?)
}
