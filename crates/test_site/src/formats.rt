//! The bytes of a site in its two formats.

use crate::bytes::BYTES;
use crate::from_bytes::{BAD, bytes_from, fault_of};
use farm_site::Site;
use site_decoding::{SiteBytesFault, SiteFromBytes};
use site_encoding::SiteToBytes;
use std::alloc::Global;
use std::test::Fail;
use test_checks::Checks;

// Where the mode of the third row of the rounding table stands, and where the roof ends.
const THIRD_MODE: usize = 8;

const ROOF_END: usize = 87;

// A format, the mode of the third row, and what follows the zone of the roof.
type Said = (u8, u8, &'static [u8]);

// Appends the bytes of the site, as they say it.
fn push_said(bytes: &mut Vec<u8>, said: Said) -> Result<(), Fail> {
    let (format, mode, reference) = said;
    bytes.push(format)?;
    bytes.extend_from_slice(bytes_from(1, THIRD_MODE))?;
    bytes.push(mode)?;
    bytes.extend_from_slice(bytes_from(THIRD_MODE + 1, ROOF_END))?;
    bytes.extend_from_slice(reference)?;
    bytes.extend_from_slice(bytes_from(ROOF_END, BYTES.len()))?;
    Ok(())
}

// The bytes of the site, as they say it.
fn bytes_of(alloc: Global, said: Said) -> Result<Vec<u8>, Fail> {
    let mut bytes = Vec::new(alloc);
    if let Err(fail) = push_said(&mut bytes, said) {
        drop(bytes);
        return Err(fail);
    }
    Ok(bytes)
}

// Why the first bytes of those that say it, this many, are no site's.
fn fault_of_first(alloc: Global, said: Said, count: usize) -> Result<Option<SiteBytesFault>, Fail> {
    let bytes = bytes_of(alloc, said)?;
    let fault = fault_of(alloc, &[bytes.get(..count).unwrap_or(&[])]);
    drop(bytes);
    fault
}

// What bytes say, how many they are, and why they are no site's.
const FORMATS: [(&str, Said, usize, Option<SiteBytesFault>); 18] = [
    ("format 1", (1, 0, &[]), 159, None),
    ("half to even", (2, 2, &[0]), 160, None),
    ("840.0", (2, 0, &[1, 0x20, 0xd0]), 162, None),
    ("both", (2, 2, &[1, 0x20, 0xd0]), 162, None),
    ("400.0", (2, 0, &[1, 0x0f, 0xa0]), 162, None),
    ("1200.0", (2, 0, &[1, 0x2e, 0xe0]), 162, None),
    ("neither in format 2", (2, 0, &[0]), 160, BAD),
    ("format 2 as format 1", (2, 0, &[]), 159, BAD),
    ("half to even in format 1", (1, 2, &[]), 159, BAD),
    ("no density in format 1", (1, 0, &[0]), 160, BAD),
    ("840.0 in format 1", (1, 0, &[1, 0x20, 0xd0]), 162, BAD),
    ("both in format 1", (1, 2, &[1, 0x20, 0xd0]), 162, BAD),
    ("a mode of 3", (2, 3, &[1, 0x20, 0xd0]), 162, BAD),
    ("399.9", (2, 2, &[1, 0x0f, 0x9f]), 162, BAD),
    ("1200.1", (2, 2, &[1, 0x2e, 0xe1]), 162, BAD),
    ("an option of 2", (2, 2, &[2, 0x20, 0xd0]), 162, BAD),
    ("format 0", (0, 0, &[]), 159, BAD),
    ("format 3", (3, 2, &[0]), 160, BAD),
];

#[test]
fn a_site_is_read_in_the_format_that_it_needs(rt: HostRuntime) -> Result<(), Fail> {
    let mut checks = Checks::new(&rt);
    for (name, said, count, want) in FORMATS {
        let fault = fault_of_first(rt.alloc(), said, count)?;
        checks.same_at(name, fault, want);
    }
    Ok(checks.end()?)
}

// The bytes of the site that bytes are.
fn written(alloc: Global, bytes: &[u8]) -> Result<Vec<u8>, Fail> {
    let site = Site::from_bytes(alloc, bytes)?;
    let again = site.to_bytes(alloc);
    drop(site);
    Ok(again?)
}

// Whether a site is written again as the bytes that say it, of which there are this many.
fn is_written_again(alloc: Global, said: Said, count: usize) -> Result<bool, Fail> {
    let bytes = bytes_of(alloc, said)?;
    let again = written(alloc, &bytes)?;
    let same = bytes.len() == count && again.as_slice() == bytes.as_slice();
    drop(again);
    drop(bytes);
    Ok(same)
}

#[test]
fn a_site_is_written_in_the_format_that_it_needs(rt: HostRuntime) -> Result<(), Fail> {
    let mut checks = Checks::new(&rt);
    for (name, said, count, fault) in FORMATS {
        if fault.is_none() {
            let again = is_written_again(rt.alloc(), said, count)?;
            checks.same_at(name, again, true);
        }
    }
    Ok(checks.end()?)
}

#[test]
fn bytes_of_format_2_are_not_missing(rt: HostRuntime) -> Result<(), Fail> {
    let mut checks = Checks::new(&rt);
    for count in 0..162 {
        let fault = fault_of_first(rt.alloc(), (2, 2, &[1, 0x20, 0xd0]), count)?;
        checks.same_at(count, fault, BAD);
    }
    Ok(checks.end()?)
}
