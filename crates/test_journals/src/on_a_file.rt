//! A journal on a file of the system.

use crate::files::{ONE, TWO, bytes_of, gone_on, keep};
use farm_disk::FileDisk;
use farm_journal::Journal;
use std::fs;
use std::test::Fail;
use test_checks::Checks;

// A disk over the file at a path, not opened yet.
fn over<'a>(rt: &'a HostRuntime, path: &str) -> Result<FileDisk<&'a HostRuntime>, Fail> {
    Ok(FileDisk::new(rt, String::from_str(rt.alloc(), path)?))
}

// Makes a journal with the body `one` in the file at a path.
fn begin(rt: &HostRuntime, path: &str) -> Result<(), Fail> {
    match Journal::create(rt.alloc(), over(rt, path)?, b"site") {
        Ok(mut journal) => {
            let kept = keep(&mut journal, b"one");
            drop(journal);
            kept
        }
        Err((disk, fault)) => {
            drop(disk);
            Err(fault.into())
        }
    }
}

// The bytes of the file at a path.
fn bytes_at(rt: &HostRuntime, path: &str) -> Result<Vec<u8>, Fail> {
    let mut disk = over(rt, path)?;
    let bytes = bytes_of(rt.alloc(), &mut disk);
    drop(disk);
    bytes
}

// The bytes of a journal on a new file, and those after it was recovered and `three` was put on it.
fn kept(rt: &HostRuntime, path: &str) -> Result<(Vec<u8>, Vec<u8>), Fail> {
    begin(rt, path)?;
    let first = bytes_at(rt, path)?;
    let then = gone_on(rt.alloc(), over(rt, path)?)?;
    Ok((first, then))
}

#[test]
fn a_journal_is_recovered_from_its_file(rt: HostRuntime) -> Result<(), Fail> {
    let mut checks = Checks::new(&rt);
    let path = "out/journal";
    let _ = fs::create_dir(&rt, "out");
    let _ = fs::remove_file(&rt, path);
    let (first, then) = kept(&rt, path)?;
    checks.same_at("a journal on a file", first.as_slice(), ONE);
    checks.same_at("recovered and gone on with", then.as_slice(), TWO);
    drop((first, then));
    fs::remove_file(&rt, path)?;
    Ok(checks.end()?)
}
