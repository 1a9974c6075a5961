//! Desks of the row site, made and recovered.

use crate::asking::{DayDesk, TRIES, Why, answered, say_refused};
use crate::day::DAY;
use farm_desk::{Desk, RecoverFault};
use farm_disk::MemDisk;
use sample_site::sample_site;
use std::alloc::Global;
use std::io;

// A disk without a byte, whose calls of these numbers fail.
fn new_disk(alloc: Global, fails: &[u64]) -> Result<MemDisk, Why> {
    let Ok(fails) = Vec::from_slice(alloc, fails) else {
        return Err(Why::NoMemory);
    };
    match MemDisk::new(alloc, Vec::new(alloc), fails) {
        Ok(disk) => Ok(disk),
        Err(_) => Err(Why::NoMemory),
    }
}

// A desk without an entry, on such a disk.
fn new_desk(alloc: Global, fails: &[u64]) -> Result<DayDesk, Why> {
    let Ok(site) = sample_site(alloc) else {
        return Err(Why::NoMemory);
    };
    match Desk::create(alloc, new_disk(alloc, fails)?, site) {
        Ok(desk) => Ok(desk),
        Err((disk, _)) => {
            drop(disk);
            Err(Why::NoMemory)
        }
    }
}

// Enters the first lines of the day.
fn enter(alloc: Global, desk: &mut DayDesk, count: usize) -> Result<(), Why> {
    for text in DAY.lines().take(count) {
        answered(alloc, desk, 0, text)?;
    }
    Ok(())
}

/// A desk with the first entries of the day, whose disk fails at these calls.
///
/// The last entry is in doubt if the write of its gate fails.
pub fn desk_with(alloc: Global, fails: &[u64], count: usize) -> Result<DayDesk, Why> {
    let mut desk = new_desk(alloc, fails)?;
    let entered = enter(alloc, &mut desk, count);
    let is_whole = desk.book().entries().len() == count && desk.doubt() == entered.is_err();
    if is_whole {
        return Ok(desk);
    }
    drop(desk);
    Err(Why::NoMemory)
}

// Why a journal wasn't recovered.
fn why_not(fault: RecoverFault) -> Why {
    match fault {
        RecoverFault::NoMemory => Why::NoMemory,
        RecoverFault::DiskFault => Why::DiskFault,
        RecoverFault::NotJournal | RecoverFault::Damaged(_) => Why::NoRequest,
    }
}

/// Recovers the desk of a disk, until there is memory.
pub fn recovered<R: Print>(rt: &R, alloc: Global, disk: MemDisk) -> io::Result<Option<DayDesk>> {
    let mut disk = disk;
    for _ in 0..TRIES {
        match Desk::recover(alloc, disk) {
            Ok(desk) => return Ok(Some(desk)),
            Err((back, fault)) => {
                disk = back;
                say_refused(rt, why_not(fault))?;
            }
        }
    }
    drop(disk);
    println!(rt; "never recovered")?;
    Ok(None)
}
