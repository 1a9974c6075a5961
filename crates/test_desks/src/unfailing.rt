//! A desk of which no call of the disk fails, with what the rows of courses are compared to.

use crate::commands::{Asked, BEFORE, Eighth, NOW, ask_of};
use crate::disks::{disk_with, new_desk};
use crate::images::{LIMIT, image_at};
use farm_desk::{Answer, Desk};
use farm_disk::{Disk, Fill, MemDisk};
use farm_history::{Entry, Reply};
use sample_site::sample_site;
use std::alloc::Global;
use std::test::Fail;

/// The bytes of a disk with seven entries; a desk of it of which no call of the disk failed, with the eighth entry and that of the other
/// caller; the eighth's reply; and what `Asked::Met` stands for.
#[derive(Drop)]
pub struct Told {
    pub(crate) before: Vec<u8>,
    desk: Desk<MemDisk, LIMIT>,
    pub(crate) eighth: Eighth,
    pub(crate) reply: Reply,
    pub(crate) met: Asked,
}

/// Asks a desk.
pub(crate) fn ask(desk: &mut Desk<MemDisk, LIMIT>, eighth: Eighth, asked: Asked) -> Answer {
    let (caller, ask) = ask_of(eighth, asked);
    desk.ask(caller, NOW, &ask)
}

// Enters the seven entries.
fn enter_before(desk: &mut Desk<MemDisk, LIMIT>) {
    for index in 0..BEFORE {
        ask(desk, Eighth::Gauge, Asked::Before(index));
    }
}

// The bytes of a desk's disk, no call of which failed.
fn bytes_left(alloc: Global, desk: Desk<MemDisk, LIMIT>) -> Result<Vec<u8>, Fail> {
    let (disk, _) = desk.finish();
    let bytes = image_at(alloc, &disk, disk.stand().moment, Fill::New);
    drop(disk);
    bytes
}

// The bytes of a disk with the seven entries.
fn bytes_before(alloc: Global) -> Result<Vec<u8>, Fail> {
    let mut desk = new_desk(alloc, sample_site(alloc)?, &[])?;
    enter_before(&mut desk);
    bytes_left(alloc, desk)
}

/// The desk of a disk with these bytes, whose calls of these numbers fail.
pub(crate) fn desk_on(
    alloc: Global,
    bytes: &[u8],
    fails: &[u64],
) -> Result<Desk<MemDisk, LIMIT>, Fail> {
    let disk = disk_with(alloc, bytes.to_vec(alloc)?, fails)?;
    match Desk::recover(alloc, disk) {
        Ok(desk) => Ok(desk),
        Err((disk, fault)) => {
            drop(disk);
            Err(fault.into())
        }
    }
}

// The same of the desk of a disk with these bytes.
fn told_of(
    before: Vec<u8>,
    desk: Desk<MemDisk, LIMIT>,
    eighth: Eighth,
    met: Asked,
) -> Result<Told, Fail> {
    let mut desk = desk;
    let answer = ask(&mut desk, eighth, Asked::Eighth);
    let accepted = ask(&mut desk, eighth, Asked::Accepted);
    match (answer, accepted) {
        (Answer::Done(reply), Answer::Done(Reply::Placed(9))) => Ok(Told {
            before,
            desk,
            eighth,
            reply,
            met,
        }),
        _ => {
            drop((before, desk));
            Err("a command that isn't accepted")?
        }
    }
}

/// What a desk does of which no call of the disk fails, and what `Asked::Met` stands for.
pub(crate) fn told_desk(alloc: Global, eighth: Eighth, met: Asked) -> Result<Told, Fail> {
    let before = bytes_before(alloc)?;
    match desk_on(alloc, &before, &[]) {
        Ok(desk) => told_of(before, desk, eighth, met),
        Err(fail) => {
            drop(before);
            Err(fail)
        }
    }
}

impl Told {
    /// The entries.
    pub(crate) fn entries(&self) -> &[Entry] {
        self.desk.book().entries()
    }
}

/// The bytes of a disk of which no call failed, with the eighth entry.
pub(crate) fn bytes_after(alloc: Global, told: &Told) -> Result<Vec<u8>, Fail> {
    let mut desk = desk_on(alloc, &told.before, &[])?;
    ask(&mut desk, told.eighth, Asked::Eighth);
    bytes_left(alloc, desk)
}
