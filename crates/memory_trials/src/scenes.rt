//! The scenes of a desk in memory. Each is prepared before it prints anything, and a step that is refused is tried again.

use crate::asking::{DayDesk, Why, put_answer, put_answers};
use crate::day::{BEFORE_CLOSING, BOOKS, CLOSING, DAY};
use crate::desks::{desk_with, recovered};
use farm_disk::{Disk, MemDisk};
use std::alloc::Global;
use std::io;

// The call of the disk that writes the gate of the tenth entry: seven make the journal, four each put the nine before it, and two its body.
const TENTH_GATE: u64 = 46;

/// Says where a disk stands, and whether an entry is in doubt.
pub fn say_end<R: Print>(rt: &R, disk: &MemDisk, doubt: bool) -> io::Result<()> {
    let moment = disk.stand().moment;
    if doubt {
        println!(rt; "in doubt at moment {moment}")
    } else {
        println!(rt; "nothing is in doubt at moment {moment}")
    }
}

// The closing of the transfer, the end of the desk, and the same lines on what it leaves.
fn close_transfer<R: Print>(rt: &R, alloc: Global, desk: DayDesk) -> io::Result<()> {
    let mut desk = desk;
    put_answer(rt, alloc, &mut desk, 1, CLOSING)?;
    let (disk, doubt) = desk.finish();
    say_end(rt, &disk, doubt)?;
    if let Some(mut desk) = recovered(rt, alloc, disk)? {
        put_answers(rt, alloc, &mut desk, DAY, BEFORE_CLOSING + 1)?;
        drop(desk);
    }
    Ok(())
}

/// A Closing, with nothing in doubt or with the entry before it.
pub fn ask<R: Print>(rt: &R, alloc: Global, doubt: bool) -> io::Result<Result<(), Why>> {
    let fails: &[u64] = if doubt { &[TENTH_GATE] } else { &[] };
    match desk_with(alloc, fails, BEFORE_CLOSING) {
        Ok(desk) => {
            close_transfer(rt, alloc, desk)?;
            Ok(Ok(()))
        }
        Err(why) => Ok(Err(why)),
    }
}

// Says what a desk has.
fn put_books<R: Print>(rt: &R, alloc: Global, desk: &mut DayDesk) -> io::Result<()> {
    println!(rt; "{} entries", desk.book().entries().len())?;
    for text in BOOKS {
        put_answer(rt, alloc, desk, 1, text)?;
    }
    Ok(())
}

// Recovers the day from a disk, and says what it has, and whether the disk has more bytes than before.
fn recover_day<R: Print>(rt: &R, alloc: Global, disk: MemDisk) -> io::Result<()> {
    let mut disk = disk;
    let before = disk.len();
    if let Some(mut desk) = recovered(rt, alloc, disk)? {
        put_books(rt, alloc, &mut desk)?;
        let (mut disk, _) = desk.finish();
        let is_same = disk.len() == before;
        drop(disk);
        if is_same {
            println!(rt; "as many bytes as before")?;
        }
    }
    Ok(())
}

/// The recovery of the day.
pub fn recover<R: Print>(rt: &R, alloc: Global) -> io::Result<Result<(), Why>> {
    match desk_with(alloc, &[], 16) {
        Ok(desk) => {
            let (disk, _) = desk.finish();
            recover_day(rt, alloc, disk)?;
            Ok(Ok(()))
        }
        Err(why) => Ok(Err(why)),
    }
}
