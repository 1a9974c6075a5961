//! What each moment's crash leaves of a journal: each image is recovered.

use crate::files::{EMPTY, ONE, check_recovery, new_journal, two_bodies};
use farm_disk::{Disk, Fill, MemDisk};
use std::alloc::{AllocError, Global};
use std::test::Fail;
use test_checks::Checks;

// What a crash leaves where it may leave any byte: old bytes, new ones, and some that are gates or look like lengths.
const FILLS: &[Fill] = &[
    Fill::Old,
    Fill::New,
    Fill::Byte(0),
    Fill::Byte(1),
    Fill::Byte(2),
    Fill::Byte(0x37),
    Fill::Byte(255),
];

// What is recovered of the image of a fill: the second of these two where what the crash left is an open gate, and else the first.
fn want_of(fill: Fill, (before, after): (&'static str, &'static str)) -> &'static str {
    match fill {
        Fill::New | Fill::Byte(1) => after,
        _ => before,
    }
}

// The image of a fill at a moment is recovered as this.
fn check_image<R: Print>(
    checks: &mut Checks<'_, R>,
    alloc: Global,
    disk: &MemDisk,
    (moment, fill): (u64, Fill),
    want: &str,
) -> Result<(), Fail> {
    if moment > disk.stand().moment {
        return Err("the disk has no such moment")?;
    }
    let image = disk.image(alloc, moment, fill)?;
    check_recovery(checks, alloc, moment, &image, want)
}

// Each image at a moment is recovered as one of these two.
fn check_images<R: Print>(
    checks: &mut Checks<'_, R>,
    alloc: Global,
    disk: &MemDisk,
    moment: u64,
    wants: (&'static str, &'static str),
) -> Result<(), Fail> {
    for fill in FILLS {
        check_image(checks, alloc, disk, (moment, *fill), want_of(*fill, wants))?;
    }
    Ok(())
}

// What the images at a moment of four calls on a disk are recovered as: through the first two calls the old list, through the
// last two the list with the body where the gate is open in the image, and after them the list with the body.
fn wants_at(moment: u64) -> (&'static str, &'static str) {
    match moment {
        0..=4 => (" site one", " site one"),
        5..=7 => (" site one", " site one three"),
        _ => (" site one three", " site one three"),
    }
}

// The images of that disk at each moment from the start of the four calls on.
fn check_bodies<R: Print>(
    checks: &mut Checks<'_, R>,
    alloc: Global,
    disk: &MemDisk,
    start: u64,
) -> Result<(), Fail> {
    for moment in 0..9 {
        let at = start.saturating_add(moment);
        check_images(checks, alloc, disk, at, wants_at(moment))?;
    }
    Ok(())
}

#[test]
fn a_body_is_there_whole_or_not_at_all(rt: HostRuntime) -> Result<(), Fail> {
    let mut checks = Checks::new(&rt);
    let (disk, start) = two_bodies(rt.alloc())?;
    checks.same(disk.stand().moment, start.saturating_add(8));
    let bodies = check_bodies(&mut checks, rt.alloc(), &disk, start);
    drop(disk);
    bodies?;
    Ok(checks.end()?)
}

// The same at a moment of the making.
fn wants_within_the_making(moment: u64) -> (&'static str, &'static str) {
    match moment {
        0..=8 => ("not a journal", "not a journal"),
        9..=11 => ("not a journal", " site"),
        _ => (" site", " site"),
    }
}

// The images of a disk at each moment of the making.
fn check_the_making<R: Print>(
    checks: &mut Checks<'_, R>,
    alloc: Global,
    disk: &MemDisk,
) -> Result<(), Fail> {
    for moment in 0..13 {
        let wants = wants_within_the_making(moment);
        check_images(checks, alloc, disk, moment, wants)?;
    }
    Ok(())
}

#[test]
fn a_crash_within_the_making_leaves_no_journal_or_the_empty_one(
    rt: HostRuntime,
) -> Result<(), Fail> {
    let mut checks = Checks::new(&rt);
    let disk = new_journal(rt.alloc(), &[])?.into_disk();
    let making = check_the_making(&mut checks, rt.alloc(), &disk);
    drop(disk);
    making?;
    Ok(checks.end()?)
}

// The empty journal with another gate at its end, and bytes after it.
fn with_gate(alloc: Global, gate: u8, rest: &[u8]) -> Result<Vec<u8>, AllocError> {
    let mut bytes = EMPTY.to_vec(alloc)?;
    bytes.pop();
    bytes.push(gate)?;
    bytes.extend_from_slice(rest)?;
    Ok(bytes)
}

// What may stand after a closed gate.
const RESTS: &[(&str, &[u8])] = &[
    ("no byte", b""),
    ("a record with its gate", b"\x01\0\0\0\x03one\0"),
    ("the rest of a record", b"\0\0\0\x03one\x01"),
];

// Whatever stands after a closed gate, the journal is empty.
fn check_rest<R: Print>(
    checks: &mut Checks<'_, R>,
    alloc: Global,
    gate: u8,
    (name, rest): (&'static str, &[u8]),
) -> Result<(), Fail> {
    let bytes = with_gate(alloc, gate, rest)?;
    check_recovery(checks, alloc, name, &bytes, " site")
}

// The same of each rest.
fn check_gate<R: Print>(checks: &mut Checks<'_, R>, alloc: Global, gate: u8) -> Result<(), Fail> {
    for rest in RESTS {
        check_rest(checks, alloc, gate, *rest)?;
    }
    Ok(())
}

#[test]
fn what_stands_after_a_closed_gate_counts_for_nothing(rt: HostRuntime) -> Result<(), Fail> {
    let mut checks = Checks::new(&rt);
    for gate in [0, 2, 0x37, 255] {
        check_gate(&mut checks, rt.alloc(), gate)?;
    }
    check_recovery(&mut checks, rt.alloc(), "an open gate", ONE, " site one")?;
    Ok(checks.end()?)
}
