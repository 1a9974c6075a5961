//! A disk in memory: what a crash at each moment leaves, and which calls fail.

ghost use Rattle.std.specs.Prelude.{◌≡◌, ℕ, List, OnOk};
ghost use Rattle.farm_base.specs.Known.{WhereKnown};
ghost use Rattle.farm_disk.specs.Images.{IsCrashImage, present};

use crate::disk_calls::{Call, Calls, check_calls};
use farm_base::NoMemory;
use farm_disk::{Disk, Fill, MemDisk, disk_laws};
use farm_ports::Failed;
use std::alloc::Global;
use std::test::Fail;
use test_checks::{Checks, shared};

// A disk with "abcd" and these calls that fail.
fn four_bytes(alloc: Global, fails: &[u64]) -> Result<MemDisk, NoMemory> {
    let fails = fails.to_vec(alloc)?;
    match b"abcd".to_vec(alloc) {
        Ok(bytes) => MemDisk::new(alloc, bytes, fails),
        Err(fault) => {
            drop(fails);
            Err(fault.into())
        }
    }
}

// The image of a fill at a moment.
fn image_of(alloc: Global, disk: &MemDisk, moment: u64, fill: Fill) -> Result<Vec<u8>, Fail> {
    if moment > disk.stand().moment {
        return Err("the disk has no such moment")?;
    }
    Ok(disk.image(alloc, moment, fill)?)
}

// The image of a fill at a moment holds these bytes.
fn check_image<R: Print>(
    checks: &mut Checks<'_, R>,
    alloc: Global,
    disk: &MemDisk,
    (moment, fill): (u64, Fill),
    want: &[u8],
) -> Result<(), Fail> {
    let image = image_of(alloc, disk, moment, fill)?;
    checks.same_at(moment, image.as_slice(), want);
    Ok(())
}

// Old bytes, new ones, and "?" wherever a crash may leave any byte.
const FILLS: &[Fill] = &[Fill::Old, Fill::New, Fill::Byte(b'?')];

// The images at a moment, one of each fill.
fn check_images<R: Print>(
    checks: &mut Checks<'_, R>,
    alloc: Global,
    disk: &MemDisk,
    moment: u64,
    wants: &[&[u8]],
) -> Result<(), Fail> {
    for (fill, want) in FILLS.iter().zip(wants) {
        check_image(checks, alloc, disk, (moment, *fill), want)?;
    }
    Ok(())
}

// The images at a moment of a disk that is dropped after them.
fn check_left<R: Print>(
    checks: &mut Checks<'_, R>,
    alloc: Global,
    disk: MemDisk,
    moment: u64,
    wants: &[&[u8]],
) -> Result<(), Fail> {
    let left = check_images(checks, alloc, &disk, moment, wants);
    drop(disk);
    left
}

// Writes bytes and syncs them.
fn keep<D: Disk>(disk: &mut D, at: u64, bytes: &[u8]) -> Result<(), Failed>
    // From then on a crash leaves what reads give, and nothing else.
    ensures { OnOk result (WhereKnown (D.trace disk.new) (λ states. (image : List ℕ) → IsCrashImage (present states) image → image ≡ (present states).seen)) }
{
    disk_laws();
    disk.write_at(at, bytes)?;
    disk.sync()
}

#[test]
fn what_was_synced_is_all_that_a_crash_leaves(rt: HostRuntime) -> Result<(), Fail> {
    let mut checks = Checks::new(&rt);
    let alloc = rt.alloc();
    let mut disk = four_bytes(alloc, &[])?;
    checks.same(keep(&mut disk, 2, b"CDE"), Ok(()));
    check_left(&mut checks, alloc, disk, 4, &[b"abCDE", b"abCDE", b"abCDE"])?;
    Ok(checks.end()?)
}

// "XY" written at 1, a write of "ZZ" at 3 that fails, a sync, and "Q" written at 6.
const FOUR_CALLS: Calls = &[
    ("a write within", Call::Write(1, b"XY", Ok(()))),
    ("a write that fails", Call::Write(3, b"ZZ", Err(Failed))),
    ("a sync", Call::Sync(Ok(()))),
    ("a write past the end", Call::Write(6, b"Q", Ok(()))),
];

// A disk with "abcd" and those four calls.
fn four_calls<R: Print>(checks: &mut Checks<'_, R>, alloc: Global) -> Result<MemDisk, NoMemory> {
    let mut disk = shared(four_bytes(alloc, &[2])?);
    check_calls(checks, &mut disk, &mut [], FOUR_CALLS);
    Ok(disk)
}

// The images of that disk. The write at 1 covers 1 and 2, the one that failed 3 and 4; at 5 the sync has begun, and at 6 what
// reads give is the base; the write at 6 leaves zeros at 4 and 5 where it happened, and any byte from 4 to 6 where it may not.
fn wants_at(moment: u64) -> &'static [&'static [u8]] {
    match moment {
        0 => &[b"abcd", b"abcd", b"abcd"],
        1 | 2 => &[b"abcd", b"aXYd", b"a??d"],
        3..=5 => &[b"abcd", b"aXYZZ", b"a????"],
        6 => &[b"aXYd", b"aXYd", b"aXYd"],
        _ => &[b"aXYd", b"aXYd\0\0Q", b"aXYd???"],
    }
}

// The images of that disk at each moment.
fn check_moments<R: Print>(
    checks: &mut Checks<'_, R>,
    alloc: Global,
    disk: &MemDisk,
) -> Result<(), Fail> {
    for moment in 0..9 {
        check_images(checks, alloc, disk, moment, wants_at(moment))?;
    }
    Ok(())
}

#[test]
fn a_crash_leaves_the_images_of_its_moment(rt: HostRuntime) -> Result<(), Fail> {
    let mut checks = Checks::new(&rt);
    let disk = four_calls(&mut checks, rt.alloc())?;
    let left = check_moments(&mut checks, rt.alloc(), &disk);
    drop(disk);
    left?;
    Ok(checks.end()?)
}

const AFTER_FOUR_CALLS: Calls = &[
    ("two moments each", Call::Stands(8, 1)),
    ("what reads give", Call::Seen(b"aXYd\0\0Q")),
];

#[test]
fn reads_give_what_was_written(rt: HostRuntime) -> Result<(), Fail> {
    let mut checks = Checks::new(&rt);
    let mut disk = four_calls(&mut checks, rt.alloc())?;
    check_calls(&mut checks, &mut disk, &mut [0; 8], AFTER_FOUR_CALLS);
    drop(disk);
    Ok(checks.end()?)
}

const A_SYNC_THAT_FAILS: Calls = &[
    ("a write", Call::Write(0, b"W", Ok(()))),
    ("a sync that fails", Call::Sync(Err(Failed))),
    ("one fault", Call::Stands(4, 1)),
];

#[test]
fn a_failed_sync_keeps_the_base(rt: HostRuntime) -> Result<(), Fail> {
    let mut checks = Checks::new(&rt);
    let mut disk = four_bytes(rt.alloc(), &[2])?;
    check_calls(&mut checks, &mut disk, &mut [], A_SYNC_THAT_FAILS);
    check_left(
        &mut checks,
        rt.alloc(),
        disk,
        4,
        &[b"abcd", b"Wbcd", b"?bcd"],
    )?;
    Ok(checks.end()?)
}

const MEASURINGS_AND_READS: Calls = &[
    ("a measuring", Call::Len(Ok(4))),
    ("a measuring that fails", Call::Len(Err(Failed))),
    ("a read to the end", Call::Read(1, Ok(3))),
    ("what it read", Call::Holds(b"bcd")),
    ("a read that fails", Call::Read(1, Err(Failed))),
    ("a read of the last byte", Call::Read(3, Ok(1))),
    ("a read past the end", Call::Read(u64::MAX, Ok(0))),
    ("two faults and no moment", Call::Stands(0, 2)),
];

// A disk with "abcd" and these calls that fail answers as the rows say.
fn check_four_bytes(
    rt: &HostRuntime,
    fails: &[u64],
    buffer: &mut [u8],
    calls: Calls,
) -> Result<(), Fail> {
    let mut checks = Checks::new(rt);
    let mut disk = four_bytes(rt.alloc(), fails)?;
    check_calls(&mut checks, &mut disk, buffer, calls);
    drop(disk);
    Ok(checks.end()?)
}

#[test]
fn measurings_and_reads_are_counted(rt: HostRuntime) -> Result<(), Fail> {
    check_four_bytes(&rt, &[2, 4], &mut [0; 3], MEASURINGS_AND_READS)
}

const WITHOUT_MEMORY: Calls = &[
    (
        "a write beyond all memory",
        Call::Write(u64::MAX, b"XY", Err(Failed)),
    ),
    ("what reads give", Call::Seen(b"abcd")),
    ("one fault and no moment", Call::Stands(0, 1)),
];

#[test]
fn a_write_without_memory_has_no_moment(rt: HostRuntime) -> Result<(), Fail> {
    check_four_bytes(&rt, &[], &mut [0; 8], WITHOUT_MEMORY)
}

// A disk with "abcd" and room for a write, whose first call fails.
fn with_room(alloc: Global) -> Result<MemDisk, NoMemory> {
    let mut disk = four_bytes(alloc, &[1])?;
    if let Err(fault) = disk.reserve(1, 2, 4) {
        drop(disk);
        return Err(fault);
    }
    Ok(disk)
}

#[test]
fn a_listed_write_has_begun_where_there_is_room(rt: HostRuntime) -> Result<(), Fail> {
    let mut checks = Checks::new(&rt);
    let alloc = rt.alloc();
    let mut disk = with_room(alloc)?;
    checks.same(disk.write_at(1, b"XY"), Err(Failed));
    check_left(&mut checks, alloc, disk, 2, &[b"abcd", b"aXYd", b"a??d"])?;
    Ok(checks.end()?)
}
