//! The recovery of a desk: a sync and a read, each of which fails once.

use crate::commands::{Asked, Eighth};
use crate::courses::EIGHT;
use crate::disks::disk_with;
use crate::images::{FILLS, Images, LIMIT, Reopened, check_images, image_at, recovered};
use crate::unfailing::{Told, bytes_after, told_desk};
use farm_desk::{Desk, RecoverFault};
use farm_disk::{Disk, MemDisk, Stand};
use std::alloc::Global;
use std::test::Fail;
use test_checks::Checks;

// The calls of a recovery, by their names and numbers.
const CALLS: &[(&str, u64)] = &[("the sync", 1), ("the read", 2)];

// What the images of a recovery are recovered as: it writes nothing.
const IMAGES: Images = &[("before it, and its sync", 3, EIGHT)];

// How the disk stands after a recovery of which one call failed.
const STAND: Stand = Stand {
    moment: 2,
    faults: 1,
};

// An image of each moment has just these bytes.
fn check_bytes<R: Print>(
    checks: &mut Checks<'_, R>,
    alloc: Global,
    name: &str,
    disk: &MemDisk,
    bytes: &[u8],
) -> Result<(), Fail> {
    for fill in FILLS {
        for moment in 0..3 {
            let image = image_at(alloc, disk, moment, fill)?;
            let is_same = image.as_slice() == bytes;
            drop(image);
            checks.same_at(name, is_same, true);
        }
    }
    Ok(())
}

// A disk of which a recovery failed is as it was, and is recovered as it was.
fn check_refused<R: Print>(
    checks: &mut Checks<'_, R>,
    alloc: Global,
    name: &str,
    disk: &MemDisk,
    bytes: &[u8],
    told: &Told,
) -> Result<(), Fail> {
    checks.same_at(name, disk.stand(), STAND);
    check_bytes(checks, alloc, name, disk, bytes)?;
    check_images(checks, alloc, name, disk, 0, IMAGES, told.entries())?;
    Ok(())
}

// A recovery of which a call fails answers the fault, and the next one finds the history.
fn check_recovery<R: Print>(
    checks: &mut Checks<'_, R>,
    alloc: Global,
    bytes: &[u8],
    told: &Told,
    (name, call): (&str, u64),
) -> Result<(), Fail> {
    let disk = disk_with(alloc, bytes.to_vec(alloc)?, &[call])?;
    match Desk::<MemDisk, LIMIT>::recover(alloc, disk) {
        Ok(desk) => {
            drop(desk);
            Err("a desk of a disk that failed")?
        }
        Err((disk, fault)) => {
            checks.same_at(name, fault, RecoverFault::DiskFault);
            let checked = check_refused(checks, alloc, name, &disk, bytes, told);
            let again = recovered(alloc, disk, told.entries());
            checks.same_at(name, again, Reopened::Entries(8));
            checked
        }
    }
}

// Each call of a recovery fails.
fn check_calls<R: Print>(
    checks: &mut Checks<'_, R>,
    alloc: Global,
    bytes: &[u8],
    told: &Told,
) -> Result<(), Fail> {
    for call in CALLS {
        check_recovery(checks, alloc, bytes, told, *call)?;
    }
    Ok(())
}

// The same of the disk with the eighth entry.
fn check_eighth<R: Print>(
    checks: &mut Checks<'_, R>,
    alloc: Global,
    told: &Told,
) -> Result<(), Fail> {
    let bytes = bytes_after(alloc, told)?;
    let checked = check_calls(checks, alloc, &bytes, told);
    drop(bytes);
    checked
}

#[test]
fn each_of_the_two_calls_of_a_recovery_fails(rt: HostRuntime) -> Result<(), Fail> {
    let mut checks = Checks::new(&rt);
    for eighth in [Eighth::Gauge, Eighth::Closing] {
        let told = told_desk(rt.alloc(), eighth, Asked::Repeat)?;
        let checked = check_eighth(&mut checks, rt.alloc(), &told);
        drop(told);
        checked?;
    }
    Ok(checks.end()?)
}
