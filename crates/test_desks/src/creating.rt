//! The making of a desk on an empty disk: seven calls, each of which fails once.

use crate::disks::disk_with;
use crate::images::{Images, LIMIT, Left, Reopened, check_images, recovered};
use farm_desk::{CreateFault, Desk};
use farm_disk::{Disk, MemDisk, Stand};
use sample_site::sample_site;
use std::alloc::Global;
use std::test::Fail;
use test_checks::Checks;

/// What a making ends with: a desk without an entry, or why it isn't made.
#[derive(Clone, Copy, Debug, PartialEq, Eq)]
pub enum Made {
    /// A desk of this many entries.
    Desk(usize),
    /// A refusal.
    Refused(CreateFault),
}

/// A making of which one call of the disk fails.
#[derive(Clone, Copy)]
pub struct Making {
    /// The call that fails, by its name and its number; 0 for none.
    pub call: (&'static str, u64),
    /// What it ends with.
    pub made: Made,
    /// Whether the disk reads no byte then.
    pub none: bool,
    /// What it ends with if it is made again on the same disk.
    pub again: Made,
    /// What the disk is recovered as after that.
    pub recovered: Reopened,
    /// What the images of the first making are recovered as, from the moment before it on.
    pub images: Images,
}

const NO_JOURNAL: Left = [Reopened::NotJournal; 3];

// No journal, or the empty history if anything of the write of the journal's own gate is left.
const NONE_OR_EMPTY: Left = [
    Reopened::NotJournal,
    Reopened::Entries(0),
    Reopened::Entries(0),
];

const EMPTY: Left = [Reopened::Entries(0); 3];

const FAULT: Made = Made::Refused(CreateFault::DiskFault);

const NOT_EMPTY: Made = Made::Refused(CreateFault::NotEmpty);

const MAKINGS: &[Making] = &[
    Making {
        call: ("no call", 0),
        made: Made::Desk(0),
        none: false,
        again: NOT_EMPTY,
        recovered: Reopened::Entries(0),
        images: &[
            ("up to the end of its second sync", 9, NO_JOURNAL),
            ("the gate, until its sync is over", 3, NONE_OR_EMPTY),
            ("the end", 1, EMPTY),
        ],
    },
    Making {
        call: ("the length", 1),
        made: FAULT,
        none: true,
        again: Made::Desk(0),
        recovered: Reopened::Entries(0),
        images: &[("before it", 1, NO_JOURNAL)],
    },
    Making {
        call: ("the first write", 2),
        made: FAULT,
        none: true,
        again: Made::Desk(0),
        recovered: Reopened::Entries(0),
        images: &[("before it", 1, NO_JOURNAL), ("the write", 2, NO_JOURNAL)],
    },
    Making {
        call: ("the first sync", 3),
        made: FAULT,
        none: false,
        again: NOT_EMPTY,
        recovered: Reopened::NotJournal,
        images: &[
            ("before it", 1, NO_JOURNAL),
            ("up to the sync", 4, NO_JOURNAL),
        ],
    },
    Making {
        call: ("the second write", 4),
        made: FAULT,
        none: false,
        again: NOT_EMPTY,
        recovered: Reopened::NotJournal,
        images: &[
            ("before it", 1, NO_JOURNAL),
            ("up to the write", 6, NO_JOURNAL),
        ],
    },
    Making {
        call: ("the second sync", 5),
        made: FAULT,
        none: false,
        again: NOT_EMPTY,
        recovered: Reopened::NotJournal,
        images: &[
            ("before it", 1, NO_JOURNAL),
            ("up to the sync", 8, NO_JOURNAL),
        ],
    },
    Making {
        call: ("the third write", 6),
        made: FAULT,
        none: false,
        again: NOT_EMPTY,
        recovered: Reopened::NotJournal,
        images: &[
            ("up to the end of its second sync", 9, NO_JOURNAL),
            ("the gate's write", 2, NONE_OR_EMPTY),
        ],
    },
    Making {
        call: ("the third sync", 7),
        made: FAULT,
        none: false,
        again: NOT_EMPTY,
        recovered: Reopened::Entries(0),
        images: &[
            ("up to the end of its second sync", 9, NO_JOURNAL),
            ("the gate, whose sync fails", 4, NONE_OR_EMPTY),
        ],
    },
];

// Makes a desk on a disk, and gives the disk back with what that ends with.
fn made_on(alloc: Global, disk: MemDisk) -> Result<(MemDisk, Made), Fail> {
    let site = match sample_site(alloc) {
        Ok(site) => site,
        Err(fault) => {
            drop(disk);
            return Err(fault.into());
        }
    };
    match Desk::<MemDisk, LIMIT>::create(alloc, disk, site) {
        Ok(desk) => {
            let entries = desk.book().entries().len();
            let (disk, _) = desk.finish();
            Ok((disk, Made::Desk(entries)))
        }
        Err((disk, fault)) => Ok((disk, Made::Refused(fault))),
    }
}

// What is left of the first making is as its row says.
fn check_left<R: Print>(
    checks: &mut Checks<'_, R>,
    alloc: Global,
    disk: &mut MemDisk,
    making: &Making,
) -> Result<(), Fail> {
    let (name, call) = making.call;
    let next = check_images(checks, alloc, name, disk, 0, making.images, &[])?;
    let stand = Stand {
        moment: next.saturating_sub(1),
        faults: u64::from(call != 0),
    };
    checks.same_at(name, disk.stand(), stand);
    checks.same_at(name, disk.len() == Ok(0), making.none);
    Ok(())
}

// What is made again on the disk, and recovered, is as its row says.
fn check_again<R: Print>(
    checks: &mut Checks<'_, R>,
    alloc: Global,
    disk: MemDisk,
    making: &Making,
) -> Result<(), Fail> {
    let (name, _) = making.call;
    let (disk, again) = made_on(alloc, disk)?;
    checks.same_at(name, again, making.again);
    checks.same_at(name, recovered(alloc, disk, &[]), making.recovered);
    Ok(())
}

// A making goes as its row says.
fn check_making<R: Print>(
    checks: &mut Checks<'_, R>,
    alloc: Global,
    making: &Making,
) -> Result<(), Fail> {
    let (name, call) = making.call;
    let (disk, made) = made_on(alloc, disk_with(alloc, Vec::new(alloc), &[call])?)?;
    let mut disk = disk;
    checks.same_at(name, made, making.made);
    if let Err(fail) = check_left(checks, alloc, &mut disk, making) {
        drop(disk);
        return Err(fail);
    }
    check_again(checks, alloc, disk, making)
}

#[test]
fn each_of_the_seven_calls_of_a_making_fails(rt: HostRuntime) -> Result<(), Fail> {
    let mut checks = Checks::new(&rt);
    for making in MAKINGS {
        check_making(&mut checks, rt.alloc(), making)?;
    }
    Ok(checks.end()?)
}
