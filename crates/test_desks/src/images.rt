//! What the images of a disk are recovered as.

use crate::disks::disk_with;
use farm_desk::{Desk, RecoverFault};
use farm_disk::{Disk, Fill, MemDisk};
use farm_history::Entry;
use std::alloc::Global;
use std::fmt::Debug;
use std::test::Fail;
use test_checks::Checks;

/// The most entries of a desk, but for Stops.
pub const LIMIT: usize = 64;

/// What a disk's bytes are recovered as.
#[derive(Clone, Copy, Debug, PartialEq, Eq)]
pub enum Reopened {
    /// No journal.
    NotJournal,
    /// A history of this many entries, which are the first of those that callers entered.
    Entries(usize),
    /// A history of this many entries, which aren't.
    OtherEntries(usize),
    /// A journal that is damaged at this place.
    Damaged(u32),
    /// Nothing: the disk failed, or there was no memory.
    Nothing,
}

/// What the three images at a moment are recovered as: that of what the last good sync left, that of all that was written, and that of
/// the byte 1 wherever a crash may leave any.
pub type Left = [Reopened; 3];

/// What is left at one moment after another: a name, how many moments, and what is left at each.
pub type Images = &'static [(&'static str, u64, Left)];

/// The images, in the order of `Left`.
pub const FILLS: [Fill; 3] = [Fill::Old, Fill::New, Fill::Byte(1)];

// What entries are, beside those that callers entered.
fn beside(entries: &[Entry], entered: &[Entry]) -> Reopened {
    match entered.get(..entries.len()) {
        Some(first) if first == entries => Reopened::Entries(entries.len()),
        _ => Reopened::OtherEntries(entries.len()),
    }
}

// What a refusal says of the bytes.
fn refused(fault: RecoverFault) -> Reopened {
    match fault {
        RecoverFault::NotJournal => Reopened::NotJournal,
        RecoverFault::Damaged(place) => Reopened::Damaged(place),
        RecoverFault::DiskFault | RecoverFault::NoMemory => Reopened::Nothing,
    }
}

/// What a disk is recovered as, beside the entries that callers entered.
pub(crate) fn recovered(alloc: Global, disk: MemDisk, entered: &[Entry]) -> Reopened {
    match Desk::<MemDisk, LIMIT>::recover(alloc, disk) {
        Ok(desk) => {
            let found = beside(desk.book().entries(), entered);
            drop(desk);
            found
        }
        Err((disk, fault)) => {
            drop(disk);
            refused(fault)
        }
    }
}

/// The image of a moment.
pub(crate) fn image_at(
    alloc: Global,
    disk: &MemDisk,
    moment: u64,
    fill: Fill,
) -> Result<Vec<u8>, Fail> {
    if disk.stand().moment < moment {
        return Err("a moment that hasn't come")?;
    }
    Ok(disk.image(alloc, moment, fill)?)
}

/// The last image of a fill, and what it was recovered as: one with the same bytes isn't recovered again.
#[derive(Drop)]
pub struct Last {
    image: Vec<u8>,
    found: Reopened,
}

/// No image of each fill yet. Without a byte it is no journal.
pub(crate) fn none_yet(alloc: Global) -> Result<Vec<Last>, Fail> {
    let mut lasts = Vec::new(alloc);
    for _ in FILLS {
        lasts.push(Last {
            image: Vec::new(alloc),
            found: Reopened::NotJournal,
        })?;
    }
    Ok(lasts)
}

// Recovers the image of a moment, unless it is the last one again.
fn reopen(
    alloc: Global,
    disk: &MemDisk,
    moment: u64,
    fill: Fill,
    entered: &[Entry],
    last: &mut Last,
) -> Result<(), Fail> {
    let image = image_at(alloc, disk, moment, fill)?;
    if image == last.image {
        drop(image);
        return Ok(());
    }
    last.image.clear();
    last.image.extend_from_slice(&image)?;
    last.found = recovered(alloc, disk_with(alloc, image, &[])?, entered);
    Ok(())
}

/// The three images of a moment are recovered as it is expected.
pub(crate) fn check_moment<R: Print, N: Copy + Debug + PartialEq + Drop>(
    checks: &mut Checks<'_, R>,
    alloc: Global,
    name: N,
    (disk, moment): (&MemDisk, u64),
    left: &Left,
    entered: &[Entry],
    lasts: &mut [Last],
) -> Result<(), Fail> {
    for ((fill, wanted), last) in FILLS.iter().zip(left).zip(lasts) {
        reopen(alloc, disk, moment, *fill, entered, last)?;
        let came = (name, moment, *fill, last.found);
        checks.same(came, (name, moment, *fill, *wanted));
    }
    Ok(())
}

// The images of as many moments from one on, each of which leaves the same. Answers the moment after them.
fn check_span<R: Print>(
    checks: &mut Checks<'_, R>,
    alloc: Global,
    names: (&str, &str),
    (disk, from): (&MemDisk, u64),
    (count, left): (u64, &Left),
    entered: &[Entry],
    lasts: &mut [Last],
) -> Result<u64, Fail> {
    let mut moment = from;
    for _ in 0..count {
        check_moment(checks, alloc, names, (disk, moment), left, entered, lasts)?;
        moment = moment.saturating_add(1);
    }
    Ok(moment)
}

// The images from a moment on, by rows.
fn check_spans<R: Print>(
    checks: &mut Checks<'_, R>,
    alloc: Global,
    name: &str,
    (disk, from): (&MemDisk, u64),
    images: Images,
    entered: &[Entry],
    lasts: &mut [Last],
) -> Result<u64, Fail> {
    let mut moment = from;
    for (span, count, left) in images {
        let names = (name, *span);
        let rows = (*count, left);
        moment = check_span(checks, alloc, names, (disk, moment), rows, entered, lasts)?;
    }
    Ok(moment)
}

/// The images from a moment on are recovered as their rows say. Answers the moment after them.
pub(crate) fn check_images<R: Print>(
    checks: &mut Checks<'_, R>,
    alloc: Global,
    name: &str,
    disk: &MemDisk,
    from: u64,
    images: Images,
    entered: &[Entry],
) -> Result<u64, Fail> {
    let mut lasts = none_yet(alloc)?;
    let place = (disk, from);
    let next = check_spans(checks, alloc, name, place, images, entered, &mut lasts);
    drop(lasts);
    next
}
