//! Disks in memory, by their calls that fail, and desks that are made on them.

ghost use Rattle.std.specs.Prelude.{◌≤◌};
ghost use Rattle.farm_history.specs.declared.limits.TheConstants.{MOST_LIMIT};

use farm_base::NoMemory;
use farm_desk::Desk;
use farm_disk::MemDisk;
use farm_site::Site;
use std::alloc::Global;
use std::test::Fail;

/// A disk with these bytes, whose calls of these numbers fail.
pub(crate) fn disk_with(alloc: Global, bytes: Vec<u8>, fails: &[u64]) -> Result<MemDisk, NoMemory> {
    match Vec::from_slice(alloc, fails) {
        Ok(fails) => MemDisk::new(alloc, bytes, fails),
        Err(fault) => {
            drop(bytes);
            Err(fault.into())
        }
    }
}

/// A desk of a site, without an entry, on an empty disk whose calls of these numbers fail.
pub(crate) fn new_desk<const LIMIT: usize>(
    alloc: Global,
    site: Site,
    fails: &[u64],
) -> Result<Desk<MemDisk, LIMIT>, Fail>
    requires limit { LIMIT ≤ MOST_LIMIT }
{
    let disk = match disk_with(alloc, Vec::new(alloc), fails) {
        Ok(disk) => disk,
        Err(fault) => {
            drop(site);
            return Err(fault.into());
        }
    };
    match Desk::create(alloc, disk, site) {
        Ok(desk) => Ok(desk),
        Err((disk, fault)) => {
            drop(disk);
            Err(fault.into())
        }
    }
}
