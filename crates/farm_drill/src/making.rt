//! How the desk of a drill is made, and recovered from its disk.

ghost use Rattle.std.specs.Prelude.{◌≡◌, ◌≤◌, IfOk, Ok, OnOk, false};
ghost use Rattle.farm_drill.specs.Drills.{row_site};
ghost use Rattle.farm_history.specs.History.{empty_history};
ghost use Rattle.farm_history.specs.declared.limits.TheConstants.{MOST_LIMIT};
ghost use Rattle.site_file.specs.Files.{site_of_files};
ghost use Rattle.farm_site.specs.Sites.{described};
ghost use Rattle.sample_site.specs.Files.{row_files};

use farm_base::NoMemory;
use farm_desk::Desk;
use farm_disk::MemDisk;
use farm_site::Site;
use sample_site::sample_site;
use std::alloc::Global;

/// A desk of the row site without an entry, on a disk in memory that fails no call.
pub(crate) fn new_desk<const LIMIT: usize>(alloc: Global) -> Result<Desk<MemDisk, LIMIT>, NoMemory>
    requires limit { LIMIT ≤ MOST_LIMIT }
    ensures site { OnOk result (site_of_files row_files ≡ Ok row_site) }
    ensures certain { IfOk result (λ desk. desk.doubt ≡ false) }
    ensures history { IfOk result (λ desk. desk.history ≡ empty_history row_site) }
{
    let site = row_site(alloc)?;
    let disk = match MemDisk::new(alloc, Vec::new(alloc), Vec::new(alloc)) {
        Ok(disk) => disk,
        Err(fault) => {
            drop(site);
            return Err(fault);
        }
    };
    match Desk::create(alloc, disk, site) {
        Ok(desk) => Ok(desk),
        Err(refusal) => {
            drop(refusal);
            Err(NoMemory)
        }
    }
}

// The row site.
#[tactic(auto, unfolding(crate::specs::Drills::row_site))]
fn row_site(alloc: Global) -> Result<Site, NoMemory>
    ensures site { OnOk result (site_of_files row_files ≡ Ok row_site) }
    ensures described { IfOk result (λ site. described site ≡ row_site) }
{
    match sample_site(alloc) {
        Ok(site) => Ok(site),
        Err(_) => Err(NoMemory),
    }
}

/// The desk that is recovered from the disk of a desk, in which nothing is in doubt.
pub(crate) fn recovered<const LIMIT: usize>(
    alloc: Global,
    desk: Desk<MemDisk, LIMIT>,
) -> Result<Desk<MemDisk, LIMIT>, NoMemory>
    requires limit { LIMIT ≤ MOST_LIMIT }
    requires certain { desk.doubt ≡ false }
    ensures history { IfOk result (λ recovered. recovered.history ≡ desk.entry.history) }
{
    farm_recovery::recovery_laws();
    let (disk, _) = desk.finish();
    match Desk::recover(alloc, disk) {
        Ok(desk) => Ok(desk),
        Err(refusal) => {
            drop(refusal);
            Err(NoMemory)
        }
    }
}
