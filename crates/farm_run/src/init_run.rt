//! `init`: the journal of a site, without an entry, on an empty disk.

ghost use Rattle.std.specs.Prelude.{◌≤◌, IfSome, IsSome};
ghost use Rattle.farm_base.specs.Counts.{count_of};
ghost use Rattle.farm_base.specs.Known.{Stays};
ghost use Rattle.run_reports.specs.Disks.{IsLater};
ghost use Rattle.farm_run.specs.InitRuns.{FolderFailed, InitRun, NotCreated, SiteInit};
ghost use Rattle.run_reports.specs.Reports.{output_of};
ghost use Rattle.farm_site.specs.Sites.{described};

use crate::statuses::SITE_REFUSED;
use crate::texts::{NOT_EMPTY_LINE, site_refused_text};
use boxed_disk::BoxedDisk;
use farm_desk::{CreateFault, Desk};
use farm_disk::Disk;
use farm_ports::{Failed, Folder, Sink};
use farm_site::Site;
use run_reports::{
    BOOK_LIMIT, DONE, Done, JOURNAL_REFUSED, on_heap, refuse, report_disk_fault, report_fault,
    report_no_memory, say,
};
use site_file::ReadSite;
use site_keys::SiteReadFault;
use std::alloc::Global;

/// `init`: the site is read whole before the disk's first call.
pub(crate) fn init<K: Sink, F: Folder, D: Disk>(
    alloc: Global,
    output: &mut K,
    folder: &mut F,
    disk: D,
) -> Done<D>
    ensures init_run { IfSome result.disk (λ left. InitRun D.trace D.faults (F.files folder.new) (count_of F.faults folder.old folder.new)
        disk left (output_of K.held K.faults output.old output.new) result.status) }
    ensures handed_back { IsSome result.disk }
    ensures disk_later { IfSome result.disk (λ left. IsLater (D.trace disk) (D.trace left) (D.moment disk) (D.moment left) (count_of D.faults disk left)) }
    ensures files { Stays (F.files folder.old) (F.files folder.new) }
    ensures folder_never_falls { F.faults folder.old ≤ F.faults folder.new }
    ensures output_never_falls { K.faults output.old ≤ K.faults output.new }
{
    match Site::read(alloc, folder) {
        Ok(site) => create(alloc, site, output, disk),
        Err(SiteReadFault::Bad(fault)) => Done {
            status: refuse(site_refused_text(alloc, fault), SITE_REFUSED, output),
            disk: Some(disk),
        },
        Err(SiteReadFault::Folder) => report_folder(output, disk),
        Err(SiteReadFault::NoMemory) => Done {
            status: report_no_memory(output),
            disk: Some(disk),
        },
    }
}

// Makes the journal of a site.
fn create<K: Sink, D: Disk>(alloc: Global, site: Site, output: &mut K, disk: D) -> Done<D>
    ensures site_init { IfSome result.disk (λ left. SiteInit (described site) (D.trace disk) (D.trace left) (count_of D.faults disk left)
        (output_of K.held K.faults output.old output.new) result.status) }
    ensures handed_back { IsSome result.disk }
    ensures disk_later { IfSome result.disk (λ left. IsLater (D.trace disk) (D.trace left) (D.moment disk) (D.moment left) (count_of D.faults disk left)) }
    ensures never_falls { K.faults output.old ≤ K.faults output.new }
{
    let disk = match on_heap(alloc, disk, output) {
        Ok(disk) => disk,
        Err(done) => return done,
    };
    match Desk::<BoxedDisk<D>, BOOK_LIMIT>::create(alloc, disk, site) {
        Ok(desk) => Done {
            status: DONE,
            disk: Some(desk.finish().0.into_inner()),
        },
        Err((disk, fault)) => Done {
            status: report_create(fault, output),
            disk: Some(disk.into_inner()),
        },
    }
}

// Reports why a journal wasn't made.
fn report_create<K: Sink>(fault: CreateFault, output: &mut K) -> u8
    ensures reports { NotCreated fault (output_of K.held K.faults output.old output.new) result }
    ensures never_falls { K.faults output.old ≤ K.faults output.new }
{
    match fault {
        CreateFault::NotEmpty => say(NOT_EMPTY_LINE, JOURNAL_REFUSED, output),
        CreateFault::DiskFault => report_disk_fault(output),
        CreateFault::NoMemory => report_no_memory(output),
    }
}

// Reports that the folder failed; a disk that isn't empty, or that fails, is reported in its place.
fn report_folder<K: Sink, D: Disk>(output: &mut K, disk: D) -> Done<D>
    ensures reports { IfSome result.disk (λ left. FolderFailed (D.trace disk) (D.trace left) (count_of D.faults disk left)
        (output_of K.held K.faults output.old output.new) result.status) }
    ensures handed_back { IsSome result.disk }
    ensures disk_later { IfSome result.disk (λ left. IsLater (D.trace disk) (D.trace left) (D.moment disk) (D.moment left) (count_of D.faults disk left)) }
    ensures never_falls { K.faults output.old ≤ K.faults output.new }
{
    let mut disk = disk;
    let status = match disk.len() {
        Ok(0) => report_fault(output),
        Ok(_) => say(NOT_EMPTY_LINE, JOURNAL_REFUSED, output),
        Err(Failed) => report_disk_fault(output),
    };
    Done {
        status,
        disk: Some(disk),
    }
}
