//! How a desk is made, from a site or from the journal on a disk.

ghost use Rattle.std.specs.Prelude.{◌≡◌, ◌≢◌, ◌≤◌, IfErr, IfOk, length};
ghost use Rattle.farm_base.specs.Known.{WhereKnown};
ghost use Rattle.farm_disk.specs.Images.{present};
ghost use Rattle.farm_disk.specs.Runs.{MovesOn, WritesNothing};
ghost use Rattle.farm_history.specs.History.{empty_history, last_place};
ghost use Rattle.farm_history.specs.declared.limits.TheConstants.{MOST_LIMIT};
ghost use Rattle.farm_journal.specs.Standing.{CountsMaking};
ghost use Rattle.farm_journal.specs.Creating.{IsCreateRefusal, WasEmpty};
ghost use Rattle.farm_site.specs.Described.{IsSite};
ghost use Rattle.site_encoding.specs.Encoding.{site_encoding};
ghost use Rattle.farm_site.specs.Sites.{described};
ghost use Rattle.farm_desk.specs.Asking.{IsCrashSafe};
ghost use Rattle.journaled_book.specs.Histories.{Recovers};
ghost use Rattle.farm_recovery.specs.Recovery.{IsRefused};
ghost use Rattle.farm_desk.specs.States.{IsDurable, IsJustMade, disk_left};
ghost use Rattle.farm_journal.specs.declared.limits.TheConstants.{MAX_BODY};

use crate::Desk;
use farm_base::NoMemory;
use farm_book::Book;
use farm_disk::Disk;
use farm_history::MOST_ENTRY_BYTES;
use farm_journal::{CreateFault, Journal, RecoverFault};
use farm_recovery::Recovering;
use farm_site::Site;
use site_encoding::SiteToBytes;
use std::alloc::Global;

impl<D: Disk, const LIMIT: usize> Desk<D, LIMIT> {
    /// Makes the journal of a site on an empty disk, and its desk, which has no entry.
    ///
    /// A crash within leaves no journal, or that of the site without an entry. If it fails, the disk is given back: `NotEmpty` if it
    /// has bytes, `DiskFault` if the disk failed, `NoMemory` before the disk's first call.
    pub fn create(alloc: Global, disk: D, site: Site) -> Result<Self, (D, CreateFault)>
        requires limit { LIMIT ≤ MOST_LIMIT }
        ensures made { IfOk result (λ desk. desk.history ≡ empty_history (described site)) }
        ensures new { IfOk result (λ desk. IsJustMade D.moment D.faults desk 0) }
        ensures durable { IfOk result (λ desk. IsDurable D.trace D.moment D.faults LIMIT desk) }
        ensures was_empty { IfOk result (λ desk. WasEmpty (D.trace disk) (D.trace desk.disk)) }
        ensures refused { IfErr result (λ refusal. IsCreateRefusal D.trace disk refusal.0 refusal.1) }
        ensures crash_safe { IsCrashSafe LIMIT (described site) (D.trace disk) (D.trace (disk_left result)) }
        ensures moves { MovesOn (D.trace disk) (D.trace (disk_left result)) (D.moment disk) (D.moment (disk_left result)) }
        ensures counts { CountsMaking D.faults CreateFault.DiskFault disk (disk_left result) result }
    {
        let (header, book, bytes) = match prepared(alloc, site) {
            Ok(prepared) => prepared,
            Err(NoMemory) => return Err((disk, CreateFault::NoMemory)),
        };
        match Journal::create(alloc, disk, &header) {
            Ok(journal) => Ok(Desk::of_records(journal, book, bytes)),
            Err(refusal) => Err(refusal),
        }
    }

    /// The desk of the journal on a disk. Nothing of it is in doubt.
    ///
    /// If the journal isn't recovered, the disk is given back: `NotJournal` and `Damaged` as the bytes say, `DiskFault` if the disk
    /// failed, and `NoMemory`. Nothing is written.
    pub fn recover(alloc: Global, disk: D) -> Result<Self, (D, RecoverFault)>
        requires limit { LIMIT ≤ MOST_LIMIT }
        ensures recovered { IfOk result (λ desk. WhereKnown (D.trace desk.disk) (λ states. Recovers LIMIT desk.history (present states).seen)) }
        ensures new { IfOk result (λ desk. IsJustMade D.moment D.faults desk (last_place desk.history)) }
        ensures durable { IfOk result (λ desk. IsDurable D.trace D.moment D.faults LIMIT desk) }
        ensures refused { IfErr result (λ refusal. WhereKnown (D.trace refusal.0) (λ states. IsRefused LIMIT (present states).seen refusal.1)) }
        ensures wrote_nothing { WritesNothing (D.trace disk) (D.trace (disk_left result)) }
        ensures moves { MovesOn (D.trace disk) (D.trace (disk_left result)) (D.moment disk) (D.moment (disk_left result)) }
        ensures counts { CountsMaking D.faults RecoverFault.DiskFault disk (disk_left result) result }
    {
        let bytes = match Vec::with_capacity(alloc, MOST_ENTRY_BYTES) {
            Ok(bytes) => bytes,
            Err(_) => return Err((disk, RecoverFault::NoMemory)),
        };
        let mut recovering = Recovering::new(alloc);
        match Journal::recover(alloc, disk, &mut recovering) {
            Ok(journal) => Ok(Desk::of_records(journal, recovering.into_book(), bytes)),
            Err(refusal) => {
                recovering.refusals();
                Err(refusal)
            }
        }
    }
}

// The bytes of a site, its book, and a buffer for the bytes of an entry.
fn prepared<const LIMIT: usize>(
    alloc: Global,
    site: Site,
) -> Result<(Vec<u8>, Book<LIMIT>, Vec<u8>), NoMemory>
    requires limit { LIMIT ≤ MOST_LIMIT }
    ensures header { IfOk result (λ prepared. prepared.0.items ≡ site_encoding (described site)) }
    ensures short { IfOk result (λ prepared. length prepared.0.items ≤ MAX_BODY) }
    ensures sound { IfOk result (λ prepared. IsSite (described site)) }
    ensures book { IfOk result (λ prepared. prepared.1.history ≡ empty_history (described site)) }
{
    let header = site.to_bytes(alloc)?;
    let bytes = Vec::with_capacity(alloc, MOST_ENTRY_BYTES)?;
    Ok((header, Book::new(alloc, site)?, bytes))
}
