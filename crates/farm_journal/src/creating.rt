//! The making of a journal.

ghost use Rattle.std.specs.Prelude.{◌≡◌, ◌≢◌, ◌<◌, ◌≤◌, ◌++◌, [], ◌∷◌, ℕ, List, IfErr, IfOk, None, OnOk, length};
ghost use Rattle.farm_base.specs.Counts.{Counts, CountsIf};
ghost use Rattle.farm_base.specs.Known.{WhereKnown};
ghost use Rattle.farm_disk.specs.Images.{present};
ghost use Rattle.farm_disk.specs.Runs.{MovesOn};
ghost use Rattle.farm_journal.specs.Creating.{GivesNone, IsCrashSafe, IsCreateRefusal, IsOpening, WasEmpty};
ghost use Rattle.farm_journal.specs.Layout.{opening};
ghost use Rattle.farm_journal.specs.Standing.{CountsMaking, IsAtRest, Stands, disk_left};
ghost use Rattle.farm_journal.specs.declared.limits.TheConstants.{MAX_BODY};

use crate::limits::SIGNATURE;
use crate::record_buffer::RecordBuffer;
use crate::writing::write_synced;
use crate::{CreateFault, DiskFault, Journal};
use farm_base::NoMemory;
use farm_disk::Disk;
use std::alloc::Global;

impl<D: Disk> Journal<D> {
    /// Makes a journal of a header without a body on an empty disk.
    ///
    /// It writes a closed gate and syncs, writes all the rest and syncs, opens the gate and syncs: a crash within leaves no journal,
    /// or this one. Where it fails the disk is given back: `NotEmpty` for one that has bytes, `DiskFault` where the disk failed,
    /// `NoMemory` before the disk's first call.
    pub fn create(alloc: Global, disk: D, header: &[u8]) -> Result<Self, (D, CreateFault)>
        requires short { length header.now ≤ MAX_BODY }
        ensures stands { IfOk result (λ journal. Stands D.trace header.now [] None journal) }
        ensures was_empty { IfOk result (λ journal. WasEmpty (D.trace disk) (D.trace journal.disk)) }
        ensures refused { IfErr result (λ refusal. IsCreateRefusal D.trace disk refusal.0 refusal.1) }
        ensures crash_safe { IsCrashSafe header.now (D.trace disk) (D.trace (disk_left result)) }
        ensures moves { MovesOn (D.trace disk) (D.trace (disk_left result)) (D.moment disk) (D.moment (disk_left result)) }
        ensures counts { CountsMaking D.faults CreateFault.DiskFault disk (disk_left result) result }
    {
        let mut disk = disk;
        match laid_out(alloc, &mut disk, header) {
            Ok((gate, record)) => Ok(Journal::at_rest(disk, gate, 0, record)),
            Err(fault) => Err((disk, fault)),
        }
    }
}

// The opening of a journal, and a closed gate after it.
fn opening_of(alloc: Global, header: &[u8]) -> Result<Vec<u8>, NoMemory>
    requires short { length header.now ≤ MAX_BODY }
    ensures { IfOk result (λ bytes. bytes.items ≡ opening header.now ++ 0 ∷ []) }
{
    let mut bytes = Vec::new(alloc);
    bytes.extend_from_slice(&SIGNATURE)?;
    bytes.extend_from_slice(&(header.len() as u32).to_be_bytes())?;
    bytes.extend_from_slice(header)?;
    bytes.push(0)?;
    Ok(bytes)
}

// Lays a journal of a header out on an empty disk; where its last gate stands, and room for a record.
fn laid_out<D: Disk>(
    alloc: Global,
    disk: &mut D,
    header: &[u8],
) -> Result<(u64, RecordBuffer), CreateFault>
    requires short { length header.now ≤ MAX_BODY }
    ensures gate { IfOk result (λ laid. laid.0 ≡ length (opening header.now)) }
    ensures rests { OnOk result (WhereKnown (D.trace disk.new) (λ states. IsAtRest header.now [] (present states))) }
    ensures was_empty { OnOk result (WasEmpty (D.trace disk.old) (D.trace disk.new)) }
    ensures refused { IfErr result (λ fault. IsCreateRefusal D.trace disk.old disk.new fault) }
    ensures crash_safe { IsCrashSafe header.now (D.trace disk.old) (D.trace disk.new) }
    ensures moves { MovesOn (D.trace disk.old) (D.trace disk.new) (D.moment disk.old) (D.moment disk.new) }
    ensures counts { CountsIf (result ≡ Err CreateFault.DiskFault) (D.faults disk.old) (D.faults disk.new) }
{
    let record = RecordBuffer::new(alloc)?;
    let bytes = opening_of(alloc, header)?;
    if disk.len()? > 0 {
        return Err(CreateFault::NotEmpty);
    }
    lay_out(disk, &bytes)?;
    Ok((bytes.len() as u64 - 1, record))
}

// Writes an opening and a closed gate after it on an empty disk, the gate of the header last.
fn lay_out<D: Disk>(disk: &mut D, bytes: &[u8]) -> Result<(), DiskFault>
    requires some { 0 < length bytes.now }
    ensures rests { (header : List ℕ) → IsOpening header bytes.now → GivesNone (D.trace disk.old) →
        OnOk result (WhereKnown (D.trace disk.new) (λ states. IsAtRest header [] (present states))) }
    ensures crash_safe { (header : List ℕ) → IsOpening header bytes.now → GivesNone (D.trace disk.old) →
        IsCrashSafe header (D.trace disk.old) (D.trace disk.new) }
    ensures moves { MovesOn (D.trace disk.old) (D.trace disk.new) (D.moment disk.old) (D.moment disk.new) }
    ensures counts { Counts (D.faults disk.old) (D.faults disk.new) result }
{
    write_synced(disk, 0, &[0])?;
    write_synced(disk, 1, &bytes[1..])?;
    write_synced(disk, 0, &bytes[..1])
}
