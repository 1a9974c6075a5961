//! The bytes of a journal, and what they are recovered as.

ghost use Rattle.std.specs.Prelude.{◌≡◌, ◌<◌, ◌≤◌, ◌+◌, IfOk, None, OnOk, [], length};

use crate::Listing;
use farm_base::NoMemory;
use farm_disk::{Disk, Fill, MemDisk};
use farm_journal::{CreateFault, Journal, RecoverFault};
use farm_ports::Bytes;
use std::alloc::{AllocError, Global};
use std::fmt::Display;
use std::test::Fail;
use test_checks::{Checks, shared};

/// A journal of the header `site` without a body: an open gate, the name, 4, the header, a closed gate.
pub const EMPTY: &[u8] = b"\x01FARMJNL1\0\0\0\x04site\0";

/// The same with the body `one`.
pub const ONE: &[u8] = b"\x01FARMJNL1\0\0\0\x04site\x01\0\0\0\x03one\0";

/// The same with the bodies `one` and `three`.
pub const TWO: &[u8] = b"\x01FARMJNL1\0\0\0\x04site\x01\0\0\0\x03one\x01\0\0\0\x05three\0";

/// A disk with these bytes, whose calls of these numbers fail.
pub(crate) fn disk_of(alloc: Global, bytes: &[u8], fails: &[u64]) -> Result<MemDisk, NoMemory> {
    MemDisk::new(alloc, bytes.to_vec(alloc)?, fails.to_vec(alloc)?)
}

// Each byte string after a blank.
fn text_of(alloc: Global, taken: &[Bytes]) -> Result<String, AllocError> {
    let mut text = String::new(alloc);
    for bytes in taken {
        text.push(' ')?;
        for byte in bytes.get() {
            text.push(char::from(*byte))?;
        }
    }
    Ok(text)
}

// The fault of a recovery of bytes.
fn fault_of(
    alloc: Global,
    bytes: &[u8],
    listing: &mut Listing,
) -> Result<Option<RecoverFault>, NoMemory>
    requires fresh { listing.old ≡ [] }
{
    let disk = disk_of(alloc, bytes, &[])?;
    match Journal::recover(alloc, disk, listing) {
        Ok(journal) => {
            drop(journal);
            Ok(None)
        }
        Err((disk, fault)) => {
            drop(disk);
            Ok(Some(fault))
        }
    }
}

/// What is recovered of bytes: what was taken, each byte string after a blank, or the text of the refusal.
pub(crate) fn recovered(alloc: Global, bytes: &[u8]) -> Result<String, Fail> {
    let mut listing = Listing::new(alloc);
    let fault = fault_of(alloc, bytes, &mut listing);
    let taken = text_of(alloc, listing.taken());
    drop(listing);
    match fault? {
        None => Ok(taken?),
        Some(fault) => Ok(format!(in alloc; "{fault}")?),
    }
}

/// Bytes are recovered as this.
pub(crate) fn check_recovery<N: Display + Drop, R: Print>(
    checks: &mut Checks<'_, R>,
    alloc: Global,
    case: N,
    bytes: &[u8],
    want: &str,
) -> Result<(), Fail> {
    checks.same_at(case, recovered(alloc, bytes)?.as_str(), want);
    Ok(())
}

/// All bytes that reads of a disk give.
pub(crate) fn bytes_of<D: Disk>(alloc: Global, disk: &mut D) -> Result<Vec<u8>, Fail> {
    let mut bytes = vec![in alloc; 0; disk.len()? as usize]?;
    let count = disk.read_at(0, &mut bytes)?;
    bytes.truncate(count);
    Ok(bytes)
}

/// A new journal of the header `site` on an empty disk whose calls of these numbers fail.
pub(crate) fn new_journal(alloc: Global, fails: &[u64]) -> Result<Journal<MemDisk>, Fail>
    ensures idle { IfOk result (λ journal. journal.next_gate ≡ None) }
    ensures empty { IfOk result (λ journal. journal.count ≡ 0) }
{
    match Journal::create(alloc, disk_of(alloc, b"", fails)?, b"site") {
        Ok(journal) => Ok(journal),
        Err((disk, fault)) => {
            drop(disk);
            Err(fault.into())
        }
    }
}

/// The disk on which no journal is made, and the fault: a disk with these bytes, whose calls of these numbers fail.
pub(crate) fn refused_making(
    alloc: Global,
    bytes: &[u8],
    fails: &[u64],
) -> Result<(MemDisk, CreateFault), Fail> {
    match Journal::create(alloc, disk_of(alloc, bytes, fails)?, b"site") {
        Ok(journal) => {
            drop(journal);
            Err("a journal was made".into())
        }
        Err(refusal) => Ok(refusal),
    }
}

/// Puts a body on a journal and opens its gate.
pub(crate) fn keep<D: Disk>(journal: &mut Journal<D>, body: &[u8]) -> Result<(), Fail>
    requires idle { journal.old.next_gate ≡ None }
    requires few { journal.old.count < 9 }
    requires short { length body.now ≤ 9 }
    ensures idle { OnOk result (journal.new.next_gate ≡ None) }
    ensures counted { OnOk result (journal.new.count ≡ journal.old.count + 1) }
{
    journal.reserve(body.len())?;
    journal.put_body(body)?;
    journal.open_gate()?;
    Ok(())
}

// Puts the bodies `one` and `three` on an empty journal, and answers its moment between them.
fn keep_both(journal: &mut Journal<MemDisk>) -> Result<u64, Fail>
    requires idle { journal.old.next_gate ≡ None }
    requires empty { journal.old.count ≡ 0 }
{
    keep(journal, b"one")?;
    let start = journal.stand().moment;
    keep(journal, b"three")?;
    Ok(start)
}

/// A disk on which the bodies `one` and `three` were put, and its moment between them.
pub(crate) fn two_bodies(alloc: Global) -> Result<(MemDisk, u64), Fail> {
    let mut journal = new_journal(alloc, &[])?;
    let kept = keep_both(&mut journal);
    let disk = shared(journal).into_disk();
    match kept {
        Ok(start) => Ok((disk, start)),
        Err(fail) => {
            drop(disk);
            Err(fail)
        }
    }
}

// What reads of a disk give, and what a crash leaves of it.
fn read_and_left(alloc: Global, disk: &mut MemDisk) -> Result<(Vec<u8>, Vec<u8>), Fail> {
    let read = bytes_of(alloc, disk)?;
    let left = disk.image(alloc, disk.stand().moment, Fill::Byte(b'?'))?;
    Ok((read, left))
}

// The same of the disk with two bodies.
fn written(alloc: Global) -> Result<(Vec<u8>, Vec<u8>), Fail> {
    let (mut disk, _) = two_bodies(alloc)?;
    let bytes = read_and_left(alloc, &mut disk);
    drop(disk);
    bytes
}

#[test]
fn a_journal_is_written_byte_by_byte(rt: HostRuntime) -> Result<(), Fail> {
    let mut checks = Checks::new(&rt);
    let (read, left) = written(rt.alloc())?;
    for (name, bytes) in [("what reads give", &read), ("what a crash leaves", &left)] {
        checks.same_at(name, bytes.as_slice(), TWO);
    }
    drop((read, left));
    Ok(checks.end()?)
}

// A journal that was recovered of a disk, with one body.
#[tactic(auto, using(crate::proofs::Counts::count_of))]
fn reopened<D: Disk + Drop>(alloc: Global, disk: D) -> Result<Journal<D>, Fail>
    ensures idle { IfOk result (λ journal. journal.next_gate ≡ None) }
    ensures one { IfOk result (λ journal. journal.count ≡ 1) }
{
    let mut listing = Listing::new(alloc);
    let journal = match Journal::recover(alloc, disk, &mut listing) {
        Ok(journal) => journal,
        Err((disk, fault)) => {
            drop((disk, listing));
            return Err(fault.into());
        }
    };
    let taken = listing.taken().len();
    drop(listing);
    if taken != 2 {
        drop(journal);
        return Err("the journal hasn't one body".into());
    }
    Ok(journal)
}

/// The bytes of the disk of a journal.
pub(crate) fn bytes_under<D: Disk + Drop>(
    alloc: Global,
    journal: Journal<D>,
) -> Result<Vec<u8>, Fail> {
    let mut disk = journal.into_disk();
    let bytes = bytes_of(alloc, &mut disk);
    drop(disk);
    bytes
}

/// The bytes of a disk after its journal with one body was recovered and `three` was put on it.
pub(crate) fn gone_on<D: Disk + Drop>(alloc: Global, disk: D) -> Result<Vec<u8>, Fail> {
    let mut journal = reopened(alloc, disk)?;
    match keep(&mut journal, b"three") {
        Ok(()) => bytes_under(alloc, journal),
        Err(fail) => {
            drop(journal);
            Err(fail)
        }
    }
}

#[test]
fn a_journal_is_recovered_and_goes_on(rt: HostRuntime) -> Result<(), Fail> {
    let mut checks = Checks::new(&rt);
    let alloc = rt.alloc();
    let bytes = gone_on(alloc, disk_of(alloc, ONE, &[])?)?;
    checks.same(bytes.as_slice(), TWO);
    Ok(checks.end()?)
}

// Why no journal is made on a disk with these bytes, and what reads of it then give.
fn not_made(alloc: Global, bytes: &[u8]) -> Result<(CreateFault, Vec<u8>), Fail> {
    let (mut disk, fault) = refused_making(alloc, bytes, &[])?;
    let bytes = bytes_of(alloc, &mut disk);
    drop(disk);
    Ok((fault, bytes?))
}

#[test]
fn a_journal_is_made_on_an_empty_disk_alone(rt: HostRuntime) -> Result<(), Fail> {
    let mut checks = Checks::new(&rt);
    let (fault, bytes) = not_made(rt.alloc(), b"\0")?;
    checks.same_at("the fault", fault, CreateFault::NotEmpty);
    checks.same_at("what reads give", bytes.as_slice(), b"\0".as_slice());
    drop(bytes);
    Ok(checks.end()?)
}
