//! Faults of the disk: a body that wasn't put is put again, and a gate that wasn't opened is opened again.

ghost use Rattle.std.specs.Prelude.{◌≡◌, ◌<◌, ◌≤◌, ◌+◌, None, OnOk, length};

use crate::Listing;
use crate::files::{
    EMPTY, ONE, TWO, bytes_of, bytes_under, check_recovery, disk_of, keep, new_journal,
    refused_making,
};
use farm_disk::{Disk, Fill, MemDisk};
use farm_journal::{CreateFault, DiskFault, Journal, RecoverFault, Taken};
use std::alloc::Global;
use std::test::Fail;
use test_checks::{Checks, shared};

// The making of a journal makes seven calls: a measuring, and three writes with a sync each.
const MADE: u64 = 7;

// Puts a body whose put fails.
fn put_in_vain(journal: &mut Journal<MemDisk>, body: &[u8]) -> Result<(), Fail>
    requires idle { journal.old.next_gate ≡ None }
    requires few { journal.old.count < 9 }
    requires short { length body.now ≤ 9 }
    ensures idle { OnOk result (journal.new.next_gate ≡ None) }
    ensures uncounted { OnOk result (journal.new.count ≡ journal.old.count) }
{
    journal.reserve(body.len())?;
    match journal.put_body(body) {
        Err(DiskFault) => Ok(()),
        Ok(()) => Err("the put didn't fail".into()),
    }
}

// The faults of an empty journal whose next put fails, before a put that doesn't.
fn faults_between(journal: &mut Journal<MemDisk>) -> Result<u64, Fail>
    requires idle { journal.old.next_gate ≡ None }
    requires empty { journal.old.count ≡ 0 }
{
    put_in_vain(journal, b"three")?;
    let faults = journal.stand().faults;
    keep(journal, b"one")?;
    Ok(faults)
}

// The faults of a journal one of whose puts fails, and its bytes after the next put.
fn put_again(alloc: Global, failing: u64) -> Result<(u64, Vec<u8>), Fail> {
    let mut journal = new_journal(alloc, &[failing])?;
    match faults_between(&mut journal) {
        Ok(faults) => Ok((faults, bytes_under(alloc, journal)?)),
        Err(fail) => {
            drop(journal);
            Err(fail)
        }
    }
}

// The call of this number fails, and the body is put again.
fn check_put_again<R: Print>(
    checks: &mut Checks<'_, R>,
    alloc: Global,
    failing: u64,
) -> Result<(), Fail> {
    let (faults, bytes) = put_again(alloc, failing)?;
    checks.same_at(failing, faults, 1);
    check_recovery(checks, alloc, failing, &bytes, " site one")
}

#[test]
fn a_body_that_was_not_put_is_put_again(rt: HostRuntime) -> Result<(), Fail> {
    let mut checks = Checks::new(&rt);
    for failing in [MADE + 1, MADE + 2] {
        check_put_again(&mut checks, rt.alloc(), failing)?;
    }
    Ok(checks.end()?)
}

// Puts a body, of whose gate two openings fail and the third one doesn't.
fn keep_at_last(journal: &mut Journal<MemDisk>, body: &[u8]) -> Result<(), Fail>
    requires idle { journal.old.next_gate ≡ None }
    requires few { journal.old.count < 9 }
    requires short { length body.now ≤ 9 }
    ensures idle { OnOk result (journal.new.next_gate ≡ None) }
    ensures counted { OnOk result (journal.new.count ≡ journal.old.count + 1) }
{
    journal.reserve(body.len())?;
    journal.put_body(body)?;
    if journal.open_gate().is_ok() {
        return Err("the gate opened too early".into());
    }
    if journal.open_gate().is_ok() {
        return Err("the gate opened too early".into());
    }
    journal.open_gate()?;
    Ok(())
}

// Puts `one` on an empty journal, its gate opened at last, and then `three`.
fn keep_both_at_last(journal: &mut Journal<MemDisk>) -> Result<(), Fail>
    requires idle { journal.old.next_gate ≡ None }
    requires empty { journal.old.count ≡ 0 }
{
    keep_at_last(journal, b"one")?;
    keep(journal, b"three")
}

// The bytes of a journal with two bodies, the gate of the first one opened at last.
fn opened_again(alloc: Global, failing: u64) -> Result<Vec<u8>, Fail> {
    let mut journal = new_journal(alloc, &[failing, MADE + 5])?;
    match keep_both_at_last(&mut journal) {
        Ok(()) => bytes_under(alloc, journal),
        Err(fail) => {
            drop(journal);
            Err(fail)
        }
    }
}

#[test]
fn a_gate_that_was_not_opened_is_opened_again(rt: HostRuntime) -> Result<(), Fail> {
    let mut checks = Checks::new(&rt);
    // The gate's write fails, or its sync; then the other call of the second try.
    for failing in [MADE + 3, MADE + 4] {
        checks.same_at(failing, opened_again(rt.alloc(), failing)?.as_slice(), TWO);
    }
    Ok(checks.end()?)
}

// Why a making fails at this call, the faults of its disk, and its old bytes.
fn failed_making(alloc: Global, failing: u64) -> Result<(CreateFault, u64, Vec<u8>), Fail> {
    let (disk, fault) = refused_making(alloc, b"", &[failing])?;
    let stand = disk.stand();
    let old = disk.image(alloc, stand.moment, Fill::Old);
    drop(disk);
    Ok((fault, stand.faults, old?))
}

// The call of this number of a making fails.
fn check_making<R: Print>(
    checks: &mut Checks<'_, R>,
    alloc: Global,
    failing: u64,
) -> Result<(), Fail> {
    let (fault, faults, old) = failed_making(alloc, failing)?;
    checks.same_at(failing, fault, shared(CreateFault::DiskFault));
    checks.same_at(failing, faults, 1);
    check_recovery(checks, alloc, failing, &old, "not a journal")
}

#[test]
fn a_fault_within_the_making_leaves_no_journal(rt: HostRuntime) -> Result<(), Fail> {
    let mut checks = Checks::new(&rt);
    for failing in 1..8 {
        check_making(&mut checks, rt.alloc(), failing)?;
    }
    Ok(checks.end()?)
}

// The disk of a recovery that fails at this call, and the fault.
fn refused_recovery(alloc: Global, failing: u64) -> Result<(MemDisk, RecoverFault), Fail> {
    let disk = disk_of(alloc, ONE, &[failing])?;
    let mut listing = Listing::new(alloc);
    let recovered = Journal::recover(alloc, disk, &mut listing);
    drop(listing);
    match recovered {
        Ok(journal) => {
            drop(journal);
            Err("a journal was recovered".into())
        }
        Err(refusal) => Ok(refusal),
    }
}

// Why a recovery fails at this call, the faults of the disk that it gives back, and its bytes.
fn failed_recovery(alloc: Global, failing: u64) -> Result<(RecoverFault, u64, Vec<u8>), Fail> {
    let (mut disk, fault) = refused_recovery(alloc, failing)?;
    let faults = disk.stand().faults;
    let bytes = bytes_of(alloc, &mut disk);
    drop(disk);
    Ok((fault, faults, bytes?))
}

// The call of this number of a recovery fails.
fn check_failed_recovery<R: Print>(
    checks: &mut Checks<'_, R>,
    alloc: Global,
    failing: u64,
) -> Result<(), Fail> {
    let (fault, faults, bytes) = failed_recovery(alloc, failing)?;
    checks.same_at(failing, fault, shared(RecoverFault::DiskFault));
    checks.same_at(failing, faults, 1);
    checks.same_at(failing, bytes.as_slice(), ONE);
    Ok(())
}

#[test]
fn a_fault_of_recovery_gives_the_disk_back(rt: HostRuntime) -> Result<(), Fail> {
    let mut checks = Checks::new(&rt);
    for failing in 1..3 {
        check_failed_recovery(&mut checks, rt.alloc(), failing)?;
    }
    check_recovery(&mut checks, rt.alloc(), "no fault", EMPTY, " site")?;
    Ok(checks.end()?)
}

#[test]
fn each_type_may_go_to_another_thread(rt: HostRuntime) -> Result<(), Fail> {
    let mut checks = Checks::new(&rt);
    checks.same(shared(DiskFault), DiskFault);
    checks.same(shared(Taken::Go), Taken::Go);
    Ok(checks.end()?)
}
