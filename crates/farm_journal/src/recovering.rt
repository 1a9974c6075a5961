//! The recovery of a journal.

ghost use Rattle.std.specs.Prelude.{◌≡◌, ◌≢◌, ◌≤◌, ◌^◌, [], IfErr, IfOk, OnOk, length};
ghost use Rattle.farm_base.specs.Counts.{CountsIf};
ghost use Rattle.farm_base.specs.Known.{KeepsKnown, WhereKnown};
ghost use Rattle.farm_disk.specs.Images.{present};
ghost use Rattle.farm_disk.specs.Runs.{MovesOn, WritesNothing};
ghost use Rattle.farm_journal.specs.Progress.{GoesOn, HasTaken, HasTakenAll, IsAllSynced, IsAnswer, IsDamageOr, IsGate, IsNoJournalOr, IsRefusedWith};
ghost use Rattle.farm_journal.specs.Recovery.{IsNotJournal, IsRecovered, IsRefusal, IsWhole};
ghost use Rattle.farm_journal.specs.Standing.{CountsMaking, StandsOf, disk_left};
ghost use Rattle.farm_journal.specs.Windows.{IsCounted, Shows};
ghost use Rattle.farm_journal.specs.declared.limits.TheConstants.{SIGNATURE_BYTES};

use crate::limits::{BEFORE_HEADER, LENGTH_BYTES, SIGNATURE};
use crate::record_buffer::RecordBuffer;
use crate::window::Window;
use crate::{Journal, RecoverFault, Taken, Taker};
use farm_disk::Disk;
use std::alloc::Global;

impl<D: Disk> Journal<D> {
    /// Opens the journal that stands on a disk: it gives the header and the bodies to a taker, in their order, each once.
    ///
    /// It begins with a sync, so that what it reads lasts, and writes nothing. A record whose gate isn't open ends the journal, and
    /// what stands after that gate isn't looked at. Where the journal isn't recovered the disk is given back, and the taker is given
    /// up: `NotJournal` and `Damaged` as the bytes say, where a body is damaged also exactly where the taker said `Bad`, `DiskFault` where
    /// the disk failed, `NoMemory` where there was no memory here or the taker found none.
    pub fn recover<T: Taker>(
        alloc: Global,
        disk: D,
        taker: &mut T,
    ) -> Result<Self, (D, RecoverFault)>
        requires fresh { T.taken taker.old ≡ [] }
        ensures recovered { IfOk result (λ journal. WhereKnown (D.trace journal.disk) (λ states. IsRecovered T.accepts (T.taken taker.new) (present states).seen)) }
        ensures stands { IfOk result (λ journal. StandsOf D.trace (T.taken taker.new) journal) }
        ensures refused { IfErr result (λ refusal. WhereKnown (D.trace refusal.0) (λ states. IsRefusal T.accepts (T.taken taker.new) (present states).seen refusal.1)) }
        ensures wrote_nothing { WritesNothing (D.trace disk) (D.trace (disk_left result)) }
        ensures moves { MovesOn (D.trace disk) (D.trace (disk_left result)) (D.moment disk) (D.moment (disk_left result)) }
        ensures counts { CountsMaking D.faults RecoverFault.DiskFault disk (disk_left result) result }
    {
        let record = match RecordBuffer::new(alloc) {
            Ok(record) => record,
            Err(_) => return Err((disk, RecoverFault::NoMemory)),
        };
        let mut window = Window::new(alloc, disk);
        match take_all(&mut window, taker) {
            Ok(count) => {
                let gate = window.offset();
                Ok(Journal::at_rest(window.into_disk(), gate, count, record))
            }
            Err(fault) => Err((window.into_disk(), fault)),
        }
    }
}

// Gives all that counts of a journal to a taker, up to the gate that isn't open; the number of bodies.
fn take_all<D: Disk, T: Taker>(window: &mut Window<D>, taker: &mut T) -> Result<u32, RecoverFault>
    requires fresh { T.taken taker.old ≡ [] }
    requires start { window.old.offset ≡ 0 }
    requires nothing_ahead { window.old.ahead ≡ [] }
    ensures taken { IfOk result (HasTakenAll T.accepts (T.taken taker.new) (D.trace window.new.disk) window.new.offset) }
    ensures synced { OnOk result (IsAllSynced (D.trace window.new.disk)) }
    ensures refused { IfErr result (IsRefusedWith T.accepts (T.taken taker.new) (D.trace window.new.disk)) }
    ensures wrote_nothing { WritesNothing (D.trace window.old.disk) (D.trace window.new.disk) }
    ensures moves { MovesOn (D.trace window.old.disk) (D.trace window.new.disk) (D.moment window.old.disk) (D.moment window.new.disk) }
    ensures counts { CountsIf (result ≡ Err RecoverFault.DiskFault) (D.faults window.old.disk) (D.faults window.new.disk) }
{
    window.sync()?;
    take_header(window, taker)?;
    take_bodies(window, taker)
}

// Gives the header to a taker, and goes past the opening.
fn take_header<D: Disk, T: Taker>(window: &mut Window<D>, taker: &mut T) -> Result<(), RecoverFault>
    requires fresh { T.taken taker.old ≡ [] }
    requires start { window.old.offset ≡ 0 }
    requires shows { Shows D.trace window.old }
    ensures shows { Shows D.trace window.new }
    ensures taken { OnOk result (HasTaken T.accepts (T.taken taker.new) (D.trace window.new.disk) window.new.offset) }
    ensures one { OnOk result (length (T.taken taker.new) ≡ 1) }
    ensures refused { IfErr result (IsRefusedWith T.accepts (T.taken taker.new) (D.trace window.new.disk)) }
    ensures keeps { KeepsKnown (D.trace window.old.disk) (D.trace window.new.disk) (D.faults window.old.disk) (D.faults window.new.disk)
        RecoverFault.DiskFault result }
    ensures moment { D.moment window.old.disk ≤ D.moment window.new.disk }
{
    pass_signature(window)?;
    let size = counted_at(window, 0)?;
    let answer = taker.header(&window.ahead()[LENGTH_BYTES..LENGTH_BYTES + size]);
    window.pass(LENGTH_BYTES + size);
    or_refused(answer, 0)
}

// Goes past the gate and the name that a journal begins with.
fn pass_signature<D: Disk>(window: &mut Window<D>) -> Result<(), RecoverFault>
    requires start { window.old.offset ≡ 0 }
    requires shows { Shows D.trace window.old }
    ensures shows { Shows D.trace window.new }
    ensures offset { OnOk result (window.new.offset ≡ SIGNATURE_BYTES) }
    ensures is_journal { OnOk result (WhereKnown (D.trace window.new.disk) (λ states. IsNotJournal (present states).seen → ⊥)) }
    ensures refused { IfErr result (IsNoJournalOr (D.trace window.new.disk)) }
    ensures keeps { KeepsKnown (D.trace window.old.disk) (D.trace window.new.disk) (D.faults window.old.disk) (D.faults window.new.disk)
        RecoverFault.DiskFault result }
    ensures moment { D.moment window.old.disk ≤ D.moment window.new.disk }
{
    if !window.look(BEFORE_HEADER)? {
        return Err(RecoverFault::NotJournal);
    }
    if !window.ahead().starts_with(&SIGNATURE) {
        return Err(RecoverFault::NotJournal);
    }
    window.pass(SIGNATURE.len());
    Ok(())
}

// Gives the bodies to a taker; their number.
fn take_bodies<D: Disk, T: Taker>(
    window: &mut Window<D>,
    taker: &mut T,
) -> Result<u32, RecoverFault>
    requires shows { Shows D.trace window.old }
    requires header { HasTaken T.accepts (T.taken taker.old) (D.trace window.old.disk) window.old.offset }
    requires one { length (T.taken taker.old) ≡ 1 }
    ensures taken { IfOk result (HasTakenAll T.accepts (T.taken taker.new) (D.trace window.new.disk) window.new.offset) }
    ensures refused { IfErr result (IsRefusedWith T.accepts (T.taken taker.new) (D.trace window.new.disk)) }
    ensures keeps { KeepsKnown (D.trace window.old.disk) (D.trace window.new.disk) (D.faults window.old.disk) (D.faults window.new.disk)
        RecoverFault.DiskFault result }
    ensures moment { D.moment window.old.disk ≤ D.moment window.new.disk }
{
    let mut count = 0;
    while take_body(window, taker, count + 1)? {
        count += 1;
    }
    Ok(count)
}

// Gives the body at a place to a taker, and goes past its record; false, and nothing done, where the gate isn't open.
fn take_body<D: Disk, T: Taker>(
    window: &mut Window<D>,
    taker: &mut T,
    place: u32,
) -> Result<bool, RecoverFault>
    requires shows { Shows D.trace window.old }
    requires before { HasTaken T.accepts (T.taken taker.old) (D.trace window.old.disk) window.old.offset }
    requires place { length (T.taken taker.old) ≡ place }
    ensures shows { Shows D.trace window.new }
    ensures taken { IfOk result (GoesOn T.accepts (T.taken taker.new) (D.trace window.new.disk) place window.new.offset) }
    ensures refused { IfErr result (IsRefusedWith T.accepts (T.taken taker.new) (D.trace window.new.disk)) }
    ensures keeps { KeepsKnown (D.trace window.old.disk) (D.trace window.new.disk) (D.faults window.old.disk) (D.faults window.new.disk)
        RecoverFault.DiskFault result }
    ensures moment { D.moment window.old.disk ≤ D.moment window.new.disk }
{
    if !is_open(window, place)? {
        return Ok(false);
    }
    window.pass(1);
    let size = counted_at(window, place)?;
    let answer = taker.body(place, &window.ahead()[LENGTH_BYTES..LENGTH_BYTES + size]);
    window.pass(LENGTH_BYTES + size);
    or_refused(answer, place)?;
    Ok(true)
}

// Whether the expected gate is open; if there is no gate, the journal is damaged at this place.
fn is_open<D: Disk>(window: &mut Window<D>, place: u32) -> Result<bool, RecoverFault>
    requires shows { Shows D.trace window.old }
    requires offset { window.old.offset ≤ 2 ^ 60 }
    ensures shows { Shows D.trace window.new }
    ensures gate { IfOk result (IsGate (D.trace window.new.disk) window.old.offset window.new.ahead) }
    ensures refused { IfErr result (IsDamageOr (D.trace window.new.disk) window.old.offset place (λ left. left ≡ [])) }
    ensures keeps { KeepsKnown (D.trace window.old.disk) (D.trace window.new.disk) (D.faults window.old.disk) (D.faults window.new.disk)
        RecoverFault.DiskFault result }
    ensures moment { D.moment window.old.disk ≤ D.moment window.new.disk }
    ensures offset { window.new.offset ≡ window.old.offset }
{
    if !window.look(1)? {
        return Err(RecoverFault::Damaged(place));
    }
    Ok(window.ahead()[0] == 1)
}

// How many bytes are counted ahead; where none are, the journal is damaged at this place.
fn counted_at<D: Disk>(window: &mut Window<D>, place: u32) -> Result<usize, RecoverFault>
    requires shows { Shows D.trace window.old }
    requires offset { window.old.offset ≤ 2 ^ 60 }
    ensures shows { Shows D.trace window.new }
    ensures counted { IfOk result (λ size. IsCounted size window.new.ahead) }
    ensures refused { IfErr result (IsDamageOr (D.trace window.new.disk) window.old.offset place (λ left. IsWhole left → ⊥)) }
    ensures keeps { KeepsKnown (D.trace window.old.disk) (D.trace window.new.disk) (D.faults window.old.disk) (D.faults window.new.disk)
        RecoverFault.DiskFault result }
    ensures moment { D.moment window.old.disk ≤ D.moment window.new.disk }
    ensures offset { window.new.offset ≡ window.old.offset }
{
    window.counted()?.ok_or(RecoverFault::Damaged(place))
}

// What a taker's answer at a place makes of the recovery.
fn or_refused(answer: Taken, place: u32) -> Result<(), RecoverFault>
    ensures { IsAnswer answer place result }
{
    match answer {
        Taken::Go => Ok(()),
        Taken::Bad => Err(RecoverFault::Damaged(place)),
        Taken::NoMemory => Err(RecoverFault::NoMemory),
    }
}
