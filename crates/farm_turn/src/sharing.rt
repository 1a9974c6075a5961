//! The turn: one value that many callers share.

ghost use Rattle.std.specs.Prelude.{◌≡◌, ◌+◌, ◌<◌, ◌≤◌, None, Some, IsSome, IsOk, IfOk, IfErr, IfSome, IfNone, false, OnOk, OnErr, All, sum_by, [], ◌∷◌};
ghost use Rattle.farm_turn.specs.Chronicles.{features};
ghost use Rattle.farm_turn.specs.Views.{number_limit, first_known, left_of, IsLeastLeft, enrolled, without_least, split_off, numbers_of, together};
ghost use Rattle.farm_turn.specs.Sharing.{Turned, KeepsNumbers, IsClosed, IsSized};

use crate::chronicles::{Chronicle, Job};
use crate::one_turn::{SeatOf, SharedOf, ViewOf, turn_at};
use crate::passes::Pass;
use crate::steps::{EnrolPass, JoinPass, SplitPass, TurnRule};
use atomic_table::{Badge, Refused, Table};
use farm_base::NoMemory;
use std::alloc::{AllocFailed, Global};
use std::marker::Model;
use std::mem;
use std::snapshot::Snapshot;
use std::sync::Wait;
use std::sync::atomic::AtomicU64;

/// The pass of a caller of a turn of `V`.
pub type PassOf<V> = Pass<<V as Chronicle>::Entry, <V as Chronicle>::Root>;

/// One value that many callers share, each of which waits for its turn. A contract sees the value that it was opened with.
///
/// It is `Send` and `Sync` where the value is `Send`.
#[derive(Drop)]
pub struct Turn<V: Chronicle> {
    table: Table<Option<V>, ViewOf<V>, Snapshot<V>, TurnRule, Global>,
    sleepers: AtomicU64,
}

impl<V: Chronicle> Model for Turn<V> {
    ghost use Rattle.farm_turn.specs.Views.{TurnView};
    ghost use Rattle.farm_turn.specs.Sharing.{IsSized};

    ghost Value = { TurnView V };

    ghost view = { λ t. record { turn = t.table.shared.table_id; opening = t.table.shared.key.value } };

    ghost invariant = { λ t. IsSized t.table.shared.table_id };
}

// The one slot, with the value at home. The value comes back where there is no memory.
fn one_slot<V>(alloc: Global, value: V) -> Result<Vec<Option<V>>, V>
    ensures ok { IfOk result (λ slots. slots.items ≡ Some value ∷ []) }
    ensures err { IfErr result (λ back. back ≡ value) }
{
    let mut slots = Vec::new(alloc);
    match slots.push(Some(value)) {
        Ok(()) => Ok(slots),
        Err(failed) => {
            let AllocFailed { value: back } = failed;
            slots.destroy_empty();
            let Some(back) = back else { unreachable!() };
            Err(back)
        }
    }
}

// The value of the one slot.
fn value_of<V>(mut slots: Vec<Option<V>>, value: Snapshot<V>) -> V
    requires { slots.items ≡ Some value.value ∷ [] }
    ensures { result ≡ value.value }
{
    let found = slots.pop();
    slots.destroy_empty();
    let Some(Some(back)) = found else {
        unreachable!()
    };
    back
}

// The seats of all passes as one.
fn joined_seat<V: Chronicle>(shared: &SharedOf<V>, mut passes: Vec<PassOf<V>>) -> Option<SeatOf<V>>
    requires of_this_turn { All (λ p. p.turn ≡ shared.now.table_id) passes.items }
    requires sized { IsSized shared.now.table_id }
    ensures seat { IfSome result (λ seat. seat.table_id ≡ shared.now.table_id) }
    ensures known { IfSome result (λ seat. seat.me ≡ (together passes.items, [])) }
    ensures free { All (λ p. p.known.holds ≡ false) passes.items }
    ensures none { IfNone result (passes.items ≡ []) }
{
    let mut seat = passes.pop()?.into_seat();
    while let Some(pass) = passes.pop() {
        let mut front = pass.into_seat();
        shared.join_seat::<JoinPass>(&mut front, seat);
        seat = front;
    }
    Some(seat)
}

impl<V: Chronicle> Turn<V> {
    /// Shares a value. The one pass has all caller numbers left, and has seen the value's past, its tally and its mark.
    ///
    /// Out of memory is the one refusal; it hands the value back.
    pub fn new(alloc: Global, value: V) -> Result<(Turn<V>, PassOf<V>), (V, NoMemory)>
        ensures opening { IfOk result (λ made. made.0.opening ≡ value) }
        ensures of_the_turn { IfOk result (λ made. made.1.turn ≡ made.0.turn) }
        ensures known { IfOk result (λ made. made.1.known ≡ first_known (features V.past V.caller_of V.root V.tally V.mark) value) }
        ensures numbers_in_all { IfOk result (λ made. numbers_of made.1.known ≡ number_limit) }
        ensures handed_back { IfErr result (λ back. back.0 ≡ value) }
    {
        let opening = Snapshot::of(&value);
        let len = value.len();
        let slots = match one_slot(alloc, value) {
            Ok(slots) => slots,
            Err(value) => return Err((value, NoMemory)),
        };
        match Table::new(alloc, &[0, len], slots, &opening) {
            Ok((table, seat)) => {
                let turn = Turn {
                    table,
                    sleepers: AtomicU64::new(0),
                };
                Ok((turn, Pass::of(seat, None, 0, u32::MAX)))
            }
            Err(refused) => {
                let Refused { slots } = refused;
                Err((value_of(slots, opening), NoMemory))
            }
        }
    }

    /// Gives the least caller number that the pass has left to a new pass, which has seen what this one has.
    ///
    /// It takes no memory, so it is never refused.
    pub fn split(&self, pass: &mut PassOf<V>) -> Result<PassOf<V>, NoMemory>
        requires of_this_turn { pass.old.turn ≡ self.now.turn }
        requires two_left { 2 ≤ left_of pass.old.known }
        ensures same_turn { (pass.new.turn ≡ pass.old.turn) × IfOk result (λ new. new.turn ≡ pass.old.turn) }
        ensures new { IfOk result (λ new. new.known ≡ split_off pass.old.known) }
        ensures least { IfOk result (λ new. IsLeastLeft new.known.next pass.old.known × (left_of new.known ≡ 1)) }
        ensures kept { OnOk result (pass.new.known ≡ without_least pass.old.known) }
        ensures numbers_in_all { IfOk result (λ new. numbers_of new.known + numbers_of pass.new.known ≡ numbers_of pass.old.known) }
        ensures as_before { OnErr result (pass.new ≡ pass.old) }
        ensures never_refused { IsOk result }
    {
        let mut seat = mem::replace(&mut pass.badge, Badge::blank()).into_seat();
        let other = self.table.shared.split_seat::<SplitPass>(&mut seat);
        pass.badge = seat.into_badge();
        let least = pass.next;
        pass.next = least + 1;
        Ok(Pass::of(other, None, least, least + 1))
    }

    /// Makes the least caller number that the pass has left its own, and answers it. No other pass of the turn has it.
    pub fn enrol(&self, pass: &mut PassOf<V>) -> u32
        requires of_this_turn { pass.old.turn ≡ self.now.turn }
        requires not_enrolled { pass.old.known.number ≡ None }
        requires one_left { 1 ≤ left_of pass.old.known }
        ensures number { result ≡ pass.old.known.next }
        ensures least { IsLeastLeft result pass.old.known }
        ensures known { pass.new.known ≡ enrolled pass.old.known }
        ensures numbers_in_all { numbers_of pass.new.known ≡ numbers_of pass.old.known }
        ensures same_turn { pass.new.turn ≡ pass.old.turn }
    {
        let mut seat = mem::replace(&mut pass.badge, Badge::blank()).into_seat();
        self.table.shared.load::<EnrolPass>(&mut seat, 0);
        pass.badge = seat.into_badge();
        let number = pass.next;
        pass.number = Some(number);
        pass.next = number + 1;
        number
    }

    /// Waits for the turn, runs the job once on the value, and gives the turn back.
    ///
    /// It is never refused and takes no memory. Nothing says when the turn comes.
    pub fn turn<J: Job<V>, R: Wait>(&self, rt: &R, pass: &mut PassOf<V>, job: &mut J)
        requires of_this_turn { pass.old.turn ≡ self.now.turn }
        requires enrolled { IsSome pass.old.known.number }
        ensures turned { Turned (features V.past V.caller_of V.root V.tally V.mark) J.does self.now.opening job.old job.new pass.old.known pass.new.known }
        ensures numbers { KeepsNumbers pass.old.known pass.new.known }
        ensures numbers_in_all { numbers_of pass.new.known ≡ numbers_of pass.old.known }
        ensures same_turn { pass.new.turn ≡ pass.old.turn }
    {
        let Some(caller) = pass.number else {
            unreachable!()
        };
        let mut seat = mem::replace(&mut pass.badge, Badge::blank()).into_seat();
        turn_at(
            rt,
            &self.table.shared,
            &self.sleepers,
            &mut seat,
            caller,
            job,
        );
        pass.badge = seat.into_badge();
    }

    /// Takes the value back, with all passes of the turn.
    ///
    /// It takes no memory, so it is never refused.
    pub fn close(self, passes: Vec<PassOf<V>>) -> Result<V, (Turn<V>, Vec<PassOf<V>>)>
        requires of_this_turn { All (λ p. p.turn ≡ self.turn) passes.items }
        requires all_passes { sum_by (λ p. numbers_of p.known) passes.items ≡ number_limit }
        ensures closed { IfOk result (λ value. IsClosed (features V.past V.caller_of V.root V.tally V.mark) self.opening passes.items value) }
        ensures handed_back { IfErr result (λ back. (back.0 ≡ self) × (back.1.items ≡ passes.items)) }
        ensures never_refused { IsOk result }
    {
        let Turn { table, sleepers: _ } = self;
        let Some(seat) = joined_seat(&table.shared, passes) else {
            unreachable!()
        };
        let mut closed = table.close_with(seat);
        let found = closed.take(0);
        closed.free();
        let Some(value) = found else { unreachable!() };
        Ok(value)
    }
}
