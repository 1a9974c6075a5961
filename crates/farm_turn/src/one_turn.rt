//! The steps of one turn, at a seat of the table.

ghost use Rattle.std.specs.Prelude.{◌≡◌, ℕ, ◌+◌, ◌-◌, ◌^◌, ◌<◌, ◌≤◌, true, false, None, Some, IsSome, [], ◌∷◌, length};
ghost use Rattle.farm_turn.specs.Chronicles.{features, GrowsBy};
ghost use Rattle.farm_turn.specs.Views.{one};
ghost use Rattle.farm_turn.specs.Steps.{took, counted, gave, Precedes, Takes};
ghost use Rattle.farm_turn.specs.Sharing.{IsSized, only, Turned, KeepsNumbers};

use crate::chronicles::{Chronicle, Job};
use crate::steps::{CountEntry, GiveTurnBack, Ran, Rooted, TakeTurn, TurnRule};
use crate::views::View;
use atomic_table::{Seat, Shared};
use std::marker::Brand;
use std::snapshot::Snapshot;
use std::sync::Wait;
use std::sync::atomic::{AtomicU64, Ordering};

/// The view of a seat.
pub type ViewOf<V> = View<<V as Chronicle>::Entry, <V as Chronicle>::Root>;

/// The table as passes see it.
pub type SharedOf<V> = Shared<Option<V>, ViewOf<V>, Snapshot<V>, TurnRule>;

/// A seat at the table.
pub type SeatOf<V> = Seat<Option<V>, ViewOf<V>>;

// How often a caller looks whether the turn is free before it sleeps.
const LOOKS: u32 = 100;

// Tries to take the turn. `N` says the root of the value that the turn was opened with.
fn take_turn<V: Chronicle, N: Rooted<V::Root>>(shared: &SharedOf<V>, seat: &mut SeatOf<V>) -> bool
    requires fits { seat.old.table_id ≡ shared.now.table_id }
    requires sized { IsSized shared.now.table_id }
    requires one { seat.old.me ≡ (one (only seat.old.me), []) }
    requires free { (only seat.old.me).holds ≡ false }
    requires enrolled { IsSome (only seat.old.me).number }
    requires root { N.root ≡ Some (V.root shared.now.key.value) }
    ensures seat { (seat.new.table_id ≡ seat.old.table_id) × (seat.new.id ≡ seat.old.id) }
    ensures took { result ≡ true → Takes (features V.past V.caller_of V.root V.tally V.mark) (V.root shared.now.key.value) seat.old.me seat.new.me }
    ensures taken { result ≡ false → seat.new.me ≡ seat.old.me }
{
    shared.compare_exchange::<TakeTurn<N>>(seat, 0, 0, 1) == 0
}

// Takes the value out.
fn take_value<V: Chronicle>(shared: &SharedOf<V>, seat: &mut SeatOf<V>) -> V
    requires fits { seat.old.table_id ≡ shared.now.table_id }
    requires held { (value : V) × (seat.old.me ≡ (seat.old.me.0, (0, Some value) ∷ [])) }
    ensures seat { (seat.new.table_id ≡ seat.old.table_id) × (seat.new.id ≡ seat.old.id) }
    ensures found { seat.old.me ≡ (seat.old.me.0, (0, Some result) ∷ []) }
    ensures out { seat.new.me ≡ (seat.old.me.0, (0, None) ∷ []) }
{
    let found = shared.exchange(seat, 0, None);
    let Some(value) = found else { unreachable!() };
    value
}

// Waits until the turn may be free.
fn wait<V: Chronicle, R: Wait>(rt: &R, shared: &SharedOf<V>, sleepers: &AtomicU64)
    requires sized { IsSized shared.now.table_id }
{
    for _ in 0..LOOKS {
        if shared.peek(0) == 0 {
            return;
        }
        std::hint::spin_loop();
    }
    sleepers.fetch_add(1, Ordering::SeqCst);
    shared.park(rt, 0, 1);
    sleepers.fetch_sub(1, Ordering::SeqCst);
}

// Waits for the turn, and takes the value out.
fn wait_for_turn<V: Chronicle, R: Wait>(
    rt: &R,
    shared: &SharedOf<V>,
    sleepers: &AtomicU64,
    seat: &mut SeatOf<V>,
) -> V
    requires fits { seat.old.table_id ≡ shared.now.table_id }
    requires sized { IsSized shared.now.table_id }
    requires one { seat.old.me ≡ (one (only seat.old.me), []) }
    requires free { (only seat.old.me).holds ≡ false }
    requires enrolled { IsSome (only seat.old.me).number }
    ensures seat { (seat.new.table_id ≡ seat.old.table_id) × (seat.new.id ≡ seat.old.id) }
    ensures took { seat.new.me ≡ (one (took (features V.past V.caller_of V.root V.tally V.mark) result (only seat.old.me)), (0, None) ∷ []) }
    ensures precedes { Precedes (features V.past V.caller_of V.root V.tally V.mark) result (only seat.old.me) }
    ensures root { V.root result ≡ V.root shared.now.key.value }
{
    for _ in rt.forever() {
        if take_turn::<V, Brand>(shared, seat) {
            return take_value(shared, seat);
        }
        wait(rt, shared, sleepers);
    }
    unreachable!()
}

// Counts what a job appended to the past that the seat knows. `value` is what the job left, of which `N` says the past, the mark and the tally.
fn count_entry<V: Chronicle, N: Ran<V::Entry>>(
    shared: &SharedOf<V>,
    seat: &mut SeatOf<V>,
    value: &V,
    count: u64,
)
    requires fits { seat.old.table_id ≡ shared.now.table_id }
    requires sized { IsSized shared.now.table_id }
    requires one { seat.old.me ≡ (one (only seat.old.me), (0, None) ∷ []) }
    requires holds { (only seat.old.me).holds ≡ true }
    requires grows { (caller : ℕ) × ((only seat.old.me).number ≡ Some caller) × GrowsBy V.caller_of caller (only seat.old.me).seen N.past }
    requires count { length (only seat.old.me).seen + count ≡ length N.past }
    requires room { length N.past < 2 ^ 63 }
    requires mark { (only seat.old.me).mark ≤ N.mark }
    ensures seat { (seat.new.table_id ≡ seat.old.table_id) × (seat.new.id ≡ seat.old.id) }
    ensures counted { seat.new.me ≡ (one (counted N.past N.raised N.mark (only seat.old.me)), (0, None) ∷ []) }
{
    let _ = value;
    shared.fetch_add::<CountEntry<N>>(seat, 1, count);
}

// Puts the value home.
fn put_value_home<V: Chronicle>(shared: &SharedOf<V>, seat: &mut SeatOf<V>, value: V)
    requires fits { seat.old.table_id ≡ shared.now.table_id }
    requires one { seat.old.me ≡ (one (only seat.old.me), (0, None) ∷ []) }
    ensures seat { (seat.new.table_id ≡ seat.old.table_id) × (seat.new.id ≡ seat.old.id) }
    ensures home { seat.new.me ≡ (one (only seat.old.me), (0, Some value) ∷ []) }
{
    let found = shared.exchange(seat, 0, Some(value));
    let None = found else { unreachable!() };
}

// Gives the turn back, and wakes a caller that sleeps.
fn give_turn_back<V: Chronicle>(
    shared: &SharedOf<V>,
    sleepers: &AtomicU64,
    seat: &mut SeatOf<V>,
    value: V,
)
    requires fits { seat.old.table_id ≡ shared.now.table_id }
    requires sized { IsSized shared.now.table_id }
    requires one { seat.old.me ≡ (one (only seat.old.me), (0, None) ∷ []) }
    requires holds { (only seat.old.me).holds ≡ true }
    requires past { V.past value ≡ (only seat.old.me).seen }
    requires root { Some (V.root value) ≡ (only seat.old.me).root }
    requires tally { V.tally value ≡ (only seat.old.me).level }
    requires mark { V.mark value ≡ (only seat.old.me).mark }
    ensures seat { (seat.new.table_id ≡ seat.old.table_id) × (seat.new.id ≡ seat.old.id) }
    ensures gave { seat.new.me ≡ (one (gave (only seat.old.me)), []) }
{
    put_value_home(shared, seat, value);
    shared.swap::<GiveTurnBack>(seat, 0, 0);
    if sleepers.load(Ordering::SeqCst) > 0 {
        shared.wake_one(0);
    }
}

// Runs the job, and counts what it appended.
fn run_job<V: Chronicle, J: Job<V>>(
    shared: &SharedOf<V>,
    seat: &mut SeatOf<V>,
    value: &mut V,
    caller: u32,
    job: &mut J,
)
    requires fits { seat.old.table_id ≡ shared.now.table_id }
    requires sized { IsSized shared.now.table_id }
    requires one { seat.old.me ≡ (one (only seat.old.me), (0, None) ∷ []) }
    requires holds { (only seat.old.me).holds ≡ true }
    requires number { (only seat.old.me).number ≡ Some caller }
    requires past { V.past value.old ≡ (only seat.old.me).seen }
    requires tally { V.tally value.old ≡ (only seat.old.me).level }
    requires mark { V.mark value.old ≡ (only seat.old.me).mark }
    ensures seat { (seat.new.table_id ≡ seat.old.table_id) × (seat.new.id ≡ seat.old.id) }
    ensures does { J.does job.old caller value.old job.new value.new }
    ensures past { GrowsBy V.caller_of caller (V.past value.old) (V.past value.new) }
    ensures root { V.root value.new ≡ V.root value.old }
    ensures tally { V.tally value.old ≤ V.tally value.new }
    ensures mark { V.mark value.old ≤ V.mark value.new }
    ensures counted { seat.new.me ≡ (one (counted (V.past value.new) (V.tally value.new - V.tally value.old) (V.mark value.new) (only seat.old.me)), (0, None) ∷ []) }
{
    let before = value.len();
    job.run(caller, value);
    let after = value.len();
    count_entry::<V, Brand>(shared, seat, value, after - before);
}

/// Takes the turn, runs the job once, and gives the turn back.
pub(crate) fn turn_at<V: Chronicle, J: Job<V>, R: Wait>(
    rt: &R,
    shared: &SharedOf<V>,
    sleepers: &AtomicU64,
    seat: &mut SeatOf<V>,
    caller: u32,
    job: &mut J,
)
    requires fits { seat.old.table_id ≡ shared.now.table_id }
    requires sized { IsSized shared.now.table_id }
    requires one { seat.old.me ≡ (one (only seat.old.me), []) }
    requires free { (only seat.old.me).holds ≡ false }
    requires number { (only seat.old.me).number ≡ Some caller }
    ensures seat { (seat.new.table_id ≡ seat.old.table_id) × (seat.new.id ≡ seat.old.id) }
    ensures one { seat.new.me ≡ (one (only seat.new.me), []) }
    ensures free { (only seat.new.me).holds ≡ false }
    ensures numbers { KeepsNumbers (only seat.old.me) (only seat.new.me) }
    ensures turned { Turned (features V.past V.caller_of V.root V.tally V.mark) J.does shared.now.key.value job.old job.new (only seat.old.me) (only seat.new.me) }
{
    let mut value = wait_for_turn(rt, shared, sleepers, seat);
    run_job(shared, seat, &mut value, caller, job);
    give_turn_back(shared, sleepers, seat, value);
}
