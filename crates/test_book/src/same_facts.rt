//! Facts of a history, as two kinds of them give them.

ghost use Rattle.history_lookups.specs.Pasts.{IsReadable};

use farm_history::{Entry, Named};
use farm_indexes::PastFacts;

// The tanks of the row site, and one that it doesn't have.
const TANKS: [u16; 7] = [101, 102, 103, 104, 105, 106, 107];

// Whether two kinds of facts say the same of a tank.
fn is_same_of_tank<F: PastFacts, G: PastFacts>(facts: &F, others: &G, tank: u16) -> bool
    requires readable { IsReadable (F.history facts.now) }
    requires others { IsReadable (G.history others.now) }
{
    facts.holding_movement(tank) == others.holding_movement(tank)
        && facts.used_reading(tank) == others.used_reading(tank)
        && facts.last_reading(tank) == others.last_reading(tank)
        && facts.last_sample(tank) == others.last_sample(tank)
        && facts.last_settlement(tank) == others.last_settlement(tank)
        && facts.book_of(tank) == others.book_of(tank)
}

// Whether they say the same of a place.
fn is_same_of_place<F: PastFacts, G: PastFacts>(facts: &F, others: &G, place: u32) -> bool
    requires readable { IsReadable (F.history facts.now) }
    requires others { IsReadable (G.history others.now) }
{
    facts.open_movement(place) == others.open_movement(place)
        && facts.movement_at(place) == others.movement_at(place)
        && facts.reversal_of(place) == others.reversal_of(place)
        && facts.ticket_at(place) == others.ticket_at(place)
        && facts.closing_ticket(place) == others.closing_ticket(place)
        && facts.gain_at(place) == others.gain_at(place)
}

// Whether they say the same of an account and a key.
fn is_same_of_key<F: PastFacts, G: PastFacts>(facts: &F, others: &G, account: u32, key: u64) -> bool
    requires readable { IsReadable (F.history facts.now) }
    requires others { IsReadable (G.history others.now) }
{
    facts.place_of(account, key) == others.place_of(account, key)
}

// Whether they give the same calculation on what an entry names.
fn is_same_of_named<F: PastFacts, G: PastFacts>(facts: &F, others: &G, entry: &Entry) -> bool
    requires readable { IsReadable (F.history facts.now) }
    requires others { IsReadable (G.history others.now) }
{
    let pairs = facts.past().named_by(&entry.cmd);
    is_same_on(facts, others, &pairs.first) && is_same_on(facts, others, &pairs.second)
}

// Whether they give the same calculation on what is named for a tank, if something is.
fn is_same_on<F: PastFacts, G: PastFacts>(facts: &F, others: &G, pair: &Option<Named>) -> bool
    requires readable { IsReadable (F.history facts.now) }
    requires others { IsReadable (G.history others.now) }
{
    match pair {
        Some(pair) => facts.calculated_at(pair) == others.calculated_at(pair),
        None => true,
    }
}

// Of how many tanks they differ.
fn differing_tanks<F: PastFacts, G: PastFacts>(facts: &F, others: &G) -> u64
    requires readable { IsReadable (F.history facts.now) }
    requires others { IsReadable (G.history others.now) }
{
    let mut count: u64 = 0;
    for tank in TANKS {
        if !is_same_of_tank(facts, others, tank) {
            count = count.saturating_add(1);
        }
    }
    count
}

// Of how many places before this one they differ.
fn differing_places<F: PastFacts, G: PastFacts>(facts: &F, others: &G, end: u32) -> u64
    requires readable { IsReadable (F.history facts.now) }
    requires others { IsReadable (G.history others.now) }
{
    let mut count: u64 = 0;
    for place in 0..end {
        if !is_same_of_place(facts, others, place) {
            count = count.saturating_add(1);
        }
    }
    count
}

// Of how many entries they differ: of the account and the key, or of the calculations on what the entry names.
fn differing_entries<F: PastFacts, G: PastFacts>(facts: &F, others: &G, entries: &[Entry]) -> u64
    requires readable { IsReadable (F.history facts.now) }
    requires others { IsReadable (G.history others.now) }
{
    let mut count: u64 = 0;
    for entry in entries {
        if !is_same_of_key(facts, others, entry.account, entry.key)
            || !is_same_of_named(facts, others, entry)
        {
            count = count.saturating_add(1);
        }
    }
    count
}

// The account and the key that no entry of these tests has.
const UNUSED: (u32, u64) = (999_999, 9_223_372_036_854_775_807);

/// How many facts differ: of each tank of the row site and one that it doesn't have, each place from 0 to one beyond the last, each
/// account and key of an entry and one of none, the calculations on what each entry names, and the total.
pub(crate) fn differing<F: PastFacts, G: PastFacts>(facts: &F, others: &G) -> u64
    requires readable { IsReadable (F.history facts.now) }
    requires others { IsReadable (G.history others.now) }
{
    let entries = facts.past().entries;
    let end = (entries.len() as u32).saturating_add(2);
    differing_tanks(facts, others)
        .saturating_add(differing_places(facts, others, end))
        .saturating_add(differing_entries(facts, others, entries))
        .saturating_add(u64::from(!is_same_of_key(facts, others, UNUSED.0, UNUSED.1)))
        .saturating_add(u64::from(facts.total() != others.total()))
}
