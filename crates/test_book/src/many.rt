//! Books of many entries: of gauges under keys in several orders, and of the longest drill.

ghost use Rattle.std.specs.Prelude.{◌≡◌, pos};
ghost use Rattle.farm_history.specs.History.{IsWellFormed};

use crate::book::{answer, placed};
use crate::commands::{Given, command_of};
use crate::drill::{BEFORE, Drill, first_at};
use farm_base::NoMemory;
use farm_book::Book;
use farm_fixed::Amount;
use farm_history::{Entry, Query, Reply};
use sample_site::sample_site;
use std::alloc::Global;
use std::test::Fail;
use test_checks::Checks;

// The book of the row site before its first entry.
fn empty_book(alloc: Global) -> Result<Book<200_000>, Fail> {
    Ok(Book::new(alloc, sample_site(alloc)?)?)
}

// How many gauges are entered.
const MANY: u32 = 20_000;

// Which account and key the gauge of a place has.
#[derive(Clone, Copy)]
enum Keys {
    // One account, and keys that fall down to 1.
    Falling,
    // Two accounts in turn, and equal keys of both.
    OfTwoAccounts,
    // An account of its own, and the key 1.
    OfEachAccount,
}

// The account and the key of the gauge of a place.
fn key_of(keys: Keys, place: u32) -> (u32, u64) {
    match keys {
        Keys::Falling => (7, u64::from((MANY + 1).saturating_sub(place))),
        Keys::OfTwoAccounts => (1 + place % 2, u64::from(place / 2)),
        Keys::OfEachAccount => (place, 1),
    }
}

// The gauge of a place.
fn gauge_at(keys: Keys, place: u32) -> Entry
    ensures well_formed { IsWellFormed result }
    ensures moment { result.at ≡ pos 1000 }
{
    let (account, key) = key_of(keys, place);
    Entry {
        caller: 1,
        account,
        key,
        at: 1_000,
        cmd: command_of(Given::Gauge(101, 5_000, 0, 2_000, 2_000)),
    }
}

// What is answered to the gauge of a place, at the moment of the other entries.
fn gauged(book: &mut Book<200_000>, keys: Keys, place: u32) -> Result<Reply, NoMemory> {
    if book.last_moment() > 1_000 {
        return Ok(Reply::Placed(0));
    }
    answer(book, gauge_at(keys, place))
}

// The gauges are entered. How many of them aren't answered with their places.
fn misplaced(book: &mut Book<200_000>, keys: Keys) -> u32 {
    let mut count: u32 = 0;
    for place in 1..=MANY {
        if gauged(book, keys, place) != Ok(Reply::Placed(place)) {
            count = count.saturating_add(1);
        }
    }
    count
}

// Gauges under such keys are placed in their order, and then repeats are answered with their places.
fn check_many<R: Print>(checks: &mut Checks<'_, R>, alloc: Global, keys: Keys) -> Result<(), Fail> {
    let mut book = empty_book(alloc)?;
    checks.same(misplaced(&mut book, keys), 0);
    for place in [1, 10_000, MANY] {
        let reply = gauged(&mut book, keys, place);
        checks.same_at(place, reply, Ok(Reply::Placed(place)));
    }
    drop(book);
    Ok(())
}

#[test]
fn repeats_under_falling_keys_are_answered(rt: HostRuntime) -> Result<(), Fail> {
    let mut checks = Checks::new(&rt);
    check_many(&mut checks, rt.alloc(), Keys::Falling)?;
    Ok(checks.end()?)
}

#[test]
fn repeats_under_keys_of_two_accounts_are_answered(rt: HostRuntime) -> Result<(), Fail> {
    let mut checks = Checks::new(&rt);
    check_many(&mut checks, rt.alloc(), Keys::OfTwoAccounts)?;
    Ok(checks.end()?)
}

#[test]
fn repeats_under_a_key_of_each_account_are_answered(rt: HostRuntime) -> Result<(), Fail> {
    let mut checks = Checks::new(&rt);
    check_many(&mut checks, rt.alloc(), Keys::OfEachAccount)?;
    Ok(checks.end()?)
}

// The commands of a drill before its first movement are entered.
fn enter_first(book: &mut Book<200_000>) -> Result<(), NoMemory> {
    for place in 1..=BEFORE {
        placed(book, u64::from(place), command_of(first_at(place)))?;
    }
    Ok(())
}

// The commands of the next movement of a drill are entered.
fn enter_movement(book: &mut Book<200_000>, drill: &mut Drill) -> Result<(), NoMemory> {
    let opening = u64::from(drill.place());
    let [open, gauge, close] = drill.next();
    placed(book, opening, command_of(open))?;
    placed(book, opening + 1, command_of(gauge))?;
    placed(book, opening + 2, command_of(close))?;
    Ok(())
}

// The commands of a drill of the seed 1 and this many movements are entered.
fn enter_drill(book: &mut Book<200_000>, count: u32) -> Result<(), NoMemory> {
    enter_first(book)?;
    let mut drill = Drill::new(1);
    for _ in 0..count {
        enter_movement(book, &mut drill)?;
    }
    Ok(())
}

// What is answered to a look-up of the total after 60,000 movements.
const TOTAL: Reply = Reply::Total {
    entries: 180_008,
    amount: Amount {
        litres: 15_066_000,
        kg: 12_806_100,
    },
};

// The same of tank 101.
const STOCK: Reply = Reply::Stock {
    tank: 101,
    amount: Amount {
        litres: 7_094_000,
        kg: 6_029_900,
    },
    reading: 180_001,
    sample: 1,
};

// How many of these pairs of look-ups, one of the total and one of tank 101, aren't answered with these values.
fn differing_looks(book: &Book<200_000>, pairs: u32) -> u32 {
    let mut count: u32 = 0;
    for _ in 0..pairs {
        if book.look(&Query::Total) != TOTAL || book.look(&Query::Stock(101)) != STOCK {
            count = count.saturating_add(1);
        }
    }
    count
}

#[test]
fn two_million_looks(rt: HostRuntime) -> Result<(), Fail> {
    let mut checks = Checks::new(&rt);
    let mut book = empty_book(rt.alloc())?;
    checks.same_at("entered", enter_drill(&mut book, 60_000), Ok(()));
    checks.same_at("looks", differing_looks(&book, 1_000_000), 0);
    drop(book);
    Ok(checks.end()?)
}
