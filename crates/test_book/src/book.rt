//! A book of four entries that is full.

ghost use Rattle.std.specs.Prelude.{◌≡◌, pos, ◌≤ℤ◌};
ghost use Rattle.farm_history.specs.Commands.{IsWellFormedCommand};
ghost use Rattle.farm_history.specs.History.{IsWellFormed, last_moment};

use crate::commands::{Given, command_of};
use farm_base::NoMemory;
use farm_book::Book;
use farm_history::{Command, Entry, Query, Reply, Rule, Verdict};
use sample_site::sample_site;
use std::alloc::Global;
use std::test::Fail;
use test_checks::{Checks, shared};

/// The entry of a command under a key.
pub(crate) fn entry(key: u64, cmd: Command) -> Entry
    requires { IsWellFormedCommand cmd }
    ensures well_formed { IsWellFormed result }
    ensures moment { result.at ≡ pos 1000 }
{
    Entry {
        caller: 1,
        account: 7,
        key,
        at: 1_000,
        cmd,
    }
}

/// What is answered to an entry, which is committed where it is accepted.
pub(crate) fn answer<const LIMIT: usize>(
    book: &mut Book<LIMIT>,
    entry: Entry,
) -> Result<Reply, NoMemory>
    requires well_formed { IsWellFormed entry }
    requires moment { last_moment book.old.history ≤ℤ entry.at }
{
    match book.judge(&entry) {
        Verdict::Repeat(place) => {
            drop(entry);
            Ok(book.reply_at(place))
        }
        Verdict::Refused(rule) => {
            drop(entry);
            Ok(Reply::Refused(rule))
        }
        Verdict::Accept => match book.reserve() {
            Ok(()) => Ok(book.commit(entry)),
            Err(fault) => {
                drop(entry);
                Err(fault)
            }
        },
    }
}

/// What is answered to a command under a key, at the moment of the other entries.
pub(crate) fn placed<const LIMIT: usize>(
    book: &mut Book<LIMIT>,
    key: u64,
    cmd: Command,
) -> Result<Reply, NoMemory>
    requires { IsWellFormedCommand cmd }
{
    if book.last_moment() > 1_000 {
        return Ok(Reply::Placed(0));
    }
    answer(book, entry(key, cmd))
}

/// A book of the row site.
pub(crate) fn row_book(alloc: Global) -> Result<Book<4>, Fail> {
    Ok(Book::new(alloc, sample_site(alloc)?)?)
}

const READING: Given = Given::Gauge(101, 5_000, 0, 2_000, 2_000);

const OTHER: Given = Given::Gauge(101, 5_001, 0, 2_000, 2_000);

// Four readings fill a book.
fn check_four<R: Print>(checks: &mut Checks<'_, R>, book: &mut Book<4>) {
    for key in 1..=4 {
        let reply = placed(book, key, command_of(READING));
        checks.same_at(key, reply, Ok(Reply::Placed(key as u32)));
    }
}

// Commands on the full book, and what it answers: it refuses a fifth, answers a repeat, and takes a Stop.
const ON_FULL: [(&str, u64, Given, Reply); 4] = [
    ("a fifth", 5, READING, Reply::Refused(Rule::HistoryFull)),
    ("a repeat", 2, READING, Reply::Placed(2)),
    (
        "a key of another",
        2,
        OTHER,
        Reply::Refused(Rule::KeyReused(2)),
    ),
    ("a Stop", 5, Given::Stop, Reply::Placed(5)),
];

// The full book answers each command of rows, and then has a Stop more.
fn check_full<R: Print>(checks: &mut Checks<'_, R>, book: &mut Book<4>) {
    for (name, key, given, want) in ON_FULL {
        checks.same_at(name, placed(book, key, command_of(given)), Ok(want));
    }
    let look = book.look(&Query::Ticket(1));
    checks.same_at("no ticket", look, Reply::Refused(Rule::UnknownTicket));
    checks.same_at("entries", book.entries().len(), 5);
    checks.same_at("tanks", book.site().tanks.get().len(), 6);
}

#[test]
fn a_full_book_takes_repeats_and_stops(rt: HostRuntime) -> Result<(), Fail> {
    let mut checks = Checks::new(&rt);
    let mut book = shared(row_book(rt.alloc())?);
    check_four(&mut checks, &mut book);
    check_full(&mut checks, &mut book);
    drop(book);
    Ok(checks.end()?)
}
