//! Facts of a history, as its whole list of entries gives them and as its indexes do.

use crate::commands::Given;
use crate::day_rows::{Asked, CANCELS, DAY, REVERSALS};
use crate::drill::{BEFORE, Drill, first_at};
use crate::indexed_book::IndexedBook;
use farm_book::Book;
use farm_history::Verdict;
use farm_indexes::{Figured, Indexes, Note, Notes, OpenMoves, TankMove, TankState, TankStates};
use std::test::Fail;
use test_checks::Checks;

// The book says of each command what its row says, and after each of them no fact differs.
fn check_asked<R: Print>(checks: &mut Checks<'_, R>, book: &mut IndexedBook<21>, rows: Asked) {
    for (name, key, given, want) in rows {
        checks.same_at(name, book.judged(*key, *given), Ok(*want));
        checks.same_at(name, book.differing(), 0);
    }
}

#[test]
fn no_fact_differs_after_a_command_of_a_day(rt: HostRuntime) -> Result<(), Fail> {
    let mut checks = Checks::new(&rt);
    let mut book = IndexedBook::new(rt.alloc())?;
    checks.same(book.differing(), 0);
    for rows in [DAY, REVERSALS, CANCELS] {
        check_asked(&mut checks, &mut book, rows);
    }
    drop(book);
    Ok(checks.end()?)
}

// A command of a drill is accepted, and after each 30th of them no fact differs.
fn check_place<R: Print>(
    checks: &mut Checks<'_, R>,
    book: &mut IndexedBook<400>,
    place: u32,
    given: Given,
) {
    let verdict = book.judged(u64::from(place), given);
    checks.same_at(place, verdict, Ok(Verdict::Accept));
    if place % 30 == 0 {
        checks.same_at(place, book.differing(), 0);
    }
}

// The commands before the first movement.
fn check_first<R: Print>(checks: &mut Checks<'_, R>, book: &mut IndexedBook<400>) {
    for place in 1..=BEFORE {
        check_place(checks, book, place, first_at(place));
    }
}

// The commands of the next movement.
fn check_movement<R: Print>(
    checks: &mut Checks<'_, R>,
    book: &mut IndexedBook<400>,
    drill: &mut Drill,
) {
    let opening = drill.place();
    let [open, gauge, close] = drill.next();
    check_place(checks, book, opening, open);
    check_place(checks, book, opening.saturating_add(1), gauge);
    check_place(checks, book, opening.saturating_add(2), close);
}

// The commands of this many movements.
fn check_movements<R: Print>(checks: &mut Checks<'_, R>, book: &mut IndexedBook<400>, count: u32) {
    let mut drill = Drill::new(1);
    for _ in 0..count {
        check_movement(checks, book, &mut drill);
    }
}

#[test]
fn no_fact_differs_in_a_drill(rt: HostRuntime) -> Result<(), Fail> {
    let mut checks = Checks::new(&rt);
    let mut book = IndexedBook::new(rt.alloc())?;
    check_first(&mut checks, &mut book);
    check_movements(&mut checks, &mut book, 100);
    checks.same_at("the end", book.differing(), 0);
    drop(book);
    Ok(checks.end()?)
}

// Stands only for a type that is `Send` and `Sync`.
fn crosses<T: Send + Sync>() {}

#[test]
fn books_and_their_indexes_may_go_to_another_thread(_rt: HostRuntime) -> Result<(), Fail> {
    crosses::<Book<21>>();
    crosses::<Indexes>();
    crosses::<Notes>();
    crosses::<Note>();
    crosses::<TankStates>();
    crosses::<TankState>();
    crosses::<OpenMoves>();
    crosses::<TankMove>();
    crosses::<Figured>();
    Ok(())
}
