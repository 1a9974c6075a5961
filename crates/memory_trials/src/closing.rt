//! The closing of a turn that three callers share.

ghost use Rattle.std.specs.Prelude.{◌≡◌, ◌≤◌, All, IfOk, sum_by};
ghost use Rattle.farm_turn.specs.Views.{left_of, number_limit, numbers_of};

use crate::asking::{DayDesk, Why};
use crate::desks::desk_with;
use farm_base::NoMemory;
use farm_desk::Found;
use farm_disk::MemDisk;
use farm_history::Entry;
use farm_turn::{Pass, Turn};
use std::alloc::Global;
use std::io;

// A pass of a desk's caller.
type DayPass = Pass<Entry, Found<MemDisk, 20>>;

// Splits a pass into three.
fn three_passes(
    alloc: Global,
    turn: &Turn<DayDesk>,
    mut pass: DayPass,
) -> Result<Vec<DayPass>, NoMemory>
    requires of_this_turn { pass.turn ≡ turn.now.turn }
    requires three_left { 3 ≤ left_of pass.known }
    requires all_numbers { numbers_of pass.known ≡ number_limit }
    ensures of_this_turn { IfOk result (λ passes. All (λ p. p.turn ≡ turn.now.turn) passes.items) }
    ensures all_numbers { IfOk result (λ passes. sum_by (λ p. numbers_of p.known) passes.items ≡ number_limit) }
{
    let second = turn.split(&mut pass)?;
    let third = turn.split(&mut pass)?;
    let mut passes = Vec::new(alloc);
    passes.push(pass)?;
    passes.push(second)?;
    passes.push(third)?;
    Ok(passes)
}

// Closes the turn of a desk with three passes, and says what comes back.
fn close_desk<R: Print>(rt: &R, alloc: Global, desk: DayDesk) -> io::Result<Result<(), Why>> {
    let (turn, pass) = match Turn::new(alloc, desk) {
        Ok(opened) => opened,
        Err((desk, _)) => {
            drop(desk);
            return Ok(Err(Why::NoMemory));
        }
    };
    let Ok(passes) = three_passes(alloc, &turn, pass) else {
        return Ok(Err(Why::NoMemory));
    };
    println!(rt; "{} passes", passes.len())?;
    match turn.close(passes) {
        Ok(desk) => {
            println!(rt; "{} entries", desk.book().entries().len())?;
            drop(desk);
            Ok(Ok(()))
        }
        Err(_) => unreachable!(),
    }
}

/// Three passes of a turn are closed.
pub fn close<R: Print>(rt: &R, alloc: Global) -> io::Result<Result<(), Why>> {
    match desk_with(alloc, &[], 3) {
        Ok(desk) => close_desk(rt, alloc, desk),
        Err(why) => Ok(Err(why)),
    }
}
