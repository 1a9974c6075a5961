//! A look at a log, which appends nothing, and the numbers that passes have left.

ghost use Rattle.std.specs.Prelude.{◌≡◌, IfOk};

use crate::callers::{Shift, append_all};
use crate::log::{Log, Look};
use farm_base::NoMemory;
use farm_turn::Turn;
use std::alloc::Global;
use std::sync::Wait;

/// How long a log is after three appends, as two looks read it.
pub fn lens_of_two_looks<R: Wait>(rt: &R, alloc: Global) -> Result<(u64, u64), NoMemory> {
    let (turn, mut pass) = match Turn::new(alloc, Log::of(Vec::new(alloc))) {
        Ok(opened) => opened,
        Err((_, no_memory)) => return Err(no_memory),
    };
    turn.enrol(&mut pass);
    let shift = Shift {
        turns: 3,
        rounds: 0,
    };
    append_all(rt, &turn, &mut pass, shift);
    let mut first = Look { len: 0 };
    turn.turn(rt, &mut pass, &mut first);
    let mut second = Look { len: 0 };
    turn.turn(rt, &mut pass, &mut second);
    Ok((first.len, second.len))
}

/// How many numbers two passes have left, of which the second was split off the first, after both were enrolled.
pub fn numbers_left(alloc: Global) -> Result<(u32, u32), NoMemory>
    ensures { IfOk result (λ left. left ≡ (4294967293, 0)) }
{
    let (turn, mut pass) = match Turn::new(alloc, Log::of(Vec::new(alloc))) {
        Ok(opened) => opened,
        Err((_, no_memory)) => return Err(no_memory),
    };
    let mut second = turn.split(&mut pass)?;
    turn.enrol(&mut pass);
    turn.enrol(&mut second);
    Ok((pass.left(), second.left()))
}
