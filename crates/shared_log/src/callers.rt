//! Callers that append to a shared log, each in a thread.

ghost use Rattle.std.specs.Prelude.{◌≡◌, ◌+◌, ◌<◌, ◌≤◌, ℕ, None, IsSome, All, IfOk, sum_by, length, slice_index_or};
ghost use Rattle.farm_turn.specs.Views.{left_of, numbers_of};
ghost use Rattle.shared_log.specs.Callers.{IsCaller, Appends};

use crate::log::{Append, Log};
use farm_base::NoMemory;
use farm_turn::{Pass, Turn};
use std::alloc::Global;
use std::sync::Wait;
use std::thread;
use std::thread::Threads;

/// A pass of a log's caller.
pub type LogPass = Pass<u32, ()>;

/// How long each caller works: how many turns it takes, and how many rounds of work each of them has.
#[derive(Clone, Copy)]
pub struct Shift {
    pub turns: u32,
    pub rounds: u32,
}

/// Takes the turns of a shift, each of which appends an entry, and answers how many entries were appended.
pub fn append_all<R: Wait>(rt: &R, turn: &Turn<Log>, pass: &mut LogPass, shift: Shift) -> u64
    requires of_this_turn { pass.old.turn ≡ turn.now.turn }
    requires enrolled { IsSome pass.old.known.number }
    ensures appended { length pass.new.known.own ≡ length pass.old.known.own + result }
    ensures pass { Appends pass.old pass.new }
{
    let mut job = Append {
        rounds: shift.rounds,
        appended: 0,
    };
    for _ in 0..shift.turns {
        turn.turn(rt, pass, &mut job);
    }
    job.appended
}

/// Lets each pass take the turns of a shift, by at most `threads` threads.
pub fn all_append<R: Threads + Wait + Sync>(
    rt: &R,
    turn: &Turn<Log>,
    passes: &mut [LogPass],
    threads: usize,
    shift: Shift,
)
    requires threads { 0 < threads }
    requires callers { All (IsCaller turn.now.turn) passes.old }
    ensures len { length passes.new ≡ length passes.old }
    ensures each { (k : ℕ) (d : _) → k < length passes.old → Appends (slice_index_or passes.old k d) (slice_index_or passes.new k d) }
{
    thread::for_each_mut(
        rt,
        passes,
        threads,
        &|_, pass| {
            append_all(rt, turn, pass, shift);
        },
    );
}

/// Splits a pass into `callers` passes, each enrolled.
pub fn enrolled_passes(
    alloc: Global,
    turn: &Turn<Log>,
    mut pass: LogPass,
    callers: u32,
) -> Result<Vec<LogPass>, NoMemory>
    requires of_this_turn { pass.turn ≡ turn.now.turn }
    requires not_enrolled { pass.known.number ≡ None }
    requires enough { (0 < callers) × (callers ≤ left_of pass.known) }
    ensures callers { IfOk result (λ passes. All (IsCaller turn.now.turn) passes.items) }
    ensures numbers { IfOk result (λ passes. sum_by (λ p. numbers_of p.known) passes.items ≡ numbers_of pass.known) }
{
    let mut passes = Vec::new(alloc);
    for _ in 1..callers {
        let mut new = turn.split(&mut pass)?;
        turn.enrol(&mut new);
        passes.push(new)?;
    }
    turn.enrol(&mut pass);
    passes.push(pass)?;
    Ok(passes)
}

/// The log after each of `callers` callers worked a shift.
pub fn day<R: Threads + Wait + Sync>(
    rt: &R,
    alloc: Global,
    callers: u32,
    threads: usize,
    shift: Shift,
) -> Result<Log, NoMemory>
    requires callers { 0 < callers }
    requires threads { 0 < threads }
{
    let (turn, pass) = match Turn::new(alloc, Log::of(Vec::new(alloc))) {
        Ok(opened) => opened,
        Err((_, no_memory)) => return Err(no_memory),
    };
    let mut passes = enrolled_passes(alloc, &turn, pass, callers)?;
    all_append(rt, &turn, passes.as_mut_slice(), threads, shift);
    match turn.close(passes) {
        Ok(log) => Ok(log),
        Err(_) => unreachable!(),
    }
}
