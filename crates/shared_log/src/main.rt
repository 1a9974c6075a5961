//! A log that many callers append to by turns: how many entries each of them appended, and how many caller numbers a pass has left.
//!
//! With the arguments CALLERS TURNS ROUNDS it only lets CALLERS callers, each in a thread, take TURNS turns with ROUNDS rounds of work each.
#![tactic(auto)]

mod callers;
mod log;
mod looks;

use callers::{Shift, day};
use log::Log;
use looks::{lens_of_two_looks, numbers_left};
use std::rt::Env;
use std::sync::Wait;
use std::thread::Threads;
use std::{env, io};

// Prints how many entries each caller appended.
fn print_counts<R: Print>(rt: &R, log: &Log, callers: u32) -> io::Result<()> {
    let entries = log.callers();
    println!(rt; "{} entries", entries.len())?;
    for caller in 0..callers {
        let count = entries.iter().filter(|entry| **entry == caller).count();
        println!(rt; "caller {caller}: {count}")?;
    }
    Ok(())
}

// Prints the counts of a day on which each caller worked a shift in a thread.
fn print_day<R: Threads + Wait + Sync + Print + AllocGlobal>(
    rt: &R,
    callers: u32,
    shift: Shift,
) -> io::Result<()> {
    if callers == 0 {
        return Ok(());
    }
    match day(rt, rt.alloc(), callers, callers as usize, shift) {
        Ok(log) => print_counts(rt, &log, callers),
        Err(no_memory) => println!(rt; "{no_memory}"),
    }
}

// Prints what two looks read, and how many numbers two passes have left.
fn print_looks<R: Wait + Print + AllocGlobal>(rt: &R) -> io::Result<()> {
    match lens_of_two_looks(rt, rt.alloc()) {
        Ok((first, second)) => println!(rt; "two looks: {first} and {second} entries")?,
        Err(no_memory) => println!(rt; "{no_memory}")?,
    }
    match numbers_left(rt.alloc()) {
        Ok(left) => println!(rt;
            "left: {} of the first pass, {} of the second",
            left.0, left.1
        ),
        Err(no_memory) => println!(rt; "{no_memory}"),
    }
}

// The numbers among the arguments.
fn numbers(rt: &(impl Env + AllocGlobal)) -> io::Result<Vec<u32>> {
    let mut numbers = Vec::new(rt.alloc());
    for word in env::args(rt)?.skip(1) {
        if let Ok(number) = word.parse::<u32>() {
            numbers.push(number)?;
        }
    }
    Ok(numbers)
}

fn main(rt: HostRuntime) -> io::Result<()> {
    let numbers = numbers(&rt)?;
    if let [callers, turns, rounds] = numbers.as_slice() {
        let shift = Shift {
            turns: *turns,
            rounds: *rounds,
        };
        return print_day(&rt, *callers, shift);
    }
    for (callers, turns) in [(3, 1_000), (4, 750_000)] {
        print_day(&rt, callers, Shift { turns, rounds: 0 })?;
    }
    print_looks(&rt)
}
