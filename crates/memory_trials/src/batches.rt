//! The day as batches: a batch for each line, and then the whole day in one.

use crate::asking::{DayDesk, TRIES, Why, put_text, say_refused};
use crate::day::{DAY, NOW};
use crate::desks::desk_with;
use crate::scenes::say_end;
use farm_base::NoMemory;
use farm_batch::{BatchEnd, answer_lines};
use farm_ports::{Fixed, Gather, Script};
use std::alloc::Global;
use std::io;

// A source of these lines in one piece.
fn source_of(alloc: Global, lines: &str) -> Result<Script, NoMemory> {
    let piece = Vec::from_slice(alloc, lines.as_bytes())?;
    let mut pieces = Vec::new(alloc);
    pieces.push(piece)?;
    Script::new(alloc, pieces, Vec::new(alloc))
}

// Whether a line of answers is an error.
fn has_error(answers: &[u8]) -> bool {
    let mut lines = answers.split(|byte| *byte == b'\n');
    lines.any(|line| line.starts_with(b"{\"error\":"))
}

// Runs a batch of these lines, whose answers are put on a sink.
fn run_batch(
    alloc: Global,
    desk: &mut DayDesk,
    lines: &str,
    sink: &mut Gather,
) -> Result<BatchEnd, NoMemory> {
    let mut source = source_of(alloc, lines)?;
    let clock = Fixed::new(alloc, NOW)?;
    let end = answer_lines(alloc, desk, &mut source, sink, &clock);
    drop(source);
    end
}

// The answers of a batch each of whose lines is answered.
fn answers_of(alloc: Global, desk: &mut DayDesk, lines: &str) -> Result<Gather, Why> {
    let Ok(mut sink) = Gather::new(alloc, Vec::new(alloc)) else {
        return Err(Why::NoMemory);
    };
    let end = run_batch(alloc, desk, lines, &mut sink);
    let why = match end {
        Ok(BatchEnd::Done) if has_error(sink.bytes()) => Why::NoMemory,
        Ok(BatchEnd::Done) => return Ok(sink),
        Ok(_) => Why::PortFault,
        Err(NoMemory) => Why::NoMemory,
    };
    drop(sink);
    Err(why)
}

// Runs a batch of these lines, and prints the answers if each line is answered.
fn put_once<R: Print>(
    rt: &R,
    alloc: Global,
    desk: &mut DayDesk,
    lines: &str,
) -> Result<io::Result<()>, Why> {
    let sink = answers_of(alloc, desk, lines)?;
    let put = put_text(rt, sink.bytes());
    drop(sink);
    Ok(put)
}

// Runs a batch of these lines until each is answered, and prints the answers.
fn put_batch<R: Print>(rt: &R, alloc: Global, desk: &mut DayDesk, lines: &str) -> io::Result<()> {
    for _ in 0..TRIES {
        match put_once(rt, alloc, desk, lines) {
            Ok(put) => return put,
            Err(why) => say_refused(rt, why)?,
        }
    }
    println!(rt; "never answered")
}

// A batch for each line of the day, and then the whole day.
fn put_batches<R: Print>(rt: &R, alloc: Global, desk: &mut DayDesk) -> io::Result<()> {
    for line in DAY.lines() {
        put_batch(rt, alloc, desk, line)?;
    }
    put_batch(rt, alloc, desk, DAY)
}

/// The day in memory.
pub fn batch<R: Print>(rt: &R, alloc: Global) -> io::Result<Result<(), Why>> {
    match desk_with(alloc, &[], 0) {
        Ok(mut desk) => {
            put_batches(rt, alloc, &mut desk)?;
            let (disk, doubt) = desk.finish();
            say_end(rt, &disk, doubt)?;
            drop(disk);
            Ok(Ok(()))
        }
        Err(why) => Ok(Err(why)),
    }
}
