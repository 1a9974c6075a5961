//! The posts and lines of a day, before it begins.

use crate::days::{LineDay, PostDay};
use crate::desks::{RowLine, RowPost};
use crate::late::{LateVisits, LateWire};
use farm_base::NoMemory;
use farm_listeners::{Talk, Visit, Visits};
use farm_ports::Wire;
use farm_serve::Post;
use std::alloc::Global;
use std::sync::atomic::AtomicBool;

// Appends copies of pieces to a list.
fn add_copies(copies: &mut Vec<Vec<u8>>, alloc: Global, pieces: &[&[u8]]) -> Result<(), NoMemory> {
    for piece in pieces {
        let copy = piece.to_vec(alloc)?;
        copies.push(copy)?;
    }
    Ok(())
}

// Copies of pieces.
fn copies_of(alloc: Global, pieces: &[&[u8]]) -> Result<Vec<Vec<u8>>, NoMemory> {
    let mut copies = Vec::new(alloc);
    if let Err(fault) = add_copies(&mut copies, alloc, pieces) {
        drop(copies);
        return Err(fault);
    }
    Ok(copies)
}

// A connection that asks in one piece.
fn talk(alloc: Global, request: &[u8]) -> Result<Talk, NoMemory> {
    let pieces = copies_of(alloc, &[request])?;
    Talk::new(alloc, pieces, Vec::new(alloc), Vec::new(alloc))
}

// The listener of a desk post, without its idle accepts.
fn visits(alloc: Global, day: &PostDay) -> Result<Visits, NoMemory> {
    let fails = day.fails.to_vec(alloc)?;
    let mut items = Vec::new(alloc);
    for request in day.requests {
        let talk = talk(alloc, request)?;
        items.push(Visit::Conn(talk))?;
    }
    Visits::new(alloc, items, fails)
}

/// The desk posts of a day. They share the word whether a connection was answered.
pub(crate) fn posts<'a>(
    alloc: Global,
    days: &[PostDay],
    answered: &'a AtomicBool,
) -> Result<Vec<RowPost<'a>>, NoMemory> {
    let mut posts = Vec::new(alloc);
    for day in days {
        let visits = visits(alloc, day)?;
        let late = LateVisits::new(visits, day.idle, day.waits, day.until, answered);
        posts.push(Post::new(late))?;
    }
    Ok(posts)
}

// The link of a line, which doesn't wait.
fn wire(alloc: Global, day: &LineDay) -> Result<Wire, NoMemory> {
    let fails = day.fails.to_vec(alloc)?;
    let responses = copies_of(alloc, day.responses)?;
    Wire::new(alloc, responses, fails)
}

/// The lines of a day, which share the same word.
pub(crate) fn lines<'a>(
    alloc: Global,
    days: &[LineDay],
    answered: &'a AtomicBool,
) -> Result<Vec<RowLine<'a>>, NoMemory> {
    let mut lines = Vec::new(alloc);
    for day in days {
        let wire = wire(alloc, day)?;
        lines.push(Post::new(LateWire::new(wire, day.waits, answered)))?;
    }
    Ok(lines)
}
