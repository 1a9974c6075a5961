//! Requests of a desk that are asked until they are answered.

use crate::day::NOW;
use farm_desk::{Answer, Desk};
use farm_disk::MemDisk;
use farm_history::Reply;
use farm_http::{LineAsked, Page, body, line};
use std::alloc::Global;
use std::io;

/// A desk of the row site on a disk in memory.
pub type DayDesk = Desk<MemDisk, 20>;

/// How often a step is tried: its disk fails it once at most, and its memory once.
pub const TRIES: u32 = 3;

/// Why a step isn't done.
#[derive(Clone, Copy)]
pub enum Why {
    /// There was no memory.
    NoMemory,
    /// The disk failed.
    DiskFault,
    /// A source or a sink failed.
    PortFault,
    /// It is no request.
    NoRequest,
}

/// Says that a step was refused.
pub fn say_refused<R: Print>(rt: &R, why: Why) -> io::Result<()> {
    match why {
        Why::NoMemory => println!(rt; "refused: no memory"),
        Why::DiskFault => println!(rt; "refused: disk fault"),
        Why::PortFault => println!(rt; "refused: port fault"),
        Why::NoRequest => println!(rt; "no request"),
    }
}

/// Prints bytes that are a text, as they stand.
pub fn put_text<R: Print>(rt: &R, bytes: &[u8]) -> io::Result<()> {
    match str::from_utf8(bytes) {
        Ok(text) => print!(rt; "{text}"),
        Err(_) => println!(rt; "no text"),
    }
}

// The text of a reply, and a line feed.
fn text_of(alloc: Global, reply: Reply) -> Result<Vec<u8>, Why> {
    let mut text = Vec::new(alloc);
    let written = body(&Page::Reply(reply), &mut text);
    if written.is_ok() && text.push(b'\n').is_ok() {
        return Ok(text);
    }
    drop(text);
    Err(Why::NoMemory)
}

/// What a desk answers to a line.
pub fn answered(alloc: Global, desk: &mut DayDesk, caller: u32, text: &str) -> Result<Reply, Why> {
    let ask = match line(alloc, text.as_bytes()) {
        LineAsked::Ask(ask) => ask,
        LineAsked::Bad => return Err(Why::NoRequest),
        LineAsked::NoMemory => return Err(Why::NoMemory),
    };
    match desk.ask(caller, NOW, &ask) {
        Answer::Done(reply) => Ok(reply),
        Answer::DiskFault => Err(Why::DiskFault),
        Answer::NoMemory => Err(Why::NoMemory),
    }
}

// The text of what a desk answers to a line.
fn answer_text(alloc: Global, desk: &mut DayDesk, caller: u32, text: &str) -> Result<Vec<u8>, Why> {
    text_of(alloc, answered(alloc, desk, caller, text)?)
}

/// Asks a line until it is answered, and prints the answer.
pub fn put_answer<R: Print>(
    rt: &R,
    alloc: Global,
    desk: &mut DayDesk,
    caller: u32,
    text: &str,
) -> io::Result<()> {
    for _ in 0..TRIES {
        match answer_text(alloc, desk, caller, text) {
            Ok(answer) => {
                let put = put_text(rt, &answer);
                drop(answer);
                return put;
            }
            Err(why) => say_refused(rt, why)?,
        }
    }
    println!(rt; "never answered")
}

/// Asks the first lines of a text one after another until they are answered, and prints the answers.
pub fn put_answers<R: Print>(
    rt: &R,
    alloc: Global,
    desk: &mut DayDesk,
    texts: &str,
    count: usize,
) -> io::Result<()> {
    for text in texts.lines().take(count) {
        put_answer(rt, alloc, desk, 1, text)?;
    }
    Ok(())
}
