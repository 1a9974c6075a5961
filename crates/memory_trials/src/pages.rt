//! A closing over HTTP: what is heard of its bytes, and the page of its ticket.

ghost use Rattle.farm_history.specs.Desk.{IsWellFormedAsk};
ghost use Rattle.std.specs.Prelude.{IfOk};

use crate::asking::{DayDesk, TRIES, Why, put_text, say_refused};
use crate::day::{BEFORE_CLOSING, CLOSE_REQUEST, NOW};
use crate::desks::desk_with;
use farm_desk::Answer;
use farm_history::{Ask, Reply};
use farm_http::Page;
use http_pages::page;
use http_requests::{Asked, Heard, hear};
use std::alloc::Global;
use std::io;

// What the request asks.
fn asked(alloc: Global) -> Result<Ask, Why>
    ensures well_formed { IfOk result (λ ask. IsWellFormedAsk ask) }
{
    match hear(alloc, CLOSE_REQUEST) {
        Heard::Got {
            asked: Asked::Ask(ask),
            ..
        } => Ok(ask),
        Heard::NoMemory => Err(Why::NoMemory),
        Heard::Got { .. } | Heard::Need | Heard::Broken(_) => Err(Why::NoRequest),
    }
}

// What the desk answers to it.
fn answered(alloc: Global, desk: &mut DayDesk) -> Result<Reply, Why> {
    let ask = asked(alloc)?;
    match desk.ask(0, NOW, &ask) {
        Answer::Done(reply) => Ok(reply),
        Answer::DiskFault => Err(Why::DiskFault),
        Answer::NoMemory => Err(Why::NoMemory),
    }
}

// Prints the page of a reply, unless memory runs out; then nothing of it is made.
fn put_page<R: Print>(
    rt: &R,
    alloc: Global,
    reply: Reply,
    pages: &mut Vec<u8>,
) -> io::Result<Result<(), Why>> {
    if page(alloc, &Page::Reply(reply), false, pages).is_ok() {
        put_text(rt, pages)?;
        return Ok(Ok(()));
    }
    if !pages.is_empty() {
        println!(rt; "a part of a page")?;
    }
    Ok(Err(Why::NoMemory))
}

// Hears the request, asks the desk, and prints the page.
fn serve_once<R: Print>(
    rt: &R,
    alloc: Global,
    desk: &mut DayDesk,
    pages: &mut Vec<u8>,
) -> io::Result<Result<(), Why>> {
    match answered(alloc, desk) {
        Ok(reply) => put_page(rt, alloc, reply, pages),
        Err(why) => Ok(Err(why)),
    }
}

// The same until the page is printed.
fn serve<R: Print>(
    rt: &R,
    alloc: Global,
    desk: &mut DayDesk,
    pages: &mut Vec<u8>,
) -> io::Result<()> {
    for _ in 0..TRIES {
        match serve_once(rt, alloc, desk, pages)? {
            Ok(()) => return println!(rt; ""),
            Err(why) => say_refused(rt, why)?,
        }
    }
    println!(rt; "never answered")
}

/// A closing is heard, asked and answered by a page.
pub fn hear_and_page<R: Print>(rt: &R, alloc: Global) -> io::Result<Result<(), Why>> {
    match desk_with(alloc, &[], BEFORE_CLOSING) {
        Ok(mut desk) => {
            let mut pages = Vec::new(alloc);
            let served = serve(rt, alloc, &mut desk, &mut pages);
            drop((desk, pages));
            served?;
            Ok(Ok(()))
        }
        Err(why) => Ok(Err(why)),
    }
}
