//! Days of a desk: the posts and lines that serve it, and what that leaves.

use crate::desks::{PORT, RowLine, RowPost, served};
use crate::making::{lines, posts};
use desk_posts::PostEnd;
use farm_history::{Command, Entry};
use farm_ports::{LinkCall, Wire};
use farm_serve::any_failed;
use std::alloc::Global;
use std::sync::Wait;
use std::sync::atomic::AtomicBool;
use std::test::Fail;
use std::thread::Threads;
use test_checks::Checks;

/// What a caller entered: the account, its key, and the command.
pub type Entered = (u32, u64, Command);

/// The day of a desk post.
#[derive(Clone, Copy)]
pub struct PostDay {
    /// The calls of its listener that fail, by their numbers.
    pub fails: &'static [u64],
    /// How many accepts are idle before any other.
    pub idle: u32,
    /// Whether its connections wait until one of another post was answered.
    pub waits: bool,
    /// What a look at the stock of tank 101 has to end with before its connections ask anything else; nothing if they don't look.
    pub until: &'static [u8],
    /// What its connections ask, each in one piece.
    pub requests: &'static [&'static [u8]],
    /// How it ends.
    pub end: PostEnd,
    /// How many connections it hands back, each answered by 200.
    pub answered: usize,
    /// What the last page on each of them ends with.
    pub told: &'static [u8],
    /// What its caller enters, in order.
    pub entered: &'static [Entered],
}

/// A call of a link: whether a connect failed, the transaction of a request, how many bytes were received.
#[derive(Clone, Copy, Debug, PartialEq, Eq)]
pub enum Call {
    Connect(bool),
    Request(u8),
    FailedSend,
    Received(usize),
    FailedReceive,
    Paused,
    Other,
}

/// The day of a gauge line.
#[derive(Clone, Copy)]
pub struct LineDay {
    /// The calls of its link that fail, by their numbers.
    pub fails: &'static [u64],
    /// Whether it connects only once a connection of a desk post was answered.
    pub waits: bool,
    /// What its device sends, a response to each request.
    pub responses: &'static [&'static [u8]],
    /// The calls that its link takes.
    pub calls: &'static [Call],
    /// How many of them its link counts as faults.
    pub faults: u64,
    /// What its caller enters, in order.
    pub entered: &'static [Entered],
}

/// A day of a desk. Its callers are numbered from 0, first the desk posts and then the lines.
#[derive(Clone, Copy)]
pub struct Day {
    /// Whether the desk was opened with a receipt into tank 101; else it is new.
    pub receipt: bool,
    /// The desk posts.
    pub posts: &'static [PostDay],
    /// The lines, which are the first ones of the site.
    pub lines: &'static [LineDay],
    /// The rounds of each line.
    pub rounds: u8,
    /// How many entries the desk has at the end.
    pub entries: usize,
    /// Whether a call on a listener failed.
    pub failed: bool,
}

/// Days, each with its name.
pub type Days = &'static [(&'static str, Day)];

// A desk post listened on this port alone, and ended as its row says.
fn check_post<R: Print>(
    checks: &mut Checks<'_, R>,
    name: &str,
    post: &RowPost<'_>,
    day: &PostDay,
    port: u16,
) {
    let visits = post.outside().visits();
    checks.same_at(name, post.end(), Some(day.end));
    checks.same_at(name, visits.ports(), [port].as_slice());
    checks.same_at(name, visits.talks().len(), day.answered);
    for talk in visits.talks() {
        let is_answered = talk.written().starts_with(b"HTTP/1.1 200 OK\r\n");
        checks.same_at(name, is_answered, true);
        checks.same_at(name, talk.written().ends_with(day.told), true);
    }
}

// What a send was.
fn sent(bytes: &[u8], failed: bool) -> Call {
    match bytes {
        [] if failed => Call::FailedSend,
        [0, number, ..] => Call::Request(*number),
        _ => Call::Other,
    }
}

// What a receive was.
fn received(bytes: &[u8], failed: bool) -> Call {
    if failed {
        Call::FailedReceive
    } else {
        Call::Received(bytes.len())
    }
}

// What a call was.
fn outline(call: &LinkCall) -> Call {
    match call {
        LinkCall::Connect { failed, .. } => Call::Connect(*failed),
        LinkCall::Sent { bytes, failed } => sent(bytes.get(), *failed),
        LinkCall::Received { bytes, failed } => received(bytes.get(), *failed),
        LinkCall::Paused => Call::Paused,
    }
}

// The link of a line took the calls of its row, and no others.
fn check_wire<R: Print>(checks: &mut Checks<'_, R>, name: &str, wire: &Wire, day: &LineDay) {
    checks.same_at(name, wire.faults(), day.faults);
    checks.same_at(name, wire.calls().len(), day.calls.len());
    for (call, want) in wire.calls().iter().zip(day.calls) {
        checks.same_at(name, outline(call), *want);
    }
}

// Of the entries since a desk was opened those of a caller are these, in their order.
fn check_entered<R: Print>(
    checks: &mut Checks<'_, R>,
    name: &str,
    entries: &[Entry],
    caller: u32,
    wants: &[Entered],
) {
    let mut left = wants.iter();
    for entry in entries {
        if entry.caller == caller {
            let came = (entry.account, entry.key, entry.cmd);
            checks.same_at(name, Some(&came), left.next());
        }
    }
    checks.same_at(name, None, left.next());
}

// The entries since the desk of a day was opened, with three entries if it had a receipt.
fn since_opened<'a>(day: &Day, entries: &'a [Entry]) -> &'a [Entry] {
    match entries {
        [_, _, _, since @ ..] if day.receipt => since,
        _ => entries,
    }
}

// Entries, posts and lines are as the row of the day says.
fn check_end<R: Print>(
    checks: &mut Checks<'_, R>,
    name: &str,
    day: &Day,
    entries: &[Entry],
    posts: &[RowPost<'_>],
    lines: &[RowLine<'_>],
) {
    checks.same_at(name, entries.len(), day.entries);
    checks.same_at(name, any_failed(posts), day.failed);
    let entries = since_opened(day, entries);
    let mut port = PORT;
    let mut caller = 0u32;
    for (post, day) in posts.iter().zip(day.posts) {
        check_post(checks, name, post, day, port);
        check_entered(checks, name, entries, caller, day.entered);
        port = port.saturating_add(1);
        caller = caller.saturating_add(1);
    }
    for (line, day) in lines.iter().zip(day.lines) {
        check_wire(checks, name, line.outside().wire(), day);
        check_entered(checks, name, entries, caller, day.entered);
        caller = caller.saturating_add(1);
    }
}

// Posts and lines serve a desk, and leave what the row of the day says.
fn check_served<R: Threads + Wait + Sync + Print>(
    checks: &mut Checks<'_, R>,
    rt: &R,
    alloc: Global,
    name: &str,
    day: &Day,
    posts: &mut [RowPost<'_>],
    lines: &mut [RowLine<'_>],
) -> Result<(), Fail> {
    let desk = served(rt, alloc, day.receipt, posts, lines, day.rounds)?;
    check_end(checks, name, day, desk.book().entries(), posts, lines);
    drop(desk);
    Ok(())
}

// A day leaves what its row says.
fn check_day<R: Threads + Wait + Sync + Print>(
    checks: &mut Checks<'_, R>,
    rt: &R,
    alloc: Global,
    name: &str,
    day: &Day,
) -> Result<(), Fail> {
    let answered = AtomicBool::new(false);
    let mut posts = posts(alloc, day.posts, &answered)?;
    match lines(alloc, day.lines, &answered) {
        Ok(mut lines) => {
            let checked = check_served(checks, rt, alloc, name, day, &mut posts, &mut lines);
            drop(lines);
            drop(posts);
            checked
        }
        Err(fault) => {
            drop(posts);
            Err(fault.into())
        }
    }
}

/// Each of these days leaves what its row says.
pub(crate) fn check_days<R: Threads + Wait + Sync + Print>(
    rt: &R,
    alloc: Global,
    days: Days,
) -> Result<(), Fail> {
    let mut checks = Checks::new(rt);
    for (name, day) in days {
        check_day(&mut checks, rt, alloc, name, day)?;
    }
    Ok(checks.end()?)
}
