//! Connections and listeners in memory, call by call.

use farm_base::NoMemory;
use farm_listeners::{Accepted, Listener, Talk, Visit, Visits};
use farm_ports::{Failed, Sink, Source};
use std::alloc::Global;
use std::test::Fail;
use test_checks::{Checks, shared};

// Appends copies of pieces to a list.
fn add_copies(copies: &mut Vec<Vec<u8>>, alloc: Global, pieces: &[&[u8]]) -> Result<(), NoMemory> {
    for piece in pieces {
        copies.push(piece.to_vec(alloc)?)?;
    }
    Ok(())
}

// Copies of pieces.
fn copies_of(alloc: Global, pieces: &[&[u8]]) -> Result<Vec<Vec<u8>>, NoMemory> {
    let mut copies = Vec::new(alloc);
    if let Err(fault) = add_copies(&mut copies, alloc, pieces) {
        drop(copies);
        return Err(fault);
    }
    Ok(copies)
}

// Numbers of takes and of puts, in lists.
fn numbers_of(
    alloc: Global,
    takes: &[u64],
    puts: &[u64],
) -> Result<(Vec<u64>, Vec<u64>), NoMemory> {
    let takes = takes.to_vec(alloc)?;
    match puts.to_vec(alloc) {
        Ok(puts) => Ok((takes, puts)),
        Err(fault) => {
            drop(takes);
            Err(fault.into())
        }
    }
}

// A connection that gives these pieces, and whose takes and puts of these numbers fail.
fn talk(
    alloc: Global,
    pieces: &[&[u8]],
    bad_takes: &[u64],
    bad_puts: &[u64],
) -> Result<Talk, NoMemory> {
    let copies = copies_of(alloc, pieces)?;
    match numbers_of(alloc, bad_takes, bad_puts) {
        Ok((bad_takes, bad_puts)) => Talk::new(alloc, copies, bad_takes, bad_puts),
        Err(fault) => {
            drop(copies);
            Err(fault)
        }
    }
}

// A call of a connection, and what it answers.
#[derive(Clone, Copy)]
enum TalkCall {
    // A take into the buffer: how many bytes it gives.
    Take(Result<usize, Failed>),
    // The first bytes of the buffer.
    Front(&'static [u8]),
    // A put of these bytes.
    Put(&'static [u8], Result<usize, Failed>),
    Taken(&'static [u8]),
    Written(&'static [u8]),
    Faults(u64),
}

// Calls in their order, each with its name.
type TalkCalls = &'static [(&'static str, TalkCall)];

// One call of a connection answers as its row says.
fn check_talk_call<R: Print>(
    checks: &mut Checks<'_, R>,
    talk: &mut Talk,
    buffer: &mut [u8],
    (name, call): (&str, TalkCall),
) {
    match call {
        TalkCall::Take(want) => checks.same_at(name, talk.take(buffer), want),
        TalkCall::Front(want) => checks.same_at(name, buffer.get(..want.len()), Some(want)),
        TalkCall::Put(bytes, want) => checks.same_at(name, talk.put(bytes), want),
        TalkCall::Taken(want) => checks.same_at(name, talk.taken(), want),
        TalkCall::Written(want) => checks.same_at(name, talk.written(), want),
        TalkCall::Faults(want) => checks.same_at(name, talk.faults(), want),
    }
}

// Calls of a connection answer as their rows say.
fn check_talk<R: Print>(checks: &mut Checks<'_, R>, talk: &mut Talk, calls: TalkCalls) {
    let mut buffer = [0; 8];
    for call in calls {
        check_talk_call(checks, talk, &mut buffer, *call);
    }
}

// The second take fails, and the first and the third put.
const TALK: TalkCalls = &[
    ("no byte was taken", TalkCall::Taken(b"")),
    ("none was put", TalkCall::Written(b"")),
    ("the first take", TalkCall::Take(Ok(2))),
    ("what it gave", TalkCall::Front(b"ab")),
    ("a take that fails", TalkCall::Take(Err(Failed))),
    ("it moved nothing", TalkCall::Taken(b"ab")),
    ("the first put fails", TalkCall::Put(b"lost", Err(Failed))),
    ("it kept nothing", TalkCall::Written(b"")),
    ("the second put", TalkCall::Put(b"xy", Ok(2))),
    ("the third take", TalkCall::Take(Ok(3))),
    ("what it gave", TalkCall::Front(b"cde")),
    ("the third put fails", TalkCall::Put(b"lost", Err(Failed))),
    ("the fourth put", TalkCall::Put(b"z", Ok(1))),
    ("the end", TalkCall::Take(Ok(0))),
    ("all that was taken", TalkCall::Taken(b"abcde")),
    ("all that was put", TalkCall::Written(b"xyz")),
    ("takes and puts that failed", TalkCall::Faults(3)),
];

#[test]
fn a_connection_numbers_its_takes_and_puts_apart(rt: HostRuntime) -> Result<(), Fail> {
    let mut checks = Checks::new(&rt);
    let mut talk = shared(talk(rt.alloc(), &[b"ab", b"cde"], &[2], &[1, 3])?);
    check_talk(&mut checks, &mut talk, TALK);
    drop(talk);
    Ok(checks.end()?)
}

// What an accept gave.
#[derive(Clone, Copy, Debug, PartialEq, Eq)]
enum Came {
    Conn,
    Idle,
    End,
}

// A call of a listener, and what it answers.
#[derive(Clone, Copy)]
enum VisitsCall {
    Listen(u16, Result<(), Failed>),
    // An accept. A connection that comes is taken from once, gets an answer, and is handed back.
    Accept(Result<Came, Failed>),
    Ports(&'static [u16]),
    // How many connections were handed back.
    Talks(usize),
    // What was taken from the one of this index and put to it, and how many of its calls failed.
    Talk(usize, (&'static [u8], &'static [u8], u64)),
    Faults(u64),
}

// Calls in their order, each with its name.
type VisitsCalls = &'static [(&'static str, VisitsCall)];

// Takes from a connection once, and puts an answer.
fn greet(talk: &mut Talk) {
    let _ = talk.take(&mut [0; 8]);
    let _ = talk.put(b"hello");
}

// What an accept gives. A connection is greeted and handed back.
fn served(visits: &mut Visits) -> Result<Came, Failed> {
    match shared(visits.accept()?) {
        Accepted::Conn(mut talk) => {
            greet(&mut talk);
            visits.done(talk);
            Ok(Came::Conn)
        }
        Accepted::Idle => Ok(Came::Idle),
        Accepted::End => Ok(Came::End),
    }
}

// What was taken from the connection of an index and put to it, and how many of its calls failed.
fn outline(visits: &Visits, index: usize) -> Option<(&[u8], &[u8], u64)> {
    let talk = visits.talks().get(index)?;
    Some((talk.taken(), talk.written(), talk.faults()))
}

// One call of a listener answers as its row says.
fn check_visits_call<R: Print>(
    checks: &mut Checks<'_, R>,
    visits: &mut Visits,
    (name, call): (&str, VisitsCall),
) {
    match call {
        VisitsCall::Listen(port, want) => checks.same_at(name, visits.listen(port), want),
        VisitsCall::Accept(want) => checks.same_at(name, served(visits), want),
        VisitsCall::Ports(want) => checks.same_at(name, visits.ports(), want),
        VisitsCall::Talks(want) => checks.same_at(name, visits.talks().len(), want),
        VisitsCall::Talk(index, want) => {
            checks.same_at(name, outline(visits, index), Some(want));
        }
        VisitsCall::Faults(want) => checks.same_at(name, visits.faults(), want),
    }
}

// Calls of a listener answer as their rows say.
fn check_visits<R: Print>(checks: &mut Checks<'_, R>, visits: &mut Visits, calls: VisitsCalls) {
    for call in calls {
        check_visits_call(checks, visits, *call);
    }
}

// A connection that was used.
fn used(alloc: Global) -> Result<Talk, NoMemory> {
    let mut used = talk(alloc, &[], &[], &[])?;
    let _ = used.put(b"used");
    Ok(used)
}

// Appends a connection that was used, an idle place, a connection, another whose first take and first put fail, and an idle place.
fn add_items(items: &mut Vec<Visit>, alloc: Global) -> Result<(), NoMemory> {
    items.push(Visit::Conn(used(alloc)?))?;
    items.push(shared(Visit::Idle))?;
    items.push(Visit::Conn(talk(alloc, &[b"ab", b"cde"], &[], &[])?))?;
    items.push(Visit::Conn(talk(alloc, &[b"xy"], &[1], &[1])?))?;
    items.push(Visit::Idle)?;
    Ok(())
}

// An idle place, a connection, another whose first take and first put fail, and an idle place; a connection that was used before them
// is left out. The first and the fourth call fail.
fn items(alloc: Global) -> Result<Visits, NoMemory> {
    let fails = vec![in alloc; 1, 4]?;
    let mut items = Vec::new(alloc);
    if let Err(fault) = add_items(&mut items, alloc) {
        drop((items, fails));
        return Err(fault);
    }
    Visits::new(alloc, items, fails)
}

const VISITS: VisitsCalls = &[
    (
        "a listen that fails",
        VisitsCall::Listen(8_080, Err(Failed)),
    ),
    ("a listen", VisitsCall::Listen(8_081, Ok(()))),
    ("the ports of both", VisitsCall::Ports(&[8_080, 8_081])),
    ("the first idle place", VisitsCall::Accept(Ok(Came::Idle))),
    ("an accept that fails", VisitsCall::Accept(Err(Failed))),
    ("nobody was handed back", VisitsCall::Talks(0)),
    ("the first connection", VisitsCall::Accept(Ok(Came::Conn))),
    ("the second connection", VisitsCall::Accept(Ok(Came::Conn))),
    ("the second idle place", VisitsCall::Accept(Ok(Came::Idle))),
    ("the end", VisitsCall::Accept(Ok(Came::End))),
    ("the end once more", VisitsCall::Accept(Ok(Came::End))),
    ("two were handed back", VisitsCall::Talks(2)),
    ("the first", VisitsCall::Talk(0, (b"ab", b"hello", 0))),
    (
        "the second, each call of which failed",
        VisitsCall::Talk(1, (b"", b"", 2)),
    ),
    (
        "the listener's faults, and not those of connections",
        VisitsCall::Faults(2),
    ),
];

#[test]
fn a_listener_gives_its_items_in_order(rt: HostRuntime) -> Result<(), Fail> {
    let mut checks = Checks::new(&rt);
    let mut visits = shared(items(rt.alloc())?);
    check_visits(&mut checks, &mut visits, VISITS);
    drop(visits);
    Ok(checks.end()?)
}
