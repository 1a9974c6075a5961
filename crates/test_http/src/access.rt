//! How the only caller of a desk reaches it, call by call.

ghost use Rattle.farm_history.specs.Commands.{IsWellFormedCommand};
ghost use Rattle.farm_history.specs.Desk.{IsWellFormedAsk};

use crate::desks::{RowDesk, empty_disk, new_desk, recovered_desk};
use desk_access::{DeskAccess, SoleAccess};
use farm_desk::Answer;
use farm_disk::MemDisk;
use farm_fixed::Amount;
use farm_history::{Ask, Command, Query, Reply, Rule};
use std::alloc::Global;
use std::test::Fail;
use test_checks::{Checks, shared};

// The moment of the clock.
const NOW: i64 = 1_700_000_000;

// The number of the caller.
const CALLER: u32 = 3;

// What the terminal holds.
const TOTAL: Amount = Amount {
    litres: 13_000_000,
    kg: 11_050_000,
};

// An access to a desk of the row site.
type Access = SoleAccess<MemDisk, 20>;

// A request.
#[derive(Clone, Copy)]
enum Request {
    // What a gauge reads of tank 101, a level, under a key.
    Gauge(u64, i64),
    // A Stop, under a key.
    Stop(u64),
    // A look at what the terminal holds.
    Total,
}

// A gauge's reading of tank 101.
fn gauge(level: i64) -> Command
    ensures { IsWellFormedCommand result }
{
    Command::Gauge {
        tank: 101,
        level,
        water: 0,
        temperature: 1_500,
        ambient: 1_500,
    }
}

// A request for account 1.
fn ask_of(request: Request) -> Ask
    ensures { IsWellFormedAsk result }
{
    match request {
        Request::Gauge(key, level) => Ask::Do {
            account: 1,
            key,
            cmd: gauge(level),
        },
        Request::Stop(key) => Ask::Do {
            account: 1,
            key,
            cmd: Command::Stop,
        },
        Request::Total => Ask::Look(Query::Total),
    }
}

// What a request is answered with.
#[derive(Clone, Copy)]
enum Expected {
    // The place of a command.
    Placed(u32),
    // A refusal by a rule.
    Refused(Rule),
    // How many entries there are; no stock has changed.
    Total(u32),
    // A fault of the disk.
    DiskFault,
}

// The answer that is expected.
fn answer_of(expected: Expected) -> Answer {
    match expected {
        Expected::Placed(place) => Answer::Done(Reply::Placed(place)),
        Expected::Refused(rule) => Answer::Done(Reply::Refused(rule)),
        Expected::Total(entries) => Answer::Done(Reply::Total {
            entries,
            amount: TOTAL,
        }),
        Expected::DiskFault => Answer::DiskFault,
    }
}

// A call of an access, and what it answers.
#[derive(Clone, Copy)]
enum Call {
    // A request.
    Ask(Request, Expected),
    // A look at what others entered.
    Look,
    // Whether a Stop was entered since the desk was opened.
    Stopped(bool),
}

// Calls in their order, each with its name.
type Calls = &'static [(&'static str, Call)];

// What an access answers to a request.
fn answer<A: DeskAccess>(access: &mut A, request: Request) -> Answer {
    access.ask(NOW, &ask_of(request))
}

// One call of an access answers as its row says.
fn check_call<A: DeskAccess, R: Print>(
    checks: &mut Checks<'_, R>,
    access: &mut A,
    (name, call): (&str, Call),
) {
    match call {
        Call::Ask(request, want) => {
            checks.same_at(name, answer(access, request), answer_of(want));
        }
        Call::Look => access.look(),
        Call::Stopped(want) => checks.same_at(name, access.stopped(), want),
    }
}

// Calls of an access answer as their rows say.
fn check_calls<A: DeskAccess, R: Print>(checks: &mut Checks<'_, R>, access: &mut A, calls: Calls) {
    for call in calls {
        check_call(checks, access, *call);
    }
}

const UNTIL_A_STOP: Calls = &[
    ("no entry", Call::Stopped(false)),
    (
        "a gauge",
        Call::Ask(Request::Gauge(1, 8_000), Expected::Placed(1)),
    ),
    (
        "a level above its range",
        Call::Ask(
            Request::Gauge(2, 50_001),
            Expected::Refused(Rule::OutOfRange(1)),
        ),
    ),
    ("a look-up", Call::Ask(Request::Total, Expected::Total(1))),
    ("a look", Call::Look),
    ("no Stop yet", Call::Stopped(false)),
    ("a Stop", Call::Ask(Request::Stop(3), Expected::Placed(2))),
    ("it was entered", Call::Stopped(true)),
    (
        "a gauge after it",
        Call::Ask(Request::Gauge(4, 8_001), Expected::Placed(3)),
    ),
    ("a look after it", Call::Look),
    ("it stays entered", Call::Stopped(true)),
];

const OPENED_AGAIN: Calls = &[
    ("a Stop before the desk was opened", Call::Stopped(false)),
    (
        "the same once more",
        Call::Ask(Request::Stop(3), Expected::Placed(2)),
    ),
    ("a repeat enters nothing", Call::Stopped(false)),
    (
        "a Stop of its own",
        Call::Ask(Request::Stop(5), Expected::Placed(4)),
    ),
    ("it was entered", Call::Stopped(true)),
];

// A caller's calls of a desk, and then the desk.
fn desk_after<R: Print>(checks: &mut Checks<'_, R>, mut access: Access, calls: Calls) -> RowDesk {
    check_calls(checks, &mut access, calls);
    access.into_desk()
}

// The callers of the entries of a desk.
fn check_callers<R: Print>(checks: &mut Checks<'_, R>, desk: &RowDesk, count: usize) {
    checks.same_at("how many entries", desk.book().entries().len(), count);
    for entry in desk.book().entries() {
        checks.same_at("the caller of an entry", entry.caller, CALLER);
    }
}

// The calls of a caller of a new desk, and the disk that is left.
fn first_disk<R: Print>(checks: &mut Checks<'_, R>, alloc: Global) -> Result<MemDisk, Fail> {
    let access = SoleAccess::new(new_desk(alloc, empty_disk(alloc, &[])?)?, CALLER);
    let desk = desk_after(checks, shared(access), UNTIL_A_STOP);
    check_callers(checks, &desk, 3);
    Ok(desk.finish().0)
}

// The calls of a caller of the desk that is recovered from a disk.
fn check_again<R: Print>(
    checks: &mut Checks<'_, R>,
    alloc: Global,
    disk: MemDisk,
) -> Result<(), Fail> {
    let access = SoleAccess::new(recovered_desk(alloc, disk)?, CALLER);
    let desk = desk_after(checks, access, OPENED_AGAIN);
    check_callers(checks, &desk, 4);
    drop(desk);
    Ok(())
}

#[test]
fn a_stop_counts_once_the_desk_is_open(rt: HostRuntime) -> Result<(), Fail> {
    let mut checks = Checks::new(&rt);
    let disk = first_disk(&mut checks, rt.alloc())?;
    check_again(&mut checks, rt.alloc(), disk)?;
    Ok(checks.end()?)
}

// The call of the disk that writes the gate of the first entry: a length, three writes and three syncs make the journal, and a write
// and a sync put the entry's body.
const GATE_WRITE: u64 = 10;

const IN_DOUBT: Calls = &[
    (
        "a Stop whose gate fails",
        Call::Ask(Request::Stop(1), Expected::DiskFault),
    ),
    ("it was entered", Call::Stopped(true)),
    (
        "the same once more",
        Call::Ask(Request::Stop(1), Expected::Placed(1)),
    ),
];

#[test]
fn a_stop_in_doubt_was_entered(rt: HostRuntime) -> Result<(), Fail> {
    let mut checks = Checks::new(&rt);
    let disk = empty_disk(rt.alloc(), &[GATE_WRITE])?;
    let access = SoleAccess::new(new_desk(rt.alloc(), disk)?, CALLER);
    let desk = desk_after(&mut checks, access, IN_DOUBT);
    checks.same_at("one fault", desk.failed(), 1);
    drop(desk);
    Ok(checks.end()?)
}
