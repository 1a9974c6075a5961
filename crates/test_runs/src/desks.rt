//! Calls of a desk of the row site, with a history of four entries at most, as rows.

ghost use Rattle.farm_history.specs.Desk.{IsWellFormedAsk};

use farm_desk::{Answer, Desk, Opened};
use farm_disk::MemDisk;
use farm_fixed::Amount;
use farm_history::{Ask, Command, Query, Reply, Rule};
use std::alloc::Global;
use std::test::Fail;
use test_checks::Checks;

// The moment of the clock.
const NOW: i64 = 1_700_000_000;

/// A request.
#[derive(Clone, Copy)]
pub enum Request {
    /// To record a sample of tank 101, under a key.
    Sample(u64),
    /// A Stop, under a key.
    Stop(u64),
    /// A look at what the terminal holds.
    Total,
}

/// What a request is answered with.
#[derive(Clone, Copy)]
pub enum Expected {
    /// The place of a command.
    Placed(u32),
    /// A refusal by a rule.
    Refused(Rule),
    /// How many entries there are, and what the terminal holds.
    Total(u32, Amount),
    /// A fault of the disk.
    DiskFault,
}

/// A call of a desk, and what it answers.
#[derive(Clone, Copy)]
pub enum Call {
    /// A request of a caller.
    Ask(u32, Request, Expected),
    /// What the desk says of itself: whether its last entry is in doubt, how many calls of its disk failed, and how it was made.
    Says(bool, u64, Opened),
}

/// Calls in their order, each with its name.
pub type Calls = &'static [(&'static str, Call)];

/// A desk of the row site, without an entry, on an empty disk.
pub(crate) fn new_desk(alloc: Global, disk: MemDisk) -> Result<Desk<MemDisk, 4>, Fail> {
    let site = match sample_site::sample_site(alloc) {
        Ok(site) => site,
        Err(fault) => {
            drop(disk);
            return Err(fault.into());
        }
    };
    match Desk::create(alloc, disk, site) {
        Ok(desk) => Ok(desk),
        Err((disk, fault)) => {
            drop(disk);
            Err(fault.into())
        }
    }
}

// A request to record a sample of tank 101, under a key.
fn sample(key: u64) -> Ask
    ensures { IsWellFormedAsk result }
{
    let cmd = Command::Sample {
        tank: 101,
        density: 8_500,
        sw: 0,
    };
    Ask::Do {
        account: 1,
        key,
        cmd,
    }
}

// A Stop, under a key.
fn stop(key: u64) -> Ask
    ensures { IsWellFormedAsk result }
{
    Ask::Do {
        account: 1,
        key,
        cmd: Command::Stop,
    }
}

// What a desk is asked.
fn ask_of(request: Request) -> Ask
    ensures { IsWellFormedAsk result }
{
    match request {
        Request::Sample(key) => sample(key),
        Request::Stop(key) => stop(key),
        Request::Total => Ask::Look(Query::Total),
    }
}

// What a desk answers to a request of a caller.
fn answer(desk: &mut Desk<MemDisk, 4>, caller: u32, request: Request) -> Answer {
    desk.ask(caller, NOW, &ask_of(request))
}

// The answer that is expected.
fn answer_of(expected: Expected) -> Answer {
    match expected {
        Expected::Placed(place) => Answer::Done(Reply::Placed(place)),
        Expected::Refused(rule) => Answer::Done(Reply::Refused(rule)),
        Expected::Total(entries, amount) => Answer::Done(Reply::Total { entries, amount }),
        Expected::DiskFault => Answer::DiskFault,
    }
}

// What a desk says of itself.
fn says(desk: &Desk<MemDisk, 4>) -> (bool, u64, Opened) {
    (desk.doubt(), desk.failed(), desk.opened())
}

// One call of a desk answers as its row says.
fn check_call<R: Print>(
    checks: &mut Checks<'_, R>,
    desk: &mut Desk<MemDisk, 4>,
    (name, call): (&str, Call),
) {
    match call {
        Call::Ask(caller, request, want) => {
            checks.same_at(name, answer(desk, caller, request), answer_of(want));
        }
        Call::Says(doubt, failed, opened) => {
            checks.same_at(name, says(desk), (doubt, failed, opened));
        }
    }
}

/// Calls of a desk answer as their rows say.
pub(crate) fn check_calls<R: Print>(
    checks: &mut Checks<'_, R>,
    desk: &mut Desk<MemDisk, 4>,
    calls: Calls,
) {
    for call in calls {
        check_call(checks, desk, *call);
    }
}
