//! Runs of a line, each with the entries that it leaves and the calls that its link took.

ghost use Rattle.std.specs.Prelude.{◌≤◌};
ghost use Rattle.line_posts.specs.Limits.{most_rounds};

use crate::desks::{RowDesk, new_access};
use crate::lines::{line, wire};
use farm_history::{Command, Entry};
use farm_ports::{Fixed, LinkCall, Wire};
use line_posts::run_line;
use std::alloc::Global;
use std::test::Fail;
use test_checks::{Checks, shared};

// The moment of the clock.
const NOW: i64 = 1_700_000_000;

// The number of the caller.
const CALLER: u32 = 3;

// A call of a link: whether a connect failed, the transaction of a request, how many bytes were received.
#[derive(Clone, Copy, Debug, PartialEq, Eq)]
enum Call {
    Connect(bool),
    Request(u8),
    FailedSend,
    Received(usize),
    Paused,
    Other,
}

// What a send was.
fn sent(bytes: &[u8], failed: bool) -> Call {
    match bytes {
        [] if failed => Call::FailedSend,
        [0, number, ..] => Call::Request(*number),
        _ => Call::Other,
    }
}

// What a call was.
fn outline(call: &LinkCall) -> Call {
    match call {
        LinkCall::Connect { failed, .. } => Call::Connect(*failed),
        LinkCall::Sent { bytes, failed } => sent(bytes.get(), *failed),
        LinkCall::Received {
            bytes,
            failed: false,
        } => Call::Received(bytes.get().len()),
        LinkCall::Received { .. } => Call::Other,
        LinkCall::Paused => Call::Paused,
    }
}

// A run: the responses of the link, which of its calls fail, how many rounds; and what follows: the levels of the entries, in mm, the
// calls, and how many of them failed. The keys of the entries are 1, 2 and so on.
struct Run {
    responses: &'static [&'static [u8]],
    fails: &'static [u64],
    rounds: u32,
    levels: &'static [i64],
    calls: &'static [(&'static str, Call)],
    faults: u64,
}

// The desk that a number of rounds of line 1 at a link leave, without an entry before.
fn desk_after(alloc: Global, wire: &mut Wire, rounds: u32) -> Result<RowDesk, Fail>
    requires rounds { rounds ≤ most_rounds }
{
    let clock = Fixed::new(alloc, NOW)?;
    let mut line = line(alloc)?;
    let mut access = new_access(alloc, CALLER)?;
    run_line(wire, &mut line, &mut access, &clock, 1, 0, rounds);
    Ok(access.into_desk())
}

// The entry of a level, under a key.
fn entry_of(key: u64, level: i64) -> Entry {
    Entry {
        caller: CALLER,
        account: 1_000_001,
        key,
        at: NOW,
        cmd: Command::Gauge {
            tank: 101,
            level,
            water: 0,
            temperature: 2_000,
            ambient: 1_500,
        },
    }
}

// The entries are those of these levels, in their order.
fn check_entries<R: Print>(checks: &mut Checks<'_, R>, entries: &[Entry], levels: &[i64]) {
    checks.same_at("how many entries", entries.len(), levels.len());
    let mut key = 0u64;
    for (entry, level) in entries.iter().zip(levels) {
        key = key.saturating_add(1);
        checks.same_at("an entry", entry, &entry_of(key, *level));
    }
}

// These are the calls, and no others.
fn check_calls<R: Print>(
    checks: &mut Checks<'_, R>,
    calls: &[LinkCall],
    wants: &[(&'static str, Call)],
) {
    checks.same_at("how many calls", calls.len(), wants.len());
    for ((name, want), call) in wants.iter().zip(calls) {
        checks.same_at(name, outline(call), *want);
    }
}

// A run leaves what its row says.
fn check_run<R: Print>(checks: &mut Checks<'_, R>, alloc: Global, run: &Run) -> Result<(), Fail>
    requires rounds { run.now.rounds ≤ most_rounds }
{
    let mut wire = wire(alloc, run.responses, run.fails)?;
    let desk = desk_after(alloc, &mut wire, run.rounds)?;
    check_entries(checks, desk.book().entries(), run.levels);
    check_calls(checks, wire.calls(), run.calls);
    checks.same_at("how many faults", wire.faults(), run.faults);
    desk.finish();
    Ok(())
}

// Three readings at 20.00 C: 5,000 mm, the same again, and 1 mm more.
const THREE_READINGS: Run = Run {
    responses: &[
        &[0, 1, 0, 0, 0, 7, 17, 4, 4, 0x13, 0x88, 0, 200],
        &[0, 2, 0, 0, 0, 7, 17, 4, 4, 0x13, 0x88, 0, 200],
        &[0, 3, 0, 0, 0, 7, 17, 4, 4, 0x13, 0x89, 0, 200],
    ],
    fails: &[],
    rounds: 3,
    levels: &[5_000, 5_001],
    calls: &[
        ("a connect", Call::Connect(false)),
        ("the first request", Call::Request(1)),
        ("what has the length", Call::Received(9)),
        ("the rest", Call::Received(4)),
        ("a pause", Call::Paused),
        ("the second request", Call::Request(2)),
        ("what has the length again", Call::Received(9)),
        ("the rest again", Call::Received(4)),
        ("a second pause", Call::Paused),
        ("the third request", Call::Request(3)),
        ("what has the length once more", Call::Received(9)),
        ("the rest once more", Call::Received(4)),
    ],
    faults: 0,
};

#[test]
fn a_line_submits_what_is_due(rt: HostRuntime) -> Result<(), Fail> {
    let mut checks = Checks::new(&rt);
    check_run(&mut checks, rt.alloc(), &THREE_READINGS)?;
    Ok(checks.end()?)
}

// The first request of a gauge fails, and the second has a reading of 5,000 mm.
const A_SEND_FAILS: Run = Run {
    responses: &[&[0, 2, 0, 0, 0, 7, 17, 4, 4, 0x13, 0x88, 0, 200]],
    fails: &[2],
    rounds: 2,
    levels: &[5_000],
    calls: &[
        ("a connect", Call::Connect(false)),
        ("a request that fails", Call::FailedSend),
        ("a pause", Call::Paused),
        ("a connect after it", Call::Connect(false)),
        ("the second request", Call::Request(2)),
        ("what has the length", Call::Received(9)),
        ("the rest", Call::Received(4)),
    ],
    faults: 1,
};

#[test]
fn a_failed_send_is_polled_again(rt: HostRuntime) -> Result<(), Fail> {
    let mut checks = Checks::new(&rt);
    check_run(&mut checks, rt.alloc(), &A_SEND_FAILS)?;
    Ok(checks.end()?)
}

const NO_ROUND: Run = Run {
    responses: &[],
    fails: &[],
    rounds: 0,
    levels: &[],
    calls: &[],
    faults: 0,
};

#[test]
fn no_round_makes_no_call(rt: HostRuntime) -> Result<(), Fail> {
    let mut checks = Checks::new(&rt);
    check_run(&mut checks, rt.alloc(), &NO_ROUND)?;
    Ok(checks.end()?)
}

#[test]
fn each_type_may_go_to_another_thread(rt: HostRuntime) -> Result<(), Fail> {
    drop(shared(line(rt.alloc())?));
    Ok(())
}
