//! Days of two callers of a desk: what each is answered, what it has seen, and the entries that the desk has at the end.

ghost use Rattle.desk_turns.specs.Closing.{IsUnused};

use crate::accesses::Call::{Ask, Look, Stopped};
use crate::accesses::Caller::{First, Last};
use crate::accesses::{Calls, desk_after};
use crate::desks::{Entries, RowDesk, RowDisk, disk_at_end, new_desk, recovered_desk};
use crate::passes::{FIRST, LAST};
use crate::requests::Expected;
use crate::requests::Expected::{Counted, DiskFault, Held, Placed, Refused};
use crate::requests::Request::{Gauge, Stock, Stop, Total};
use desk_turns::turn_laws;
use farm_history::Rule;
use std::alloc::Global;
use std::sync::Wait;
use std::test::Fail;
use test_checks::Checks;

// A number of the clock, one later than it, and one between them.
const NOW: i64 = 1_700_000_000;

const LATER: i64 = 1_700_000_005;

const BETWEEN: i64 = 1_700_000_003;

// The key of the first entry, used for another command.
const REUSED: Expected = Refused(Rule::KeyReused(1));

// A day: the calls of both callers; the entries of the desk at its end; and how many of its answers were faults of the disk.
struct Day {
    calls: Calls,
    entries: Entries,
    failed: u64,
}

// The disk that a day on a desk leaves.
fn disk_after<R: Print + Wait>(
    checks: &mut Checks<'_, R>,
    rt: &R,
    alloc: Global,
    desk: RowDesk,
    day: &Day,
) -> Result<RowDisk, Fail>
    requires unused { IsUnused desk }
{
    let desk = desk_after(checks, rt, alloc, desk, day.calls)?;
    Ok(disk_at_end(checks, desk, day.entries, day.failed))
}

// A day on a new desk, on a disk whose calls of these numbers fail.
fn first_disk<R: Print + Wait>(
    checks: &mut Checks<'_, R>,
    rt: &R,
    alloc: Global,
    fails: &[u64],
    day: &Day,
) -> Result<RowDisk, Fail> {
    let desk = new_desk(alloc, fails)?;
    disk_after(checks, rt, alloc, desk, day)
}

// A day on the desk of the journal that a day before left.
fn second_disk<R: Print + Wait>(
    checks: &mut Checks<'_, R>,
    rt: &R,
    alloc: Global,
    disk: RowDisk,
    day: &Day,
) -> Result<RowDisk, Fail> {
    let desk = recovered_desk(alloc, disk)?;
    disk_after(checks, rt, alloc, desk, day)
}

const READINGS: Day = Day {
    calls: &[
        ("a gauge", First, Ask(NOW, Gauge(1, 8_000), Placed(1))),
        ("the other counts it", Last, Ask(NOW, Total, Counted(1))),
        ("and reads it", Last, Ask(NOW, Stock, Held(1))),
        ("a later one", Last, Ask(LATER, Gauge(2, 8_001), Placed(2))),
        ("the first reads it", First, Ask(NOW, Stock, Held(2))),
        ("a repeat", First, Ask(LATER, Gauge(1, 8_000), Placed(1))),
        ("the other's", Last, Ask(LATER, Gauge(1, 8_000), Placed(1))),
        ("its key", Last, Ask(LATER, Gauge(1, 8_002), REUSED)),
        ("behind", First, Ask(BETWEEN, Gauge(3, 8_002), Placed(3))),
        ("three in all", Last, Ask(LATER, Total, Counted(3))),
        ("no Stop", First, Stopped(false)),
        ("nor for the other", Last, Stopped(false)),
    ],
    entries: &[(FIRST, 1, NOW), (LAST, 2, LATER), (FIRST, 3, LATER)],
    failed: 0,
};

#[test]
fn each_caller_is_answered_on_the_entries_of_both(rt: HostRuntime) -> Result<(), Fail> {
    let mut checks = Checks::new(&rt);
    drop(first_disk(&mut checks, &rt, rt.alloc(), &[], &READINGS)?);
    Ok(checks.end()?)
}

const A_STOP: Day = Day {
    calls: &[
        ("no Stop yet", Last, Stopped(false)),
        ("a Stop", First, Ask(NOW, Stop(1), Placed(1))),
        ("its caller has seen it", First, Stopped(true)),
        ("the other hasn't", Last, Stopped(false)),
        ("the other looks", Last, Look),
        ("and has seen it", Last, Stopped(true)),
        ("a gauge", Last, Ask(NOW, Gauge(2, 8_000), Placed(2))),
        ("a look past the Stop", First, Look),
        ("it stays seen", First, Stopped(true)),
    ],
    entries: &[(FIRST, 1, NOW), (LAST, 2, NOW)],
    failed: 0,
};

const OPENED_AGAIN: Day = Day {
    calls: &[
        ("an old Stop", First, Stopped(false)),
        ("a look", Last, Look),
        ("none to see", Last, Stopped(false)),
        ("a repeat", First, Ask(LATER, Stop(1), Placed(1))),
        ("it enters nothing", First, Stopped(false)),
        ("a new Stop", Last, Ask(LATER, Stop(3), Placed(3))),
        ("it was entered", Last, Stopped(true)),
        ("the other looks", First, Look),
        ("and has seen it", First, Stopped(true)),
    ],
    entries: &[(FIRST, 1, NOW), (LAST, 2, NOW), (LAST, 3, LATER)],
    failed: 0,
};

#[test]
fn a_look_sees_the_others_stop(rt: HostRuntime) -> Result<(), Fail> {
    let mut checks = Checks::new(&rt);
    let disk = first_disk(&mut checks, &rt, rt.alloc(), &[], &A_STOP)?;
    drop(second_disk(&mut checks, &rt, rt.alloc(), disk, &OPENED_AGAIN)?);
    Ok(checks.end()?)
}

// The call of the disk that writes the gate of the first entry: a length, three writes and three syncs make the journal, and a write
// and a sync put the entry's body.
const GATE_WRITE: u64 = 10;

const ONE_FAULT: Day = Day {
    calls: &[
        ("its gate fails", First, Ask(NOW, Stop(1), DiskFault)),
        ("it was entered", First, Stopped(true)),
        ("the other hasn't seen it", Last, Stopped(false)),
        ("a look-up", Last, Ask(NOW, Total, Counted(1))),
        ("it has seen it", Last, Stopped(true)),
        ("a repeat", First, Ask(LATER, Stop(1), Placed(1))),
        ("a gauge", Last, Ask(LATER, Gauge(2, 8_000), Placed(2))),
    ],
    entries: &[(FIRST, 1, NOW), (LAST, 2, LATER)],
    failed: 1,
};

#[test]
fn the_next_caller_opens_the_gate(rt: HostRuntime) -> Result<(), Fail> {
    let mut checks = Checks::new(&rt);
    drop(first_disk(&mut checks, &rt, rt.alloc(), &[GATE_WRITE], &ONE_FAULT)?);
    Ok(checks.end()?)
}

// The call of the disk that writes the same gate once more.
const GATE_AGAIN: u64 = 11;

const A_FAULT_EACH: Day = Day {
    calls: &[
        ("a gauge", First, Ask(NOW, Gauge(1, 8_000), DiskFault)),
        ("the other's", Last, Ask(NOW, Gauge(2, 8_001), DiskFault)),
        ("once more", Last, Ask(LATER, Gauge(2, 8_001), Placed(2))),
        ("two in all", First, Ask(LATER, Total, Counted(2))),
    ],
    entries: &[(FIRST, 1, NOW), (LAST, 2, LATER)],
    failed: 2,
};

#[test]
fn the_faults_of_both_callers_add_up(rt: HostRuntime) -> Result<(), Fail> {
    turn_laws();
    let mut checks = Checks::new(&rt);
    let fails = [GATE_WRITE, GATE_AGAIN];
    drop(first_disk(&mut checks, &rt, rt.alloc(), &fails, &A_FAULT_EACH)?);
    Ok(checks.end()?)
}
