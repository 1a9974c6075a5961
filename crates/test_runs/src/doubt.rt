//! What a desk says of itself while its last entry is in doubt, and once its gate was opened.

use crate::desks::{Call, Calls, Expected, Request, check_calls, new_desk};
use farm_desk::{Desk, Opened};
use farm_disk::{Disk, MemDisk, Stand};
use farm_fixed::Amount;
use std::alloc::Global;
use std::test::Fail;
use test_checks::Checks;

// The call of the disk that writes the gate of the first entry: a length, three writes and three syncs make the journal, and a write
// and a sync put the entry's body.
const GATE_WRITE: u64 = 10;

// How the desk stood when it was made: three writes and three syncs take two moments each.
const MADE: Opened = Opened {
    entries: 0,
    moment: 12,
    faults: 0,
};

// A disk without a byte that fails once, at the write of the gate.
fn failing_disk(alloc: Global) -> Result<MemDisk, Fail> {
    let fails = Vec::from_slice(alloc, &[GATE_WRITE])?;
    Ok(MemDisk::new(alloc, Vec::new(alloc), fails)?)
}

// What the terminal holds after one entry.
const TOTAL: Amount = Amount {
    litres: 13_000_000,
    kg: 11_050_000,
};

// The command of caller 0 meets the fault, and the look-up of caller 1 opens the gate.
const GATE: Calls = &[
    ("as it was made", Call::Says(false, 0, MADE)),
    (
        "a command",
        Call::Ask(0, Request::Sample(1), Expected::DiskFault),
    ),
    ("after the fault", Call::Says(true, 1, MADE)),
    (
        "a look-up",
        Call::Ask(1, Request::Total, Expected::Total(1, TOTAL)),
    ),
    ("after the look-up", Call::Says(false, 1, MADE)),
];

// Whether an entry is in doubt at the end of a desk, and where its disk stands.
fn finished(desk: Desk<MemDisk, 4>) -> (bool, Stand) {
    let (disk, doubt) = desk.finish();
    let stand = disk.stand();
    drop(disk);
    (doubt, stand)
}

// The disk of a desk with nothing in doubt had one fault. The body, the gate that failed and the gate that didn't took ten moments more.
const AT_THE_END: Stand = Stand {
    moment: 22,
    faults: 1,
};

#[test]
fn the_next_caller_takes_an_entry_out_of_doubt(rt: HostRuntime) -> Result<(), Fail> {
    let mut checks = Checks::new(&rt);
    let mut desk = new_desk(rt.alloc(), failing_disk(rt.alloc())?)?;
    check_calls(&mut checks, &mut desk, GATE);
    checks.same_at("at the end", finished(desk), (false, AT_THE_END));
    Ok(checks.end()?)
}
