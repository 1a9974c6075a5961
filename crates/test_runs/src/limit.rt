//! A desk on a disk in memory, with a history of four entries at most.

use crate::desks::{Call, Calls, Expected, Request, check_calls, new_desk};
use crate::running::empty_disk;
use farm_fixed::Amount;
use farm_history::Rule;
use std::test::Fail;
use test_checks::Checks;

const FOUR_SAMPLES: Calls = &[
    (
        "the first sample",
        Call::Ask(0, Request::Sample(1), Expected::Placed(1)),
    ),
    (
        "the second sample",
        Call::Ask(0, Request::Sample(2), Expected::Placed(2)),
    ),
    (
        "the third sample",
        Call::Ask(0, Request::Sample(3), Expected::Placed(3)),
    ),
    (
        "the fourth sample",
        Call::Ask(0, Request::Sample(4), Expected::Placed(4)),
    ),
];

// What the terminal holds after four entries.
const TOTAL: Amount = Amount {
    litres: 13_000_000,
    kg: 11_050_000,
};

const WHEN_FULL: Calls = &[
    (
        "a fifth sample is refused",
        Call::Ask(0, Request::Sample(5), Expected::Refused(Rule::HistoryFull)),
    ),
    (
        "a repeat is answered",
        Call::Ask(0, Request::Sample(2), Expected::Placed(2)),
    ),
    (
        "a look-up is answered",
        Call::Ask(0, Request::Total, Expected::Total(4, TOTAL)),
    ),
    (
        "a Stop is placed",
        Call::Ask(0, Request::Stop(5), Expected::Placed(5)),
    ),
];

#[test]
fn a_full_history_takes_repeats_look_ups_and_stops(rt: HostRuntime) -> Result<(), Fail> {
    let mut checks = Checks::new(&rt);
    let mut desk = new_desk(rt.alloc(), empty_disk(rt.alloc())?)?;
    check_calls(&mut checks, &mut desk, FOUR_SAMPLES);
    check_calls(&mut checks, &mut desk, WHEN_FULL);
    drop(desk);
    checks.same_at("the rule's number", Rule::HistoryFull.number(), 2);
    Ok(checks.end()?)
}
