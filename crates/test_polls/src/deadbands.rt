//! Which readings of a gauge are to be submitted.

ghost use Rattle.std.specs.Prelude.{◌≡◌, IfSome};

use crate::gauges::{GAUGE, linked};
use farm_ports::Link;
use modbus_poll::{Polled, Poller, Raw};
use std::test::Fail;
use test_checks::{Checks, shared};

// Polls the gauge whose turn it is; its index and its reading where that is to be submitted.
fn due_reading<L: Link>(poller: &mut Poller, link: &mut L) -> Option<(usize, Raw)>
    ensures { IfSome result (λ due. due.0 ≡ poller.old.next) }
{
    let Polled::Value(gauge, raw) = poller.turn(link) else {
        return None;
    };
    if !poller.due(gauge, &raw) {
        return None;
    }
    poller.submitted(gauge, raw);
    Some((gauge, raw))
}

// The level of the next poll, where it is to be submitted.
fn due_level<L: Link>(poller: &mut Poller, link: &mut L) -> Option<i64> {
    due_reading(poller, link).map(|due| due.1.level)
}

// Responses to three transactions with levels of 5,000, 5,000 and 5,001 mm, at 20.00 C.
const RESPONSES: &[&[u8]] = &[
    &[0, 1, 0, 0, 0, 9, 17, 4, 6, 0x13, 0x88, 0, 200, 0, 1],
    &[0, 2, 0, 0, 0, 9, 17, 4, 6, 0x13, 0x88, 0, 200, 0, 1],
    &[0, 3, 0, 0, 0, 9, 17, 4, 6, 0x13, 0x89, 0, 200, 0, 1],
];

// The levels of the polls, where they are to be submitted.
const LEVELS: &[(&str, Option<i64>)] = &[
    ("the first reading", Some(5_000)),
    ("the same again", None),
    ("one of 1 mm more", Some(5_001)),
];

// The levels of the next polls are to be submitted as their rows say.
fn check_levels<L: Link, R: Print>(checks: &mut Checks<'_, R>, poller: &mut Poller, link: &mut L) {
    for (name, want) in LEVELS {
        checks.same_at(name, due_level(poller, link), *want);
    }
}

#[test]
fn a_reading_is_due_that_differs_by_the_deadband(rt: HostRuntime) -> Result<(), Fail> {
    let mut checks = Checks::new(&rt);
    let (mut poller, mut wire) = shared(linked(rt.alloc(), GAUGE, RESPONSES, &[])?);
    check_levels(&mut checks, &mut poller, &mut wire);
    drop((wire, poller));
    Ok(checks.end()?)
}
