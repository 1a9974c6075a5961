//! An entry in doubt, which another caller meets: its gate is opened first, by two calls of the disk.

use crate::commands::Asked;
use crate::courses::{Course, EIGHT, EIGHT_OR_NINE, NINE, OLD, OLD_OR_EIGHT, check_courses};
use std::test::Fail;
use test_checks::Checks;

// What asks nothing further of the disk: a look-up, a command that is refused, and a repeat.
const MET: &[Course] = &[
    Course {
        name: "after a write that failed no other call fails",
        fails: &[3],
        steps: &[
            (Asked::Eighth, false, 8, true),
            (Asked::Met, true, 8, false),
        ],
        doubt: false,
        images: &[
            ("before it", 1, OLD),
            ("the body", 4, OLD),
            ("its gate's write, which fails", 2, OLD_OR_EIGHT),
            ("the gate, until its sync is over", 3, OLD_OR_EIGHT),
            ("its sync's end", 1, EIGHT),
        ],
    },
    Course {
        name: "after a write that failed the next write fails",
        fails: &[3, 4],
        steps: &[
            (Asked::Eighth, false, 8, true),
            (Asked::Met, false, 8, true),
            (Asked::Met, true, 8, false),
        ],
        doubt: false,
        images: &[
            ("before it", 1, OLD),
            ("the body", 4, OLD),
            ("its gate's write, which fails", 2, OLD_OR_EIGHT),
            ("the write again, which fails", 2, OLD_OR_EIGHT),
            ("the gate, until its sync is over", 3, OLD_OR_EIGHT),
            ("its sync's end", 1, EIGHT),
        ],
    },
    Course {
        name: "after a write that failed the next sync fails",
        fails: &[3, 5],
        steps: &[
            (Asked::Eighth, false, 8, true),
            (Asked::Met, false, 8, true),
            (Asked::Met, true, 8, false),
        ],
        doubt: false,
        images: &[
            ("before it", 1, OLD),
            ("the body", 4, OLD),
            ("its gate's write, which fails", 2, OLD_OR_EIGHT),
            ("the gate again, whose sync fails", 4, OLD_OR_EIGHT),
            ("the gate, until its sync is over", 3, OLD_OR_EIGHT),
            ("its sync's end", 1, EIGHT),
        ],
    },
    Course {
        name: "after a sync that failed no other call fails",
        fails: &[4],
        steps: &[
            (Asked::Eighth, false, 8, true),
            (Asked::Met, true, 8, false),
        ],
        doubt: false,
        images: &[
            ("before it", 1, OLD),
            ("the body", 4, OLD),
            ("its gate, whose sync fails", 4, OLD_OR_EIGHT),
            ("the gate, until its sync is over", 3, OLD_OR_EIGHT),
            ("its sync's end", 1, EIGHT),
        ],
    },
    Course {
        name: "after a sync that failed the next write fails",
        fails: &[4, 5],
        steps: &[
            (Asked::Eighth, false, 8, true),
            (Asked::Met, false, 8, true),
            (Asked::Met, true, 8, false),
        ],
        doubt: false,
        images: &[
            ("before it", 1, OLD),
            ("the body", 4, OLD),
            ("its gate, whose sync fails", 4, OLD_OR_EIGHT),
            ("the write again, which fails", 2, OLD_OR_EIGHT),
            ("the gate, until its sync is over", 3, OLD_OR_EIGHT),
            ("its sync's end", 1, EIGHT),
        ],
    },
    Course {
        name: "after a sync that failed the next sync fails",
        fails: &[4, 6],
        steps: &[
            (Asked::Eighth, false, 8, true),
            (Asked::Met, false, 8, true),
            (Asked::Met, true, 8, false),
        ],
        doubt: false,
        images: &[
            ("before it", 1, OLD),
            ("the body", 4, OLD),
            ("its gate, whose sync fails", 4, OLD_OR_EIGHT),
            ("the gate again, whose sync fails", 4, OLD_OR_EIGHT),
            ("the gate, until its sync is over", 3, OLD_OR_EIGHT),
            ("its sync's end", 1, EIGHT),
        ],
    },
];

// An accepted command, which makes its own four calls after these two.
const ACCEPTED: &[Course] = &[
    Course {
        name: "no other call fails",
        fails: &[3],
        steps: &[
            (Asked::Eighth, false, 8, true),
            (Asked::Accepted, true, 9, false),
        ],
        doubt: false,
        images: &[
            ("before it", 1, OLD),
            ("the body", 4, OLD),
            ("its gate's write, which fails", 2, OLD_OR_EIGHT),
            ("the gate, until its sync is over", 3, OLD_OR_EIGHT),
            ("its sync's end", 1, EIGHT),
            ("the ninth's body", 4, EIGHT),
            ("the ninth's gate, until its sync is over", 3, EIGHT_OR_NINE),
            ("the end", 1, NINE),
        ],
    },
    Course {
        name: "the write of the gate that is in doubt fails again",
        fails: &[3, 4],
        steps: &[
            (Asked::Eighth, false, 8, true),
            (Asked::Accepted, false, 8, true),
            (Asked::Accepted, true, 9, false),
        ],
        doubt: false,
        images: &[
            ("before it", 1, OLD),
            ("the body", 4, OLD),
            ("its gate's write, which fails", 2, OLD_OR_EIGHT),
            ("the write again, which fails", 2, OLD_OR_EIGHT),
            ("the gate, until its sync is over", 3, OLD_OR_EIGHT),
            ("its sync's end", 1, EIGHT),
            ("the ninth's body", 4, EIGHT),
            ("the ninth's gate, until its sync is over", 3, EIGHT_OR_NINE),
            ("the end", 1, NINE),
        ],
    },
    Course {
        name: "the sync of the gate that is in doubt fails",
        fails: &[3, 5],
        steps: &[
            (Asked::Eighth, false, 8, true),
            (Asked::Accepted, false, 8, true),
            (Asked::Accepted, true, 9, false),
        ],
        doubt: false,
        images: &[
            ("before it", 1, OLD),
            ("the body", 4, OLD),
            ("its gate's write, which fails", 2, OLD_OR_EIGHT),
            ("the gate again, whose sync fails", 4, OLD_OR_EIGHT),
            ("the gate, until its sync is over", 3, OLD_OR_EIGHT),
            ("its sync's end", 1, EIGHT),
            ("the ninth's body", 4, EIGHT),
            ("the ninth's gate, until its sync is over", 3, EIGHT_OR_NINE),
            ("the end", 1, NINE),
        ],
    },
    Course {
        name: "the write of its own body fails",
        fails: &[3, 6],
        steps: &[
            (Asked::Eighth, false, 8, true),
            (Asked::Accepted, false, 8, false),
            (Asked::Accepted, true, 9, false),
        ],
        doubt: false,
        images: &[
            ("before it", 1, OLD),
            ("the body", 4, OLD),
            ("its gate's write, which fails", 2, OLD_OR_EIGHT),
            ("the gate, until its sync is over", 3, OLD_OR_EIGHT),
            ("its sync's end", 1, EIGHT),
            ("the ninth's body's write, which fails", 2, EIGHT),
            ("the ninth's body", 4, EIGHT),
            ("the ninth's gate, until its sync is over", 3, EIGHT_OR_NINE),
            ("the end", 1, NINE),
        ],
    },
    Course {
        name: "the sync of its own body fails",
        fails: &[3, 7],
        steps: &[
            (Asked::Eighth, false, 8, true),
            (Asked::Accepted, false, 8, false),
            (Asked::Accepted, true, 9, false),
        ],
        doubt: false,
        images: &[
            ("before it", 1, OLD),
            ("the body", 4, OLD),
            ("its gate's write, which fails", 2, OLD_OR_EIGHT),
            ("the gate, until its sync is over", 3, OLD_OR_EIGHT),
            ("its sync's end", 1, EIGHT),
            ("the ninth's body, whose sync fails", 4, EIGHT),
            ("the ninth's body", 4, EIGHT),
            ("the ninth's gate, until its sync is over", 3, EIGHT_OR_NINE),
            ("the end", 1, NINE),
        ],
    },
    Course {
        name: "the write of its own gate fails",
        fails: &[3, 8],
        steps: &[
            (Asked::Eighth, false, 8, true),
            (Asked::Accepted, false, 9, true),
            (Asked::Accepted, true, 9, false),
        ],
        doubt: false,
        images: &[
            ("before it", 1, OLD),
            ("the body", 4, OLD),
            ("its gate's write, which fails", 2, OLD_OR_EIGHT),
            ("the gate, until its sync is over", 3, OLD_OR_EIGHT),
            ("its sync's end", 1, EIGHT),
            ("the ninth's body", 4, EIGHT),
            ("the ninth's gate's write, which fails", 2, EIGHT_OR_NINE),
            ("its gate again, until its sync is over", 3, EIGHT_OR_NINE),
            ("the end", 1, NINE),
        ],
    },
    Course {
        name: "the sync of its own gate fails",
        fails: &[3, 9],
        steps: &[
            (Asked::Eighth, false, 8, true),
            (Asked::Accepted, false, 9, true),
            (Asked::Accepted, true, 9, false),
        ],
        doubt: false,
        images: &[
            ("before it", 1, OLD),
            ("the body", 4, OLD),
            ("its gate's write, which fails", 2, OLD_OR_EIGHT),
            ("the gate, until its sync is over", 3, OLD_OR_EIGHT),
            ("its sync's end", 1, EIGHT),
            ("the ninth's body", 4, EIGHT),
            ("the ninth's gate, whose sync fails", 4, EIGHT_OR_NINE),
            ("its gate again, until its sync is over", 3, EIGHT_OR_NINE),
            ("the end", 1, NINE),
        ],
    },
];

#[test]
fn an_entry_in_doubt_is_settled_before_another_caller_is_answered(
    rt: HostRuntime,
) -> Result<(), Fail> {
    let mut checks = Checks::new(&rt);
    for met in [Asked::Total, Asked::Refused, Asked::Repeat] {
        check_courses(&mut checks, rt.alloc(), met, MET)?;
    }
    Ok(checks.end()?)
}

#[test]
fn an_accepted_command_that_meets_an_entry_in_doubt_makes_its_own_calls_after(
    rt: HostRuntime,
) -> Result<(), Fail> {
    let mut checks = Checks::new(&rt);
    check_courses(&mut checks, rt.alloc(), Asked::Accepted, ACCEPTED)?;
    Ok(checks.end()?)
}
