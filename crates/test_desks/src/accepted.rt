//! An accepted command, with nothing in doubt before it: four calls of the disk, each of which fails once, and two of which fail in a row.

use crate::commands::Asked;
use crate::courses::{Course, EIGHT, OLD, OLD_OR_EIGHT, check_courses};
use std::test::Fail;
use test_checks::Checks;

// The write and the sync of the body, and the write and the sync of the gate, fail once each.
const ONE_FAULT: &[Course] = &[
    Course {
        name: "no call fails",
        fails: &[],
        steps: &[
            (Asked::Eighth, true, 8, false),
            (Asked::Repeat, true, 8, false),
        ],
        doubt: false,
        images: &[
            ("before it", 1, OLD),
            ("the body", 4, OLD),
            ("the gate, until its sync is over", 3, OLD_OR_EIGHT),
            ("the end", 1, EIGHT),
        ],
    },
    Course {
        name: "the write of the body fails",
        fails: &[1],
        steps: &[
            (Asked::Eighth, false, 7, false),
            (Asked::Eighth, true, 8, false),
            (Asked::Repeat, true, 8, false),
        ],
        doubt: false,
        images: &[
            ("before it", 1, OLD),
            ("the write that fails", 2, OLD),
            ("the body again", 4, OLD),
            ("the gate, until its sync is over", 3, OLD_OR_EIGHT),
            ("the end", 1, EIGHT),
        ],
    },
    Course {
        name: "the sync of the body fails",
        fails: &[2],
        steps: &[
            (Asked::Eighth, false, 7, false),
            (Asked::Eighth, true, 8, false),
            (Asked::Repeat, true, 8, false),
        ],
        doubt: false,
        images: &[
            ("before it", 1, OLD),
            ("the body, whose sync fails", 4, OLD),
            ("the body again", 4, OLD),
            ("the gate, until its sync is over", 3, OLD_OR_EIGHT),
            ("the end", 1, EIGHT),
        ],
    },
    Course {
        name: "the write of the gate fails",
        fails: &[3],
        steps: &[
            (Asked::Eighth, false, 8, true),
            (Asked::Eighth, true, 8, false),
            (Asked::Repeat, true, 8, false),
        ],
        doubt: false,
        images: &[
            ("before it", 1, OLD),
            ("the body", 4, OLD),
            ("the write that fails", 2, OLD_OR_EIGHT),
            ("the gate again, until its sync is over", 3, OLD_OR_EIGHT),
            ("the end", 1, EIGHT),
        ],
    },
    Course {
        name: "the sync of the gate fails",
        fails: &[4],
        steps: &[
            (Asked::Eighth, false, 8, true),
            (Asked::Eighth, true, 8, false),
            (Asked::Repeat, true, 8, false),
        ],
        doubt: false,
        images: &[
            ("before it", 1, OLD),
            ("the body", 4, OLD),
            ("the gate, whose sync fails", 4, OLD_OR_EIGHT),
            ("the gate again, until its sync is over", 3, OLD_OR_EIGHT),
            ("the end", 1, EIGHT),
        ],
    },
];

// Two calls fail, in two asks of the same one after another.
const TWO_FAULTS: &[Course] = &[
    Course {
        name: "the write of the body fails twice",
        fails: &[1, 2],
        steps: &[
            (Asked::Eighth, false, 7, false),
            (Asked::Eighth, false, 7, false),
            (Asked::Eighth, true, 8, false),
        ],
        doubt: false,
        images: &[
            ("before it", 1, OLD),
            ("the writes that fail", 4, OLD),
            ("the body", 4, OLD),
            ("the gate, until its sync is over", 3, OLD_OR_EIGHT),
            ("the end", 1, EIGHT),
        ],
    },
    Course {
        name: "the sync of the body fails twice",
        fails: &[2, 4],
        steps: &[
            (Asked::Eighth, false, 7, false),
            (Asked::Eighth, false, 7, false),
            (Asked::Eighth, true, 8, false),
        ],
        doubt: false,
        images: &[
            ("before it", 1, OLD),
            ("the bodies whose syncs fail", 8, OLD),
            ("the body", 4, OLD),
            ("the gate, until its sync is over", 3, OLD_OR_EIGHT),
            ("the end", 1, EIGHT),
        ],
    },
    Course {
        name: "the write of the body fails, and then the sync of the gate",
        fails: &[1, 5],
        steps: &[
            (Asked::Eighth, false, 7, false),
            (Asked::Eighth, false, 8, true),
            (Asked::Eighth, true, 8, false),
        ],
        doubt: false,
        images: &[
            ("before it", 1, OLD),
            ("the write that fails", 2, OLD),
            ("the body", 4, OLD),
            ("the gate, whose sync fails", 4, OLD_OR_EIGHT),
            ("the gate again, until its sync is over", 3, OLD_OR_EIGHT),
            ("the end", 1, EIGHT),
        ],
    },
    Course {
        name: "the write of the gate fails, and then its sync",
        fails: &[3, 5],
        steps: &[
            (Asked::Eighth, false, 8, true),
            (Asked::Eighth, false, 8, true),
            (Asked::Eighth, true, 8, false),
        ],
        doubt: false,
        images: &[
            ("before it", 1, OLD),
            ("the body", 4, OLD),
            ("the write that fails", 2, OLD_OR_EIGHT),
            ("the gate, whose sync fails", 4, OLD_OR_EIGHT),
            ("the gate again, until its sync is over", 3, OLD_OR_EIGHT),
            ("the end", 1, EIGHT),
        ],
    },
];

#[test]
fn each_of_the_four_calls_of_an_accepted_command_fails(rt: HostRuntime) -> Result<(), Fail> {
    let mut checks = Checks::new(&rt);
    check_courses(&mut checks, rt.alloc(), Asked::Repeat, ONE_FAULT)?;
    Ok(checks.end()?)
}

#[test]
fn two_faults_in_a_row_leave_what_each_of_them_does(rt: HostRuntime) -> Result<(), Fail> {
    let mut checks = Checks::new(&rt);
    check_courses(&mut checks, rt.alloc(), Asked::Repeat, TWO_FAULTS)?;
    Ok(checks.end()?)
}
