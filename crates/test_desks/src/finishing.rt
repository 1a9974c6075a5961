//! The end of a desk, requests that write nothing, and a disk each of whose calls fails up to the end.

use crate::commands::Asked;
use crate::courses::{Course, EIGHT, OLD, OLD_OR_EIGHT, check_courses};
use std::test::Fail;
use test_checks::Checks;

// The end opens the gate of an entry in doubt, by two calls of the disk.
const ENDS: &[Course] = &[
    Course {
        name: "after a write that failed the end opens the gate",
        fails: &[3],
        steps: &[(Asked::Eighth, false, 8, true)],
        doubt: false,
        images: &[
            ("before it", 1, OLD),
            ("the body", 4, OLD),
            ("its gate's write, which fails", 2, OLD_OR_EIGHT),
            ("the gate, until its sync is over", 3, OLD_OR_EIGHT),
            ("its sync's end", 1, EIGHT),
        ],
    },
    Course {
        name: "after a write that failed the write at the end fails",
        fails: &[3, 4],
        steps: &[(Asked::Eighth, false, 8, true)],
        doubt: true,
        images: &[
            ("before it", 1, OLD),
            ("the body", 4, OLD),
            ("its gate's write, which fails", 2, OLD_OR_EIGHT),
            ("the write again, which fails", 2, OLD_OR_EIGHT),
        ],
    },
    Course {
        name: "after a write that failed the sync at the end fails",
        fails: &[3, 5],
        steps: &[(Asked::Eighth, false, 8, true)],
        doubt: true,
        images: &[
            ("before it", 1, OLD),
            ("the body", 4, OLD),
            ("its gate's write, which fails", 2, OLD_OR_EIGHT),
            ("the gate again, whose sync fails", 4, OLD_OR_EIGHT),
        ],
    },
    Course {
        name: "after a sync that failed the end opens the gate",
        fails: &[4],
        steps: &[(Asked::Eighth, false, 8, true)],
        doubt: false,
        images: &[
            ("before it", 1, OLD),
            ("the body", 4, OLD),
            ("its gate, whose sync fails", 4, OLD_OR_EIGHT),
            ("the gate, until its sync is over", 3, OLD_OR_EIGHT),
            ("its sync's end", 1, EIGHT),
        ],
    },
    Course {
        name: "after a sync that failed the write at the end fails",
        fails: &[4, 5],
        steps: &[(Asked::Eighth, false, 8, true)],
        doubt: true,
        images: &[
            ("before it", 1, OLD),
            ("the body", 4, OLD),
            ("its gate, whose sync fails", 4, OLD_OR_EIGHT),
            ("the write again, which fails", 2, OLD_OR_EIGHT),
        ],
    },
    Course {
        name: "after a sync that failed the sync at the end fails",
        fails: &[4, 6],
        steps: &[(Asked::Eighth, false, 8, true)],
        doubt: true,
        images: &[
            ("before it", 1, OLD),
            ("the body", 4, OLD),
            ("its gate, whose sync fails", 4, OLD_OR_EIGHT),
            ("the gate again, whose sync fails", 4, OLD_OR_EIGHT),
        ],
    },
];

// A look-up, a refused command, a repeat and the end make no call if nothing is in doubt.
const UNWRITTEN: &[Course] = &[Course {
    name: "the next call would fail",
    fails: &[5],
    steps: &[
        (Asked::Eighth, true, 8, false),
        (Asked::Total, true, 8, false),
        (Asked::Refused, true, 8, false),
        (Asked::Repeat, true, 8, false),
    ],
    doubt: false,
    images: &[
        ("before it", 1, OLD),
        ("the body", 4, OLD),
        ("the gate, until its sync is over", 3, OLD_OR_EIGHT),
        ("its sync's end", 1, EIGHT),
    ],
}];

// Each call fails from one on: the desk counts its answers, and the disk one fault more if the end fails too.
const EVERY: &[Course] = &[
    Course {
        name: "every call from the write of the body on",
        fails: &[1, 2, 3, 4, 5, 6, 7, 8, 9, 10, 11, 12],
        steps: &[
            (Asked::Eighth, false, 7, false),
            (Asked::Eighth, false, 7, false),
            (Asked::Eighth, false, 7, false),
            (Asked::Eighth, false, 7, false),
        ],
        doubt: false,
        images: &[
            ("before it", 1, OLD),
            ("the writes of the body, which fail", 8, OLD),
        ],
    },
    Course {
        name: "every call from the sync of the body on",
        fails: &[2, 3, 4, 5, 6, 7, 8, 9, 10, 11, 12],
        steps: &[
            (Asked::Eighth, false, 7, false),
            (Asked::Eighth, false, 7, false),
            (Asked::Eighth, false, 7, false),
            (Asked::Eighth, false, 7, false),
        ],
        doubt: false,
        images: &[
            ("before it", 1, OLD),
            ("the body, whose sync fails", 4, OLD),
            ("the writes of the body, which fail", 6, OLD),
        ],
    },
    Course {
        name: "every call from the write of the gate on",
        fails: &[3, 4, 5, 6, 7, 8, 9, 10, 11, 12],
        steps: &[
            (Asked::Eighth, false, 8, true),
            (Asked::Total, false, 8, true),
            (Asked::Refused, false, 8, true),
            (Asked::Repeat, false, 8, true),
            (Asked::Accepted, false, 8, true),
        ],
        doubt: true,
        images: &[
            ("before it", 1, OLD),
            ("the body", 4, OLD),
            ("the writes of the gate, which fail", 12, OLD_OR_EIGHT),
        ],
    },
    Course {
        name: "every call from the sync of the gate on",
        fails: &[4, 5, 6, 7, 8, 9, 10, 11, 12, 13],
        steps: &[
            (Asked::Eighth, false, 8, true),
            (Asked::Total, false, 8, true),
            (Asked::Refused, false, 8, true),
            (Asked::Repeat, false, 8, true),
            (Asked::Accepted, false, 8, true),
        ],
        doubt: true,
        images: &[
            ("before it", 1, OLD),
            ("the body", 4, OLD),
            ("its gate, whose sync fails", 4, OLD_OR_EIGHT),
            ("the writes of the gate, which fail", 10, OLD_OR_EIGHT),
        ],
    },
];

#[test]
fn the_end_opens_the_gate_of_an_entry_in_doubt_or_says_that_it_is(
    rt: HostRuntime,
) -> Result<(), Fail> {
    let mut checks = Checks::new(&rt);
    check_courses(&mut checks, rt.alloc(), Asked::Total, ENDS)?;
    Ok(checks.end()?)
}

#[test]
fn what_writes_nothing_makes_no_call_if_nothing_is_in_doubt(rt: HostRuntime) -> Result<(), Fail> {
    let mut checks = Checks::new(&rt);
    check_courses(&mut checks, rt.alloc(), Asked::Total, UNWRITTEN)?;
    Ok(checks.end()?)
}

#[test]
fn a_fault_in_every_call_is_counted_once_an_answer_and_once_at_the_end(
    rt: HostRuntime,
) -> Result<(), Fail> {
    let mut checks = Checks::new(&rt);
    check_courses(&mut checks, rt.alloc(), Asked::Total, EVERY)?;
    Ok(checks.end()?)
}
