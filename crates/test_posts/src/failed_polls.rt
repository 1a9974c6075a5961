//! Days of gauge lines on which polls fail: the next round polls again, and the other line isn't touched.

use crate::days::Call::{Connect, FailedReceive, FailedSend, Paused, Received, Request};
use crate::days::{Day, Days, LineDay, check_days};
use crate::lines::{AT_5000, FIRST, NO_CALL, SECOND};
use crate::posts::NO_LINE;
use farm_history::Command;
use std::test::Fail;

// A line that reads 5,000 mm in its second round, after a poll that was none.
const READS_AGAIN: LineDay = LineDay {
    entered: &[(1_000_001, 1, AT_5000)],
    ..NO_CALL
};

// The second line, on unit 18, which reads 6,000 mm in both rounds.
const OTHER_LINE: LineDay = LineDay {
    responses: &[
        &[0, 1, 0, 0, 0, 7, 18, 4, 4, 0x17, 0x70, 0, 200],
        &[0, 2, 0, 0, 0, 7, 18, 4, 4, 0x17, 0x70, 0, 200],
    ],
    calls: &[
        Connect(false),
        Request(1),
        Received(9),
        Received(4),
        Paused,
        Request(2),
        Received(9),
        Received(4),
    ],
    entered: &[(
        1_000_002,
        1,
        Command::Gauge {
            tank: 102,
            level: 6_000,
            water: 0,
            temperature: 2_000,
            ambient: 1_500,
        },
    )],
    ..NO_CALL
};

// A day of two rounds, in which each of two lines submits one reading.
const TWO_ROUNDS: Day = Day {
    rounds: 2,
    entries: 2,
    ..NO_LINE
};

const FAILED_POLLS: Days = &[
    (
        "a connect fails",
        Day {
            lines: &[
                LineDay {
                    fails: &[1],
                    responses: &[FIRST],
                    calls: &[
                        Connect(true),
                        Paused,
                        Connect(false),
                        Request(1),
                        Received(9),
                        Received(4),
                    ],
                    faults: 1,
                    ..READS_AGAIN
                },
                OTHER_LINE,
            ],
            ..TWO_ROUNDS
        },
    ),
    (
        "a send fails",
        Day {
            lines: &[
                LineDay {
                    fails: &[2],
                    responses: &[SECOND],
                    calls: &[
                        Connect(false),
                        FailedSend,
                        Paused,
                        Connect(false),
                        Request(2),
                        Received(9),
                        Received(4),
                    ],
                    faults: 1,
                    ..READS_AGAIN
                },
                OTHER_LINE,
            ],
            ..TWO_ROUNDS
        },
    ),
    (
        "a receive fails",
        Day {
            lines: &[
                LineDay {
                    fails: &[3],
                    responses: &[FIRST, SECOND],
                    calls: &[
                        Connect(false),
                        Request(1),
                        FailedReceive,
                        Paused,
                        Connect(false),
                        Request(2),
                        Received(9),
                        Received(4),
                    ],
                    faults: 1,
                    ..READS_AGAIN
                },
                OTHER_LINE,
            ],
            ..TWO_ROUNDS
        },
    ),
    (
        "the response of unit 18",
        Day {
            lines: &[
                LineDay {
                    responses: &[&[0, 1, 0, 0, 0, 7, 18, 4, 4, 0x13, 0x88, 0, 200], SECOND],
                    calls: &[
                        Connect(false),
                        Request(1),
                        Received(9),
                        Paused,
                        Connect(false),
                        Request(2),
                        Received(9),
                        Received(4),
                    ],
                    ..READS_AGAIN
                },
                OTHER_LINE,
            ],
            ..TWO_ROUNDS
        },
    ),
    (
        "the exception 255, after which the connection stands",
        Day {
            lines: &[
                LineDay {
                    responses: &[&[0, 1, 0, 0, 0, 3, 17, 0x84, 255], SECOND],
                    calls: &[
                        Connect(false),
                        Request(1),
                        Received(9),
                        Paused,
                        Request(2),
                        Received(9),
                        Received(4),
                    ],
                    ..READS_AGAIN
                },
                OTHER_LINE,
            ],
            ..TWO_ROUNDS
        },
    ),
];

#[test]
fn a_failed_poll_is_polled_again_and_the_other_line_continues(rt: HostRuntime) -> Result<(), Fail> {
    check_days(&rt, rt.alloc(), FAILED_POLLS)
}
