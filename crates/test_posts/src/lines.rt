//! Days of gauge lines. Responses are written by hand, as the Modbus Application Protocol V1.1b3 has them over TCP.

use crate::days::Call::{Connect, Paused, Received, Request};
use crate::days::{Day, Days, LineDay, PostDay, check_days};
use crate::posts::{NO_LINE, NOBODY, STOPPED};
use farm_history::{Command, Gauged};
use std::test::Fail;

// Readings of the first line's gauge, on unit 17, at 20.00 C: 5,000 mm in the first transaction and in the second.
pub const FIRST: &[u8] = &[0, 1, 0, 0, 0, 7, 17, 4, 4, 0x13, 0x88, 0, 200];

pub const SECOND: &[u8] = &[0, 2, 0, 0, 0, 7, 17, 4, 4, 0x13, 0x88, 0, 200];

// 1 mm more, in the third.
const THIRD: &[u8] = &[0, 3, 0, 0, 0, 7, 17, 4, 4, 0x13, 0x89, 0, 200];

// A reading as it is submitted.
pub const AT_5000: Command = Command::Gauge {
    tank: 101,
    level: 5_000,
    water: 0,
    temperature: 2_000,
    ambient: 1_500,
};

const AT_5001: Command = Command::Gauge {
    tank: 101,
    level: 5_001,
    water: 0,
    temperature: 2_000,
    ambient: 1_500,
};

// A line whose link took no call.
pub const NO_CALL: LineDay = LineDay {
    fails: &[],
    waits: false,
    responses: &[],
    calls: &[],
    faults: 0,
    entered: &[],
};

// A line whose second reading isn't due.
const THREE_ROUNDS: LineDay = LineDay {
    responses: &[FIRST, SECOND, THIRD],
    calls: &[
        Connect(false),
        Request(1),
        Received(9),
        Received(4),
        Paused,
        Request(2),
        Received(9),
        Received(4),
        Paused,
        Request(3),
        Received(9),
        Received(4),
    ],
    ..NO_CALL
};

// The end of a look at the stock once the line's second reading is entered, on a desk that was opened with three entries.
const HAS_BOTH: &[u8] = b"\"reading\":5,\"sample\":1,\"tank\":101}";

// The receipt of these is closed on that reading, and then the stock is looked at.
const CLOSE_AND_LOOK: &[u8] =
    b"POST /close HTTP/1.1\r\ncontent-length: 57\r\n\r\n{\"account\":1,\"key\":4,\"movement\":3,\"reading\":5,\"sample\":1}GET /stock/101 HTTP/1.1\r\n\r\n";

// At 5,000 mm and 20.00 C the GOV is 5,000,000 x 1.00011, so the NSV 5,000,550 x 0.99580 = 4,979,548 litres, of 4,232,616 kg; at 5,001 mm it
// is 5,001,550 x 0.99580 = 4,980,543 litres, of 4,233,462 kg.
const RECEIVED: &[u8] =
    b"\r\n\r\n{\"kg\":6800846,\"litres\":8000995,\"reading\":5,\"sample\":1,\"tank\":101}";

const CLOSES: PostDay = PostDay {
    until: HAS_BOTH,
    requests: &[CLOSE_AND_LOOK],
    answered: 1,
    told: RECEIVED,
    entered: &[(
        1,
        4,
        Command::Closing {
            movement: 3,
            first: Gauged {
                reading: 5,
                sample: 1,
            },
            second: None,
        },
    )],
    ..NOBODY
};

// Keys of the line are above 3 x 4,294,967,296 on a desk that was opened with three entries.
const THREE_READINGS: Days = &[
    (
        "three readings",
        Day {
            posts: &[NOBODY, NOBODY],
            lines: &[LineDay {
                entered: &[(1_000_001, 1, AT_5000), (1_000_001, 2, AT_5001)],
                ..THREE_ROUNDS
            }],
            rounds: 3,
            entries: 2,
            ..NO_LINE
        },
    ),
    (
        "a receipt is closed on the last of three readings, and the stock shows it",
        Day {
            receipt: true,
            posts: &[NOBODY, CLOSES],
            lines: &[LineDay {
                entered: &[
                    (1_000_001, 12_884_901_889, AT_5000),
                    (1_000_001, 12_884_901_890, AT_5001),
                ],
                ..THREE_ROUNDS
            }],
            rounds: 3,
            entries: 6,
            ..NO_LINE
        },
    ),
];

#[test]
fn line_submits_on_deadband(rt: HostRuntime) -> Result<(), Fail> {
    check_days(&rt, rt.alloc(), THREE_READINGS)
}

const NO_ROUND: Days = &[(
    "no round",
    Day {
        lines: &[NO_CALL],
        ..NO_LINE
    },
)];

#[test]
fn no_round_makes_no_call(rt: HostRuntime) -> Result<(), Fail> {
    check_days(&rt, rt.alloc(), NO_ROUND)
}

const STOPPED_BEFORE: Days = &[(
    "a Stop is answered before the first poll",
    Day {
        posts: &[STOPPED],
        lines: &[LineDay {
            waits: true,
            responses: &[FIRST],
            calls: &[Connect(false), Request(1), Received(9), Received(4)],
            entered: &[(1_000_001, 1, AT_5000)],
            ..NO_CALL
        }],
        rounds: 3,
        entries: 2,
        ..NO_LINE
    },
)];

#[test]
fn a_stop_ends_a_line_after_its_round(rt: HostRuntime) -> Result<(), Fail> {
    check_days(&rt, rt.alloc(), STOPPED_BEFORE)
}
