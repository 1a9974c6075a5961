//! Entries, each with its name and its bytes.

use crate::entry_bytes::{
    CANCEL, CLOSING, CLOSING_OF_TWO, DIP, GAUGE, LAST, RECEIPT, REVERSE, SAMPLE, SETTLE, STOP,
    TRANSFER,
};
use farm_history::{Command, Entry, Few, Gauged, LAST_MOMENT, Plan};
use farm_ticket::Way;

/// Names, entries and their bytes.
pub type Entries = &'static [(&'static str, Entry, &'static [u8])];

const MOMENT: i64 = 1_700_000_000;

/// What is measured of a tank, and a Stop.
pub const READINGS: Entries = &[
    (
        "a Stop",
        Entry {
            caller: 0,
            account: 1,
            key: 1,
            at: MOMENT,
            cmd: Command::Stop,
        },
        &STOP,
    ),
    (
        "a Stop at the last moment",
        Entry {
            caller: 0,
            account: 1,
            key: 1,
            at: LAST_MOMENT,
            cmd: Command::Stop,
        },
        &LAST,
    ),
    (
        "a sample",
        Entry {
            caller: 0,
            account: 1,
            key: 2,
            at: MOMENT,
            cmd: Command::Sample {
                tank: 101,
                density: 8_500,
                sw: 0,
            },
        },
        &SAMPLE,
    ),
    (
        "a gauge",
        Entry {
            caller: 0,
            account: 1,
            key: 1,
            at: MOMENT,
            cmd: Command::Gauge {
                tank: 101,
                level: 8_000,
                water: 0,
                temperature: 1_500,
                ambient: 1_500,
            },
        },
        &GAUGE,
    ),
    (
        "a dip",
        Entry {
            caller: 0,
            account: 1,
            key: 1,
            at: MOMENT,
            cmd: Command::Dip {
                tank: 102,
                outage: false,
                tapes: Few {
                    count: 2,
                    values: [5_000, 5_000, 0, 0, 0, 0, 0, 0],
                },
                water: Few {
                    count: 0,
                    values: [0; 8],
                },
                temperatures: Few {
                    count: 1,
                    values: [1_500, 0, 0, 0, 0, 0, 0, 0],
                },
                ambient: -50,
            },
        },
        &DIP,
    ),
];

/// How movements are opened and closed.
pub const MOVEMENTS: Entries = &[
    (
        "a receipt",
        Entry {
            caller: 0,
            account: 1,
            key: 1,
            at: MOMENT,
            cmd: Command::Opening(Plan::Outside {
                way: Way::Inward,
                tank: 101,
                party: 7,
                gauged: Gauged {
                    reading: 2,
                    sample: 1,
                },
            }),
        },
        &RECEIPT,
    ),
    (
        "a transfer",
        Entry {
            caller: 0,
            account: 1,
            key: 1,
            at: MOMENT,
            cmd: Command::Opening(Plan::Transfer {
                from: 101,
                to: 102,
                from_gauged: Gauged {
                    reading: 4,
                    sample: 1,
                },
                to_gauged: Gauged {
                    reading: 7,
                    sample: 6,
                },
            }),
        },
        &TRANSFER,
    ),
    (
        "a closing",
        Entry {
            caller: 0,
            account: 1,
            key: 1,
            at: MOMENT,
            cmd: Command::Closing {
                movement: 3,
                first: Gauged {
                    reading: 4,
                    sample: 1,
                },
                second: None,
            },
        },
        &CLOSING,
    ),
    (
        "a closing of two tanks",
        Entry {
            caller: 0,
            account: 1,
            key: 1,
            at: MOMENT,
            cmd: Command::Closing {
                movement: 8,
                first: Gauged {
                    reading: 9,
                    sample: 1,
                },
                second: Some(Gauged {
                    reading: 10,
                    sample: 6,
                }),
            },
        },
        &CLOSING_OF_TWO,
    ),
];

/// How a movement is given up, and a ticket reversed.
pub const ENDS: Entries = &[
    (
        "a cancel",
        Entry {
            caller: 0,
            account: 1,
            key: 1,
            at: MOMENT,
            cmd: Command::Cancel { movement: 3 },
        },
        &CANCEL,
    ),
    (
        "a reversal",
        Entry {
            caller: 0,
            account: 1,
            key: 1,
            at: MOMENT,
            cmd: Command::Reverse { ticket: 14 },
        },
        &REVERSE,
    ),
];

/// How a tank's book is brought to what was gauged.
pub const SETTLEMENTS: Entries = &[(
    "a settlement",
    Entry {
        caller: 0,
        account: 1,
        key: 16,
        at: MOMENT,
        cmd: Command::Settle {
            tank: 101,
            gauged: Gauged {
                reading: 15,
                sample: 1,
            },
        },
    },
    &SETTLE,
)];
