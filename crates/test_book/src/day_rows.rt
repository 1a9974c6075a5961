//! The commands of a day on the row site, of what follows it, and what a book of 21 entries at most says of each.

use crate::commands::Given;
use farm_history::{Rule, Verdict};
use farm_ticket::Way;

/// Commands under their keys, and what the book says of each. An accepted one is entered.
pub type Asked = &'static [(&'static str, u64, Given, Verdict)];

/// A receipt, a transfer, a delivery and a settlement.
pub const DAY: Asked = &[
    (
        "a sample of tank 101",
        1,
        Given::Density(101, 8_500),
        Verdict::Accept,
    ),
    (
        "a reading of it",
        2,
        Given::Gauge(101, 8_000, 0, 1_500, 1_500),
        Verdict::Accept,
    ),
    (
        "a receipt into it is opened",
        3,
        Given::Open(Way::Inward, 101, 7, (2, 1)),
        Verdict::Accept,
    ),
    (
        "a reading after the receipt",
        4,
        Given::Gauge(101, 9_000, 0, 2_500, 1_500),
        Verdict::Accept,
    ),
    (
        "the receipt is closed",
        5,
        Given::Close(3, (4, 1)),
        Verdict::Accept,
    ),
    (
        "a sample of tank 102",
        6,
        Given::Density(102, 8_500),
        Verdict::Accept,
    ),
    (
        "a dip of it",
        7,
        Given::Tapes(102, false, 5_000, 1_500),
        Verdict::Accept,
    ),
    (
        "a transfer into it is opened",
        8,
        Given::Transfer(101, 102, (4, 1), (7, 6)),
        Verdict::Accept,
    ),
    (
        "a dip of tank 101 after the transfer",
        9,
        Given::Tapes(101, true, 7_500, 2_500),
        Verdict::Accept,
    ),
    (
        "a dip of tank 102 after the transfer",
        10,
        Given::Tapes(102, false, 5_495, 1_500),
        Verdict::Accept,
    ),
    (
        "the transfer is closed",
        11,
        Given::CloseBoth(8, (9, 1), (10, 6)),
        Verdict::Accept,
    ),
    (
        "a delivery is opened",
        12,
        Given::Open(Way::Outward, 102, 8, (10, 6)),
        Verdict::Accept,
    ),
    (
        "a reading after the delivery",
        13,
        Given::Gauge(102, 4_000, 0, 1_500, 1_500),
        Verdict::Accept,
    ),
    (
        "the delivery is closed",
        14,
        Given::Close(12, (13, 6)),
        Verdict::Accept,
    ),
    (
        "a reading of tank 101 to settle it on",
        15,
        Given::Gauge(101, 8_498, 0, 2_500, 1_500),
        Verdict::Accept,
    ),
    (
        "tank 101 is settled",
        16,
        Given::Settle(101, (15, 1)),
        Verdict::Accept,
    ),
];

/// Keys that the day has used, and reversals of its tickets.
pub const REVERSALS: Asked = &[
    (
        "the receipt is closed again",
        5,
        Given::Close(3, (4, 1)),
        Verdict::Repeat(5),
    ),
    (
        "another command under its key",
        5,
        Given::Reverse(14),
        Verdict::Refused(Rule::KeyReused(5)),
    ),
    (
        "the delivery is reversed",
        17,
        Given::Reverse(14),
        Verdict::Accept,
    ),
    (
        "it is reversed again",
        18,
        Given::Reverse(14),
        Verdict::Refused(Rule::AlreadyReversed(17)),
    ),
    (
        "the receipt, whose tank was settled since",
        18,
        Given::Reverse(5),
        Verdict::Refused(Rule::Settled(16)),
    ),
    (
        "the transfer, whose first tank was settled since",
        18,
        Given::Reverse(11),
        Verdict::Refused(Rule::Settled(16)),
    ),
    (
        "a reading is no ticket",
        18,
        Given::Reverse(4),
        Verdict::Refused(Rule::UnknownTicket),
    ),
    (
        "a reversal is no ticket to reverse",
        18,
        Given::Reverse(17),
        Verdict::Refused(Rule::UnknownTicket),
    ),
    (
        "a closed movement is given up",
        18,
        Given::Cancel(3),
        Verdict::Refused(Rule::NoMovement),
    ),
    (
        "a ticket is closed",
        18,
        Given::Close(5, (4, 1)),
        Verdict::Refused(Rule::NoMovement),
    ),
];

/// Movements that are given up, and commands while they are open.
pub const CANCELS: Asked = &[
    (
        "a receipt on the reading that the delivery used",
        18,
        Given::Open(Way::Inward, 102, 7, (13, 6)),
        Verdict::Accept,
    ),
    (
        "a second receipt",
        19,
        Given::Open(Way::Inward, 102, 7, (13, 6)),
        Verdict::Refused(Rule::TankBusy(18)),
    ),
    (
        "a transfer into the same tank",
        19,
        Given::Transfer(101, 102, (15, 1), (13, 6)),
        Verdict::Refused(Rule::TankBusy(18)),
    ),
    (
        "the tank is settled meanwhile",
        19,
        Given::Settle(102, (13, 6)),
        Verdict::Refused(Rule::TankBusy(18)),
    ),
    (
        "the receipt is closed on an earlier reading",
        19,
        Given::Close(18, (13, 6)),
        Verdict::Refused(Rule::StaleReading(18)),
    ),
    ("it is given up", 19, Given::Cancel(18), Verdict::Accept),
    (
        "it is given up again",
        20,
        Given::Cancel(18),
        Verdict::Refused(Rule::NoMovement),
    ),
    (
        "the tank is settled on a reading before the one used last",
        20,
        Given::Settle(102, (10, 6)),
        Verdict::Refused(Rule::StaleReading(13)),
    ),
    (
        "a transfer is opened",
        20,
        Given::Transfer(101, 102, (15, 1), (13, 6)),
        Verdict::Accept,
    ),
    (
        "a delivery from its second tank",
        21,
        Given::Open(Way::Outward, 102, 8, (13, 6)),
        Verdict::Refused(Rule::TankBusy(20)),
    ),
    (
        "the transfer is given up",
        21,
        Given::Cancel(20),
        Verdict::Accept,
    ),
    (
        "a sample when the book is full",
        22,
        Given::Density(101, 8_500),
        Verdict::Refused(Rule::HistoryFull),
    ),
    (
        "a Stop when the book is full",
        22,
        Given::Stop,
        Verdict::Accept,
    ),
];
