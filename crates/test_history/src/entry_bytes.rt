//! The bytes of entries, for tests.

/// A Stop of caller 0, account 1 and key 1 at 1,700,000,000.
pub const STOP: [u8; 25] = [
    0, 0, 0, 0, 0, 0, 0, 1, 0, 0, 0, 0, 0, 0, 0, 1, 0, 0, 0, 0, 0x65, 0x53, 0xf1, 0, 9,
];

/// The same at the last moment.
pub const LAST: [u8; 25] = [
    0, 0, 0, 0, 0, 0, 0, 1, 0, 0, 0, 0, 0, 0, 0, 1, 0, 0, 0, 0x3a, 0xe7, 0xf9, 0xa2, 0, 9,
];

/// A sample of tank 101: 850.0 kg/m3, no sediment and water. Its key is 2.
pub const SAMPLE: [u8; 43] = [
    0, 0, 0, 0, 0, 0, 0, 1, 0, 0, 0, 0, 0, 0, 0, 2, 0, 0, 0, 0, 0x65, 0x53, 0xf1, 0, 3, 0, 0x65, 0,
    0, 0, 0, 0, 0, 0x21, 0x34, 0, 0, 0, 0, 0, 0, 0, 0,
];

/// A gauge reading of tank 101: 8,000 mm, no water, 15.00 C twice.
pub const GAUGE: [u8; 59] = [
    0, 0, 0, 0, 0, 0, 0, 1, 0, 0, 0, 0, 0, 0, 0, 1, 0, 0, 0, 0, 0x65, 0x53, 0xf1, 0, 1, 0, 0x65, 0,
    0, 0, 0, 0, 0, 0x1f, 0x40, 0, 0, 0, 0, 0, 0, 0, 0, 0, 0, 0, 0, 0, 0, 0x05, 0xdc, 0, 0, 0, 0, 0,
    0, 0x05, 0xdc,
];

/// A dip of tank 102: two innages of 5,000 mm, no water tapes, 15.00 C, outside -0.50 C.
pub const DIP: [u8; 63] = [
    0, 0, 0, 0, 0, 0, 0, 1, 0, 0, 0, 0, 0, 0, 0, 1, 0, 0, 0, 0, 0x65, 0x53, 0xf1, 0, 2, 0, 0x66, 0,
    2, 0, 0, 0, 0, 0, 0, 0x13, 0x88, 0, 0, 0, 0, 0, 0, 0x13, 0x88, 0, 1, 0, 0, 0, 0, 0, 0, 0x05,
    0xdc, 0xff, 0xff, 0xff, 0xff, 0xff, 0xff, 0xff, 0xce,
];

/// The opening of a receipt in tank 101 from party 7, on reading 2 and sample 1.
pub const RECEIPT: [u8; 38] = [
    0, 0, 0, 0, 0, 0, 0, 1, 0, 0, 0, 0, 0, 0, 0, 1, 0, 0, 0, 0, 0x65, 0x53, 0xf1, 0, 4, 1, 0, 0x65,
    0, 7, 0, 0, 0, 2, 0, 0, 0, 1,
];

/// The opening of a transfer from tank 101, on reading 4 and sample 1, to tank 102, on reading 7 and sample 6.
pub const TRANSFER: [u8; 46] = [
    0, 0, 0, 0, 0, 0, 0, 1, 0, 0, 0, 0, 0, 0, 0, 1, 0, 0, 0, 0, 0x65, 0x53, 0xf1, 0, 4, 3, 0, 0x65,
    0, 0x66, 0, 0, 0, 4, 0, 0, 0, 1, 0, 0, 0, 7, 0, 0, 0, 6,
];

/// The closing of movement 3 on reading 4 and sample 1.
pub const CLOSING: [u8; 38] = [
    0, 0, 0, 0, 0, 0, 0, 1, 0, 0, 0, 0, 0, 0, 0, 1, 0, 0, 0, 0, 0x65, 0x53, 0xf1, 0, 5, 0, 0, 0, 3,
    0, 0, 0, 4, 0, 0, 0, 1, 0,
];

/// The closing of movement 8 on reading 9 and sample 1, and for the second tank on reading 10 and sample 6.
pub const CLOSING_OF_TWO: [u8; 46] = [
    0, 0, 0, 0, 0, 0, 0, 1, 0, 0, 0, 0, 0, 0, 0, 1, 0, 0, 0, 0, 0x65, 0x53, 0xf1, 0, 5, 0, 0, 0, 8,
    0, 0, 0, 9, 0, 0, 0, 1, 1, 0, 0, 0, 0x0a, 0, 0, 0, 6,
];

/// The cancel of movement 3.
pub const CANCEL: [u8; 29] = [
    0, 0, 0, 0, 0, 0, 0, 1, 0, 0, 0, 0, 0, 0, 0, 1, 0, 0, 0, 0, 0x65, 0x53, 0xf1, 0, 6, 0, 0, 0, 3,
];

/// The reversal of ticket 14.
pub const REVERSE: [u8; 29] = [
    0, 0, 0, 0, 0, 0, 0, 1, 0, 0, 0, 0, 0, 0, 0, 1, 0, 0, 0, 0, 0x65, 0x53, 0xf1, 0, 8, 0, 0, 0,
    0x0e,
];

/// The settling of tank 101 on reading 15 and sample 1. Its key is 16.
pub const SETTLE: [u8; 35] = [
    0, 0, 0, 0, 0, 0, 0, 1, 0, 0, 0, 0, 0, 0, 0, 0x10, 0, 0, 0, 0, 0x65, 0x53, 0xf1, 0, 7, 0, 0x65,
    0, 0, 0, 0x0f, 0, 0, 0, 1,
];
