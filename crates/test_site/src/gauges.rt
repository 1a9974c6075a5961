//! The gauges of the site with every key.

use gauge_maps::{Field, GaugeMap, Valid};

// A signed level of two words, the low one first, at the last registers.
const LEVEL: Field = Field {
    offset: 123,
    words: 2,
    swapped: true,
    signed: true,
    mul: 1_000_000,
    div: 10,
};

// One word at offset 0, unsigned, and as it is read.
const FIRST: Field = Field {
    offset: 0,
    words: 1,
    swapped: false,
    signed: false,
    mul: 1,
    div: 1,
};

// The same, signed.
const SIGNED: Field = Field {
    offset: 0,
    words: 1,
    swapped: false,
    signed: true,
    mul: 1,
    div: 1,
};

// One word at offset 1, unsigned, and as it is read.
const SECOND: Field = Field {
    offset: 1,
    words: 1,
    swapped: false,
    signed: false,
    mul: 1,
    div: 1,
};

// One word at offset 2, unsigned, that is divided by a million.
const MILLIONTH: Field = Field {
    offset: 2,
    words: 1,
    swapped: false,
    signed: false,
    mul: 1,
    div: 1_000_000,
};

/// The gauge that says all that it may.
pub const FULL: GaugeMap = GaugeMap {
    tank: 21,
    unit: 255,
    function: 3,
    start: 65_411,
    quantity: 125,
    level: LEVEL,
    temperature: FIRST,
    water: Some(SECOND),
    ambient: Some(MILLIONTH),
    ambient_fixed: -10_000,
    valid: Some(Valid {
        offset: 124,
        bit: 15,
    }),
    deadband_mm: 1_000,
    deadband_centi: 999,
};

/// The gauge that says only what it has to.
pub const BARE: GaugeMap = GaugeMap {
    tank: 22,
    unit: 0,
    function: 4,
    start: 7,
    quantity: 2,
    level: SECOND,
    temperature: SIGNED,
    water: None,
    ambient: None,
    ambient_fixed: 1_500,
    valid: None,
    deadband_mm: 1,
    deadband_centi: 5,
};
