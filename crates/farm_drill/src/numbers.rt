//! The numbers of a drill.

use farm_history::Command;

/// The most movements of a drill.
pub const MOST_DRILLED: u32 = 60_000;

/// The caller that asks every command.
pub(crate) const CALLER: u32 = 0;

/// The account that every command is for.
pub(crate) const ACCOUNT: u32 = 1;

/// The party of every movement.
pub(crate) const PARTY: u16 = 7;

/// The number of the first tank.
pub(crate) const FIRST_TANK: u16 = 101;

/// How many tanks a drill moves oil of.
pub(crate) const TANKS: usize = 4;

/// How many commands come before the first movement.
pub(crate) const BEFORE: u32 = 8;

/// How many commands a movement has.
pub(crate) const EACH: u32 = 3;

/// What the next number is multiplied by.
pub(crate) const MULTIPLIER: u64 = 6_364_136_223_846_793_005;

/// What is added to it then.
pub(crate) const INCREMENT: u64 = 1_442_695_040_888_963_407;

/// How many bits of a number are passed over for the tank.
pub(crate) const TANK_SHIFT: u32 = 33;

/// How many bits of a number are passed over for the level.
pub(crate) const LEVEL_SHIFT: u32 = 40;

/// The least level of a movement, in mm.
pub(crate) const LEAST_LEVEL: u32 = 1_000;

/// How many levels there are from that one on.
pub(crate) const LEVELS: u64 = 9_000;

/// The commands before the first movement: a sample and a reading of each tank.
pub(crate) const FIRST: [Command; 8] = [
    Command::Sample {
        tank: 101,
        density: 8_500,
        sw: 0,
    },
    Command::Gauge {
        tank: 101,
        level: 5_000,
        water: 0,
        temperature: 1_500,
        ambient: 1_500,
    },
    Command::Sample {
        tank: 102,
        density: 8_500,
        sw: 0,
    },
    Command::Gauge {
        tank: 102,
        level: 5_000,
        water: 0,
        temperature: 1_500,
        ambient: 1_500,
    },
    Command::Sample {
        tank: 103,
        density: 8_500,
        sw: 0,
    },
    Command::Gauge {
        tank: 103,
        level: 5_000,
        water: 0,
        temperature: 1_500,
        ambient: 1_500,
    },
    Command::Sample {
        tank: 104,
        density: 8_500,
        sw: 0,
    },
    Command::Gauge {
        tank: 104,
        level: 5_000,
        water: 0,
        temperature: 1_500,
        ambient: 1_500,
    },
];
