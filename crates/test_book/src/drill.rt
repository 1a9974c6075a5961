//! The commands of a drill, by the rule of docs/machine.md.

use crate::commands::{Given, Places};
use farm_ticket::Way;

// Where a tank was gauged and sampled last, and at which level in mm.
#[derive(Clone, Copy)]
struct Mark {
    places: Places,
    level: i64,
}

/// How far a drill has come.
#[derive(Clone, Copy)]
pub struct Drill {
    // The number of its last movement, before the first one its seed.
    number: u64,
    // The place of its next command.
    place: u32,
    // The marks of tanks 101 to 104.
    marks: [Mark; 4],
}

/// How many commands come before the first movement of a drill.
pub const BEFORE: u32 = 8;

/// The first command at a place of a drill: tanks 101 to 104 are sampled and gauged one after another.
pub(crate) fn first_at(place: u32) -> Given {
    let tank = 101 + (place.saturating_sub(1) / 2 % 4) as u16;
    if place % 2 == 1 {
        Given::Density(tank, 8_500)
    } else {
        Given::Gauge(tank, 5_000, 0, 1_500, 1_500)
    }
}

impl Drill {
    /// A drill of a seed before its first movement.
    pub(crate) fn new(seed: u64) -> Drill {
        Drill {
            number: seed,
            place: BEFORE + 1,
            marks: [
                mark_of(2, 5_000),
                mark_of(4, 5_000),
                mark_of(6, 5_000),
                mark_of(8, 5_000),
            ],
        }
    }

    /// The place of the next command.
    pub(crate) fn place(&self) -> u32 {
        self.place
    }

    /// The three commands of the next movement, which the drill goes past.
    pub(crate) fn next(&mut self) -> [Given; 3] {
        self.number = self
            .number
            .wrapping_mul(6_364_136_223_846_793_005)
            .wrapping_add(1_442_695_040_888_963_407);
        let index = (self.number >> 33) % 4;
        let level = 1_000 + ((self.number >> 40) % 9_000) as i64;
        let opening = self.place;
        self.place = opening.saturating_add(3);
        self.moved(index as usize, opening, level)
    }

    // The commands of a movement of a tank to a level; its Opening has this place.
    fn moved(&mut self, index: usize, opening: u32, level: i64) -> [Given; 3] {
        let tank = 101 + (index % 4) as u16;
        let mark = self.marks[index % 4];
        let way = if level < mark.level {
            Way::Outward
        } else {
            Way::Inward
        };
        let places = (opening.saturating_add(1), mark.places.1);
        self.marks[index % 4] = Mark { places, level };
        [
            Given::Open(way, tank, 7, mark.places),
            Given::Gauge(tank, level, 0, 1_500, 1_500),
            Given::Close(opening, places),
        ]
    }
}

// The mark of a tank whose sample is the command before its reading.
fn mark_of(reading: u32, level: i64) -> Mark {
    Mark {
        places: (reading, reading.saturating_sub(1)),
        level,
    }
}
