//! How far a drill has come, and the commands of its next movement.

ghost use Rattle.std.specs.Prelude.{◌≡◌, ◌+◌, ◌<◌, ◌^◌};
ghost use Rattle.farm_drill.specs.Commands.{first_course, level_at, moved, next_commands, next_course, next_number, tank_index, way_to};

use crate::numbers::{
    BEFORE, EACH, FIRST_TANK, INCREMENT, LEAST_LEVEL, LEVEL_SHIFT, LEVELS, MULTIPLIER, PARTY,
    TANK_SHIFT, TANKS,
};
use farm_history::{Command, Gauged, Plan};
use farm_ticket::Way;

/// Where a tank was gauged and sampled last, and at which level.
#[derive(Clone, Copy)]
pub(crate) struct Mark {
    /// The place of its last reading.
    pub(crate) reading: u32,
    /// The place of its sample.
    pub(crate) sample: u32,
    /// The level of that reading, in mm.
    pub(crate) level: i64,
}

/// How far a drill has come.
#[derive(Clone, Copy)]
pub(crate) struct Course {
    /// The number of its last movement, before the first one its seed.
    pub(crate) number: u64,
    /// How many commands it has asked.
    pub(crate) asked: u32,
    /// The marks of its tanks, in their order.
    pub(crate) marks: [Mark; TANKS],
}

// The marks of the tanks before the first movement.
const MARKS: [Mark; TANKS] = [
    Mark {
        reading: 2,
        sample: 1,
        level: 5_000,
    },
    Mark {
        reading: 4,
        sample: 3,
        level: 5_000,
    },
    Mark {
        reading: 6,
        sample: 5,
        level: 5_000,
    },
    Mark {
        reading: 8,
        sample: 7,
        level: 5_000,
    },
];

impl Course {
    /// A drill of a seed before its first movement.
    #[tactic(auto, unfolding(crate::specs::Commands::first_course, crate::specs::Commands::first_marks))]
    pub(crate) fn new(seed: u64) -> Self
        ensures course { result ≡ first_course seed }
    {
        Course {
            number: seed,
            asked: BEFORE,
            marks: MARKS,
        }
    }

    /// The commands of the next movement, which the drill goes past.
    #[tactic(auto, unfolding(crate::specs::Commands::next_commands, crate::specs::Commands::next_course))]
    pub(crate) fn next(&mut self) -> [Command; 3]
        requires { self.old.asked + 3 < 2 ^ 32 }
        ensures commands { result ≡ next_commands self.old }
        ensures course { self.new ≡ next_course self.old }
    {
        self.number = next_number(self.number);
        let index = tank_index(self.number);
        let level = level_at(self.number);
        let opening = self.asked + 1;
        let mark = self.marks[index];
        self.asked += EACH;
        self.marks[index] = Mark {
            reading: opening + 1,
            sample: mark.sample,
            level,
        };
        moved(opening, FIRST_TANK + index as u16, mark, level)
    }
}

// The number after a number.
fn next_number(number: u64) -> u64
    ensures next { result ≡ next_number number }
{
    MULTIPLIER.wrapping_mul(number).wrapping_add(INCREMENT)
}

// Which tank the movement of a number is of, 0 for the first.
fn tank_index(number: u64) -> usize
    ensures index { result ≡ tank_index number }
    ensures few { result < 4 }
{
    (number >> TANK_SHIFT) as usize % TANKS
}

// The level that the movement of a number ends at.
fn level_at(number: u64) -> i64
    ensures level { result ≡ level_at number }
{
    i64::from(LEAST_LEVEL + ((number >> LEVEL_SHIFT) % LEVELS) as u32)
}

// The commands of a movement by its tank, the tank's mark before and the new level; its Opening has this place.
fn moved(opening: u32, tank: u16, mark: Mark, level: i64) -> [Command; 3]
    requires { opening + 1 < 2 ^ 32 }
    ensures moved { result ≡ moved opening tank mark level }
{
    [
        Command::Opening(Plan::Outside {
            way: way_to(mark.level, level),
            tank,
            party: PARTY,
            gauged: Gauged {
                reading: mark.reading,
                sample: mark.sample,
            },
        }),
        Command::Gauge {
            tank,
            level,
            water: 0,
            temperature: 1_500,
            ambient: 1_500,
        },
        Command::Closing {
            movement: opening,
            first: Gauged {
                reading: opening + 1,
                sample: mark.sample,
            },
            second: None,
        },
    ]
}

// A delivery to a lower level, else a receipt.
fn way_to(from: i64, to: i64) -> Way
    ensures way { result ≡ way_to from to }
{
    if to < from { Way::Outward } else { Way::Inward }
}
