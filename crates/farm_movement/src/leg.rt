//! A side of a movement that is open.

use farm_fixed::Quantities;
use farm_ticket::Way;

/// A side of a movement that is open: a tank and its figures at opening.
#[derive(Clone, Copy, Debug, PartialEq, Eq)]
pub struct Leg {
    /// The number of the tank.
    pub tank: u16,
    /// Into the tank, or out of it.
    pub way: Way,
    /// The place of the reading that the movement was opened on.
    pub reading: u32,
    /// The place of the sample that the figures were computed with.
    pub sample: u32,
    /// The figures of the tank at that reading.
    pub opening: Quantities,
}
