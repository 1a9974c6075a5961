//! A side of a movement.

use farm_fixed::Quantities;

/// Which way a side of a movement goes: into its tank, or out of it.
#[derive(Clone, Copy, Debug, PartialEq, Eq)]
pub enum Way {
    /// Into the tank.
    Inward,
    /// Out of the tank.
    Outward,
}

/// What moved on a side, in its way. Each may have either sign.
#[derive(Clone, Copy, Debug, PartialEq, Eq)]
pub struct Moved {
    /// Whole litres of gross standard volume.
    pub gsv: i64,
    /// Whole litres of net standard volume.
    pub nsv: i64,
    /// Whole litres of sediment and water.
    pub swv: i64,
    /// Whole kilograms.
    pub mass: i64,
}

/// A side of a movement: a tank, its figures at opening and at closing, and what moved.
#[derive(Clone, Copy, Debug, PartialEq, Eq)]
pub struct Side {
    /// The number of the tank.
    pub tank: u16,
    /// Into the tank, or out of it.
    pub way: Way,
    /// The figures of the tank when the movement was opened.
    pub opening: Quantities,
    /// The figures of the tank when it was closed.
    pub closing: Quantities,
    /// What moved.
    pub moved: Moved,
}
