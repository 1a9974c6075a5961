//! How movements are opened.

use farm_ticket::Way;

/// What the figures of a tank are computed from.
#[derive(Clone, Copy, Debug, PartialEq, Eq)]
pub struct Gauged {
    /// The place of a gauge's reading or a dip.
    pub reading: u32,
    /// The place of a sample.
    pub sample: u32,
}

/// A tank, and what its figures are computed from.
#[derive(Clone, Copy, Debug, PartialEq, Eq)]
pub struct Named {
    /// The number of the tank.
    pub tank: u16,
    /// What is named for it.
    pub gauged: Gauged,
}

/// The plan of a movement.
#[derive(Clone, Copy, Debug, PartialEq, Eq)]
pub enum Plan {
    /// A receipt, which is inward, or a delivery, which is outward.
    Outside {
        /// Into the tank, or out of it.
        way: Way,
        /// The number of the tank.
        tank: u16,
        /// The number of the party from whom oil is received or to whom it is delivered.
        party: u16,
        /// What the tank's figures at opening are computed from.
        gauged: Gauged,
    },
    /// A transfer from one tank to another.
    Transfer {
        /// The number of the tank that the oil goes out of.
        from: u16,
        /// The number of the tank that it goes into.
        to: u16,
        /// What the first tank's figures at opening are computed from.
        from_gauged: Gauged,
        /// What the second tank's figures at opening are computed from.
        to_gauged: Gauged,
    },
}
