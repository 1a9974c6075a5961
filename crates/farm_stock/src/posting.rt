//! A posting: what is added to the book of a tank.

use farm_fixed::Amount;

/// What an amount was posted for.
#[derive(Clone, Copy, Debug, PartialEq, Eq)]
pub enum Kind {
    /// What a tank received.
    Receipt,
    /// What was delivered from a tank.
    Delivery,
    /// What a transfer took from its first tank.
    TransferOut,
    /// What a transfer brought to its second tank.
    TransferIn,
    /// What a tank gained by a measurement, or lost where it is below zero.
    Gain,
}

/// An amount that is added to the book of a tank.
#[derive(Clone, Copy, Debug, PartialEq, Eq)]
pub struct Posting {
    /// The number of the tank.
    pub tank: u16,
    /// What it was posted for.
    pub kind: Kind,
    /// The number of the party, 0 where none is named.
    pub party: u16,
    /// What is added: below zero where the tank has less afterwards.
    pub amount: Amount,
}
