//! What a caller looks up.

/// A look-up. It records nothing.
#[derive(Clone, Copy, Debug, PartialEq, Eq)]
pub enum Query {
    /// The ticket of the entry at this place.
    Ticket(u32),
    /// The book of the tank with this number, with its last reading and its last sample.
    Stock(u16),
    /// What the terminal holds in all.
    Total,
}
