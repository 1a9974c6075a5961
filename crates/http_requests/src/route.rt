//! The kinds of routes.

use crate::word::Word;

/// What a route is.
#[derive(Clone, Copy, Debug, PartialEq, Eq)]
pub(crate) enum Route {
    /// That of a command.
    Command(Word),
    /// That of the book of a tank, with the tank's number.
    Stock,
    /// That of the total.
    Total,
    /// That of a ticket, with its place.
    Ticket,
}
