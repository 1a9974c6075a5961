//! What a listener in memory gives to one accept.

ghost use Rattle.std.specs.Prelude.{◌≡◌};
ghost use Rattle.farm_listeners.specs.Visits.{is_new};

use crate::Talk;

/// An item of a listener in memory.
#[derive(Drop)]
pub enum Visit {
    /// An idle place: nobody comes.
    Idle,
    /// A connection comes.
    Conn(Talk),
}

impl Visit {
    // It may still be given: it is an idle place, or nothing was done with its connection.
    pub(crate) fn is_new(&self) -> bool
        ensures { result ≡ is_new self.now }
    {
        match self {
            Visit::Idle => true,
            Visit::Conn(talk) => talk.is_new(),
        }
    }
}
