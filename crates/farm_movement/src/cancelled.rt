//! A movement that was cancelled.

ghost use Rattle.std.specs.Prelude.{◌≡◌};
ghost use Rattle.farm_movement.specs.Closing.{tank_of_leg};

use crate::OpenMove;

/// A movement that was cancelled, as it was when it was open.
#[derive(Clone, Copy, Debug, PartialEq, Eq)]
pub struct CancelledMove {
    /// The place of the entry that cancelled it.
    pub place: u32,
    /// The movement.
    pub movement: OpenMove,
}

impl CancelledMove {
    /// The tanks of its legs.
    pub fn tanks(&self) -> (u16, Option<u16>)
        ensures first { result.0 ≡ self.now.movement.first.tank }
        ensures second { result.1 ≡ tank_of_leg self.now.movement.second }
    {
        self.movement.tanks()
    }
}
