//! What holds of the callers of one desk, all together.

ghost use Rattle.desk_turns.specs.Tallies.{TalliesAddUp};

/// Does nothing: the faults of all callers add up to those that the desk counted.
pub fn turn_laws()
    ensures tallies_add_up { TalliesAddUp }
{}
