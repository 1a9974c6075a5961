//! What the commands of a drill are, in the words of the rule.

ghost use Rattle.farm_drill.specs.Laws.{Begins, GoesOn};

/// Does nothing: its contract is that each movement of a drill is opened on its tank's last reading and its sample.
#[tactic(auto, using(crate::proofs::Marked::begins, crate::proofs::Marked::goes_on))]
pub fn drill_laws()
    ensures begins { Begins }
    ensures goes_on { GoesOn }
{}
