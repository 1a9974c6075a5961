//! What follows from the definitions for every count, text and result.

ghost use Rattle.farm_base.specs.Laws.{AdditionsAddUp, CountsAddUp, FaultsAddUp, FaultsAreAdded, TakingsAddUp};

/// Does nothing: its contract is the laws of this crate's words.
pub fn base_laws()
    ensures counts_add_up { CountsAddUp }
    ensures faults_are_added { FaultsAreAdded }
    ensures faults_add_up { FaultsAddUp }
    ensures additions_add_up { AdditionsAddUp }
    ensures takings_add_up { TakingsAddUp }
{}
