//! What follows from the definitions for every batch.

ghost use Rattle.farm_batch.specs.LineAnswers.{FaultsAsk};
ghost use Rattle.farm_batch.specs.Outcomes.{OutcomesAreOne};

use farm_ports::Clock;

/// Does nothing: its contract is the laws of a batch over a clock.
pub fn batch_laws<C: Clock>(clock: &C)
    ensures outcomes_are_one { OutcomesAreOne (C.may_give clock.now) }
    ensures faults_ask { FaultsAsk (C.may_give clock.now) }
{}
