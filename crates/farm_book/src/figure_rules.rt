//! The rules on the figures that a command asks for, 16 to 19. They are judged on calculations that were made before.

ghost use Rattle.std.specs.Prelude.{◌≡◌, None, Some, option_and_then};
ghost use Rattle.farm_book.specs.Calculated.{AreCalculatedOn};
ghost use Rattle.farm_book.specs.Judging.{closes_wrong_on, fault_of};
ghost use Rattle.farm_history.specs.Figures.{figures_of};
ghost use Rattle.farm_history.specs.MovementRules.{is_critical_zone, is_negative, is_no_entry, is_refused_with, no_movement, wrong_way};
ghost use Rattle.farm_history.specs.Rules.{broken_by_figures};
ghost use Rattle.farm_history.specs.Tickets.{goes_wrong};
ghost use Rattle.history_lookups.specs.Pasts.{IsReadable};

use crate::calculated::{Calculated, Calculation};
use farm_fixed::{ChainRule, Quantities};
use farm_history::{Command, Rule};
use farm_indexes::PastFacts;
use farm_movement::{Leg, OpenMove};
use farm_ticket::moved;

/// The first of the rules 16 to 19 that a command breaks.
#[tactic(auto, unfolding(farm_history::specs::Rules::broken_by_figures, farm_history::specs::MovementRules::no_entry, farm_history::specs::MovementRules::critical_zone, farm_history::specs::MovementRules::negative))]
pub(crate) fn judge_figures<F: PastFacts>(
    facts: &F,
    command: &Command,
    calculated: &Calculated,
) -> Result<(), Rule>
    requires readable { IsReadable (F.history facts.now) }
    requires open { no_movement (F.history facts.now) command.now ≡ None }
    requires calculated { AreCalculatedOn (F.history facts.now) command.now calculated.now }
    ensures broken { fault_of result ≡ broken_by_figures (F.history facts.now) command.now }
{
    if is_no_entry(&calculated.first) || is_no_entry(&calculated.second) {
        return Err(Rule::NoEntry);
    }
    if is_critical_zone(&calculated.first) || is_critical_zone(&calculated.second) {
        return Err(Rule::CriticalZone);
    }
    if is_negative(&calculated.first) || is_negative(&calculated.second) {
        return Err(Rule::Negative);
    }
    wrong_way(facts, command, calculated)
}

// Whether a calculation is refused because the factor file has no entry.
fn is_no_entry(calculation: &Calculation) -> bool
    ensures { result ≡ is_refused_with is_no_entry calculation.now }
{
    matches!(calculation, Some(Err(ChainRule::NoEntry)))
}

// Whether it is refused because the level is in the critical zone of the roof.
fn is_critical_zone(calculation: &Calculation) -> bool
    ensures { result ≡ is_refused_with is_critical_zone calculation.now }
{
    matches!(calculation, Some(Err(ChainRule::CriticalZone)))
}

// Whether it is refused because the gross observed volume is below zero.
fn is_negative(calculation: &Calculation) -> bool
    ensures { result ≡ is_refused_with is_negative calculation.now }
{
    matches!(calculation, Some(Err(ChainRule::Negative)))
}

// Rule 19: a side of a movement that is closed goes the wrong way.
#[tactic(auto, unfolding(farm_history::specs::MovementRules::wrong_way))]
fn wrong_way<F: PastFacts>(
    facts: &F,
    command: &Command,
    calculated: &Calculated,
) -> Result<(), Rule>
    requires readable { IsReadable (F.history facts.now) }
    requires open { no_movement (F.history facts.now) command.now ≡ None }
    requires calculated { AreCalculatedOn (F.history facts.now) command.now calculated.now }
    ensures rule { fault_of result ≡ wrong_way (F.history facts.now) command.now }
{
    let Command::Closing { movement, .. } = command else {
        return Ok(());
    };
    if closes_wrong(&facts.movement_at(*movement), calculated) {
        return Err(Rule::WrongWay);
    }
    Ok(())
}

// Whether there is a movement with figures of each of its tanks, and a side of it goes the wrong way on these.
fn closes_wrong(movement: &Option<OpenMove>, calculated: &Calculated) -> bool
    ensures wrong { result ≡ closes_wrong_on movement.now (option_and_then figures_of calculated.now.first) (option_and_then figures_of calculated.now.second) }
{
    let (Some(movement), Some(Ok(first))) = (movement, &calculated.first) else {
        return false;
    };
    match (&movement.second, &calculated.second) {
        (None, Some(Ok(_))) => false,
        (None, _) => goes_wrong(&movement.first, first),
        (Some(leg), Some(Ok(second))) => {
            goes_wrong(&movement.first, first) || goes_wrong(leg, second)
        }
        (Some(_), _) => false,
    }
}

// Whether a side of a movement goes the wrong way on these figures.
fn goes_wrong(leg: &Leg, closing: &Quantities) -> bool
    ensures wrong { result ≡ goes_wrong leg.now closing.now }
{
    moved(&leg.opening, closing, leg.way).is_err()
}
