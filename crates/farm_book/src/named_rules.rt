//! The rules on what a command names for its tanks, 13 to 15; those on the figures that follow from it stand in `figure_rules`.

ghost use Rattle.std.specs.Prelude.{◌≡◌, None, not};
ghost use Rattle.std.specs.List.{list_any};
ghost use Rattle.farm_book.specs.Calculated.{AreCalculatedOn};
ghost use Rattle.farm_book.specs.Judging.{fault_of};
ghost use Rattle.history_lookups.specs.Pairs.{listed, listed_one};
ghost use Rattle.history_lookups.specs.Pasts.{IsReadable};
ghost use Rattle.farm_history.specs.Figures.{named_by};
ghost use Rattle.farm_history.specs.Given.{first_given};
ghost use Rattle.farm_history.specs.MovementRules.{has_reading, has_sample, names_each, names_too_few_or_many, no_movement, stale_for, stale_reading, unknown_reading, unknown_sample};
ghost use Rattle.farm_history.specs.Rules.{broken_by_names};

use crate::calculated::Calculated;
use crate::figure_rules::judge_figures;
use farm_history::{Command, Gauged, Named, Plan, Rule};
use farm_indexes::PastFacts;
use history_lookups::{Pairs, Past, is_gauging_of, is_sample_of};

/// The first of the rules 13 to 19 that a command breaks.
#[tactic(auto, unfolding(farm_history::specs::Rules::broken_by_names))]
pub(crate) fn judge_names<F: PastFacts>(
    facts: &F,
    command: &Command,
    calculated: &Calculated,
) -> Result<(), Rule>
    requires readable { IsReadable (F.history facts.now) }
    requires open { no_movement (F.history facts.now) command.now ≡ None }
    requires calculated { AreCalculatedOn (F.history facts.now) command.now calculated.now }
    ensures broken { fault_of result ≡ broken_by_names (F.history facts.now) command.now }
{
    let past = facts.past();
    unknown_reading(&past, command, &calculated.pairs)?;
    unknown_sample(&past, command, &calculated.pairs)?;
    stale_reading(facts, command, &calculated.pairs)?;
    judge_figures(facts, command, calculated)
}

// Rule 13: a named reading isn't one of that tank, or a Closing names too few or too many.
#[tactic(auto, unfolding(farm_history::specs::MovementRules::unknown_reading))]
fn unknown_reading(past: &Past<'_>, command: &Command, pairs: &Pairs) -> Result<(), Rule>
    requires pairs { listed pairs.now ≡ named_by past.now command.now }
    ensures rule { fault_of result ≡ unknown_reading past.now command.now }
{
    if names_too_few_or_many(past, command)
        || lacks_reading(past, &pairs.first)
        || lacks_reading(past, &pairs.second)
    {
        return Err(Rule::UnknownReading);
    }
    Ok(())
}

// Whether a command is a Closing that names another number of readings than its movement has tanks.
fn names_too_few_or_many(past: &Past<'_>, command: &Command) -> bool
    ensures names { result ≡ names_too_few_or_many past.now command.now }
{
    let Command::Closing {
        movement,
        second,
        ..
    } = command
    else {
        return false;
    };
    match past.opened_at(*movement) {
        Some(plan) => !names_each(&plan, second),
        None => false,
    }
}

// Whether a Closing names two readings for a transfer, and one for another movement.
fn names_each(plan: &Plan, second: &Option<Gauged>) -> bool
    ensures names { result ≡ names_each plan.now second.now }
{
    match plan {
        Plan::Outside { .. } => second.is_none(),
        Plan::Transfer { .. } => second.is_some(),
    }
}

// Whether a reading is named that isn't a gauge's reading or a dip of its tank.
fn lacks_reading(past: &Past<'_>, pair: &Option<Named>) -> bool
    ensures lacks { result ≡ list_any (λ pair. not (has_reading past.now pair)) (listed_one pair.now) }
{
    let Some(pair) = pair else {
        return false;
    };
    match past.entry_at(pair.gauged.reading) {
        Some(entry) => !is_gauging_of(pair.tank, &entry.cmd),
        None => true,
    }
}

// Rule 14: a named sample isn't one of that tank.
#[tactic(auto, unfolding(farm_history::specs::MovementRules::unknown_sample))]
fn unknown_sample(past: &Past<'_>, command: &Command, pairs: &Pairs) -> Result<(), Rule>
    requires pairs { listed pairs.now ≡ named_by past.now command.now }
    ensures rule { fault_of result ≡ unknown_sample past.now command.now }
{
    if lacks_sample(past, &pairs.first) || lacks_sample(past, &pairs.second) {
        return Err(Rule::UnknownSample);
    }
    Ok(())
}

// Whether a sample is named that isn't one of its tank.
fn lacks_sample(past: &Past<'_>, pair: &Option<Named>) -> bool
    ensures lacks { result ≡ list_any (λ pair. not (has_sample past.now pair)) (listed_one pair.now) }
{
    let Some(pair) = pair else {
        return false;
    };
    match past.entry_at(pair.gauged.sample) {
        Some(entry) => !is_sample_of(pair.tank, &entry.cmd),
        None => true,
    }
}

// Rule 15: a named reading is stale, the first tank's first.
#[tactic(auto, unfolding(farm_history::specs::MovementRules::stale_reading))]
fn stale_reading<F: PastFacts>(facts: &F, command: &Command, pairs: &Pairs) -> Result<(), Rule>
    requires pairs { listed pairs.now ≡ named_by (F.history facts.now) command.now }
    ensures rule { fault_of result ≡ stale_reading (F.history facts.now) command.now }
{
    let stale = match stale_for(facts, command, &pairs.first) {
        Some(place) => Some(place),
        None => stale_for(facts, command, &pairs.second),
    };
    match stale {
        Some(place) => Err(Rule::StaleReading(place)),
        None => Ok(()),
    }
}

// The place for which a named reading is stale.
fn stale_for<F: PastFacts>(facts: &F, command: &Command, pair: &Option<Named>) -> Option<u32>
    ensures stale { result ≡ first_given (stale_for (F.history facts.now) command.now) (listed_one pair.now) }
{
    let Some(pair) = pair else {
        return None;
    };
    match command {
        Command::Opening(_) | Command::Settle { .. } => {
            let used = facts.used_reading(pair.tank)?;
            (pair.gauged.reading < used).then_some(used)
        }
        Command::Closing { movement, .. } => {
            (pair.gauged.reading <= *movement).then_some(*movement)
        }
        _ => None,
    }
}
