//! The calculations on what a command names for its tanks, each made once.

ghost use Rattle.std.specs.Prelude.{◌≡◌, Bool, IfOk, IfSome, option_and_then};
ghost use Rattle.std.specs.List.{list_any};
ghost use Rattle.farm_book.specs.Calculated.{AreCalculatedOn};
ghost use Rattle.farm_chain.specs.Volumes.{AreInRange};
ghost use Rattle.farm_history.specs.Figures.{calculated_at, figures_of};
ghost use Rattle.farm_history.specs.MovementRules.{is_refused_with};
ghost use Rattle.history_lookups.specs.Pairs.{listed_one};
ghost use Rattle.history_lookups.specs.Pasts.{IsReadable};

use farm_fixed::{ChainRule, Quantities};
use farm_history::{Command, Named};
use farm_indexes::{Figured, PastFacts};
use history_lookups::Pairs;

/// The calculation on what is named for a tank: its figures, or why it is refused. `None` if nothing is named for it, or what is named
/// isn't recorded.
pub(crate) type Calculation = Option<Result<Quantities, ChainRule>>;

/// What a command names for its tanks, and the calculation on each.
#[derive(Clone, Copy)]
pub(crate) struct Calculated {
    /// What is named.
    pub pairs: Pairs,
    /// The calculation on what is named for the first tank.
    pub first: Calculation,
    /// That for the second.
    pub second: Calculation,
}

impl Calculated {
    /// What a command names that comes next after a past, and the calculation on each.
    pub fn of<F: PastFacts>(facts: &F, command: &Command) -> Calculated
        requires readable { IsReadable (F.history facts.now) }
        ensures calculated { AreCalculatedOn (F.history facts.now) command.now result }
    {
        let pairs = facts.past().named_by(command);
        Calculated {
            pairs,
            first: calculation_on(facts, &pairs.first),
            second: calculation_on(facts, &pairs.second),
        }
    }

    /// The figures of the calculations that aren't refused.
    pub fn figured(&self) -> Figured
        ensures first { result.first ≡ option_and_then figures_of self.now.first }
        ensures second { result.second ≡ option_and_then figures_of self.now.second }
    {
        Figured {
            first: figures_of(&self.first),
            second: figures_of(&self.second),
        }
    }
}

// The calculation on what is named for a tank.
fn calculation_on<F: PastFacts>(facts: &F, pair: &Option<Named>) -> Calculation
    requires readable { IsReadable (F.history facts.now) }
    ensures calculated { result ≡ option_and_then (calculated_at (F.history facts.now)) pair.now }
    ensures range { IfSome result (λ calculated. IfOk calculated AreInRange) }
    ensures refused { (test : ChainRule → Bool) → is_refused_with test result ≡ list_any (λ pair. is_refused_with test (calculated_at (F.history facts.now) pair)) (listed_one pair.now) }
{
    match pair {
        Some(pair) => facts.calculated_at(pair),
        None => None,
    }
}

// The figures of a calculation that isn't refused.
fn figures_of(calculation: &Calculation) -> Option<Quantities>
    ensures figures { result ≡ option_and_then figures_of calculation.now }
{
    match calculation {
        Some(Ok(figures)) => Some(*figures),
        _ => None,
    }
}
