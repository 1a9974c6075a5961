//! The figures of a tank on a reading and a sample that entries record.

ghost use Rattle.std.specs.Prelude.{◌≡◌, [], ◌∷◌, ◌++◌, IfOk, IfSome, None};
ghost use Rattle.farm_chain.specs.Volumes.{AreInRange};
ghost use Rattle.history_lookups.specs.Pasts.{IsInRange, IsReadable};
ghost use Rattle.history_lookups.specs.Pairs.{listed};
ghost use Rattle.farm_history.specs.Commands.{tank_of};
ghost use Rattle.farm_history.specs.Figures.{calculated_at, calculated_in, figures_at, named_at_closing, named_at_opening, named_by, recorded_sample, sample_of};
ghost use Rattle.farm_history.specs.Gauging.{recorded_reading};

use crate::Past;
use crate::gauging::{gauged, sample_fields};
use farm_chain::quantities;
use farm_fixed::{ChainRule, Quantities, Reading, Sample};
use farm_history::{Command, Gauged, Named, Plan};
use farm_site::{Product, Tank};

/// What a command names for its tanks, in their order.
#[derive(Clone, Copy)]
pub struct Pairs {
    /// What it names for the first.
    pub first: Option<Named>,
    /// What it names for the second.
    pub second: Option<Named>,
}

impl Past<'_> {
    /// The reading that is recorded at a place. `None` where no gauge's reading and no dip stands there, and where its tank isn't of the
    /// site or its tapes give no reading, which doesn't occur in a legal history.
    #[tactic(auto, unfolding(farm_history::specs::Gauging::recorded_reading, farm_history::specs::Gauging::gauging_after, farm_history::specs::History::tank_after))]
    pub fn recorded_reading(&self, place: u32) -> Option<Reading>
        requires readable { IsReadable self.now }
        ensures reading { result ≡ recorded_reading self.now place }
    {
        let entry = self.entry_at(place)?;
        let number = tank_of(&entry.cmd)?;
        let tank = self.site.tank(number)?;
        match gauged(&self.site.rounding, tank.spec.height, &entry.cmd)? {
            Ok(reading) => Some(reading),
            Err(_) => None,
        }
    }

    /// The sample that is recorded at a place. `None` exactly where no sample stands there.
    #[tactic(auto, unfolding(farm_history::specs::Figures::recorded_sample))]
    pub fn recorded_sample(&self, place: u32) -> Option<Sample>
        requires readable { IsReadable self.now }
        ensures sample { result ≡ recorded_sample self.now place }
    {
        let entry = self.entry_at(place)?;
        match &entry.cmd {
            Command::Sample { density, sw, .. } => Some(sample_fields(*density, *sw)),
            _ => None,
        }
    }

    /// The custody calculation of a tank on the reading and the sample that are named for it. `None` where the site has no such tank, no
    /// reading or no sample is recorded there, or the tank's product isn't of the site.
    #[tactic(auto, unfolding(farm_history::specs::Figures::calculated_at, farm_history::specs::History::tank_after))]
    pub fn calculated_at(&self, pair: &Named) -> Option<Result<Quantities, ChainRule>>
        requires readable { IsReadable self.now }
        ensures calculated { result ≡ calculated_at self.now pair.now }
        ensures range { IfSome result (λ calculated. IfOk calculated AreInRange) }
    {
        let tank = self.site.tank(pair.tank)?;
        let product = self.site.product(tank.product)?;
        let reading = self.recorded_reading(pair.gauged.reading)?;
        let sample = self.recorded_sample(pair.gauged.sample)?;
        Some(quantities(
            &tank.spec,
            &tank.table,
            &product.vcf,
            &self.site.rounding,
            &reading,
            &sample,
        ))
    }

    /// The ten figures of a tank on what is named for it. `None` exactly where they aren't calculated, or are refused.
    #[tactic(auto, unfolding(farm_history::specs::Figures::figures_at))]
    #[inline(always)]
    pub fn figures_at(&self, pair: &Named) -> Option<Quantities>
        requires readable { IsReadable self.now }
        ensures figures { result ≡ figures_at self.now pair.now }
        ensures range { IfSome result AreInRange }
    {
        match self.calculated_at(pair)? {
            Ok(figures) => Some(figures),
            Err(_) => None,
        }
    }

    /// What a command names for its tanks.
    #[tactic(auto, unfolding(farm_history::specs::Figures::named_by))]
    #[inline(always)]
    pub fn named_by(&self, command: &Command) -> Pairs
        ensures named { listed result ≡ named_by self.now command.now }
        ensures in_order { result.first ≡ None → result.second ≡ None }
    {
        match command {
            Command::Opening(plan) => named_at_opening(plan),
            Command::Closing {
                movement,
                first,
                second,
            } => match self.opened_at(*movement) {
                Some(plan) => named_at_closing(first, second, &plan),
                None => Pairs {
                    first: None,
                    second: None,
                },
            },
            Command::Settle { tank, gauged } => Pairs {
                first: Some(named(*tank, gauged)),
                second: None,
            },
            _ => Pairs {
                first: None,
                second: None,
            },
        }
    }
}

// What a plan names for its tanks.
#[inline(always)]
fn named_at_opening(plan: &Plan) -> Pairs
    ensures named { listed result ≡ named_at_opening plan.now }
    ensures in_order { result.first ≡ None → result.second ≡ None }
{
    match plan {
        Plan::Outside { tank, gauged, .. } => Pairs {
            first: Some(named(*tank, gauged)),
            second: None,
        },
        Plan::Transfer {
            from,
            to,
            from_gauged,
            to_gauged,
        } => Pairs {
            first: Some(named(*from, from_gauged)),
            second: Some(named(*to, to_gauged)),
        },
    }
}

// What a Closing names for the tanks of a plan.
#[inline(always)]
fn named_at_closing(first: &Gauged, second: &Option<Gauged>, plan: &Plan) -> Pairs
    ensures named { listed result ≡ named_at_closing first.now second.now plan.now }
    ensures in_order { result.first ≡ None → result.second ≡ None }
{
    match (plan, second) {
        (Plan::Outside { tank, .. }, _) => Pairs {
            first: Some(named(*tank, first)),
            second: None,
        },
        (Plan::Transfer { from, .. }, None) => Pairs {
            first: Some(named(*from, first)),
            second: None,
        },
        (Plan::Transfer { from, to, .. }, Some(second)) => Pairs {
            first: Some(named(*from, first)),
            second: Some(named(*to, second)),
        },
    }
}

// A tank, with what is named for it.
#[inline(always)]
pub(crate) fn named(tank: u16, gauged: &Gauged) -> Named
    ensures named { result ≡ record { tank = tank; gauged = gauged.now } }
{
    Named {
        tank,
        gauged: *gauged,
    }
}

/// The number of the tank that a gauging or a sample is of. `None` exactly for another command.
pub fn tank_of(command: &Command) -> Option<u16>
    ensures tank { result ≡ tank_of command.now }
{
    match command {
        Command::Gauge { tank, .. } | Command::Dip { tank, .. } | Command::Sample { tank, .. } => {
            Some(*tank)
        }
        _ => None,
    }
}
