//! The figures on what a command names, each calculated once.

ghost use Rattle.std.specs.Prelude.{◌≡◌, IfSome};
ghost use Rattle.farm_chain.specs.Volumes.{AreInRange};
ghost use Rattle.farm_indexes.specs.Figured.{AreFiguresOf, first_figures};
ghost use Rattle.history_lookups.specs.Pairs.{listed_one};
ghost use Rattle.history_lookups.specs.Pasts.{IsReadable};

use farm_fixed::Quantities;
use farm_history::{Command, Named};
use history_lookups::Past;

/// The figures on what a command names for its tanks, in their order.
#[derive(Clone, Copy, Debug, PartialEq, Eq)]
pub struct Figured {
    /// Those of the first. `None` if nothing is named for it, or they aren't calculated.
    pub first: Option<Quantities>,
    /// Those of the second. `None` likewise.
    pub second: Option<Quantities>,
}

impl Figured {
    /// The figures of a command that comes next after a past.
    pub fn of(past: &Past<'_>, command: &Command) -> Figured
        requires readable { IsReadable past.now }
        ensures figures { AreFiguresOf past.now command.now result }
    {
        let pairs = past.named_by(command);
        Figured {
            first: figures_on(past, &pairs.first),
            second: figures_on(past, &pairs.second),
        }
    }
}

// The figures on what is named for a tank, if something is.
fn figures_on(past: &Past<'_>, pair: &Option<Named>) -> Option<Quantities>
    requires readable { IsReadable past.now }
    ensures figures { result ≡ first_figures past.now (listed_one pair.now) }
    ensures range { IfSome result AreInRange }
{
    past.figures_at(pair.as_ref()?)
}
