//! The options of the command `drill`.

ghost use Rattle.std.specs.Prelude.{◌≡◌};
ghost use Rattle.command_line.specs.Drill.{drill_options};
ghost use Rattle.command_line.specs.Reading.{matched_value};

use crate::option_names::OptionName;
use crate::reading::matched_number;
use clap::ArgMatches;

/// The numbers of the command `drill`.
#[derive(Clone, Copy, Debug, PartialEq, Eq)]
pub struct DrillOptions {
    /// The seed, any 64 bits.
    pub seed: u64,
    /// The count, 0 to 60,000.
    pub count: u32,
}

impl DrillOptions {
    /// Those that matches have; `None` if one is missing, isn't 1 to 20 decimal digits, or isn't within its limits.
    #[tactic(auto, unfolding(crate::specs::Drill::drill_options))]
    pub(crate) fn matched(matches: &ArgMatches) -> Option<DrillOptions>
        ensures options { result ≡ drill_options (matched_value matches.now) }
    {
        let seed = matched_number(matches, OptionName::Seed)?;
        let count = matched_number(matches, OptionName::Count)?;
        Some(DrillOptions {
            seed,
            count: count as u32,
        })
    }
}
