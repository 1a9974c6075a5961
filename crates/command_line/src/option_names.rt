//! The options of the commands.

ghost use Rattle.std.specs.Prelude.{◌≡◌};
ghost use Rattle.command_line.specs.Names.{option_flag, option_text, value_rule};

use crate::limits::{
    LEAST_PORT, LEAST_WORKERS, MOST_DRILLED, MOST_PORT, MOST_ROUNDS, MOST_SEED, MOST_WORKERS,
};
use crate::values::ValueRule;

/// An option of a command.
#[derive(Clone, Copy)]
pub enum OptionName {
    /// The site's folder.
    Site,
    /// The journal's file.
    Journal,
    /// The port of the first desk post.
    Port,
    /// The number of desk posts.
    Workers,
    /// The number of rounds.
    Rounds,
    /// The day of a report.
    Day,
    /// The seed of a drill.
    Seed,
    /// The count of a drill.
    Count,
}

impl OptionName {
    /// The name as it is written.
    pub(crate) fn text<'a>(self) -> &'a str
        ensures { result.now ≡ option_text self }
    {
        match self {
            OptionName::Site => "site",
            OptionName::Journal => "journal",
            OptionName::Port => "port",
            OptionName::Workers => "workers",
            OptionName::Rounds => "rounds",
            OptionName::Day => "day",
            OptionName::Seed => "seed",
            OptionName::Count => "count",
        }
    }

    /// The word before a value that is a word of its own.
    pub(crate) fn flag<'a>(self) -> &'a str
        ensures { result.now ≡ option_flag self }
    {
        match self {
            OptionName::Site => "--site",
            OptionName::Journal => "--journal",
            OptionName::Port => "--port",
            OptionName::Workers => "--workers",
            OptionName::Rounds => "--rounds",
            OptionName::Day => "--day",
            OptionName::Seed => "--seed",
            OptionName::Count => "--count",
        }
    }

    /// What its value has to be.
    pub(crate) fn rule(self) -> ValueRule
        ensures { result ≡ value_rule self }
    {
        match self {
            OptionName::Site | OptionName::Journal => ValueRule::Text,
            OptionName::Port => ValueRule::Number(LEAST_PORT, MOST_PORT),
            OptionName::Workers => ValueRule::Number(LEAST_WORKERS, MOST_WORKERS),
            OptionName::Rounds => ValueRule::Number(0, MOST_ROUNDS),
            OptionName::Day => ValueRule::Day,
            OptionName::Seed => ValueRule::Number(0, MOST_SEED),
            OptionName::Count => ValueRule::Number(0, MOST_DRILLED),
        }
    }
}
