//! The options of the command `serve`.

ghost use Rattle.std.specs.Prelude.{◌≡◌};
ghost use Rattle.command_line.specs.Reading.{matched_value};
ghost use Rattle.command_line.specs.Serve.{serve_options};

use crate::limits::MOST_PORT;
use crate::option_names::OptionName;
use crate::reading::matched_number;
use clap::ArgMatches;

/// The numbers of the command `serve`.
#[derive(Clone, Copy, Debug, PartialEq, Eq)]
pub struct ServeOptions {
    /// The port of the first desk post, 1 to 65,535. Post k listens on port + k - 1, and the last one on 65,535 at most.
    pub port: u16,
    /// The number of desk posts, 1 to 8.
    pub workers: u8,
    /// The number of rounds in which each gauge line is polled, 0 to 100,000,000.
    pub rounds: u32,
}

impl ServeOptions {
    /// Those that matches have; `None` if one is missing, isn't 1 to 20 decimal digits, or isn't within its limits, or if
    /// the last post has no port.
    #[tactic(auto, unfolding(crate::specs::Serve::serve_options))]
    pub(crate) fn matched(matches: &ArgMatches) -> Option<ServeOptions>
        ensures options { result ≡ serve_options (matched_value matches.now) }
    {
        let port = matched_number(matches, OptionName::Port)?;
        let workers = matched_number(matches, OptionName::Workers)?;
        let rounds = matched_number(matches, OptionName::Rounds)?;
        if port + workers > MOST_PORT + 1 {
            return None;
        }
        Some(ServeOptions {
            port: port as u16,
            workers: workers as u8,
            rounds: rounds as u32,
        })
    }
}
