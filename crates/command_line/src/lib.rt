//! The command line: the arguments as a command with its options, and the places that they name.
//!
//! Arguments are the words after the program's name: a command, and its options, each exactly once, in any order, as two words
//! `--name value` or one word `--name=value`. A value isn't empty and doesn't begin with `-`; a number is 1 to
//! 20 decimal digits, and a day is one of `calendar_days`. Nothing else is taken.
//!
//! `CommandName::of_words` tests them by hand, without memory, and decides alone. What it took is then read by `clap`.
#![tactic(auto)]

mod command_names;
mod commands;
mod drill;
mod limits;
mod named;
mod number_laws;
mod numbers;
mod option_names;
mod options;
mod reading;
mod serve;
mod values;

pub use command_names::CommandName;
pub use commands::{Subcommand, asks_to_serve};
pub use drill::DrillOptions;
pub use limits::{
    LEAST_PORT, LEAST_WORKERS, MOST_DRILLED, MOST_NUMBER_DIGITS, MOST_PORT, MOST_ROUNDS, MOST_SEED,
    MOST_WORKERS,
};
pub use named::{NamedPlaces, places};
pub use number_laws::defined_numbers;
pub use serve::ServeOptions;
