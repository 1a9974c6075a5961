//! The names of the commands, and the test that arguments are a command.

ghost use Rattle.std.specs.Prelude.{◌≡◌, ◌≤◌, false, List, None, Some, IfSome, length, map, option_map, string_bytes};
ghost use Rattle.command_line.specs.Commands.{asks_to_serve, command_of, has_numbers, name_of, names_serve};
ghost use Rattle.command_line.specs.Forms.{IsForm, Written};
ghost use Rattle.command_line.specs.Limits.{most_port, most_workers};
ghost use Rattle.command_line.specs.Names.{name_named, name_text, options_of};
ghost use Rattle.command_line.specs.Tests.{are_of, do_agree, has_port, have_values, name_in};
ghost use Rattle.command_line.specs.declared.commands.Subcommand.{Subcommand};

use crate::limits::MOST_PORT;
use crate::option_names::OptionName;
use crate::options::{are_options, value_in};

/// The name of a command.
#[derive(Clone, Copy, Debug, PartialEq, Eq)]
pub enum CommandName {
    /// `calc`.
    Calc,
    /// `init`.
    Init,
    /// `table`.
    Table,
    /// `batch`.
    Batch,
    /// `serve`.
    Serve,
    /// `report`.
    Report,
    /// `drill`.
    Drill,
}

impl CommandName {
    /// The name of the command of the arguments; `None` if they aren't in the form, which it alone decides. Takes no memory.
    pub fn of_words(words: &[String]) -> Option<CommandName>
        ensures name { result ≡ option_map name_of (command_of (map string_bytes words.now)) }
        ensures form { IfSome result (λ name. (command : Subcommand) × (options : List Written) × (name_of command ≡ name) × IsForm command options (map string_bytes words.now)) }
        ensures every_form { (command : Subcommand) (options : List Written) → IsForm command options (map string_bytes words.now) → result ≡ Some (name_of command) }
        ensures none { result ≡ None → command_of (map string_bytes words.now) ≡ None }
        ensures alone { (command : Subcommand) → has_numbers (name_of command) ≡ false → result ≡ Some (name_of command) → command_of (map string_bytes words.now) ≡ Some command }
        ensures serve { IfSome result (λ name. names_serve name ≡ asks_to_serve (map string_bytes words.now)) }
    {
        CommandName::among(words)
    }

    // It as it is tested.
    #[tactic(auto, unfolding(crate::specs::Tests::name_in))]
    fn among(words: &[String]) -> Option<CommandName>
        ensures name { result ≡ name_in (map string_bytes words.now) }
    {
        let [word, options @ ..] = words else {
            return None;
        };
        let name = CommandName::named(word.as_str())?;
        name.is_of(options).then_some(name)
    }

    // The name that a word is.
    fn named(word: &str) -> Option<CommandName>
        ensures { result ≡ name_named word.now }
    {
        match word {
            "calc" => Some(CommandName::Calc),
            "init" => Some(CommandName::Init),
            "table" => Some(CommandName::Table),
            "batch" => Some(CommandName::Batch),
            "serve" => Some(CommandName::Serve),
            "report" => Some(CommandName::Report),
            "drill" => Some(CommandName::Drill),
            _ => None,
        }
    }

    // Whether words are the options of a command of this name, with values that they take.
    fn is_of(self, words: &[String]) -> bool
        ensures { result ≡ are_of self (map string_bytes words.now) }
    {
        are_options(self.options(), words)
            && have_values(self.options(), words)
            && self.agrees(words)
    }

    // Whether the numbers of a command agree with each other: the last desk post of `serve` has a port.
    fn agrees(self, words: &[String]) -> bool
        ensures { result ≡ do_agree self (map string_bytes words.now) }
    {
        match self {
            CommandName::Serve => {
                let port = value_in("port", words);
                let workers = value_in("workers", words);
                has_port(
                    OptionName::Port.rule().number(port),
                    OptionName::Workers.rule().number(workers),
                )
            }
            CommandName::Calc | CommandName::Init | CommandName::Table | CommandName::Batch => true,
            CommandName::Report | CommandName::Drill => true,
        }
    }

    /// The name as it is written.
    pub(crate) fn text<'a>(self) -> &'a str
        ensures { result.now ≡ name_text self }
    {
        match self {
            CommandName::Calc => "calc",
            CommandName::Init => "init",
            CommandName::Table => "table",
            CommandName::Batch => "batch",
            CommandName::Serve => "serve",
            CommandName::Report => "report",
            CommandName::Drill => "drill",
        }
    }

    /// The options that a command of this name takes.
    pub(crate) fn options(self) -> &'static [OptionName]
        ensures options { result.now ≡ options_of self }
        ensures few { length result.now ≤ 8 }
    {
        match self {
            CommandName::Calc => &[],
            CommandName::Init => &[OptionName::Site, OptionName::Journal],
            CommandName::Table => &[OptionName::Site],
            CommandName::Batch => &[OptionName::Journal],
            CommandName::Serve => &[
                OptionName::Journal,
                OptionName::Port,
                OptionName::Workers,
                OptionName::Rounds,
            ],
            CommandName::Report => &[OptionName::Journal, OptionName::Day],
            CommandName::Drill => &[OptionName::Seed, OptionName::Count],
        }
    }
}

// Whether each of these options has a value among words that it takes.
fn have_values(options: &[OptionName], words: &[String]) -> bool
    ensures { result ≡ have_values options.now (map string_bytes words.now) }
{
    for option in options {
        if !option.rule().takes(value_in(option.text(), words)) {
            return false;
        }
    }
    true
}

// Whether the last of `workers` desk posts, on ports from `port` on, has a port; false if either is missing.
fn has_port(port: Option<u64>, workers: Option<u64>) -> bool
    requires port { IfSome port (λ port. port ≤ most_port) }
    requires workers { IfSome workers (λ workers. workers ≤ most_workers) }
    ensures { result ≡ has_port port workers }
{
    match (port, workers) {
        (Some(port), Some(workers)) => port + workers <= MOST_PORT + 1,
        _ => false,
    }
}
