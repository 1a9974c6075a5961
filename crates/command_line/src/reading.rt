//! The values of options, as `clap` reads them.

ghost use Rattle.std.specs.Prelude.{◌≡◌, true, IfOk, map, string_bytes};
ghost use Rattle.clap.specs.Words.{app_of, found_of, matches_of, rows_of, rule_of, takes};
ghost use Rattle.command_line.specs.Commands.{value_of};
ghost use Rattle.command_line.specs.Reading.{app_for, matched_value, rule_for, words_for};
ghost use Rattle.std.specs.Prelude.{false, IfSome};
ghost use Rattle.command_line.specs.Names.{option_text, value_rule};
ghost use Rattle.command_line.specs.Tests.{IsWithin, number_by};

use crate::command_names::CommandName;
use crate::option_names::OptionName;
use crate::options::value_in;
use clap::error::ErrorKind;
use clap::{Arg, ArgAction, ArgMatches, Command};
use farm_base::NoMemory;
use std::alloc::Global;

/// The command of this name for `clap`: each of its options has to be there.
pub(crate) fn command_for<'a>(alloc: Global, name: CommandName) -> Result<Command<'a>, NoMemory>
    ensures app { IfOk result (λ command. app_of command ≡ app_for name) }
{
    let mut command = Command::new(alloc, name.text());
    for option in name.options() {
        command = command.arg(argument_for(alloc, *option))?;
    }
    Ok(command)
}

// An option for `clap`: it has to be there, and has one value.
fn argument_for<'a>(alloc: Global, option: OptionName) -> Arg<'a>
    ensures rule { rule_of result ≡ rule_for option }
    ensures local { result.global ≡ false }
{
    Arg::new(alloc, option.text())
        .long(option.text())
        .required(true)
        .action(ArgAction::Set)
}

/// The words of a command of this name for `clap`: its options in the order of the table, two words each.
pub(crate) fn words_for<'a>(
    alloc: Global,
    name: CommandName,
    words: &'a [String],
) -> Result<Vec<&'a str>, NoMemory>
    ensures words { IfOk result (λ spelled. map (λ word. word.now) spelled.items ≡ words_for name (λ option. value_of option (map string_bytes words.now))) }
{
    let mut spelled = Vec::new(alloc);
    spelled.push(name.text())?;
    for option in name.options() {
        spelled.push(option.flag())?;
        spelled.push(value_of(option.text(), words))?;
    }
    Ok(spelled)
}

// The value of an option after the first word; an empty text if the option is missing.
fn value_of<'a>(name: &str, words: &'a [String]) -> &'a str
    ensures { result.now ≡ value_of name.now (map string_bytes words.now) }
{
    match words {
        [_, options @ ..] => value_in(name, options),
        [] => "",
    }
}

/// What `clap` matches in words that the command takes.
pub(crate) fn matches_of<'a, 'w>(
    command: &mut Command<'a>,
    words: &'a [&'w str],
) -> Result<ArgMatches<'a>, NoMemory>
    requires taken { takes (app_of command.old) (map (λ word. word.now) words.now) ≡ true }
    ensures rows { IfOk result (λ matches. rows_of (found_of matches) ≡ matches_of (app_of command.old) (map (λ word. word.now) words.now)) }
{
    match command.try_get_matches_from_mut(words) {
        Ok(matches) => Ok(matches),
        Err(error) => match error.kind() {
            ErrorKind::OutOfMemory => Err(NoMemory),
            _ => unreachable!(),
        },
    }
}

/// The value of an option; an empty text if it has none.
pub(crate) fn matched_value<'a>(matches: &ArgMatches<'a>, option: OptionName) -> &'a str
    ensures value { result.now ≡ matched_value matches.now (option_text option) }
{
    matches.get_str(option.text()).unwrap_or("")
}

/// The number that an option has by its rule; `None` if it has none.
pub(crate) fn matched_number(matches: &ArgMatches, option: OptionName) -> Option<u64>
    ensures number { result ≡ number_by (value_rule option) (matched_value matches.now (option_text option)) }
    ensures most { IfSome result (λ number. IsWithin (value_rule option) number) }
{
    option.rule().number(matched_value(matches, option))
}
