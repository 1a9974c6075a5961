//! The arguments as a command with its values.

ghost use Rattle.std.specs.Prelude.{◌≡◌, IfErr, IfOk, IfSome, map, string_bytes, true};
ghost use Rattle.command_line.specs.Commands.{asks_to_serve, command_of, is_serve};
ghost use Rattle.farm_run.specs.Runs.{AreValues, needs_values};

use command_line::{CommandName, Subcommand};
use farm_base::NoMemory;
use std::alloc::Global;

/// The command of the arguments; `None` if they are no command. `NoMemory` comes only for a command whose values are read.
pub(crate) fn command_in(alloc: Global, words: &[String]) -> Result<Option<Subcommand>, NoMemory>
    ensures command { IfOk result (λ command. command ≡ command_of (map string_bytes words.now)) }
    ensures serve { IfOk result (λ command. IfSome command (λ command. is_serve command ≡ asks_to_serve (map string_bytes words.now))) }
    ensures sound { IfOk result AreValues }
    ensures values { IfErr result (λ _. needs_values (command_of (map string_bytes words.now)) ≡ true) }
{
    match CommandName::of_words(words) {
        Some(name) => Ok(Some(Subcommand::read(alloc, name, words)?)),
        None => Ok(None),
    }
}
