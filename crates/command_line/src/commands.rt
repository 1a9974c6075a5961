//! The arguments as a command.

ghost use Rattle.std.specs.Prelude.{◌≡◌, ◌+◌, ◌≤◌, false, List, Ok, Some, IfOk, IfSome, IsOk, IsSome, ℤ, map, option_map, string_bytes};
ghost use Rattle.calendar_days.specs.Calendar.{IsFirstSecond};
ghost use Rattle.clap.specs.Words.{app_of, takes};
ghost use Rattle.std.specs.Prelude.{true};
ghost use Rattle.command_line.specs.Commands.{asks_to_serve, command_by, command_of, has_numbers, is_serve, name_of};
ghost use Rattle.command_line.specs.Forms.{IsForm, Written};
ghost use Rattle.command_line.specs.Limits.{most_port, least_port, least_workers, most_drilled, most_rounds, most_workers};
ghost use Rattle.command_line.specs.Reading.{matched_value, read_value};
ghost use Rattle.command_line.specs.declared.commands.Subcommand.{Subcommand};
ghost use Rattle.command_line.specs.declared.commands.Subcommand.TheVariants.{Drill, Report, Serve};
ghost use Rattle.command_line.specs.declared.drill.DrillOptions.{DrillOptions};
ghost use Rattle.command_line.specs.declared.serve.ServeOptions.{ServeOptions};

use crate::command_names::CommandName;
use crate::drill::DrillOptions;
use crate::option_names::OptionName;
use crate::reading::{command_for, matched_value, matches_of, words_for};
use crate::serve::ServeOptions;
use calendar_days::read_day;
use clap::{ArgMatches, Command};
use farm_base::NoMemory;
use std::alloc::Global;

/// A command of the program.
#[derive(Clone, Copy, Debug, PartialEq, Eq)]
pub enum Subcommand {
    /// The figures of observed volumes or of levels; no option.
    Calc,
    /// The journal of a site, without an entry; options `site` and `journal`.
    Init,
    /// The issued capacity tables of a site; option `site`.
    Table,
    /// Requests to the desk of a journal, a line each; option `journal`.
    Batch,
    /// The desk of a journal over HTTP; options `journal`, `port`, `workers` and `rounds`.
    Serve(ServeOptions),
    /// What a day did to each tank of a journal, by the first second of the day; options `journal` and `day`.
    Report(i64),
    /// A drill; options `seed` and `count`.
    Drill(DrillOptions),
}

impl Subcommand {
    /// The command of arguments, whose name `CommandName::of_words` answers. `clap` reads the values of `serve`, `report` and
    /// `drill`; another command is its name, which takes no memory.
    pub fn read(alloc: Global, name: CommandName, words: &[String]) -> Result<Subcommand, NoMemory>
        requires name { option_map name_of (command_of (map string_bytes words.now)) ≡ Some name }
        ensures command { IfOk result (λ command. command_of (map string_bytes words.now) ≡ Some command) }
        ensures name { IfOk result (λ command. name_of command ≡ name) }
        ensures without_memory { has_numbers name ≡ false → IsOk result }
        ensures form { IfOk result (λ command. (options : List Written) × IsForm command options (map string_bytes words.now)) }
        ensures every_form { (command : Subcommand) (options : List Written) → IsForm command options (map string_bytes words.now) → IfOk result (λ read. read ≡ command) }
        ensures port { (options : ServeOptions) → result ≡ Ok (Serve options) → least_port ≤ options.port }
        ensures ports { (options : ServeOptions) → result ≡ Ok (Serve options) → options.port + options.workers ≤ most_port + 1 }
        ensures workers { (options : ServeOptions) → result ≡ Ok (Serve options) → (least_workers ≤ options.workers) × (options.workers ≤ most_workers) }
        ensures rounds { (options : ServeOptions) → result ≡ Ok (Serve options) → options.rounds ≤ most_rounds }
        ensures day { (second : ℤ) → result ≡ Ok (Report second) → IsFirstSecond second }
        ensures count { (options : DrillOptions) → result ≡ Ok (Drill options) → options.count ≤ most_drilled }
        ensures serve { IfOk result (λ command. is_serve command ≡ asks_to_serve (map string_bytes words.now)) }
    {
        Subcommand::of_name(alloc, name, words)
    }

    // It as it is read.
    fn of_name(alloc: Global, name: CommandName, words: &[String]) -> Result<Subcommand, NoMemory>
        requires name { option_map name_of (command_of (map string_bytes words.now)) ≡ Some name }
        ensures command { IfOk result (λ command. command_of (map string_bytes words.now) ≡ Some command) }
        ensures without_memory { has_numbers name ≡ false → IsOk result }
    {
        match name {
            CommandName::Calc => Ok(Subcommand::Calc),
            CommandName::Init => Ok(Subcommand::Init),
            CommandName::Table => Ok(Subcommand::Table),
            CommandName::Batch => Ok(Subcommand::Batch),
            CommandName::Serve | CommandName::Report | CommandName::Drill => {
                Subcommand::with_values(alloc, name, words)
            }
        }
    }

    // It with the values that `clap` reads.
    fn with_values(
        alloc: Global,
        name: CommandName,
        words: &[String],
    ) -> Result<Subcommand, NoMemory>
        requires name { option_map name_of (command_of (map string_bytes words.now)) ≡ Some name }
        ensures command { IfOk result (λ command. command_of (map string_bytes words.now) ≡ Some command) }
    {
        let spelled = words_for(alloc, name, words)?;
        let mut command = command_for(alloc, name)?;
        let read = Subcommand::parsed(&mut command, name, spelled.as_slice());
        drop(command);
        read
    }

    // The command of this name in words that `clap` takes, and in which its values are ones.
    fn parsed<'a, 'w>(
        command: &mut Command<'a>,
        name: CommandName,
        words: &'a [&'w str],
    ) -> Result<Subcommand, NoMemory>
        requires taken { takes (app_of command.old) (map (λ word. word.now) words.now) ≡ true }
        requires values { IsSome (command_by name (read_value (app_of command.old) (map (λ word. word.now) words.now))) }
        ensures command { IfOk result (λ read. command_by name (read_value (app_of command.old) (map (λ word. word.now) words.now)) ≡ Some read) }
    {
        let matches = matches_of(command, words)?;
        let read = Subcommand::matched(name, &matches);
        drop(matches);
        match read {
            Some(read) => Ok(read),
            None => unreachable!(),
        }
    }

    // The command of this name, with the numbers and the day that its options have by matches.
    fn matched(name: CommandName, matches: &ArgMatches) -> Option<Subcommand>
        ensures { result ≡ command_by name (matched_value matches.now) }
    {
        match name {
            CommandName::Calc => Some(Subcommand::Calc),
            CommandName::Init => Some(Subcommand::Init),
            CommandName::Table => Some(Subcommand::Table),
            CommandName::Batch => Some(Subcommand::Batch),
            CommandName::Serve => Some(Subcommand::Serve(ServeOptions::matched(matches)?)),
            CommandName::Report => {
                let day = matched_value(matches, OptionName::Day);
                Some(Subcommand::Report(read_day(day.as_bytes()).ok()?))
            }
            CommandName::Drill => Some(Subcommand::Drill(DrillOptions::matched(matches)?)),
        }
    }
}

/// Whether the first word is `serve`. Takes no memory.
pub fn asks_to_serve(words: &[String]) -> bool
    ensures first_word { result ≡ asks_to_serve (map string_bytes words.now) }
{
    match words {
        [word, ..] => word.as_str() == "serve",
        [] => false,
    }
}
