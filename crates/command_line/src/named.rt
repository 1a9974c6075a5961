//! What the arguments name.

ghost use Rattle.std.specs.Prelude.{◌≡◌, true, List, [], Some, IfOk, IfSome, IsSome, codes, map, option_map, string_bytes};
ghost use Rattle.clap.specs.Words.{app_of, takes};
ghost use Rattle.command_line.specs.Commands.{command_of, journal_file, name_of, site_folder};
ghost use Rattle.command_line.specs.Forms.{IsForm, Written, value_among};
ghost use Rattle.command_line.specs.Reading.{matched_value, read_value};
ghost use Rattle.command_line.specs.declared.commands.Subcommand.{Subcommand};

use crate::command_names::CommandName;
use crate::option_names::OptionName;
use crate::reading::{command_for, matched_value, matches_of, words_for};
use clap::{ArgMatches, Command};
use farm_base::NoMemory;
use std::alloc::Global;

/// The site's folder and the journal's file that the arguments name, with which `main` opens them.
///
/// A text is empty if the command doesn't have the option. Both are empty if the arguments are malformed.
#[derive(Drop)]
pub struct NamedPlaces {
    /// The path of the site's folder.
    pub site: String,
    /// The path of the journal's file.
    pub journal: String,
}

impl NamedPlaces {
    // No place.
    fn empty(alloc: Global) -> NamedPlaces
        ensures site { string_bytes result.site ≡ [] }
        ensures journal { string_bytes result.journal ≡ [] }
    {
        NamedPlaces {
            site: String::new(alloc),
            journal: String::new(alloc),
        }
    }
}

/// The places that the arguments name. `None` is out of memory alone.
pub fn places(alloc: Global, words: &[String]) -> Option<NamedPlaces>
    ensures site { IfSome result (λ places. string_bytes places.site ≡ site_folder (map string_bytes words.now)) }
    ensures journal { IfSome result (λ places. string_bytes places.journal ≡ journal_file (map string_bytes words.now)) }
    ensures site_written { IfSome result (λ places. (command : Subcommand) (options : List Written) → IsForm command options (map string_bytes words.now) → string_bytes places.site ≡ value_among (codes "site") options) }
    ensures journal_written { IfSome result (λ places. (command : Subcommand) (options : List Written) → IsForm command options (map string_bytes words.now) → string_bytes places.journal ≡ value_among (codes "journal") options) }
    ensures no_form { IfSome result (λ places. ((command : Subcommand) (options : List Written) → IsForm command options (map string_bytes words.now) → ⊥) → (string_bytes places.site ≡ []) × (string_bytes places.journal ≡ [])) }
    ensures unnamed { site_folder (map string_bytes words.now) ≡ [] → journal_file (map string_bytes words.now) ≡ [] → IsSome result }
{
    read_places(alloc, words)
}

// They as they are read.
fn read_places(alloc: Global, words: &[String]) -> Option<NamedPlaces>
    ensures site { IfSome result (λ places. string_bytes places.site ≡ site_folder (map string_bytes words.now)) }
    ensures journal { IfSome result (λ places. string_bytes places.journal ≡ journal_file (map string_bytes words.now)) }
    ensures unnamed { site_folder (map string_bytes words.now) ≡ [] → journal_file (map string_bytes words.now) ≡ [] → IsSome result }
{
    let Some(name) = CommandName::of_words(words) else {
        return Some(NamedPlaces::empty(alloc));
    };
    match name {
        CommandName::Calc | CommandName::Drill => Some(NamedPlaces::empty(alloc)),
        _ => places_of(alloc, name, words).ok(),
    }
}

// Those of a command of this name.
fn places_of(alloc: Global, name: CommandName, words: &[String]) -> Result<NamedPlaces, NoMemory>
    requires name { option_map name_of (command_of (map string_bytes words.now)) ≡ Some name }
    ensures site { IfOk result (λ places. string_bytes places.site ≡ site_folder (map string_bytes words.now)) }
    ensures journal { IfOk result (λ places. string_bytes places.journal ≡ journal_file (map string_bytes words.now)) }
{
    let spelled = words_for(alloc, name, words)?;
    let mut command = command_for(alloc, name)?;
    let places = parsed_places(alloc, &mut command, spelled.as_slice());
    drop(command);
    places
}

// Those in words that `clap` takes.
fn parsed_places<'a, 'w>(
    alloc: Global,
    command: &mut Command<'a>,
    words: &'a [&'w str],
) -> Result<NamedPlaces, NoMemory>
    requires taken { takes (app_of command.old) (map (λ word. word.now) words.now) ≡ true }
    ensures site { IfOk result (λ places. string_bytes places.site ≡ read_value (app_of command.old) (map (λ word. word.now) words.now) (codes "site")) }
    ensures journal { IfOk result (λ places. string_bytes places.journal ≡ read_value (app_of command.old) (map (λ word. word.now) words.now) (codes "journal")) }
{
    let matches = matches_of(command, words)?;
    let places = matched_places(alloc, &matches);
    drop(matches);
    places
}

// Those that matches have.
fn matched_places(alloc: Global, matches: &ArgMatches) -> Result<NamedPlaces, NoMemory>
    ensures site { IfOk result (λ places. string_bytes places.site ≡ matched_value matches.now (codes "site")) }
    ensures journal { IfOk result (λ places. string_bytes places.journal ≡ matched_value matches.now (codes "journal")) }
{
    let site = String::from_str(alloc, matched_value(matches, OptionName::Site))?;
    let journal = String::from_str(alloc, matched_value(matches, OptionName::Journal))?;
    Ok(NamedPlaces { site, journal })
}
