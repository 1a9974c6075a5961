//! Options among the arguments of a command.

ghost use Rattle.std.specs.Prelude.{◌≡◌, ◌≤◌, IfSome, length, map, option_map, string_bytes};
ghost use Rattle.command_line.specs.Names.{option_text};
ghost use Rattle.command_line.specs.Options.{after_name, are_options, option_in, spelled_by, spelled_next, text_after, value_in, words_taken};

use crate::option_names::OptionName;

// An option that is spelled.
#[derive(Clone, Copy)]
struct SpelledOption<'a> {
    // Its value.
    value: &'a str,
    // The number of words that it takes, 1 or 2.
    words: usize,
}

/// Whether words are these options, each once and in any order, and nothing else.
#[tactic(auto, unfolding(crate::specs::Options::are_options))]
pub(crate) fn are_options(options: &[OptionName], words: &[String]) -> bool
    requires { length options.now ≤ 8 }
    ensures { result ≡ are_options (map option_text options.now) (map string_bytes words.now) }
{
    words_taken(options, words) == Some(words.len())
}

// The number of words that options take; `None` if one of them is missing.
fn words_taken(options: &[OptionName], words: &[String]) -> Option<usize>
    requires { length options.now ≤ 8 }
    ensures { result ≡ words_taken 0 (map option_text options.now) (map string_bytes words.now) }
{
    let mut taken = 0;
    for option in options {
        taken += option_in(option.text(), words)?.words;
    }
    Some(taken)
}

/// The value of the option of this name among words; an empty text if the option is missing.
pub(crate) fn value_in<'a>(name: &str, words: &'a [String]) -> &'a str
    ensures { result.now ≡ value_in name.now (map string_bytes words.now) }
{
    match option_in(name, words) {
        Some(option) => option.value,
        None => "",
    }
}

// The first option of this name among words.
fn option_in<'a>(name: &str, words: &'a [String]) -> Option<SpelledOption<'a>>
    ensures option { option_map (λ option. record { value = option.value.now; words = option.words }) result ≡ option_in name.now (map string_bytes words.now) }
    ensures few { IfSome result (λ option. option.words ≤ 2) }
{
    for (index, word) in words.iter().enumerate() {
        if let Some(rest) = after_name(name, word.as_str()) {
            if rest.is_empty() {
                return spelled_next(&words[index + 1..]);
            }
            if let Some(value) = text_after("=", rest) {
                return spelled_by(1, value);
            }
        }
    }
    None
}

// A value that is the next word.
fn spelled_next(words: &[String]) -> Option<SpelledOption<'_>>
    ensures option { option_map (λ option. record { value = option.value.now; words = option.words }) result ≡ spelled_next (map string_bytes words.now) }
    ensures few { IfSome result (λ option. option.words ≤ 2) }
{
    match words {
        [value, ..] => spelled_by(2, value.as_str()),
        [] => None,
    }
}

// An option of this value: it isn't empty, and doesn't begin with a minus.
fn spelled_by(words: usize, value: &str) -> Option<SpelledOption<'_>>
    requires { words ≤ 2 }
    ensures option { option_map (λ option. record { value = option.value.now; words = option.words }) result ≡ spelled_by words value.now }
    ensures few { IfSome result (λ option. option.words ≤ 2) }
{
    match value.as_bytes() {
        [] | [b'-', ..] => None,
        _ => Some(SpelledOption { value, words }),
    }
}

// What follows the name of an option in a word.
fn after_name<'a>(name: &str, word: &'a str) -> Option<&'a str>
    ensures { option_map (λ rest. rest.now) result ≡ after_name name.now word.now }
{
    text_after(name, text_after("--", word)?)
}

// What follows a prefix in a text.
fn text_after<'a>(front: &str, text: &'a str) -> Option<&'a str>
    ensures { option_map (λ rest. rest.now) result ≡ text_after front.now text.now }
{
    text.strip_prefix(front)
}
