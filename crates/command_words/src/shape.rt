// The shape of a line of words: options, each with its value, and then names of files.
ghost use Rattle.std.specs.Prelude.{◌≡◌, is_some, map, option_map, string_bytes};
ghost use Rattle.std.specs.List.{list_all};
ghost use Rattle.command_words.specs.Table.{names_of, options_of};
ghost use Rattle.command_words.specs.Words as spec;

use crate::table::{Verb, option_rows};

/// Whether a word may stand as a value or a file name: it is not empty and does not begin with `-`.
pub fn is_plain(word: &str) -> bool
    ensures { result ≡ spec.is_plain word.now }
{
    match word.as_bytes() {
        [] => false,
        [first, ..] => *first != b'-',
    }
}

fn are_plain(words: &[String]) -> bool
    ensures { result ≡ list_all spec.is_plain (map string_bytes words.now) }
{
    for word in words {
        if !is_plain(word.as_str()) {
            return false;
        }
    }
    true
}

// Whether a command has an option of this name.
#[tactic(auto, unfolding(crate::specs::Table::options_of))]
fn has_option(verb: Verb, name: &[u8]) -> bool
    ensures { result ≡ spec.is_among (names_of (options_of verb)) name.now }
{
    let rows = option_rows();
    for row in rows {
        if row.is_of(verb) && row.name().as_bytes() == name {
            return true;
        }
    }
    false
}

/// Whether a word is two hyphens and the name of an option of the command. Linear in the table.
pub fn is_option(verb: Verb, word: &str) -> bool
    ensures { result ≡ is_some (spec.option_in (names_of (options_of verb)) (spec.name_in word.now)) }
{
    match word.as_bytes() {
        [b'-', b'-', name @ ..] => has_option(verb, name),
        _ => false,
    }
}

// The words, where all of them may be file names.
fn files_alone<'w>(words: &'w [String]) -> Option<&'w [String]>
    ensures { option_map (λ fs. map string_bytes fs.now) result ≡ option_map (λ l. l.files) (spec.files_alone (map string_bytes words.entry.now)) }
{
    if are_plain(words) { Some(words) } else { None }
}

/// The file names of the line that the words spell for a command, if they spell one. Linear in the words.
pub fn files_behind<'w>(verb: Verb, words: &'w [String]) -> Option<&'w [String]>
    ensures { option_map (λ fs. map string_bytes fs.now) result ≡ option_map (λ l. l.files) (spec.line_of (names_of (options_of verb)) (map string_bytes words.entry.now)) }
{
    let mut rest = words;
    'options: loop {
        let [word, value, tail @ ..] = rest else {
            return files_alone(rest);
        };
        let word = word.as_str();
        let value = value.as_str();
        if is_plain(word) {
            return files_alone(rest);
        }
        if !is_option(verb, word) {
            return None;
        }
        if !is_plain(value) {
            return None;
        }
        rest = tail;
    }
}
