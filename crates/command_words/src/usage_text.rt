// What is said where words are no command.
ghost use Rattle.std.specs.Prelude.{◌≡◌, ◌++◌, OnOk, IfOk, flat_map};
ghost use Rattle.command_words.specs.Table.{options_of};
ghost use Rattle.command_words.specs.Seen.{seen_row};
ghost use Rattle.command_words.specs.Usage as spec;

use crate::shape::{is_option, is_plain};
use crate::table::{OptionRow, Verb, option_rows, verb_of};
use bits_core::NoMemory;
use std::alloc::Global;

static VERBS: [Verb; 6] = [
    Verb::Check,
    Verb::Extract,
    Verb::Session,
    Verb::Replay,
    Verb::Lrat,
    Verb::Gen,
];

// What stands behind a command's word and its options.
fn files_text(verb: Verb) -> &'static [u8]
    ensures { result.now ≡ spec.files_text verb }
{
    match verb {
        Verb::Check | Verb::Extract | Verb::Replay => b" FILE..",
        Verb::Session => b"",
        Verb::Lrat => b" FORMULA [LOG]",
        Verb::Gen => b" N",
    }
}

// The line of an option, in brackets where the command does not want it.
fn put_option(out: &mut Vec<u8>, row: &OptionRow) -> Result<(), NoMemory>
    ensures { OnOk result (out.new.items ≡ out.old.items ++ spec.option_line (seen_row row.now)) }
{
    out.extend_from_slice(if row.is_wanted() {
        b"    --"
    } else {
        b"    [--"
    })?;
    out.extend_from_slice(row.name().as_bytes())?;
    out.extend_from_slice(b" ")?;
    out.extend_from_slice(row.value().as_bytes())?;
    out.extend_from_slice(if row.is_wanted() { b"\n" } else { b"]\n" })?;
    Ok(())
}

// A line for each option of a command.
#[tactic(auto, unfolding(crate::specs::Table::options_of))]
fn put_options(out: &mut Vec<u8>, verb: Verb) -> Result<(), NoMemory>
    ensures { OnOk result (out.new.items ≡ out.old.items ++ flat_map spec.option_line (options_of verb)) }
{
    let rows = option_rows();
    for row in rows {
        if !row.is_of(verb) {
            continue;
        }
        put_option(out, row)?;
    }
    Ok(())
}

fn put_command(out: &mut Vec<u8>, verb: Verb) -> Result<(), NoMemory>
    ensures { OnOk result (out.new.items ≡ out.old.items ++ spec.command_text verb) }
{
    out.extend_from_slice(b"  conncheck ")?;
    out.extend_from_slice(verb.word().as_bytes())?;
    out.extend_from_slice(files_text(verb))?;
    out.extend_from_slice(b"\n")?;
    put_options(out, verb)?;
    Ok(())
}

/// Each command with its options, a line for each option. Linear in its length.
pub fn usage(alloc: Global) -> Result<Vec<u8>, NoMemory>
    ensures { IfOk result (λ t. t.items ≡ spec.usage_text) }
{
    let mut out = Vec::from_slice(alloc, b"usage:\n")?;
    let verbs = VERBS.as_slice();
    for verb in verbs {
        put_command(&mut out, *verb)?;
    }
    Ok(out)
}

// The first word that is no file name.
fn wrong_file(words: &[String]) -> Option<&str> {
    for word in words {
        if !is_plain(word.as_str()) {
            return Some(word.as_str());
        }
    }
    None
}

// Whether a word stands among others.
fn stands_in(words: &[String], word: &str) -> bool {
    for other in words {
        if other.as_str() == word {
            return true;
        }
    }
    false
}

// The first word that has no place behind a command's word.
fn wrong_behind(verb: Verb, words: &[String]) -> Option<&str> {
    let mut rest = words;
    'options: loop {
        let [option, behind @ ..] = rest else {
            return None;
        };
        let option = option.as_str();
        if is_plain(option) {
            return wrong_file(rest);
        }
        let before = &words[..words.len() - rest.len()];
        if !is_option(verb, option) || stands_in(before, option) {
            return Some(option);
        }
        let [value, tail @ ..] = behind else {
            return Some(option);
        };
        if !is_plain(value.as_str()) {
            return Some(value.as_str());
        }
        rest = tail;
    }
}

/// The first word that has no place in a command, where one has none: a word for no command, an option that the command has not or that stands twice, one without its value, or no file name.
/// Linear in the words, but for a look at the words before each option.
pub fn wrong_word(words: &[String]) -> Option<&str> {
    let [word, rest @ ..] = words else {
        return None;
    };
    match verb_of(word.as_str()) {
        Some(verb) => wrong_behind(verb, rest),
        None => Some(word.as_str()),
    }
}
