// The commands.
ghost use Rattle.std.specs.Prelude.{◌≡◌, codes, map, option_map, string_bytes};
ghost use Rattle.clap.specs.Words.{first_value, found_of};
ghost use Rattle.command_words.specs.Commands as spec;
ghost use Rattle.command_words.specs.Seen.{Gives, seen_command, seen_form};
ghost use Rattle.command_words.specs.Values.{options_by, text_or_none};

use crate::matching::matched;
use crate::options::Options;
use crate::shape::files_behind;
use crate::stop::WordsStop;
use crate::table::{Verb, verb_of};
use crate::values::{
    list_or_none, macros_or_none, name_of, number_in, number_or, pins_or_none, reset_or_none,
};
use clap::ArgMatches;
use std::alloc::Global;

/// What a check prints: its report, or the proof of a row.
#[derive(Clone, Copy, Debug)]
pub enum CheckForm<'w> {
    Report,
    Proof(&'w str),
}

/// Rows of a table over sources.
#[derive(Drop)]
pub struct CheckWords<'w> {
    pub options: Options,
    pub table: &'w str,
    pub form: CheckForm<'w>,
    pub files: &'w [String],
}

/// The connections of a plan in sources.
#[derive(Drop)]
pub struct ExtractWords<'w> {
    pub options: Options,
    pub plan: &'w str,
    pub files: &'w [String],
}

/// The lines of a script.
#[derive(Drop)]
pub struct SessionWords<'w> {
    pub options: Options,
    pub script: &'w str,
}

/// A trace of a row of a table over sources.
#[derive(Drop)]
pub struct ReplayWords<'w> {
    pub options: Options,
    pub table: &'w str,
    pub trace: &'w str,
    pub files: &'w [String],
}

/// A command with its values; names of files stand as the words have them.
#[derive(Drop)]
pub enum Command<'w> {
    Check(CheckWords<'w>),
    Extract(ExtractWords<'w>),
    Session(SessionWords<'w>),
    Replay(ReplayWords<'w>),
    Lrat(&'w [String]),
    Gen(u32),
}

// The value of an option, empty where there is none.
fn text_of<'w>(matches: &ArgMatches<'w>, name: &str) -> &'w str
    ensures { result.now ≡ text_or_none (first_value (found_of matches.now) name.now) }
{
    match matches.get_str(name) {
        Some(text) => text,
        None => "",
    }
}

fn form_of<'w>(matches: &ArgMatches<'w>) -> CheckForm<'w>
    ensures { seen_form result ≡ spec.form_of (first_value (found_of matches.now) (codes "proof")) }
{
    match matches.get_str("proof") {
        Some(row) => CheckForm::Proof(row),
        None => CheckForm::Report,
    }
}

// The options of a command. Linear in their texts.
fn read_options(alloc: Global, matches: &ArgMatches<'_>) -> Result<Options, WordsStop>
    ensures { Gives (λ o. o) (options_by (first_value (found_of matches.now))) result }
{
    let clocks = list_or_none(alloc, matches.get_str("clock"))?;
    let reset = reset_or_none(alloc, matches.get_str("reset"))?;
    let pins = pins_or_none(alloc, matches.get_str("pin"))?;
    let defines = macros_or_none(alloc, matches.get_str("define"))?;
    let boxes = list_or_none(alloc, matches.get_str("box"))?;
    let stubs = list_or_none(alloc, matches.get_str("stub"))?;
    let depth = number_or(8, 0, 64, matches.get_str("depth"))?;
    let budget = number_or(4_000, 1, 20_000, matches.get_str("budget"))?;
    let top = name_of(alloc, text_of(matches, "top").as_bytes())?;
    Ok(Options {
        top,
        clocks,
        reset,
        pins,
        defines,
        boxes,
        stubs,
        depth,
        budget,
    })
}

fn blocks_of(words: &[String]) -> Option<u32>
    ensures { result ≡ spec.blocks_of (map string_bytes words.now) }
{
    match words {
        [] => None,
        [word, ..] => number_in(1, 500, word.as_bytes()),
    }
}

// The command of a word, by the values of its options and its files.
fn command_by<'w>(
    alloc: Global,
    verb: Verb,
    matches: &ArgMatches<'w>,
    files: &'w [String],
) -> Result<Command<'w>, WordsStop>
    ensures { Gives seen_command (spec.command_by verb (first_value (found_of matches.now)) (map string_bytes files.entry.now)) result }
{
    match verb {
        Verb::Check => Ok(Command::Check(CheckWords {
            options: read_options(alloc, matches)?,
            table: text_of(matches, "table"),
            form: form_of(matches),
            files,
        })),
        Verb::Extract => Ok(Command::Extract(ExtractWords {
            options: read_options(alloc, matches)?,
            plan: text_of(matches, "plan"),
            files,
        })),
        Verb::Session => Ok(Command::Session(SessionWords {
            options: read_options(alloc, matches)?,
            script: text_of(matches, "script"),
        })),
        Verb::Replay => Ok(Command::Replay(ReplayWords {
            options: read_options(alloc, matches)?,
            table: text_of(matches, "table"),
            trace: text_of(matches, "trace"),
            files,
        })),
        Verb::Lrat => Ok(Command::Lrat(files)),
        Verb::Gen => match blocks_of(files) {
            Some(blocks) => Ok(Command::Gen(blocks)),
            None => Err(WordsStop::BadWords),
        },
    }
}

// The command that the words behind a command's word spell.
fn read_behind<'w>(alloc: Global, verb: Verb, words: &'w [String]) -> Result<Command<'w>, WordsStop>
    ensures { Gives seen_command (spec.command_behind (map string_bytes words.entry.now) verb) result }
{
    let Some(files) = files_behind(verb, words) else {
        return Err(WordsStop::BadWords);
    };
    let matches = match matched(alloc, verb, words) {
        Ok(matches) => matches,
        Err(stop) => return Err(stop),
    };
    command_by(alloc, verb, &matches, files)
}

/// The command that the words spell. BadWords comes exactly where they spell none. Linear in the words.
pub fn read_words<'w>(alloc: Global, words: &'w [String]) -> Result<Command<'w>, WordsStop>
    ensures { Gives seen_command (spec.command (map string_bytes words.entry.now)) result }
{
    let [word, rest @ ..] = words else {
        return Err(WordsStop::BadWords);
    };
    match verb_of(word.as_str()) {
        Some(verb) => read_behind(alloc, verb, rest),
        None => Err(WordsStop::BadWords),
    }
}
