// What `clap` makes of the words behind a command's word.
ghost use Rattle.std.specs.Prelude.{◌≡◌, [], false, IfOk, map, string_bytes};
ghost use Rattle.clap.specs.Words.{app_of, rule_of};
ghost use Rattle.command_words.specs.App as spec;
ghost use Rattle.command_words.specs.Seen.{seen_row};
ghost use Rattle.command_words.specs.Table.{names_of, options_of};
ghost use Rattle.command_words.specs.Words.{Line, line_of};

use crate::stop::WordsStop;
use crate::table::{OptionRow, Verb, option_rows};
use clap::error::ErrorKind;
use clap::{Arg, ArgAction, ArgMatches, Command};
use std::alloc::{AllocError, Global};

// An option as `clap` has it: it takes one value.
fn option_arg<'a>(alloc: Global, row: &OptionRow) -> Arg<'a>
    ensures rule { rule_of result ≡ spec.option_rule (seen_row row.now) }
    ensures local { result.global ≡ false }
{
    let arg = Arg::new(alloc, row.name())
        .long(row.name())
        .required(row.is_wanted())
        .action(ArgAction::Set);
    match row.usual() {
        Some(usual) => arg.default_value(usual),
        None => arg,
    }
}

// A file that is wanted; with `Append` as many more as there are.
fn file_arg<'a>(alloc: Global, action: ArgAction) -> Arg<'a>
    ensures rule { rule_of result ≡ spec.file_rule action }
    ensures local { result.global ≡ false }
{
    Arg::new(alloc, "FILE").required(true).action(action)
}

fn log_arg<'a>(alloc: Global) -> Arg<'a>
    ensures rule { rule_of result ≡ spec.log_rule }
    ensures local { result.global ≡ false }
{
    Arg::new(alloc, "LOG").action(ArgAction::Set)
}

// The command with its options.
#[tactic(auto, unfolding(crate::specs::Table::options_of))]
fn with_options<'a>(alloc: Global, verb: Verb, bare: Command<'a>) -> Result<Command<'a>, AllocError>
    requires { app_of bare ≡ spec.app_with verb [] }
    ensures { IfOk result (λ c. app_of c ≡ spec.app_with verb (map spec.option_rule (options_of verb))) }
{
    let mut command = bare;
    let rows = option_rows();
    for row in rows {
        if !row.is_of(verb) {
            continue;
        }
        command = command.arg(option_arg(alloc, row))?;
    }
    Ok(command)
}

// A command as `clap` reads its words.
fn described<'a>(alloc: Global, verb: Verb) -> Result<Command<'a>, AllocError>
    ensures { IfOk result (λ c. app_of c ≡ spec.app_for verb) }
{
    let bare = Command::new(alloc, verb.word())
        .disable_help_flag(true)
        .no_binary_name(true);
    let command = with_options(alloc, verb, bare)?;
    match verb {
        Verb::Check | Verb::Extract | Verb::Replay => {
            command.arg(file_arg(alloc, ArgAction::Append))
        }
        Verb::Lrat => command
            .arg(file_arg(alloc, ArgAction::Set))?
            .arg(log_arg(alloc)),
        Verb::Gen => command.arg(file_arg(alloc, ArgAction::Set)),
        Verb::Session => Ok(command),
    }
}

/// The values of the words of a line, which are refused exactly where the line is not whole: where an option stands twice, one is missing, or the files are too many or too few.
/// Linear in the words, each with a look at the options.
pub fn matched<'w>(
    alloc: Global,
    verb: Verb,
    words: &'w [String],
) -> Result<ArgMatches<'w>, WordsStop>
    ensures { (l : Line) → line_of (names_of (options_of verb)) (map string_bytes words.entry.now) ≡ Some l → spec.IsMatched verb l result }
{
    let command = described(alloc, verb)?;
    let error = match command.try_get_matches_from(words) {
        Ok(matches) => return Ok(matches),
        Err(error) => error,
    };
    if error.kind() == ErrorKind::OutOfMemory {
        return Err(WordsStop::NoMemory);
    }
    Err(WordsStop::BadWords)
}
