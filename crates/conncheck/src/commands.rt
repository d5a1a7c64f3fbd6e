// The commands.
ghost use Rattle.std.specs.Prelude.{◌≡◌, map, option_map, string_bytes, IfOk, IfSome};
ghost use Rattle.conncheck.specs.Command as spec;
ghost use Rattle.conncheck.specs.Ends.{EndsFor, ShelfCause, SinkCause, WordsCause};
ghost use Rattle.conncheck.specs.Seen.{seen_command};

mod check;
mod lrat;

use crate::message::Message;
use crate::report::say;
use crate::status::{Status, Stop};
use crate::words::wrong_in;
use bits_core::NoMemory;
use check::Check;
use shelf_io::{Shelf, Sink};
use std::alloc::Global;

/// A command with its values, or with the names of its files.
#[derive(Drop)]
pub enum Command<'w> {
    Check(Check<'w>),
    Lrat(&'w [String]),
}

/// The command that the words spell, or none.
pub fn read_words<'w>(alloc: Global, words: &'w [String]) -> Result<Option<Command<'w>>, NoMemory>
    ensures { IfOk result (λ r. option_map seen_command r ≡ spec.command (map string_bytes words.entry.now)) }
{
    let [word, rest @ ..] = words else {
        return Ok(None);
    };
    match word.as_str() {
        "check" => Ok(check::read(alloc, rest)?.map(Command::Check)),
        "lrat" => Ok(lrat::read(alloc, rest)?.map(Command::Lrat)),
        _ => Ok(None),
    }
}

/// The first word that has no place in a command, where one has none: a word for no command, an option that the command has not or that stands twice, one without its value, or no file name.
/// Linear in the words, but for a look at the options before each option.
pub fn wrong_word(words: &[String]) -> Option<&str> {
    let [word, rest @ ..] = words else {
        return None;
    };
    match word.as_str() {
        "check" => wrong_in(check::OPTIONS.as_slice(), rest),
        "lrat" => wrong_in(lrat::OPTIONS.as_slice(), rest),
        other => Some(other),
    }
}

/// The reply to the words.
pub fn answer<H: Shelf, K: Sink>(
    alloc: Global,
    words: &[String],
    shelf: &mut H,
    out: &mut K,
) -> Result<Status, Stop>
    ensures words { WordsCause (spec.command (map string_bytes words.now)) result }
    ensures shelf { ShelfCause (H.faults shelf.old) (H.faults shelf.new) result }
    ensures sink { SinkCause (K.faults out.old) (K.faults out.new) result }
    ensures answer { IfSome (H.tells shelf.old) (λ files. EndsFor (H.is_steady shelf.old) (spec.IsReply (spec.command (map string_bytes words.now))) files (K.taken out.old) (K.taken out.new) result) }
{
    match read_words(alloc, words)? {
        Some(Command::Check(check)) => check::answer(alloc, &check, shelf, out),
        Some(Command::Lrat(names)) => lrat::answer(alloc, names, shelf, out),
        None => say(alloc, &Message::BadWords, out),
    }
}
