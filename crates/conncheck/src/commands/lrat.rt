// `lrat`: a formula and a log.
ghost use Rattle.std.specs.Prelude.{◌≡◌, IfOk, IfSome, map, option_map, string_bytes};
ghost use Rattle.conncheck.specs.Ends.{EndsBy, EndsFor, IsNoBadWords, IsOfBytes, ShelfCause, SinkCause};
ghost use Rattle.conncheck.specs.Reply.{logged};
ghost use Rattle.conncheck.specs.commands.Lrat as spec;

use crate::message::Message;
use crate::reads::read_each;
use crate::report::{say, say_unread};
use crate::status::{Status, Stop};
use crate::words::read_line;
use bits_core::{File, NoMemory};
use log_verdict::{LogAnswer, judge_one, judge_two};
use shelf_io::{Shelf, Sink};
use std::alloc::Global;

/// It has no options.
pub const OPTIONS: [&str; 0] = [];

/// The names of the files that the words spell: one or two.
pub fn read<'w>(alloc: Global, words: &'w [String]) -> Result<Option<&'w [String]>, NoMemory>
    ensures { IfOk result (λ r. option_map (λ names. map string_bytes names.now) r ≡ spec.values (map string_bytes words.entry.now)) }
{
    let Some(line) = read_line(alloc, OPTIONS.as_slice(), words)? else {
        return Ok(None);
    };
    let files = line.files;
    if files.len() == 1 || files.len() == 2 {
        return Ok(Some(files));
    }
    Ok(None)
}

// The answer for a formula's text and a log's, or for one text with both.
fn judge_files(alloc: Global, files: &[File]) -> Result<LogAnswer, NoMemory>
    ensures { IfOk result (λ a. spec.OfLogs files.now (logged a)) }
{
    match files {
        [] => judge_one(alloc, b""),
        [text] => judge_one(alloc, text.bytes.as_slice()),
        [formula, log, ..] => judge_two(alloc, formula.bytes.as_slice(), log.bytes.as_slice()),
    }
}

fn say_logs<K: Sink>(alloc: Global, files: &[File], out: &mut K) -> Result<Status, Stop>
    ensures sink { SinkCause (K.faults out.old) (K.faults out.new) result }
    ensures kind { IsOfBytes result }
    ensures answer { EndsBy (spec.OfLogs files.now) (K.taken out.old) (K.taken out.new) result }
{
    let answer = judge_files(alloc, files)?;
    say(alloc, &Message::Log(answer), out)
}

/// The formula is read first, then the log.
pub fn answer<H: Shelf, K: Sink>(
    alloc: Global,
    names: &[String],
    shelf: &mut H,
    out: &mut K,
) -> Result<Status, Stop>
    ensures shelf { ShelfCause (H.faults shelf.old) (H.faults shelf.new) result }
    ensures sink { SinkCause (K.faults out.old) (K.faults out.new) result }
    ensures words { IsNoBadWords result }
    ensures answer { IfSome (H.tells shelf.old) (λ files. EndsFor (H.is_steady shelf.old) (spec.Means (map string_bytes names.now)) files (K.taken out.old) (K.taken out.new) result) }
{
    match read_each(alloc, names, shelf) {
        Ok(files) => say_logs(alloc, files.as_slice(), out),
        Err(unread) => say_unread(alloc, unread, out),
    }
}
