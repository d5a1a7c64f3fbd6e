// The top call.
ghost use Rattle.std.specs.Prelude.{IfSome, map, string_bytes};
ghost use Rattle.conncheck.specs.Answers.{Answers};
ghost use Rattle.conncheck.specs.Causes.{ReadFaultCause, WriteFaultCause, BadWordsCause};
ghost use Rattle.conncheck.specs.Command.{command};

use crate::commands::answer;
use crate::status::{Status, Stop};
use shelf_io::{Shelf, Sink};
use std::alloc::Global;

/// Does what the words ask: reads files from the shelf, writes texts to the sink, each in one piece, and answers how it ended.
/// `check --top M --table F --define LIST FILE ..` decides each row of the table F over the module M of the sources, with the macros of the list defined. `lrat FORMULA LOG` says whether the log
/// refutes the formula, and `lrat FILE` the same for one text with both.
pub fn run<H: Shelf, K: Sink>(alloc: Global, words: &[String], shelf: &mut H, out: &mut K) -> Status
    ensures words { BadWordsCause (command (map string_bytes words.now)) result }
    ensures shelf { ReadFaultCause (H.faults shelf.old) (H.faults shelf.new) result }
    ensures sink { WriteFaultCause (K.faults out.old) (K.faults out.new) result }
    ensures answer { IfSome (H.tells shelf.old) (λ files. Answers (H.is_steady shelf.old) (command (map string_bytes words.now)) files (K.taken out.old) (K.taken out.new) result) }
{
    match answer(alloc, words, shelf, out) {
        Ok(status) => status,
        Err(Stop::Write) => Status::WriteFault,
        Err(Stop::Memory) => Status::NoMemory,
    }
}
