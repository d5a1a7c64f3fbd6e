// What is printed.
ghost use Rattle.std.specs.Prelude.{map, ℕ};
ghost use Rattle.conncheck.specs.Ends.{Adds, Ends, PrintsEach, IsNoBadWords, IsOfBytes, IsOfMessage, PieceCause, ShelfCause, SinkCause, StopEnds};
ghost use Rattle.conncheck.specs.Judge.{judge};
ghost use Rattle.conncheck.specs.Reads.{UnreadCause, UnreadEnds};
ghost use Rattle.conncheck.specs.Reply.{report};
ghost use Rattle.conncheck.specs.Seen.{said};
ghost use Rattle.conncheck.specs.Texts.{judged_text, total_of, verdict_text};
ghost use Rattle.plain_form.specs.Names.{listed};
ghost use Rattle.plain_form.specs.SeenTable.{seen_row};
ghost use Rattle.plain_rows.specs.Seen.{seen_verdict};
ghost use Rattle.vl_lex.specs.Sources.{files_of};

use crate::decide::Decide;
use crate::message::Message;
use crate::reads::Unread;
use crate::status::{Status, Stop};
use crate::text::{row_text, total_text};
use plain_form::{Line, Names};
use plain_rows::Verdict;
use shelf_io::Sink;
use std::alloc::Global;
use vl_lex::Source;
use vl_tree::Code;

/// Says a message. Linear in its text.
pub fn say<K: Sink>(alloc: Global, message: &Message<'_>, out: &mut K) -> Result<Status, Stop>
    ensures printed { Ends (said message.now) (K.taken out.old) (K.taken out.new) result }
    ensures kind { IsOfMessage message.now result }
    ensures cause { SinkCause (K.faults out.old) (K.faults out.new) result }
{
    let text = message.text(alloc)?;
    out.write_all(text.as_slice())?;
    Ok(message.status())
}

/// Names the file whose read failed, or says that a file is too long.
pub fn say_unread<K: Sink>(alloc: Global, unread: Unread<'_>, out: &mut K) -> Result<Status, Stop>
    ensures printed { UnreadEnds unread.entry (K.taken out.old) (K.taken out.new) result }
    ensures kind { IsNoBadWords result }
    ensures shelf { (before now : ℕ) → UnreadCause unread.entry before now → ShelfCause before now result }
    ensures cause { SinkCause (K.faults out.old) (K.faults out.new) result }
{
    match unread {
        Unread::Missing(name) => say(alloc, &Message::Missing(name), out),
        Unread::TooLong => say(alloc, &Message::Limit(Code::FileBytes), out),
        Unread::NoMemory => Err(Stop::Memory),
    }
}

/// Says why a walk over these files ended early.
pub fn say_stop<K: Sink>(
    alloc: Global,
    sources: &[Source<'_>],
    stop: vl_tree::Stop,
    out: &mut K,
) -> Result<Status, Stop>
    ensures printed { StopEnds stop (files_of sources.now) (K.taken out.old) (K.taken out.new) result }
    ensures kind { IsOfBytes result }
    ensures cause { SinkCause (K.faults out.old) (K.faults out.new) result }
{
    match stop {
        vl_tree::Stop::Fault(fault) => say(alloc, &Message::Fault(sources, &fault), out),
        vl_tree::Stop::Limit(code) => say(alloc, &Message::Limit(code), out),
        vl_tree::Stop::NoMemory => Err(Stop::Memory),
    }
}

fn say_row<K: Sink>(
    alloc: Global,
    top: &[u8],
    names: &Names<'_>,
    row: Line<'_>,
    verdict: Verdict,
    out: &mut K,
) -> Result<(), Stop>
    ensures printed { Adds (verdict_text top.now (listed names.now) (seen_row row.entry).name (seen_verdict verdict)) (K.taken out.old) (K.taken out.new) result }
    ensures cause { PieceCause (K.faults out.old) (K.faults out.new) result }
{
    let text = row_text(alloc, top, names, row, verdict)?;
    out.write_all(text.as_slice())?;
    Ok(())
}

fn say_total<K: Sink>(
    alloc: Global,
    rows: usize,
    proved: usize,
    refuted: usize,
    out: &mut K,
) -> Result<(), Stop>
    ensures printed { Adds (total_of rows proved refuted) (K.taken out.old) (K.taken out.new) result }
    ensures cause { PieceCause (K.faults out.old) (K.faults out.new) result }
{
    let text = total_text(alloc, rows, proved, refuted)?;
    out.write_all(text.as_slice())?;
    Ok(())
}

/// A text for each row, as soon as it is decided, and then the total. Linear in the rows.
pub fn say_report<D: Decide, K: Sink>(
    alloc: Global,
    top: &[u8],
    names: &Names<'_>,
    rows: &[Line<'_>],
    decider: &mut D,
    out: &mut K,
) -> Result<Status, Stop>
    ensures printed { Ends (report top.now (listed names.now) (map (judge (D.slots decider.old)) (map seen_row rows.now))) (K.taken out.old) (K.taken out.new) result }
    ensures each { PrintsEach (D.decided decider.old) (D.decided decider.new) (map (judged_text top.now (listed names.now)) (map (judge (D.slots decider.old)) (map seen_row rows.now))) (K.taken out.old) (K.taken out.new) }
    ensures kind { IsOfBytes result }
    ensures cause { SinkCause (K.faults out.old) (K.faults out.new) result }
{
    let mut proved = 0usize;
    let mut refuted = 0usize;
    for row in rows {
        let verdict = decider.decide(*row);
        say_row(alloc, top, names, *row, verdict, out)?;
        match verdict {
            Verdict::Proved => proved += 1,
            Verdict::Refuted(_) => refuted += 1,
        }
    }
    say_total(alloc, rows.len(), proved, refuted, out)?;
    Ok(if refuted == 0 {
        Status::Done
    } else {
        Status::Findings
    })
}
