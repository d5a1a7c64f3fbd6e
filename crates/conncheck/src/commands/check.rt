// `check`: the rows of a table over sources.
ghost use Rattle.std.specs.Prelude.{◌≡◌, ◌≤◌, ◌^◌, true, IfOk, IfSome, length, map, option_map, string_bytes};
ghost use Rattle.std.specs.List.{list_all};
ghost use Rattle.std.specs.Str.{is_utf8};
ghost use Rattle.conncheck.specs.Ends.{EndsBy, EndsFor, IsNoBadWords, IsOfBytes, ShelfCause, SinkCause};
ghost use Rattle.conncheck.specs.Seen.{seen_check, seen_line, seen_word};
ghost use Rattle.conncheck.specs.Reads.{ReadsCause, ReadsSource};
ghost use Rattle.conncheck.specs.commands.Check as spec;
ghost use Rattle.vl_lex.specs.Lexed.{view};
ghost use Rattle.vl_lex.specs.Sources.{AreSmall, files_of};

use crate::decide::ByEnds;
use crate::message::Message;
use crate::reads::{Unread, read_each, read_one};
use crate::report::{say, say_report, say_stop, say_unread};
use crate::status::{Status, Stop};
use crate::words::{Line, read_line, value_of};
use bits_core::{File, Items, NameList, NoMemory};
use bumpalo::Bump;
use plain_form::{pieces, read_rows, read_source};
use shelf_io::{Shelf, Sink};
use std::alloc::Global;
use std::str;
use vl_lex::{Source, Walked, start_walk};
use vl_syntax::check_syntax;
use vl_tree::{Code, Token, TokenList};

pub const OPTIONS: [&str; 3] = ["--top", "--table", "--define"];

/// The values of the command.
#[derive(Drop)]
pub struct Check<'w> {
    pub top: &'w str,
    pub table: &'w str,
    pub defines: NameList,
    pub files: &'w [String],
}

fn are_macro_bytes(name: &[u8]) -> bool
    ensures { result ≡ list_all spec.is_macro_byte name.now }
{
    for byte in name {
        if !byte.is_ascii_alphanumeric() && *byte != b'_' {
            return false;
        }
    }
    true
}

fn is_macro_name(name: &[u8]) -> bool
    ensures { result ≡ spec.is_macro_name name.now }
{
    !name.is_empty() && are_macro_bytes(name)
}

// The names of a list, or none where one of them has another form. Linear in the list.
fn read_names(alloc: Global, parts: &[&[u8]]) -> Result<Option<NameList>, NoMemory>
    ensures { IfOk result (λ r. r ≡ spec.names_of (map (λ p. p.now) parts.now)) }
{
    let mut names = Items::new(alloc);
    for part in parts {
        if !is_macro_name(part) {
            return Ok(None);
        }
        names.push(Items::of(Vec::from_slice(alloc, part)?))?;
    }
    Ok(Some(names))
}

fn read_defines(alloc: Global, list: Option<&str>) -> Result<Option<NameList>, NoMemory>
    ensures { IfOk result (λ r. r ≡ spec.defines_of (seen_word list.entry)) }
{
    match list {
        None => Ok(Some(Items::new(alloc))),
        Some(list) => {
            let parts = pieces(alloc, list.as_bytes(), b',')?;
            read_names(alloc, parts.as_slice())
        }
    }
}

// The values that a line gives, or none.
fn values_of<'w>(alloc: Global, line: &Line<'w>) -> Result<Option<Check<'w>>, NoMemory>
    ensures { IfOk result (λ r. option_map seen_check r ≡ spec.values_of (seen_line line.now)) }
{
    let pairs = line.pairs.as_slice();
    let Some(top) = value_of(pairs, "--top") else {
        return Ok(None);
    };
    let Some(table) = value_of(pairs, "--table") else {
        return Ok(None);
    };
    let Some(defines) = read_defines(alloc, value_of(pairs, "--define"))? else {
        return Ok(None);
    };
    if line.files.is_empty() {
        return Ok(None);
    }
    Ok(Some(Check {
        top,
        table,
        defines,
        files: line.files,
    }))
}

/// The values that the words spell, or none.
pub fn read<'w>(alloc: Global, words: &'w [String]) -> Result<Option<Check<'w>>, NoMemory>
    ensures { IfOk result (λ r. option_map seen_check r ≡ spec.values (map string_bytes words.entry.now)) }
{
    match read_line(alloc, OPTIONS.as_slice(), words)? {
        Some(line) => values_of(alloc, &line),
        None => Ok(None),
    }
}

fn first_of(names: &[String]) -> &str
    ensures { result.now ≡ spec.first_of (map string_bytes names.now) }
{
    match names {
        [] => "",
        [first, ..] => first.as_str(),
    }
}

// The report over the bytes of the table and the tokens of the sources, or the refusal of the first of them that is not plain: the sources come first.
fn say_check<K: Sink>(
    alloc: Global,
    command: &Check<'_>,
    table: &[u8],
    tokens: &[Token<'_>],
    out: &mut K,
) -> Result<Status, Stop>
    ensures sink { SinkCause (K.faults out.old) (K.faults out.new) result }
    ensures kind { IsOfBytes result }
    ensures answer { EndsBy (spec.OfWords (seen_check command.now) table.now (map (λ t. t.text.now) tokens.now)) (K.taken out.old) (K.taken out.new) result }
{
    let top = command.top.as_bytes();
    let Some(wires) = read_source(alloc, top, tokens)? else {
        return say(alloc, &Message::NotYet(first_of(command.files)), out);
    };
    let Some(rows) = read_rows(alloc, &wires.names, top, table)? else {
        return say(alloc, &Message::NotYet(command.table), out);
    };
    let mut decider = ByEnds {
        slots: wires.slots.as_slice(),
        decided: 0,
    };
    say_report(alloc, top, &wires.names, rows.as_slice(), &mut decider, out)
}

// What is said of the tokens of all files: where they break, or what their texts come to. Linear in the tokens.
fn say_tokens<K: Sink>(
    alloc: Global,
    command: &Check<'_>,
    table: &[u8],
    sources: &[Source<'_>],
    tokens: &TokenList<'_>,
    out: &mut K,
) -> Result<Status, Stop>
    ensures sink { SinkCause (K.faults out.old) (K.faults out.new) result }
    ensures kind { IsOfBytes result }
    ensures answer { EndsBy (spec.OfTokens (seen_check command.now) table.now (files_of sources.now) (map view tokens.now)) (K.taken out.old) (K.taken out.new) result }
{
    match check_syntax(alloc, tokens) {
        Ok(()) => say_check(alloc, command, table, tokens.as_slice(), out),
        Err(stop) => say_stop(alloc, sources, stop, out),
    }
}

// The files of a list, where they stand.
fn sources_of<'f>(alloc: Global, files: &'f [File]) -> Result<Items<Source<'f>>, NoMemory>
    ensures { IfOk result (λ sources. files_of sources ≡ files.entry.now) }
{
    let mut sources = Items::new(alloc);
    for file in files {
        sources.push(Source {
            name: file.name.as_slice(),
            bytes: file.bytes.as_slice(),
        })?;
    }
    Ok(sources)
}

// A file that the walk asks for, read into the room. Linear in the file.
fn read_asked<'f, H: Shelf>(
    alloc: Global,
    room: &'f Bump,
    name: &'f [u8],
    shelf: &mut H,
) -> Result<Source<'f>, Unread<'f>>
    requires text { is_utf8 name.now ≡ true }
    ensures kept { H.tells shelf.new ≡ H.tells shelf.old }
    ensures steady { H.is_steady shelf.old → H.is_steady shelf.new }
    ensures cause { ReadsCause (H.faults shelf.old) (H.faults shelf.new) result }
    ensures named { IfOk result (λ s. s.name ≡ name.entry) }
    ensures small { IfOk result (λ s. length s.bytes.now ≤ 2 ^ 24) }
    ensures files { IfSome (H.tells shelf.old) (λ files. ReadsSource (H.is_steady shelf.old) files name.entry.now result) }
{
    let text = str::from_utf8(name).unwrap();
    let file = read_one(alloc, text, shelf)?;
    let bytes = room.try_alloc_slice_copy(file.bytes.as_slice())?;
    Ok(Source { name, bytes })
}

// The walk over the named sources. A file that it asks for is read, and it goes on from there. Linear in the bytes of the files, each as often as it is included,
// and in the tokens of the macros that are used.
fn walk<'f, H: Shelf, K: Sink>(
    alloc: Global,
    command: &'f Check<'_>,
    table: &[u8],
    room: &'f Bump,
    named: &'f [File],
    shelf: &mut H,
    out: &mut K,
) -> Result<Status, Stop>
    requires few { length named.now ≤ 1024 }
    requires small { AreSmall named.now }
    ensures shelf { ShelfCause (H.faults shelf.old) (H.faults shelf.new) result }
    ensures sink { SinkCause (K.faults out.old) (K.faults out.new) result }
    ensures words { IsNoBadWords result }
    ensures answer { IfSome (H.tells shelf.old) (λ files. EndsFor (H.is_steady shelf.old) (λ fls. spec.OfWalk (seen_check command.now) table.now (length named.now) fls named.now) files (K.taken out.old) (K.taken out.new) result) }
{
    let mut sources = sources_of(alloc, named)?;
    let walked_over = sources_of(alloc, named)?;
    let mut walked = start_walk(alloc, walked_over, named.len(), &command.defines);
    'includes: loop {
        let asking = match walked {
            Ok(Walked::Asks(asking)) => asking,
            Ok(Walked::Tokens(tokens)) => {
                return say_tokens(alloc, command, table, sources.as_slice(), &tokens, out);
            }
            Err(stop) => return say_stop(alloc, sources.as_slice(), stop, out),
        };
        if sources.len() >= Code::Files.bound() as usize {
            return say(alloc, &Message::Limit(Code::Files), out);
        }
        let source = match read_asked(alloc, room, asking.name, shelf) {
            Ok(source) => source,
            Err(unread) => return say_unread(alloc, unread, out),
        };
        sources.push(source)?;
        walked = asking.go_on(source.bytes);
    }
}

/// The table is read first, then the sources in order, then what they include. Linear in the files, each as often as it is included.
pub fn answer<H: Shelf, K: Sink>(
    alloc: Global,
    command: &Check<'_>,
    shelf: &mut H,
    out: &mut K,
) -> Result<Status, Stop>
    ensures shelf { ShelfCause (H.faults shelf.old) (H.faults shelf.new) result }
    ensures sink { SinkCause (K.faults out.old) (K.faults out.new) result }
    ensures words { IsNoBadWords result }
    ensures answer { IfSome (H.tells shelf.old) (λ files. EndsFor (H.is_steady shelf.old) (spec.Means (seen_check command.now)) files (K.taken out.old) (K.taken out.new) result) }
{
    let table = match read_one(alloc, command.table, shelf) {
        Ok(file) => file,
        Err(unread) => return say_unread(alloc, unread, out),
    };
    let list = match read_each(alloc, command.files, shelf) {
        Ok(list) => list,
        Err(unread) => return say_unread(alloc, unread, out),
    };
    let most = Code::Files.bound() as usize;
    if list.len() > most {
        return say(alloc, &Message::Limit(Code::Files), out);
    }
    let room = Bump::new(alloc);
    walk(
        alloc,
        command,
        table.bytes.as_slice(),
        &room,
        list.as_slice(),
        shelf,
        out,
    )
}
