// The walk that is given a file only where it asks for it.
ghost use Rattle.std.specs.Prelude.{◌≡◌, true, nat_le, ◌^◌, length};
ghost use Rattle.std.specs.List.{list_all};
ghost use Rattle.vl_lex.specs.Sources.{AreSmall, files_of};

use bits_core::{Items, Name, NameList};
use std::alloc::Global;
use vl_lex::{Asking, Files, Source, Walk, Walked, start_walk};
use vl_tree::{Place, Stop, Token};

const MOST_BYTES: usize = 16_777_216;

// No check has more files.
const MOST_ASKED: usize = 1024;

fn is_small(source: &Source<'_>) -> bool
    ensures { result ≡ nat_le (length source.now.bytes.now) (2 ^ 24) }
{
    source.bytes.len() <= MOST_BYTES
}

fn all_small(sources: &[Source<'_>]) -> bool
    ensures { result ≡ list_all (λ s. nat_le (length s.bytes.now) (2 ^ 24)) sources.now }
{
    sources.iter().all(|source| is_small(source))
}

fn are_small(sources: &[Source<'_>]) -> bool
    ensures { result ≡ true → AreSmall (files_of sources.now) }
{
    all_small(sources)
}

// The bytes of the first file of a name.
fn bytes_of<'f>(files: &'f Files, name: &[u8]) -> Option<&'f [u8]> {
    for file in files.list.as_slice() {
        if file.name.as_slice() == name {
            return Some(file.bytes.as_slice());
        }
    }
    None
}

fn needed<'f>(alloc: Global, name: &[u8]) -> Result<Walk<'f>, Stop> {
    match name.to_vec(alloc) {
        Ok(bytes) => {
            let name: Name = Items::of(bytes);
            Ok(Walk::Need(name))
        }
        Err(_) => Err(Stop::NoMemory),
    }
}

fn begin<'f>(alloc: Global, files: &'f Files, defines: &'f NameList) -> Result<Walked<'f>, Stop> {
    let mut sources = Items::new(alloc);
    for file in files.list.as_slice().iter().take(files.named) {
        sources.push(Source {
            name: file.name.as_slice(),
            bytes: file.bytes.as_slice(),
        })?;
    }
    let named = sources.len();
    if named < 4_294_967_296 && are_small(sources.as_slice()) {
        start_walk(alloc, sources, named, defines)
    } else {
        Err(Stop::NoMemory)
    }
}

fn given<'f>(asking: Asking<'f>, bytes: &'f [u8]) -> Result<Walked<'f>, Stop> {
    if asking.sources.len() < 4_294_967_295 && bytes.len() <= MOST_BYTES {
        asking.go_on(bytes)
    } else {
        Err(Stop::NoMemory)
    }
}

/// What the walk over the named files gives that is given each other file where it asks for it. Its files are numbered in the order in which they are asked for.
pub fn walk_asking<'f>(
    alloc: Global,
    files: &'f Files,
    defines: &'f NameList,
) -> Result<Walk<'f>, Stop> {
    let mut walked = begin(alloc, files, defines);
    for _ in 0..=MOST_ASKED {
        let asking = match walked {
            Ok(Walked::Tokens(tokens)) => return Ok(Walk::Tokens(tokens)),
            Ok(Walked::Asks(asking)) => asking,
            Err(stop) => return Err(stop),
        };
        let Some(bytes) = bytes_of(files, asking.name) else {
            return needed(alloc, asking.name);
        };
        walked = given(asking, bytes);
    }
    Err(Stop::NoMemory)
}

fn same_token(one: &Token<'_>, other: &Token<'_>) -> bool {
    one.text == other.text
        && one.span.line == other.span.line
        && one.span.start == other.span.start
        && one.implicit == other.implicit
}

fn line_of(place: &Place) -> u32 {
    match place {
        Place::Line { file: _, line } => *line,
        Place::Path(_) => 0,
    }
}

fn same_stop(one: &Stop, other: &Stop) -> bool {
    match (one, other) {
        (Stop::Fault(a), Stop::Fault(b)) => {
            a.code.number() == b.code.number() && line_of(&a.place) == line_of(&b.place)
        }
        (Stop::Limit(a), Stop::Limit(b)) => a.number() == b.number(),
        _ => false,
    }
}

/// Both answers are the same, but for the numbers of files.
pub fn are_same(one: &Result<Walk<'_>, Stop>, other: &Result<Walk<'_>, Stop>) -> bool {
    match (one, other) {
        (Ok(Walk::Tokens(a)), Ok(Walk::Tokens(b))) => {
            a.len() == b.len()
                && a.as_slice()
                    .iter()
                    .zip(b.as_slice())
                    .all(|(x, y)| same_token(x, y))
        }
        (Ok(Walk::Need(a)), Ok(Walk::Need(b))) => a.as_slice() == b.as_slice(),
        (Err(a), Err(b)) => same_stop(a, b),
        _ => false,
    }
}
