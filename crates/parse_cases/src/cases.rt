ghost use Rattle.std.specs.Prelude.{◌≡◌, nat_le, ◌≤◌, ◌<◌, ◌^◌, ℕ, true, length, slice_index_or};
ghost use Rattle.bits_core.specs.declared.names.File.{File};

use bits_core::{File, Items};
use case_lines::Cases;
use std::alloc::{AllocError, Global};
use std::mem;
use tree_texts::modules_text;
use vl_lex::{Files, Walk, preprocess};
use vl_parse::parse_files;
use vl_tree::{Place, Source, Stop, TokenList};

const MOST_BYTES: usize = 16_777_216;

fn put(out: &mut Vec<u8>, text: &[u8]) -> Result<(), AllocError> {
    out.extend_from_slice(text)
}

fn is_small(file: &File) -> bool
    ensures { result ≡ nat_le (length file.now.bytes) (2 ^ 24) }
{
    file.bytes.len() <= MOST_BYTES
}

#[tactic(auto, using(crate::proofs::Small::small_at))]
fn are_small(files: &[File]) -> bool
    ensures { result ≡ true → (at : ℕ) (other : File) → at < length files.now → length (slice_index_or files.now at other).bytes ≤ 2 ^ 24 }
{
    files.iter().all(|file| is_small(file))
}

fn put_number(alloc: Global, out: &mut Vec<u8>, number: usize) -> Result<(), AllocError> {
    let digits = format!(in alloc; "{number}")?;
    put(out, digits.as_bytes())
}

fn put_place(alloc: Global, out: &mut Vec<u8>, place: &Place) -> Result<(), AllocError> {
    match place {
        Place::Line { file: _, line } => put_number(alloc, out, *line as usize),
        Place::Path(_name) => put(out, b"path"),
    }
}

fn put_stop(alloc: Global, out: &mut Vec<u8>, stop: &Stop) -> Result<(), AllocError> {
    match stop {
        Stop::Fault(fault) => {
            put(out, fault.code.number())?;
            put(out, b" ")?;
            put_place(alloc, out, &fault.place)
        }
        Stop::Limit(code) => put(out, code.number()),
        Stop::NoMemory => put(out, b"no memory"),
    }
}

/// How much of an answer is written.
#[derive(Clone, Copy)]
pub enum Written {
    /// The whole tree.
    Tree,
    /// How many modules there are.
    Count,
}

fn put_source(
    source: &Source<'_>,
    alloc: Global,
    out: &mut Vec<u8>,
    written: Written,
) -> Result<(), AllocError> {
    match written {
        Written::Tree => {
            let text = modules_text(alloc, source.as_slice())?;
            put(out, text.as_slice())
        }
        Written::Count => {
            put(out, b" ")?;
            put_number(alloc, out, source.len())
        }
    }
}

fn put_parsed(
    tokens: &TokenList<'_>,
    alloc: Global,
    out: &mut Vec<u8>,
    written: Written,
) -> Result<(), AllocError> {
    match parse_files(alloc, tokens) {
        Ok(source) => {
            put(out, b"ok")?;
            put_source(&source, alloc, out, written)
        }
        Err(stop) => put_stop(alloc, out, &stop),
    }
}

fn put_answer(
    alloc: Global,
    out: &mut Vec<u8>,
    files: &Files,
    written: Written,
) -> Result<(), AllocError> {
    let defines = Items::new(alloc);
    match preprocess(alloc, files, &defines) {
        Ok(Walk::Tokens(tokens)) => put_parsed(&tokens, alloc, out, written),
        Ok(Walk::Need(_name)) => put(out, b"a file is asked for"),
        Err(stop) => put_stop(alloc, out, &stop),
    }
}

fn put_listed(
    alloc: Global,
    out: &mut Vec<u8>,
    list: Items<File>,
    written: Written,
) -> Result<(), AllocError> {
    if 1 <= list.len() && list.len() < 4_294_967_296 && are_small(list.as_slice()) {
        let files = Files { list, named: 1 };
        put_answer(alloc, out, &files, written)
    } else {
        put(out, b"no case")
    }
}

/// Puts the answer for one file.
pub fn answer(
    alloc: Global,
    out: &mut Vec<u8>,
    bytes: Vec<u8>,
    written: Written,
) -> Result<(), AllocError> {
    let mut list = Vec::new(alloc);
    list.push(File {
        name: Items::new(alloc),
        bytes: Items::of(bytes),
    })?;
    put_listed(alloc, out, Items::of(list), written)
}

/// A case as it is read, line by line: `@case` and a title, `@times` with a number and a text, or a line of the source. `@tree` gives the tree of the source so far,
/// `@count` how many modules it has; the case is then empty.
#[derive(Drop)]
pub struct TreeCases {
    title: Vec<u8>,
    bytes: Vec<u8>,
}

impl TreeCases {
    pub fn new(alloc: Global) -> TreeCases {
        TreeCases {
            title: Vec::new(alloc),
            bytes: Vec::new(alloc),
        }
    }

    fn run(&mut self, alloc: Global, written: Written) -> Result<Vec<u8>, AllocError> {
        let mut out = mem::replace(&mut self.title, Vec::new(alloc));
        let bytes = mem::replace(&mut self.bytes, Vec::new(alloc));
        answer(alloc, &mut out, bytes, written)?;
        Ok(out)
    }

    // A text many times, on one line.
    fn take_times(&mut self, words: &str) -> Result<(), AllocError> {
        if let Some((number, text)) = words.split_once(' ') {
            for _turn in 0..number.parse::<usize>().unwrap_or(0) {
                put(&mut self.bytes, text.as_bytes())?;
            }
        }
        put(&mut self.bytes, b"\n")
    }
}

impl Cases for TreeCases {
    fn answer(&mut self, alloc: Global, line: &str) -> Result<Option<Vec<u8>>, AllocError> {
        if let Some(title) = line.strip_prefix("@case ") {
            self.title = title.as_bytes().to_vec(alloc)?;
            put(&mut self.title, b": ")?;
        } else if let Some(words) = line.strip_prefix("@times ") {
            self.take_times(words)?;
        } else if line == "@tree" {
            return Ok(Some(self.run(alloc, Written::Tree)?));
        } else if line == "@count" {
            return Ok(Some(self.run(alloc, Written::Count)?));
        } else {
            put(&mut self.bytes, line.as_bytes())?;
            put(&mut self.bytes, b"\n")?;
        }
        Ok(None)
    }
}
