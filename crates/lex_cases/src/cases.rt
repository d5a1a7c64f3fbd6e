ghost use Rattle.std.specs.Prelude.{◌≡◌, nat_le, ◌≤◌, ◌<◌, ◌^◌, ℕ, true, length, slice_index_or};
ghost use Rattle.bits_core.specs.declared.names.File.{File};

use crate::answers::{put_answer, put_lexed};
use crate::asking::{are_same, walk_asking};
use bits_core::{File, Items, NameList};
use case_lines::Cases;
use std::alloc::{AllocError, Global};
use std::mem;
use vl_lex::{Files, lex, preprocess};

const MOST_BYTES: usize = 16_777_216;

/// A case as it is read: its title, its files, and the file that is open.
#[derive(Drop)]
pub struct Case {
    alloc: Global,
    title: Vec<u8>,
    files: Vec<File>,
    name: Vec<u8>,
    bytes: Vec<u8>,
}

fn is_small(file: &File) -> bool
    ensures { result ≡ nat_le (length file.now.bytes) (2 ^ 24) }
{
    file.bytes.len() <= MOST_BYTES
}

#[tactic(auto, using(crate::proofs::Small::small_at))]
fn are_small(files: &[File]) -> bool
    ensures { result ≡ true → (at : ℕ) (other : File) → at < length files.now → length (slice_index_or files.now at other).bytes ≤ 2 ^ 24 }
{
    files.iter().all(|file| is_small(file))
}

// The value of a hexadecimal digit, 0 for any other byte.
fn digit(byte: u8) -> u8
    ensures { result < 16 }
{
    match byte {
        b'0'..=b'9' => byte - b'0',
        b'a'..=b'f' => byte - b'a' + 10,
        _ => 0,
    }
}

// The number of times, and a text.
fn times<'t>(words: &'t str) -> (usize, &'t str) {
    match words.split_once(' ') {
        Some((number, text)) => (number.parse::<usize>().unwrap_or(0), text),
        None => (0, words),
    }
}

// A text with a number for each `#`, and the number before it for each `%`.
fn numbered(alloc: Global, text: &str, number: usize) -> Result<Vec<u8>, AllocError> {
    let before = number.saturating_sub(1);
    let digits = format!(in alloc; "{number}")?;
    let digits_before = format!(in alloc; "{before}")?;
    let mut line = Vec::new(alloc);
    for byte in text.as_bytes() {
        match *byte {
            b'#' => line.extend_from_slice(digits.as_bytes())?,
            b'%' => line.extend_from_slice(digits_before.as_bytes())?,
            other => line.push(other)?,
        }
    }
    Ok(line)
}

impl Case {
    pub fn new(alloc: Global) -> Case {
        Case {
            alloc,
            title: Vec::new(alloc),
            files: Vec::new(alloc),
            name: Vec::new(alloc),
            bytes: Vec::new(alloc),
        }
    }

    // The file that is open is closed.
    fn close(&mut self) -> Result<(), AllocError> {
        if self.name.len() == 0 {
            return Ok(());
        }
        let name = mem::replace(&mut self.name, Vec::new(self.alloc));
        let bytes = mem::replace(&mut self.bytes, Vec::new(self.alloc));
        self.files.push(File {
            name: Items::of(name),
            bytes: Items::of(bytes),
        })?;
        Ok(())
    }

    /// A file with its bytes.
    pub fn take_file(&mut self, name: &[u8], bytes: Vec<u8>) -> Result<(), AllocError> {
        self.close()?;
        self.name = name.to_vec(self.alloc)?;
        self.bytes = bytes;
        Ok(())
    }

    fn take_hex(&mut self, digits: &[u8]) -> Result<(), AllocError> {
        for pair in digits.chunks(2) {
            if let [high, low] = pair {
                self.bytes.push(digit(*high) * 16 + digit(*low))?;
            }
        }
        Ok(())
    }

    // A line many times, each with its number from 0 for each `#`, and with the number before it for each `%`.
    fn take_lines(&mut self, words: &str) -> Result<(), AllocError> {
        let (count, text) = times(words);
        for number in 0..count {
            let line = numbered(self.alloc, text, number)?;
            self.bytes.extend_from_slice(line.as_slice())?;
            self.bytes.push(b'\n')?;
        }
        Ok(())
    }

    // Empty files, each with its number from 0 for each `#` of its name.
    fn take_files(&mut self, words: &str) -> Result<(), AllocError> {
        let (count, text) = times(words);
        for number in 0..count {
            let name = numbered(self.alloc, text, number)?;
            let bytes = Vec::new(self.alloc);
            self.take_file(name.as_slice(), bytes)?;
        }
        Ok(())
    }

    /// The answer for the files so far, of which the first are named, and whether a walk that asks for the others gives another; the case is then empty.
    pub fn run(&mut self, named: usize, defines: NameList) -> Result<Vec<u8>, AllocError> {
        self.close()?;
        let mut out = mem::replace(&mut self.title, Vec::new(self.alloc));
        let list = Items::of(mem::replace(&mut self.files, Vec::new(self.alloc)));
        if named <= list.len() && list.len() < 4_294_967_296 && are_small(list.as_slice()) {
            let files = Files { list, named };
            let answer = preprocess(self.alloc, &files, &defines);
            put_answer(self.alloc, &mut out, &answer)?;
            if !are_same(&answer, &walk_asking(self.alloc, &files, &defines)) {
                out.extend_from_slice(b" and another where it asks")?;
            }
        } else {
            out.extend_from_slice(b"no case")?;
        }
        Ok(out)
    }

    // The number of named files, which are all where no number stands, and the macros that are defined.
    fn run_line(&mut self, words: &str) -> Result<Vec<u8>, AllocError> {
        let mut named = None;
        let mut defines = Vec::new(self.alloc);
        for word in words.split_whitespace() {
            match word.parse::<usize>() {
                Ok(number) => named = Some(number),
                Err(_) => defines.push(Items::of(word.as_bytes().to_vec(self.alloc)?))?,
            }
        }
        self.close()?;
        let all = self.files.len();
        self.run(named.unwrap_or(all), Items::of(defines))
    }

    // What the lexer gives of the file that is open; the case is then empty.
    fn lex_line(&mut self) -> Result<Vec<u8>, AllocError> {
        let mut out = mem::replace(&mut self.title, Vec::new(self.alloc));
        let bytes = mem::replace(&mut self.bytes, Vec::new(self.alloc));
        self.name = Vec::new(self.alloc);
        self.files = Vec::new(self.alloc);
        if bytes.len() <= MOST_BYTES {
            let answer = lex(self.alloc, 0, bytes.as_slice());
            put_lexed(self.alloc, &mut out, &answer)?;
        } else {
            out.extend_from_slice(b"no case")?;
        }
        Ok(out)
    }
}

impl Cases for Case {
    /// A line of a table: `@case` and a title, `@file` and a name, `@hex` and bytes of the file, `@lines` or `@files` with a number and a text, or a line of the file that is open.
    /// `@lex` gives what the lexer makes of that file by itself, `@run` the answer for all; behind it stand how many of the files are named, where not all are, and the macros that are defined.
    fn answer(&mut self, _alloc: Global, line: &str) -> Result<Option<Vec<u8>>, AllocError> {
        if let Some(title) = line.strip_prefix("@case ") {
            self.title = title.as_bytes().to_vec(self.alloc)?;
            self.title.extend_from_slice(b": ")?;
        } else if let Some(name) = line.strip_prefix("@file ") {
            let bytes = Vec::new(self.alloc);
            self.take_file(name.as_bytes(), bytes)?;
        } else if let Some(digits) = line.strip_prefix("@hex ") {
            self.take_hex(digits.as_bytes())?;
        } else if let Some(words) = line.strip_prefix("@lines ") {
            self.take_lines(words)?;
        } else if let Some(words) = line.strip_prefix("@files ") {
            self.take_files(words)?;
        } else if line == "@lex" {
            return Ok(Some(self.lex_line()?));
        } else if let Some(words) = line.strip_prefix("@run") {
            return Ok(Some(self.run_line(words)?));
        } else {
            self.bytes.extend_from_slice(line.as_bytes())?;
            self.bytes.push(b'\n')?;
        }
        Ok(None)
    }
}
