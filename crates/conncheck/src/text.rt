// Texts of whole lines.
ghost use Rattle.std.specs.Prelude.{◌≡◌, IfOk, decimal, slice_get};
ghost use Rattle.conncheck.specs.Texts as spec;
ghost use Rattle.design_core.specs.Core.{bit};
ghost use Rattle.plain_form.specs.Names.{listed};
ghost use Rattle.plain_form.specs.SeenTable.{seen_row};
ghost use Rattle.plain_rows.specs.Plain.{ones};
ghost use Rattle.plain_rows.specs.Seen.{seen_verdict};
ghost use Rattle.plain_rows.specs.Verdicts.{refuted};
ghost use Rattle.vl_lex.specs.Sources.{files_of};

use bits_core::NoMemory;
use itoa::Buffer;
use log_verdict::LogAnswer;
use plain_form::{Line, Names};
use plain_rows::Verdict;
use std::alloc::Global;
use vl_lex::Source;
use vl_tree::{Code, Fault, Place};

// The one cycle of a plain design's windows and runs.
const CYCLE: u32 = 0;

/// A word, a text and the end of the line.
pub fn line(alloc: Global, word: &[u8], text: &[u8]) -> Result<Vec<u8>, NoMemory>
    ensures { IfOk result (λ v. v.items ≡ spec.line word.now text.now) }
{
    let mut made = Vec::from_slice(alloc, word)?;
    made.extend_from_slice(text)?;
    made.extend_from_slice(b"\n")?;
    Ok(made)
}

/// A word, a number and the end of the line.
fn number_line(alloc: Global, word: &[u8], number: u64) -> Result<Vec<u8>, NoMemory>
    ensures { IfOk result (λ v. v.items ≡ spec.line word.now (decimal number)) }
{
    let mut buffer = Buffer::new();
    line(alloc, word, buffer.format(number).as_bytes())
}

/// A limit that is passed.
pub fn limit_text(alloc: Global, code: Code) -> Result<Vec<u8>, NoMemory>
    ensures { IfOk result (λ v. v.items ≡ spec.limit_text code) }
{
    let mut buffer = Buffer::new();
    let mut made = Vec::from_slice(alloc, b"LIMIT ")?;
    made.extend_from_slice(code.number())?;
    made.extend_from_slice(b" ")?;
    made.extend_from_slice(code.name())?;
    made.extend_from_slice(b" ")?;
    made.extend_from_slice(buffer.format(code.bound()).as_bytes())?;
    made.extend_from_slice(b"\n")?;
    Ok(made)
}

// The name of a file by its place.
fn name_at<'f>(files: &[Source<'f>], at: usize) -> &'f [u8]
    ensures { result.now ≡ spec.name_at (slice_get (files_of files.now) at) }
{
    match files.get(at) {
        Some(file) => file.name,
        None => b"",
    }
}

fn place_text(alloc: Global, files: &[Source<'_>], place: &Place) -> Result<Vec<u8>, NoMemory>
    ensures { IfOk result (λ v. v.items ≡ spec.place_text (files_of files.now) place.now) }
{
    match place {
        Place::Line { file, line } => {
            let mut buffer = Buffer::new();
            let mut made = Vec::from_slice(alloc, name_at(files, *file as usize))?;
            made.extend_from_slice(b" ")?;
            made.extend_from_slice(buffer.format(*line).as_bytes())?;
            Ok(made)
        }
        Place::Path(path) => Ok(Vec::from_slice(alloc, path.as_slice())?),
    }
}

// A refusal: its code, and where it stands.
fn refused_text(alloc: Global, code: Code, at: &[u8]) -> Result<Vec<u8>, NoMemory>
    ensures { IfOk result (λ v. v.items ≡ spec.refused_text code at.now) }
{
    let mut made = Vec::from_slice(alloc, b"REFUSED ")?;
    made.extend_from_slice(code.number())?;
    made.extend_from_slice(b" ")?;
    made.extend_from_slice(code.name())?;
    made.extend_from_slice(b"\nAT ")?;
    made.extend_from_slice(at)?;
    made.extend_from_slice(b"\n")?;
    Ok(made)
}

/// A fault and its place.
pub fn fault_text(alloc: Global, files: &[Source<'_>], fault: &Fault) -> Result<Vec<u8>, NoMemory>
    ensures { IfOk result (λ v. v.items ≡ spec.refused_text fault.now.code (spec.place_text (files_of files.now) fault.now.place)) }
{
    let place = place_text(alloc, files, &fault.place)?;
    refused_text(alloc, fault.code, place.as_slice())
}

// A refusal at a line of a text.
fn numbered_text(alloc: Global, code: Code, at: u64) -> Result<Vec<u8>, NoMemory>
    ensures { IfOk result (λ v. v.items ≡ spec.refused_text code (spec.numbered at)) }
{
    let mut buffer = Buffer::new();
    let mut place = Vec::from_slice(alloc, b"line ")?;
    place.extend_from_slice(buffer.format(at).as_bytes())?;
    refused_text(alloc, code, place.as_slice())
}

/// What a log comes to.
pub fn log_text(alloc: Global, answer: LogAnswer) -> Result<Vec<u8>, NoMemory>
    ensures { IfOk result (λ v. v.items ≡ spec.log_text answer) }
{
    match answer {
        LogAnswer::Verified => Ok(Vec::from_slice(alloc, b"VERIFIED\n")?),
        LogAnswer::Rejected(step) => number_line(alloc, b"REJECTED ", step),
        LogAnswer::BadFormula(at) => numbered_text(alloc, Code::BadDimacs, at),
        LogAnswer::BadLog(at) => numbered_text(alloc, Code::BadLrat, at),
    }
}

/// The last line of a report.
pub fn total_text(
    alloc: Global,
    rows: usize,
    proved: usize,
    refuted: usize,
) -> Result<Vec<u8>, NoMemory>
    ensures { IfOk result (λ v. v.items ≡ spec.total_of rows proved refuted) }
{
    let mut buffer = Buffer::new();
    let mut made = Vec::from_slice(alloc, b"TOTAL ")?;
    made.extend_from_slice(buffer.format(rows).as_bytes())?;
    made.extend_from_slice(b" proved ")?;
    made.extend_from_slice(buffer.format(proved).as_bytes())?;
    made.extend_from_slice(b" refuted ")?;
    made.extend_from_slice(buffer.format(refuted).as_bytes())?;
    made.extend_from_slice(b" open 0 spent 0 large 0\n")?;
    Ok(made)
}

// The line of an input with value 1 in cycle 0.
fn input_line(
    alloc: Global,
    top: &[u8],
    names: &Names<'_>,
    port: usize,
) -> Result<Vec<u8>, NoMemory>
    ensures { IfOk result (λ v. v.items ≡ spec.input_line top.now (listed names.now) (0, bit port 0)) }
{
    let mut buffer = Buffer::new();
    let mut made = Vec::from_slice(alloc, b"  input ")?;
    made.extend_from_slice(buffer.format(CYCLE).as_bytes())?;
    made.extend_from_slice(b" ")?;
    made.extend_from_slice(top)?;
    made.extend_from_slice(b".")?;
    made.extend_from_slice(names.name(port))?;
    made.extend_from_slice(b" 1\n")?;
    Ok(made)
}

// The text of a refuted row: its line, and a line for the input that is 1.
fn refuted_text(
    alloc: Global,
    top: &[u8],
    names: &Names<'_>,
    name: &[u8],
    one: Option<usize>,
) -> Result<Vec<u8>, NoMemory>
    ensures { IfOk result (λ v. v.items ≡ spec.verdict_text top.now (listed names.now) name.now (refuted 0 (ones one))) }
{
    let mut buffer = Buffer::new();
    let mut made = Vec::from_slice(alloc, b"REFUTED ")?;
    made.extend_from_slice(name)?;
    made.extend_from_slice(b" launch ")?;
    made.extend_from_slice(buffer.format(CYCLE).as_bytes())?;
    made.extend_from_slice(b"\n")?;
    let Some(port) = one else {
        return Ok(made);
    };
    let line = input_line(alloc, top, names, port)?;
    made.extend_from_slice(line.as_slice())?;
    Ok(made)
}

/// The text of a row with its verdict.
pub fn row_text(
    alloc: Global,
    top: &[u8],
    names: &Names<'_>,
    row: Line<'_>,
    verdict: Verdict,
) -> Result<Vec<u8>, NoMemory>
    ensures { IfOk result (λ v. v.items ≡ spec.verdict_text top.now (listed names.now) (seen_row row.entry).name (seen_verdict verdict)) }
{
    match verdict {
        Verdict::Proved => line(alloc, b"PROVED ", row.name),
        Verdict::Refuted(one) => refuted_text(alloc, top, names, row.name, one),
    }
}
