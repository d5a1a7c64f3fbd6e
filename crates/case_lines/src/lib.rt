//! The reading loop of the programs of cases, which stands once: a line of the input is a case, or a part of one, and each answer is a line of the output.
#![tactic(auto)]

use std::alloc::{AllocError, Global};
use std::io::{self, BufRead, BufReader, Read, Write};

/// What a program of cases answers.
pub trait Cases {
    /// The answer that a line gives, without the end of its line; none where the line is but a part of a case. Fails where memory is wanting.
    fn answer(&mut self, alloc: Global, line: &str) -> Result<Option<Vec<u8>>, AllocError>;
}

/// Reads lines to the end of the input, and writes the answer of each as a line. Linear in the input and the answers. Fails where reading or writing does, where a line is no text, or where memory is wanting.
pub fn answer_lines<R: Read + Drop, W: Write, C: Cases>(
    alloc: Global,
    input: R,
    cases: &mut C,
    out: &mut W,
) -> io::Result<()> {
    for line in BufReader::new(alloc, input)?.lines(alloc) {
        if let Some(mut answer) = cases.answer(alloc, line?.as_str())? {
            answer.push(b'\n')?;
            out.write_all(answer.as_slice())?;
        }
    }
    Ok(())
}
