ghost use Rattle.std.specs.Prelude.{◌≡◌, ◌≤◌, ◌^◌, length};

use bits_core::{Bits, NoMemory};
use case_lines::Cases;
use expr_case_lines::{Failure, put_failure, read_whole};
use std::alloc::{AllocError, Global};
use vl_size::{Const, CountList, SizeTable, SizedExpr, size};

// A signed value of 128 bits.
fn value(alloc: Global, word: &str) -> Result<Const, NoMemory> {
    let number = word.parse::<i128>().unwrap_or(0);
    let size = number.unsigned_abs();
    let low = if number < 0 {
        0u128.wrapping_sub(size)
    } else {
        size
    };
    let bits = Bits::from_u128(alloc, low, 128)?;
    Ok(Const { bits, signed: true })
}

fn values(alloc: Global, words: &str) -> Result<CountList, Failure> {
    let mut all = CountList::new(alloc);
    for word in words.split_whitespace() {
        all.push(value(alloc, word)?)?;
    }
    Ok(all)
}

fn put_sized(alloc: Global, out: &mut Vec<u8>, sized: &SizedExpr) -> Result<(), AllocError> {
    let length = sized.length;
    let digits = format!(in alloc; "{length}")?;
    out.extend_from_slice(digits.as_bytes())?;
    out.push(if sized.signed { b's' } else { b'u' })?;
    if sized.parts.is_empty() {
        return Ok(());
    }
    let mut before = b'(';
    for part in sized.parts.as_slice() {
        out.push(before)?;
        put_sized(alloc, out, part)?;
        before = b' ';
    }
    out.push(b')')?;
    Ok(())
}

fn sized(alloc: Global, names: &SizeTable, line: &str) -> Result<SizedExpr, Failure> {
    let mut fields = line.split(';');
    let context = fields
        .next()
        .unwrap_or("")
        .trim()
        .parse::<u32>()
        .unwrap_or(0);
    let counts = values(alloc, fields.next().unwrap_or(""))?;
    let expr = read_whole(alloc, fields.next().unwrap_or(""))?;
    Ok(size(alloc, &expr, names, &counts, context)?)
}

/// The cases, with the names that they may use.
#[derive(Drop)]
pub struct SizeCases {
    pub names: SizeTable,
}

impl Cases for SizeCases {
    fn answer(&mut self, alloc: Global, line: &str) -> Result<Option<Vec<u8>>, AllocError> {
        let mut out = Vec::new(alloc);
        match sized(alloc, &self.names, line) {
            Ok(sized) => put_sized(alloc, &mut out, &sized)?,
            Err(failure) => put_failure(&mut out, failure)?,
        }
        Ok(Some(out))
    }
}
