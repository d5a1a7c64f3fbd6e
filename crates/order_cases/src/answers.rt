use crate::fits::end_all;
use crate::reading::{read_links, spans};
use bits_core::NoMemory;
use case_lines::Cases;
use item_order::{Links, Span, arrange, slice};
use std::alloc::{AllocError, Global};

fn put_number(alloc: Global, out: &mut Vec<u8>, number: u64) -> Result<(), NoMemory> {
    let text = format!(in alloc; " {number}")?;
    out.extend_from_slice(text.as_bytes())?;
    Ok(())
}

fn put_numbers(alloc: Global, out: &mut Vec<u8>, numbers: &[u32]) -> Result<(), NoMemory> {
    for number in numbers {
        put_number(alloc, out, u64::from(*number))?;
    }
    Ok(())
}

// The numbers of the marked items.
fn put_marked(alloc: Global, out: &mut Vec<u8>, marks: &[bool]) -> Result<(), NoMemory> {
    for item in 0..marks.len() {
        if marks[item] {
            put_number(alloc, out, item as u64)?;
        }
    }
    Ok(())
}

// An order where there is one, else what stands on circles.
fn put_order(alloc: Global, out: &mut Vec<u8>, links: &Links) -> Result<(), NoMemory> {
    let arranged = arrange(alloc, links)?;
    if arranged.circular.iter().all(|circular| !*circular) {
        out.extend_from_slice(b"; order")?;
        put_numbers(alloc, out, arranged.order.as_slice())
    } else {
        out.extend_from_slice(b"; circles")?;
        put_marked(alloc, out, arranged.circular.as_slice())
    }
}

// The slice in ascending order, where there are such bits.
#[tactic(auto, using(crate::proofs::FitLaws::all_end))]
fn put_slice(
    alloc: Global,
    out: &mut Vec<u8>,
    links: &Links,
    wanted: &[Span],
) -> Result<bool, NoMemory> {
    if !end_all(wanted, links.drivers.len()) {
        return Ok(false);
    }
    let mut members = slice(alloc, links, wanted)?;
    members.sort_unstable();
    out.extend_from_slice(b"slice")?;
    put_numbers(alloc, out, members.as_slice())?;
    Ok(true)
}

fn put_answer(alloc: Global, out: &mut Vec<u8>, line: &str) -> Result<bool, NoMemory> {
    let Some((read, rest)) = line.split_once(';') else {
        return Ok(false);
    };
    let Some((driven, wanted)) = rest.split_once(';') else {
        return Ok(false);
    };
    let Some(links) = read_links(alloc, read, driven)? else {
        return Ok(false);
    };
    let Some(wanted) = spans(alloc, wanted.trim())? else {
        return Ok(false);
    };
    if !put_slice(alloc, out, &links, wanted.as_slice())? {
        return Ok(false);
    }
    put_order(alloc, out, &links)?;
    Ok(true)
}

/// Answers a line.
#[derive(Drop)]
pub struct Orders;

impl Cases for Orders {
    fn answer(&mut self, alloc: Global, line: &str) -> Result<Option<Vec<u8>>, AllocError> {
        let mut out = Vec::new(alloc);
        match put_answer(alloc, &mut out, line) {
            Ok(true) => {}
            Ok(false) => out.push(b'?')?,
            Err(NoMemory) => out.extend_from_slice(b"no memory")?,
        }
        Ok(Some(out))
    }
}
