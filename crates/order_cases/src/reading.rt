use crate::fits::links;
use bits_core::{Items, NoMemory};
use item_order::{Links, Span, SpanList};
use std::alloc::Global;

// `FROM-TO`.
fn span(text: &str) -> Option<Span> {
    let (from, to) = text.split_once('-')?;
    Some(Span {
        from: from.parse::<u32>().ok()?,
        to: to.parse::<u32>().ok()?,
    })
}

/// Spans with commas between them, or `.` for none.
pub fn spans(alloc: Global, text: &str) -> Result<Option<Vec<Span>>, NoMemory> {
    let mut all = Vec::new(alloc);
    if text == "." {
        return Ok(Some(all));
    }
    for part in text.split(',') {
        match span(part) {
            None => return Ok(None),
            Some(span) => all.push(span)?,
        }
    }
    Ok(Some(all))
}

// What each item reads.
fn reads(alloc: Global, text: &str) -> Result<Option<Vec<SpanList>>, NoMemory> {
    let mut all = Vec::new(alloc);
    for word in text.split_whitespace() {
        match spans(alloc, word)? {
            None => return Ok(None),
            Some(read) => all.push(Items::of(read))?,
        }
    }
    Ok(Some(all))
}

// Who drives each bit.
fn drivers(alloc: Global, text: &str) -> Result<Option<Vec<Option<u32>>>, NoMemory> {
    let mut all = Vec::new(alloc);
    for word in text.split_whitespace() {
        let driver = word.parse::<u32>().ok();
        if driver.is_none() && word != "." {
            return Ok(None);
        }
        all.push(driver)?;
    }
    Ok(Some(all))
}

/// What the items read and who drives the bits, where they fit.
pub fn read_links(alloc: Global, read: &str, driven: &str) -> Result<Option<Links>, NoMemory> {
    let Some(reads) = reads(alloc, read)? else {
        return Ok(None);
    };
    let Some(drivers) = drivers(alloc, driven)? else {
        return Ok(None);
    };
    Ok(links(reads, drivers))
}
