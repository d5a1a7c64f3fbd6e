use crate::signals::{scopes, signals};
use bits_core::NoMemory;
use case_lines::Cases;
use design_names::{first_alike, first_scope_alike};
use std::alloc::{AllocError, Global};

// The place of the first that prints like an earlier one, or that none does.
fn put_place(alloc: Global, out: &mut Vec<u8>, place: Option<usize>) -> Result<(), NoMemory> {
    match place {
        None => out.push(b'-')?,
        Some(place) => {
            let digits = format!(in alloc; "{place}")?;
            out.extend_from_slice(digits.as_bytes())?;
        }
    }
    Ok(())
}

fn put_answer(alloc: Global, out: &mut Vec<u8>, line: &str) -> Result<bool, NoMemory> {
    let Some((kind, paths)) = line.split_once(' ') else {
        return Ok(false);
    };
    if kind == "scopes" {
        let all = scopes(alloc, paths)?;
        put_place(alloc, out, first_scope_alike(alloc, all.as_slice())?)?;
        return Ok(true);
    }
    if kind != "signals" {
        return Ok(false);
    }
    let Some(all) = signals(alloc, paths)? else {
        return Ok(false);
    };
    put_place(alloc, out, first_alike(alloc, all.as_slice())?)?;
    Ok(true)
}

/// Answers a line.
#[derive(Drop)]
pub struct Names;

impl Cases for Names {
    fn answer(&mut self, alloc: Global, line: &str) -> Result<Option<Vec<u8>>, AllocError> {
        let mut out = Vec::new(alloc);
        match put_answer(alloc, &mut out, line) {
            Ok(true) => {}
            Ok(false) => out.push(b'?')?,
            Err(NoMemory) => out.extend_from_slice(b"no memory")?,
        }
        Ok(Some(out))
    }
}
