// Plain tables.
ghost use Rattle.std.specs.Prelude.{◌≡◌, [], ◌∷◌, ◌++◌, true, false, List, Option, Some, None, map, option_map, IfOk};
ghost use Rattle.std.specs.List.{list_all, list_any};
ghost use Rattle.std.specs.Str.{bytes_eq};
ghost use Rattle.plain_form.specs.SeenTable.{seen_row};
ghost use Rattle.plain_form.specs.Names.{listed};
ghost use Rattle.plain_form.specs.Table as spec;

use crate::cut::pieces;
use crate::names::Names;
use bits_core::NoMemory;
use std::alloc::Global;

/// A row of a table: its name, and the places of its source and its destination among the ports.
#[derive(Clone, Copy, Debug)]
pub struct Line<'t> {
    pub name: &'t [u8],
    pub source: usize,
    pub dest: usize,
}

fn is_row_byte(byte: u8) -> bool
    ensures { result ≡ spec.is_row_byte byte }
{
    32 < byte && byte < 127 && byte != b'"'
}

fn are_row_bytes(word: &[u8]) -> bool
    ensures { result ≡ list_all spec.is_row_byte word.now }
{
    for byte in word {
        if !is_row_byte(*byte) {
            return false;
        }
    }
    true
}

fn is_row_name(word: &[u8]) -> bool
    ensures { result ≡ spec.is_row_name word.now }
{
    0 < word.len() && word.len() < 129 && are_row_bytes(word)
}

fn is_skipped(line: &[u8]) -> bool
    ensures { result ≡ spec.is_skipped line.now }
{
    match line {
        [] => true,
        [first, ..] => *first == b'#',
    }
}

// The row of these fields.
fn row_of<'t>(names: &Names<'_>, top: &[u8], fields: &[&'t [u8]]) -> Option<Line<'t>>
    ensures { option_map seen_row result ≡ spec.row_of (listed names.now) top.now (map (λ w. w.now) fields.now) }
{
    let [kind, name, source_block, source, dest_block, dest] = fields else {
        return None;
    };
    if *kind != b"CONNECTION".as_slice()
        || !is_row_name(name)
        || *source_block != top
        || *dest_block != top
    {
        return None;
    }
    match (names.place(source), names.place(dest)) {
        (Some(source), Some(dest)) => Some(Line { name, source, dest }),
        _ => None,
    }
}

// One row more, where it is one and its name is new.
fn add_row<'t>(
    rows: &mut Vec<Line<'t>>,
    taken: &mut Names<'t>,
    row: Option<Line<'t>>,
) -> Result<bool, NoMemory>
    requires { listed taken.old ≡ map (λ r. r.name.now) rows.old.items }
    ensures named { IfOk result (λ r. r ≡ true → listed taken.new ≡ map (λ r. r.name.now) rows.new.items) }
    ensures added { IfOk result (λ r. r ≡ true → (next : List spec.Row → Option (List spec.Row))
        → spec.row_then (map seen_row rows.old.items) (option_map seen_row row.entry) next ≡ next (map seen_row rows.new.items)) }
    ensures refused { IfOk result (λ r. r ≡ false → (next : List spec.Row → Option (List spec.Row)) → spec.row_then (map seen_row rows.old.items) (option_map seen_row row.entry) next ≡ None) }
{
    let Some(row) = row else {
        return Ok(false);
    };
    if !taken.add(row.name)? {
        return Ok(false);
    }
    rows.push(row)?;
    Ok(true)
}

/// The rows of a table over the ports of a module, or none where the table is not plain. Linear in the table.
pub fn read_rows<'t>(
    alloc: Global,
    names: &Names<'_>,
    top: &[u8],
    text: &'t [u8],
) -> Result<Option<Vec<Line<'t>>>, NoMemory>
    ensures { IfOk result (λ r. option_map (λ v. map seen_row v.items) r ≡ spec.rows_of (listed names.now) top.now text.entry.now) }
{
    let mut rows = Vec::new(alloc);
    let mut taken = Names::new(alloc);
    let lines = pieces(alloc, text, b'\n')?;
    for line in lines.as_slice() {
        if is_skipped(line) {
            continue;
        }
        let fields = pieces(alloc, line, b',')?;
        let row = row_of(names, top, fields.as_slice());
        if !add_row(&mut rows, &mut taken, row)? {
            return Ok(None);
        }
    }
    if rows.len() > 10_000 {
        return Ok(None);
    }
    Ok(Some(rows))
}
