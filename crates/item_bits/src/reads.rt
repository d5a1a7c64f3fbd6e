ghost use Rattle.std.specs.Prelude.{◌≡◌, ℕ, OnOk, IfOk};
ghost use Rattle.design_core.specs.Core.{left_reads, reads, stmt_reads};
ghost use Rattle.design_core.specs.Terms.{left as core_left, stmt, term};
ghost use Rattle.item_bits.specs.Pieces.{Adds};
ghost use Rattle.item_bits.specs.Reads.{all_read};
ghost use Rattle.tree_parts.specs.Parts.{seen};

use crate::pieces::{Piece, piece_at};
use crate::spans::span_of;
use bits_core::NoMemory;
use design_core::{DExpr, DLeft, DNode, DStmt};
use std::alloc::Global;
use tree_parts::{asked, children, operands};

/// The bits that an expression reads are added.
#[cycle(walk)]
pub fn add_reads(alloc: Global, e: &DExpr, all: &mut Vec<Piece>) -> Result<(), NoMemory>
    ensures { OnOk result ((size : ℕ → ℕ) → Adds all.old.items all.new.items (reads (term size e.now))) }
{
    if let Some(t) = span_of(e) {
        all.push(piece_at(t.signal, t.size, t.low, t.length))?;
        return Ok(());
    }
    let parts = operands(alloc, e)?;
    add_all(alloc, parts.as_slice(), all)?;
    match &e.node {
        DNode::Call { function, .. } => add_stmt_reads(alloc, &function.get().body, all),
        _ => Ok(()),
    }
}

/// The bits that some expressions read are added.
#[cycle(walk)]
pub fn add_all(alloc: Global, parts: &[&DExpr], all: &mut Vec<Piece>) -> Result<(), NoMemory>
    ensures { OnOk result ((size : ℕ → ℕ) → Adds all.old.items all.new.items (all_read size (seen parts.now))) }
{
    for at in 0..parts.len() {
        add_reads(alloc, parts[at], all)?;
    }
    Ok(())
}

/// The bits that a statement reads are added.
#[cycle(walk)]
pub fn add_stmt_reads(alloc: Global, body: &DStmt, all: &mut Vec<Piece>) -> Result<(), NoMemory>
    ensures { OnOk result ((size : ℕ → ℕ) → Adds all.old.items all.new.items (stmt_reads (stmt size body.now))) }
{
    if let DStmt::Write { left, right, .. } = body {
        add_reads(alloc, right, all)?;
        return add_left_reads(alloc, left, all);
    }
    let parts = asked(alloc, body)?;
    add_all(alloc, parts.as_slice(), all)?;
    let statements = children(alloc, body)?;
    for at in 0..statements.len() {
        add_stmt_reads(alloc, statements[at], all)?;
    }
    Ok(())
}

/// The bits that the indices of a left side read are added.
#[cycle(walk)]
pub fn add_left_reads(alloc: Global, left: &DLeft, all: &mut Vec<Piece>) -> Result<(), NoMemory>
    ensures { OnOk result ((size : ℕ → ℕ) → Adds all.old.items all.new.items (left_reads (core_left size left.now))) }
{
    match left {
        DLeft::Whole { .. } => Ok(()),
        DLeft::Part { .. } => Ok(()),
        DLeft::At { index, .. } => add_reads(alloc, index.get(), all),
        DLeft::Concat(parts) => {
            let parts = parts.as_slice();
            for at in 0..parts.len() {
                add_left_reads(alloc, &parts[at], all)?;
            }
            Ok(())
        }
    }
}
