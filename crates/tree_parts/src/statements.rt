ghost use Rattle.std.specs.Prelude.{◌≡◌, ◌++◌, IfOk, OnOk, map};
ghost use Rattle.design_core.specs.declared.tree.DArm.{out-DArm};
ghost use Rattle.design_core.specs.declared.tree.DMatch.{out-DMatch};
ghost use Rattle.tree_parts.specs.Parts.{asked_of, children_of, compared_in, heads_of, items_of, seen};

use bits_core::NoMemory;
use design_core::{DArm, DExpr, DMatch, DStmt};
use std::alloc::Global;

/// The values of some items of a `case` are put at the end of a list.
fn push_values<'a>(all: &mut Vec<&'a DExpr>, items: &'a [DMatch]) -> Result<(), NoMemory>
    ensures { OnOk result (seen all.new.items ≡ seen all.old.items ++ map (λ x. (out-DMatch x).value) items.now) }
{
    for at in 0..items.len() {
        all.push(&items[at].value)?;
    }
    Ok(())
}

/// The values of all items of some arms are put at the end of a list.
fn push_items<'a>(all: &mut Vec<&'a DExpr>, arms: &'a [DArm]) -> Result<(), NoMemory>
    ensures { OnOk result (seen all.new.items ≡ seen all.old.items ++ items_of arms.now) }
{
    for at in 0..arms.len() {
        push_values(all, arms[at].matches.as_slice())?;
    }
    Ok(())
}

/// What a statement asks for before it runs a part of it: the test of an `if`, the selector of a `case` and then its items in order
/// (IEEE 1364-2005, 9.4 and 9.5). Linear in their number.
pub fn heads<'a>(alloc: Global, body: &'a DStmt) -> Result<Vec<&'a DExpr>, NoMemory>
    ensures { IfOk result (λ r. seen r.items ≡ heads_of body.now) }
{
    let mut all = Vec::new(alloc);
    match body {
        DStmt::Block(_) => {}
        DStmt::Turns(_) => {}
        DStmt::Write { .. } => {}
        DStmt::If { test, .. } => all.push(test)?,
        DStmt::Case { selector, arms, .. } => {
            all.push(selector)?;
            push_items(&mut all, arms.as_slice())?;
        }
    }
    Ok(all)
}

/// A selector with the items that it is compared with; alone it is compared with nothing.
fn compared<'a>(mut parts: Vec<&'a DExpr>) -> Vec<&'a DExpr>
    ensures { seen result.items ≡ compared_in (seen parts.entry.items) }
{
    if parts.len() == 1 {
        parts.pop();
    }
    parts
}

/// What a statement reads before it runs a part of it: the heads, but a selector that is compared with no item. Linear in their number.
pub fn asked<'a>(alloc: Global, body: &'a DStmt) -> Result<Vec<&'a DExpr>, NoMemory>
    ensures { IfOk result (λ r. seen r.items ≡ asked_of body.now) }
{
    let parts = heads(alloc, body)?;
    match body {
        DStmt::Case { .. } => Ok(compared(parts)),
        _ => Ok(parts),
    }
}

/// Each statement is put at the end of a list.
fn push_parts<'a>(all: &mut Vec<&'a DStmt>, parts: &'a [DStmt]) -> Result<(), NoMemory>
    ensures { OnOk result (seen all.new.items ≡ seen all.old.items ++ parts.now) }
{
    for at in 0..parts.len() {
        all.push(&parts[at])?;
    }
    Ok(())
}

/// The bodies of some arms are put at the end of a list.
fn push_bodies<'a>(all: &mut Vec<&'a DStmt>, arms: &'a [DArm]) -> Result<(), NoMemory>
    ensures { OnOk result (seen all.new.items ≡ seen all.old.items ++ map (λ a. (out-DArm a).body) arms.now) }
{
    for at in 0..arms.len() {
        all.push(&arms[at].body)?;
    }
    Ok(())
}

/// The statements that a statement runs, in order: all parts of a block, both branches of an `if`, the bodies of the arms of a `case`
/// and then of its default. Linear in their number.
pub fn children<'a>(alloc: Global, body: &'a DStmt) -> Result<Vec<&'a DStmt>, NoMemory>
    ensures { IfOk result (λ r. seen r.items ≡ children_of body.now) }
{
    let mut all = Vec::new(alloc);
    match body {
        DStmt::Block(parts) => push_parts(&mut all, parts.as_slice())?,
        DStmt::Turns(parts) => push_parts(&mut all, parts.as_slice())?,
        DStmt::Write { .. } => {}
        DStmt::If { yes, no, .. } => {
            all.push(yes.get())?;
            all.push(no.get())?;
        }
        DStmt::Case { arms, rest, .. } => {
            push_bodies(&mut all, arms.as_slice())?;
            if let Some(rest) = rest {
                all.push(rest.get())?;
            }
        }
    }
    Ok(all)
}
