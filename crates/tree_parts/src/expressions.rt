ghost use Rattle.std.specs.Prelude.{◌≡◌, ◌++◌, IfOk, MatchOption, OnOk};
ghost use Rattle.tree_parts.specs.Parts.{IsNoSignal, operands_of, seen};

use bits_core::NoMemory;
use design_core::{DExpr, DNode};
use std::alloc::Global;

/// The signal that an expression is, if it is one.
pub fn signal_of(e: &DExpr) -> Option<u32>
    ensures { MatchOption result (IsNoSignal e.now) (λ s. e.now.node ≡ DNode.Signal s) }
{
    match &e.node {
        DNode::Signal(s) => Some(*s),
        _ => None,
    }
}

/// Each part is put at the end of a list.
fn push_all<'a>(all: &mut Vec<&'a DExpr>, parts: &'a [DExpr]) -> Result<(), NoMemory>
    ensures { OnOk result (seen all.new.items ≡ seen all.old.items ++ parts.now) }
{
    for at in 0..parts.len() {
        all.push(&parts[at])?;
    }
    Ok(())
}

/// The operands of an expression, from the left; of a select of a signal none, since its bits are taken where they are. Linear in their number.
pub fn operands<'a>(alloc: Global, e: &'a DExpr) -> Result<Vec<&'a DExpr>, NoMemory>
    ensures { IfOk result (λ r. seen r.items ≡ operands_of e.now) }
{
    let mut all = Vec::new(alloc);
    match &e.node {
        DNode::Const(_) => {}
        DNode::Signal(_) => {}
        DNode::Local(_) => {}
        DNode::Select { base, .. } => {
            if signal_of(base.get()).is_none() {
                all.push(base.get())?;
            }
        }
        DNode::SelectAt { base, index, .. } => {
            all.push(base.get())?;
            all.push(index.get())?;
        }
        DNode::Unary { a, .. } => all.push(a.get())?,
        DNode::Extend { a, .. } => all.push(a.get())?,
        DNode::Binary { a, b, .. } => {
            all.push(a.get())?;
            all.push(b.get())?;
        }
        DNode::Mux { c, a, b } => {
            all.push(c.get())?;
            all.push(a.get())?;
            all.push(b.get())?;
        }
        DNode::Concat(parts) => push_all(&mut all, parts.as_slice())?,
        DNode::Repeat { part, .. } => all.push(part.get())?,
        DNode::Call { arguments, .. } => push_all(&mut all, arguments.as_slice())?,
    }
    Ok(all)
}
