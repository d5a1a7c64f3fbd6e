ghost use Rattle.std.specs.Prelude.{◌≡◌, ◌<◌, ◌||◌, false, IfOk, length, slice_index_or};
ghost use Rattle.design_core.specs.Designs as designs;
ghost use Rattle.design_core.specs.Parts as parts;
ghost use Rattle.blackbox_cut.specs.Boxes.{AreBoxed, AreHere, is_among};

use bits_core::{Duplicate, Items, NoMemory};
use design_core::{Design, Item, ItemList, Scope, ScopeNumbers};
use std::alloc::Global;

fn scope_of(item: &Item) -> u32
    ensures { result ≡ parts.scope_of item.now }
{
    match item {
        Item::Assign { scope, .. } => *scope,
        Item::Comb { scope, .. } => *scope,
        Item::Clocked { scope, .. } => *scope,
    }
}

/// Marks the boxes themselves.
fn mark_boxes(alloc: Global, count: usize, closed: &[u32]) -> Result<Vec<bool>, NoMemory>
    ensures length { IfOk result (λ r. length r.items ≡ count) }
    ensures here { IfOk result (λ r. AreHere (is_among closed.now) r.items) }
{
    let mut marks = vec![in alloc; false; count]?;
    for number in closed {
        let scope = *number as usize;
        if scope < marks.len() {
            marks[scope] = true;
        }
    }
    Ok(marks)
}

/// Whether a scope or the one round it is marked.
fn is_marked(marks: &[bool], scope: usize, parent: Option<u32>) -> bool
    requires { scope < length marks.now }
    ensures { result ≡ (slice_index_or marks.now scope false || parts.where_some (λ p. slice_index_or marks.now p false) parent) }
{
    if marks[scope] {
        return true;
    }
    match parent {
        None => false,
        Some(parent) => match marks.get(parent as usize) {
            Some(mark) => *mark,
            None => false,
        },
    }
}

/// Of each scope whether it is one of the boxes or stands inside one. Linear in the scopes and the boxes.
pub fn boxed_scopes(
    alloc: Global,
    design: &Design,
    closed: &ScopeNumbers,
) -> Result<Vec<bool>, NoMemory>
    ensures { IfOk result (λ r. AreBoxed design.now.scopes (is_among closed.now) r.items) }
{
    let scopes = design.scopes.as_slice();
    let mut marks = mark_boxes(alloc, scopes.len(), closed.as_slice())?;
    for at in 0..scopes.len() {
        let mark = is_marked(marks.as_slice(), at, scopes[at].parent);
        marks[at] = mark;
    }
    Ok(marks)
}

/// The items of a design where some boxes are closed: those of each scope that is no box and stands inside none, in their order. Linear in what is copied, the
/// items, the scopes and the boxes.
pub fn cut_items(
    alloc: Global,
    design: &Design,
    closed: &ScopeNumbers,
) -> Result<ItemList, NoMemory>
    ensures { IfOk result (λ r. r ≡ designs.cut_items design.now (is_among closed.now)) }
{
    let marks = boxed_scopes(alloc, design, closed)?;
    let mut all = Items::new(alloc);
    for item in design.items.as_slice() {
        let scope = scope_of(item) as usize;
        if !marks[scope] {
            all.push(item.copy(alloc)?)?;
        }
    }
    Ok(all)
}
