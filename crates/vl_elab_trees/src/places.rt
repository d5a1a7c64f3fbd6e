ghost use Rattle.std.specs.Prelude.{◌≡◌, IfOk};
ghost use Rattle.std.specs.Option.{option_copied};
ghost use Rattle.vl_elab_trees.specs.Built as spec;

use bits_core::NoMemory;
use design_core::{DExpr, DNode};
use sqlite_items::Boxed;
use std::alloc::Global;
use vl_const::places::{aim_of, low_at};
use vl_const::{Aim, Way};
use vl_size::SizeEntry;

/// The index of a select: its value, if that is not too large, or an expression.
#[derive(Drop)]
pub enum Index {
    Fixed(Option<i64>),
    Variable(DExpr),
}

fn selected_in(alloc: Global, base: DExpr, aim: Aim, index: Index) -> Result<DNode, NoMemory>
    ensures { IfOk result (λ made. made ≡ spec.selected_in base aim index) }
{
    let base = Boxed::new(alloc, base)?;
    match index {
        Index::Fixed(at) => {
            let low = low_at(aim, at).at;
            Ok(DNode::Select { base, low })
        }
        Index::Variable(index) => {
            let index = Boxed::new(alloc, index)?;
            let Aim { offset, down } = aim;
            Ok(DNode::SelectAt {
                base,
                index,
                offset,
                down,
            })
        }
    }
}

fn whole_name(leaf: DNode, entry: &SizeEntry) -> DExpr
    ensures { result ≡ spec.whole_name leaf entry.now }
{
    DExpr {
        length: entry.length,
        signed: entry.signed,
        node: leaf,
    }
}

/// A select of a name.
pub fn selected(
    alloc: Global,
    leaf: DNode,
    entry: Option<&SizeEntry>,
    place: (Way, Index),
) -> Result<DNode, NoMemory>
    ensures { IfOk result (λ made. made ≡ spec.selected leaf (option_copied entry.entry) place) }
{
    match entry {
        None => Ok(leaf),
        Some(entry) => {
            let (way, index) = place;
            selected_in(alloc, whole_name(leaf, entry), aim_of(entry, way), index)
        }
    }
}
