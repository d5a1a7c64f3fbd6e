ghost use Rattle.std.specs.Prelude.{◌≡◌, ◌||◌, ◌++◌, ◌∷◌, ◌≤◌, [], false, max, IfOk, map};
ghost use Rattle.vl_size.specs.Placed as spec;
ghost use Rattle.vl_size.specs.Sizings.{common as common_of, node_of, parts_of};
ghost use Rattle.vl_size.specs.Placed.{placing};
ghost use Rattle.vl_size.specs.Descents.{behind, placed_at, placed_frames, depth_of_frames};
ghost use Rattle.vl_size.specs.declared.tree.Sizing.{size-Sizing};

use crate::sizes::SizedExpr;
use crate::tree::{Narrow, Node, Operands, Size, Sizing};
use bits_core::{Items, NoMemory};
use std::alloc::Global;

fn longer(a: u32, b: u32) -> u32
    ensures { result ≡ max a b }
{
    if a < b { b } else { a }
}

/// The largest length of the parts, with a sign where all have one.
pub fn common(parts: &[Sizing]) -> Size
    ensures { result ≡ common_of (map node_of parts.now) }
{
    let mut length: u32 = 0;
    let mut signed = true;
    for part in parts {
        length = longer(length, part.node.size.length);
        signed = signed && part.node.size.signed;
    }
    Size { length, signed }
}

/// The context of an expression by itself.
pub fn alone(node: Node) -> Size
    ensures { result ≡ spec.alone node }
{
    Size {
        length: longer(node.least, node.size.length),
        signed: node.size.signed,
    }
}

/// What the parts of an expression have for a context.
#[derive(Clone, Copy)]
pub struct Outer {
    pub operands: Operands,
    pub common: Size,
    pub context: Size,
}

/// The context of a part, the first one or another.
pub fn context_of(outer: Outer, first: bool, part: Node) -> Size
    ensures { result ≡ spec.context outer.operands outer.common outer.context first part }
{
    match outer.operands {
        Operands::Apart => alone(part),
        Operands::Shared => outer.context,
        Operands::Compared => outer.common,
        Operands::FirstShared => { if first { outer.context } else { alone(part) } }
        Operands::FirstApart => { if first { alone(part) } else { outer.context } }
    }
}

fn first_length(parts: &[Sizing]) -> u32
    ensures { result ≡ spec.first_length (map node_of parts.now) }
{
    match parts {
        [] => 0,
        [first, ..] => first.node.size.length,
    }
}

fn second_length(parts: &[Sizing]) -> u32
    ensures { result ≡ spec.second_length (map node_of parts.now) }
{
    match parts {
        [] => 0,
        [_first, rest @ ..] => first_length(rest),
    }
}

fn is_wide_index(parts: &[Sizing]) -> bool
    ensures { result ≡ spec.is_wide_index (map node_of parts.now) }
{
    for part in parts {
        if !part.node.constant && part.node.size.length > 128 {
            return true;
        }
    }
    false
}

/// Whether the expression itself is arithmetic on more than 128 bits.
pub fn is_wide(narrow: Narrow, context: Size, common: Size, parts: &[Sizing]) -> bool
    requires { common ≡ common_of (map node_of parts.now) }
    ensures { result ≡ spec.is_wide narrow context (map node_of parts.now) }
{
    match narrow {
        Narrow::Nothing => false,
        Narrow::Context => context.length > 128,
        Narrow::Operands => common.length > 128,
        Narrow::Second => second_length(parts) > 128,
        Narrow::ContextAndSecond => context.length > 128 || second_length(parts) > 128,
        Narrow::VariableIndex => is_wide_index(parts),
    }
}

fn either(first: bool, second: bool) -> bool
    ensures { result ≡ (first || second) }
{
    first || second
}

/// An expression on the way down to the first operand of all, in its context.
#[derive(Clone, Copy)]
struct Frame<'s> {
    sizing: &'s Sizing,
    context: Size,
}

/// The way down along first parts: the expressions that have parts, the outermost first, and the one that has none.
#[derive(Drop)]
struct Descent<'s> {
    frames: Vec<Frame<'s>>,
    last: Frame<'s>,
}

fn outer_of(sizing: &Sizing, context: Size) -> Outer
    ensures operands { result.operands ≡ (node_of sizing.now).operands }
    ensures common { result.common ≡ common_of (map node_of (parts_of sizing.now)) }
    ensures context { result.context ≡ context }
{
    Outer {
        operands: sizing.node.operands,
        common: common(sizing.parts.as_slice()),
        context,
    }
}

/// Down along first parts, each in its context.
fn descend<'s>(alloc: Global, sizing: &'s Sizing, context: Size) -> Result<Descent<'s>, NoMemory>
    ensures whole { IfOk result (λ d. placed_frames (placed_at d.last.sizing.now d.last.context) d.frames.items ≡ placed_at sizing.now context) }
    ensures last { IfOk result (λ d. parts_of d.last.sizing.now ≡ []) }
    ensures frames { IfOk result (λ d. depth_of_frames d.frames.items ≤ size-Sizing sizing.now) }
{
    let mut here = sizing;
    let mut outer = context;
    let mut frames = Vec::new(alloc);
    while let [first, ..] = here.parts.as_slice() {
        frames.push(Frame {
            sizing: here,
            context: outer,
        })?;
        outer = context_of(outer_of(here, outer), true, first.node);
        here = first;
    }
    let last = Frame {
        sizing: here,
        context: outer,
    };
    Ok(Descent { frames, last })
}

fn is_wide_at(sizing: &Sizing, context: Size) -> bool
    ensures { result ≡ spec.is_wide (node_of sizing.now).narrow context (map node_of (parts_of sizing.now)) }
{
    let parts = sizing.parts.as_slice();
    is_wide(sizing.node.narrow, context, common(parts), parts)
}

fn sized_of(context: Size, parts: Items<SizedExpr>) -> SizedExpr
    ensures { result ≡ spec.sized context parts }
{
    SizedExpr {
        length: context.length,
        signed: context.signed,
        parts,
    }
}

fn only(alloc: Global, first: SizedExpr) -> Result<Items<SizedExpr>, NoMemory>
    ensures { IfOk result (λ all. all ≡ first ∷ []) }
{
    let mut all = Items::new(alloc);
    all.push(first)?;
    Ok(all)
}

/// An expression in its context, and whether it or a part is arithmetic on more than 128 bits. Linear in the tree; a chain of first parts takes no stack.
#[cycle(placed)]
pub fn placed(alloc: Global, sizing: &Sizing, context: Size) -> Result<(SizedExpr, bool), NoMemory>
    ensures sized { IfOk result (λ r. r.0 ≡ (placing sizing.now).sized context) }
    ensures wide { IfOk result (λ r. r.1 ≡ (placing sizing.now).wide context) }
{
    let Descent { mut frames, last } = descend(alloc, sizing, context)?;
    let mut all = sized_of(last.context, Items::new(alloc));
    let mut wide = is_wide_at(last.sizing, last.context);
    while let Some(frame) = frames.pop() {
        let here = either(is_wide_at(frame.sizing, frame.context), wide);
        let others = behind_first(frame.sizing.parts.as_slice());
        let outer = outer_of(frame.sizing, frame.context);
        let (parts, below) = placed_parts(alloc, others, outer, only(alloc, all)?, here)?;
        all = sized_of(frame.context, parts);
        wide = below;
    }
    Ok((all, wide))
}

fn behind_first(parts: &[Sizing]) -> &[Sizing]
    ensures { result.now ≡ behind parts.now }
{
    match parts {
        [] => parts,
        [_first, rest @ ..] => rest,
    }
}

/// The parts behind the first one.
#[cycle(placed)]
fn placed_parts(
    alloc: Global,
    parts: &[Sizing],
    outer: Outer,
    before: Items<SizedExpr>,
    here: bool,
) -> Result<(Items<SizedExpr>, bool), NoMemory>
    ensures sized { IfOk result (λ r. r.0 ≡ before ++ spec.sized_each outer.operands outer.common outer.context false (map placing parts.now)) }
    ensures wide { IfOk result (λ r. r.1 ≡ spec.is_some_wide outer.operands outer.common outer.context false here (map placing parts.now)) }
{
    let mut all = before;
    let mut wide = here;
    for part in parts {
        let (sized, below) = placed(alloc, part, context_of(outer, false, part.node))?;
        all.push(sized)?;
        wide = either(wide, below);
    }
    Ok((all, wide))
}
