ghost use Rattle.std.specs.Prelude.{◌≡◌, ◌≤◌, IfSome};
ghost use Rattle.vl_size.specs.Sizings.{sizing_of, parts_of};
ghost use Rattle.vl_size.specs.declared.tree.Sizing.{size-Sizing};
ghost use denote.Param.Weighed.{most};

use bits_core::Items;
use vl_tree::Code;

/// A length in bits and a sign.
#[derive(Clone, Copy, Debug, PartialEq, Eq)]
pub struct Size {
    pub length: u32,
    pub signed: bool,
}

/// From where the operands of an expression take their lengths and signs (IEEE 1364-2005, 5.4.1).
#[derive(Clone, Copy, Debug, PartialEq, Eq)]
pub enum Operands {
    /// Each is by itself.
    Apart,
    /// All are in the context of the expression.
    Shared,
    /// All are at their largest length, a context of their own.
    Compared,
    /// The first is in the context, the others are by themselves.
    FirstShared,
    /// The first is by itself, the others are in the context.
    FirstApart,
}

/// What of an expression is arithmetic, which has at most 128 bits.
#[derive(Clone, Copy, Debug, PartialEq, Eq)]
pub enum Narrow {
    Nothing,
    Context,
    Operands,
    Second,
    ContextAndSecond,
    VariableIndex,
}

/// What is known of an expression before it has a context.
#[derive(Clone, Copy, Debug)]
pub struct Node {
    /// Its own length and sign; where a fault hides the length it is 1.
    pub size: Size,
    /// The least length of its context where it is by itself: for an argument, that of the function's input.
    pub least: u32,
    pub operands: Operands,
    pub narrow: Narrow,
    /// It reads no signal and calls no function.
    pub constant: bool,
    /// The lowest code among the faults of names, lengths and ranges, in it and in its parts.
    pub fault: Option<Code>,
}

/// An expression before it has a context, with its parts: the inner expressions in source order, but for counts, bounds and widths.
pub struct Sizing {
    pub node: Node,
    pub parts: Items<Sizing>,
}

impl Sizing {
    /// The same parts, with this known of the expression.
    pub fn with_node(self, node: Node) -> Sizing
        ensures { result ≡ sizing_of node (parts_of self) }
    {
        let Sizing { node: _, parts } = self;
        Sizing { node, parts }
    }
}

impl Drop for Sizing {
    /// Lets go of a chain of first parts by a loop, so that its length takes no stack.
    #[cycle(sizing)]
    fn drop(mut self) {
        loop {
            let Sizing { node: _, parts } = self;
            match first_of(parts) {
                None => return,
                Some(first) => self = first,
            }
        }
    }
}

/// The first part alone; the others are let go of.
#[cycle(sizing)]
fn first_of(parts: Items<Sizing>) -> Option<Sizing>
    ensures { IfSome result (λ first. size-Sizing first ≤ most size-Sizing parts) }
{
    let mut list = parts.into_vec();
    let mut first = None;
    while let Some(part) = list.pop() {
        first = Some(part);
    }
    list.destroy_empty();
    first
}
