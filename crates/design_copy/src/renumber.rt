ghost use Rattle.std.specs.Prelude.{◌≡◌, IfOk, map};
ghost use Rattle.std.specs.Option.{option_map};
ghost use Rattle.design_core.specs.Renamed.{moved};
ghost use Rattle.design_core.specs.Renumbered.{number_in, reset_again, renumbered_item, renumbered_reset, renumbered_arm, renumbered_base, renumbered_expr, renumbered_function, renumbered_left, renumbered_match, renumbered_node, renumbered_stmt};

use bits_core::{Bits, Duplicate, Items, NoMemory};
use design_core::{
    Binary, BitRef, DArm, DArmList, DBase, DExpr, DExprList, DFunction, DLeft, DLeftList, DMatch,
    DMatchList, DNode, DReset, DStmt, DStmtList, Item,
};
use sqlite_items::Boxed;
use std::alloc::Global;

/// The number that a list gives a signal: its entry, or the number itself where the list has none.
fn number_of(signal: u32, numbers: &[u32]) -> u32
    ensures { result ≡ number_in numbers.now signal }
{
    match numbers.get(signal as usize) {
        Some(number) => *number,
        None => signal,
    }
}

fn renumber_base(base: DBase, numbers: &[u32]) -> DBase
    ensures { result ≡ renumbered_base (number_in numbers.now) base }
{
    match base {
        DBase::Signal(s) => DBase::Signal(number_of(s, numbers)),
        DBase::Local(k) => DBase::Local(k),
    }
}

/// A copy of an expression in which each signal has the number that a list gives it: its entry, or where the list is too short its own number.
/// Linear in the size of the tree, as all of these.
#[cycle(renumbers)]
pub fn renumber_expr(alloc: Global, e: &DExpr, numbers: &[u32]) -> Result<DExpr, NoMemory>
    ensures { IfOk result (λ copied. copied ≡ renumbered_expr (number_in numbers.now) e.now) }
{
    let node = renumber_node(alloc, &e.node, numbers)?;
    Ok(DExpr {
        length: e.length,
        signed: e.signed,
        node,
    })
}

#[cycle(renumbers)]
fn renumber_boxed(alloc: Global, e: &DExpr, numbers: &[u32]) -> Result<Boxed<DExpr>, NoMemory>
    ensures { IfOk result (λ copied. copied ≡ renumbered_expr (number_in numbers.now) e.now) }
{
    let copied = renumber_expr(alloc, e, numbers)?;
    Ok(Boxed::new(alloc, copied)?)
}

#[cycle(renumbers)]
pub fn renumber_node(alloc: Global, node: &DNode, numbers: &[u32]) -> Result<DNode, NoMemory>
    ensures { IfOk result (λ copied. copied ≡ renumbered_node (number_in numbers.now) node.now) }
{
    match node {
        DNode::Const(bits) => Ok(DNode::Const(Bits::copy(alloc, bits)?)),
        DNode::Signal(s) => Ok(DNode::Signal(number_of(*s, numbers))),
        DNode::Local(k) => Ok(DNode::Local(*k)),
        DNode::Select { base, low } => Ok(DNode::Select {
            base: renumber_boxed(alloc, base.get(), numbers)?,
            low: *low,
        }),
        DNode::SelectAt {
            base,
            index,
            offset,
            down,
        } => {
            let base = renumber_boxed(alloc, base.get(), numbers)?;
            finish_select_at(alloc, index.get(), base, *offset, *down, numbers)
        }
        DNode::Unary { op, a } => Ok(DNode::Unary {
            op: *op,
            a: renumber_boxed(alloc, a.get(), numbers)?,
        }),
        DNode::Binary { op, a, b } => {
            let a = renumber_boxed(alloc, a.get(), numbers)?;
            finish_binary(alloc, b.get(), *op, a, numbers)
        }
        DNode::Mux { c, a, b } => {
            let c = renumber_boxed(alloc, c.get(), numbers)?;
            let a = renumber_boxed(alloc, a.get(), numbers)?;
            finish_mux(alloc, b.get(), c, a, numbers)
        }
        DNode::Extend { a, by_sign } => Ok(DNode::Extend {
            a: renumber_boxed(alloc, a.get(), numbers)?,
            by_sign: *by_sign,
        }),
        DNode::Concat(parts) => Ok(DNode::Concat(renumber_exprs(
            alloc,
            parts.as_slice(),
            numbers,
        )?)),
        DNode::Repeat { count, part } => Ok(DNode::Repeat {
            count: *count,
            part: renumber_boxed(alloc, part.get(), numbers)?,
        }),
        DNode::Call {
            function,
            arguments,
        } => {
            let function = renumber_called(alloc, function.get(), numbers)?;
            finish_call(alloc, arguments.as_slice(), function, numbers)
        }
    }
}

#[cycle(renumbers)]
fn finish_select_at(
    alloc: Global,
    index: &DExpr,
    base: Boxed<DExpr>,
    offset: i64,
    down: bool,
    numbers: &[u32],
) -> Result<DNode, NoMemory>
    ensures { IfOk result (λ copied. copied ≡ DNode.SelectAt base (renumbered_expr (number_in numbers.now) index.now) offset down) }
{
    let index = renumber_boxed(alloc, index, numbers)?;
    Ok(DNode::SelectAt {
        base,
        index,
        offset,
        down,
    })
}

#[cycle(renumbers)]
fn finish_binary(
    alloc: Global,
    b: &DExpr,
    op: Binary,
    a: Boxed<DExpr>,
    numbers: &[u32],
) -> Result<DNode, NoMemory>
    ensures { IfOk result (λ copied. copied ≡ DNode.Binary op a (renumbered_expr (number_in numbers.now) b.now)) }
{
    let b = renumber_boxed(alloc, b, numbers)?;
    Ok(DNode::Binary { op, a, b })
}

#[cycle(renumbers)]
fn finish_mux(
    alloc: Global,
    b: &DExpr,
    c: Boxed<DExpr>,
    a: Boxed<DExpr>,
    numbers: &[u32],
) -> Result<DNode, NoMemory>
    ensures { IfOk result (λ copied. copied ≡ DNode.Mux c a (renumbered_expr (number_in numbers.now) b.now)) }
{
    let b = renumber_boxed(alloc, b, numbers)?;
    Ok(DNode::Mux { c, a, b })
}

#[cycle(renumbers)]
fn finish_call(
    alloc: Global,
    arguments: &[DExpr],
    function: Boxed<DFunction>,
    numbers: &[u32],
) -> Result<DNode, NoMemory>
    ensures { IfOk result (λ copied. copied ≡ DNode.Call function (map (renumbered_expr (number_in numbers.now)) arguments.now)) }
{
    let arguments = renumber_exprs(alloc, arguments, numbers)?;
    Ok(DNode::Call {
        function,
        arguments,
    })
}

#[cycle(renumbers)]
fn renumber_called(
    alloc: Global,
    function: &DFunction,
    numbers: &[u32],
) -> Result<Boxed<DFunction>, NoMemory>
    ensures { IfOk result (λ copied. copied ≡ renumbered_function (number_in numbers.now) function.now) }
{
    let copied = renumber_function(alloc, function, numbers)?;
    Ok(Boxed::new(alloc, copied)?)
}

#[cycle(renumbers)]
fn renumber_exprs(alloc: Global, parts: &[DExpr], numbers: &[u32]) -> Result<DExprList, NoMemory>
    ensures { IfOk result (λ copied. copied ≡ map (renumbered_expr (number_in numbers.now)) parts.now) }
{
    let mut copied = Items::new(alloc);
    for part in parts {
        copied.push(renumber_expr(alloc, part, numbers)?)?;
    }
    Ok(copied)
}

#[cycle(renumbers)]
pub fn renumber_function(
    alloc: Global,
    function: &DFunction,
    numbers: &[u32],
) -> Result<DFunction, NoMemory>
    ensures { IfOk result (λ copied. copied ≡ renumbered_function (number_in numbers.now) function.now) }
{
    let inputs = function.inputs.copy(alloc)?;
    let locals = function.locals.copy(alloc)?;
    let body = renumber_stmt(alloc, &function.body, numbers)?;
    Ok(DFunction {
        length: function.length,
        signed: function.signed,
        inputs,
        locals,
        body,
    })
}

/// A copy of a left side with signals numbered anew.
#[cycle(renumbers)]
pub fn renumber_left(alloc: Global, left: &DLeft, numbers: &[u32]) -> Result<DLeft, NoMemory>
    ensures { IfOk result (λ copied. copied ≡ renumbered_left (number_in numbers.now) left.now) }
{
    match left {
        DLeft::Whole { base, length } => Ok(DLeft::Whole {
            base: renumber_base(*base, numbers),
            length: *length,
        }),
        DLeft::Part { base, low, length } => Ok(DLeft::Part {
            base: renumber_base(*base, numbers),
            low: *low,
            length: *length,
        }),
        DLeft::At {
            base,
            index,
            offset,
            down,
            length,
        } => Ok(DLeft::At {
            base: renumber_base(*base, numbers),
            index: renumber_boxed(alloc, index.get(), numbers)?,
            offset: *offset,
            down: *down,
            length: *length,
        }),
        DLeft::Concat(parts) => Ok(DLeft::Concat(renumber_lefts(
            alloc,
            parts.as_slice(),
            numbers,
        )?)),
    }
}

#[cycle(renumbers)]
fn renumber_lefts(alloc: Global, parts: &[DLeft], numbers: &[u32]) -> Result<DLeftList, NoMemory>
    ensures { IfOk result (λ copied. copied ≡ map (renumbered_left (number_in numbers.now)) parts.now) }
{
    let mut copied = Items::new(alloc);
    for part in parts {
        copied.push(renumber_left(alloc, part, numbers)?)?;
    }
    Ok(copied)
}

/// A copy of a statement with signals numbered anew.
#[cycle(renumbers)]
pub fn renumber_stmt(alloc: Global, s: &DStmt, numbers: &[u32]) -> Result<DStmt, NoMemory>
    ensures { IfOk result (λ copied. copied ≡ renumbered_stmt (number_in numbers.now) s.now) }
{
    match s {
        DStmt::Block(parts) => Ok(DStmt::Block(renumber_stmts(alloc, parts.as_slice(), numbers)?)),
        DStmt::Write {
            left,
            right,
            blocking,
        } => {
            let left = renumber_left(alloc, left, numbers)?;
            finish_write(alloc, right, left, *blocking, numbers)
        }
        DStmt::If { test, yes, no } => {
            let test = renumber_expr(alloc, test, numbers)?;
            let yes = renumber_branch(alloc, yes.get(), numbers)?;
            finish_if(alloc, no.get(), test, yes, numbers)
        }
        DStmt::Case {
            selector,
            arms,
            rest,
        } => {
            let selector = renumber_expr(alloc, selector, numbers)?;
            let arms = renumber_arms(alloc, arms.as_slice(), numbers)?;
            finish_case(alloc, rest, selector, arms, numbers)
        }
        DStmt::Turns(parts) => Ok(DStmt::Turns(renumber_stmts(alloc, parts.as_slice(), numbers)?)),
    }
}

#[cycle(renumbers)]
fn finish_write(
    alloc: Global,
    right: &DExpr,
    left: DLeft,
    blocking: bool,
    numbers: &[u32],
) -> Result<DStmt, NoMemory>
    ensures { IfOk result (λ copied. copied ≡ DStmt.Write left (renumbered_expr (number_in numbers.now) right.now) blocking) }
{
    let right = renumber_expr(alloc, right, numbers)?;
    Ok(DStmt::Write {
        left,
        right,
        blocking,
    })
}

#[cycle(renumbers)]
fn renumber_branch(alloc: Global, s: &DStmt, numbers: &[u32]) -> Result<Boxed<DStmt>, NoMemory>
    ensures { IfOk result (λ copied. copied ≡ renumbered_stmt (number_in numbers.now) s.now) }
{
    let copied = renumber_stmt(alloc, s, numbers)?;
    Ok(Boxed::new(alloc, copied)?)
}

#[cycle(renumbers)]
fn finish_if(
    alloc: Global,
    no: &DStmt,
    test: DExpr,
    yes: Boxed<DStmt>,
    numbers: &[u32],
) -> Result<DStmt, NoMemory>
    ensures { IfOk result (λ copied. copied ≡ DStmt.If test yes (renumbered_stmt (number_in numbers.now) no.now)) }
{
    let no = renumber_branch(alloc, no, numbers)?;
    Ok(DStmt::If { test, yes, no })
}

#[cycle(renumbers)]
fn finish_case(
    alloc: Global,
    rest: &Option<Boxed<DStmt>>,
    selector: DExpr,
    arms: DArmList,
    numbers: &[u32],
) -> Result<DStmt, NoMemory>
    ensures { IfOk result (λ copied. copied ≡ DStmt.Case selector arms (option_map (renumbered_stmt (number_in numbers.now)) rest.now)) }
{
    let rest = renumber_rest(alloc, rest, numbers)?;
    Ok(DStmt::Case {
        selector,
        arms,
        rest,
    })
}

#[cycle(renumbers)]
fn renumber_rest(
    alloc: Global,
    rest: &Option<Boxed<DStmt>>,
    numbers: &[u32],
) -> Result<Option<Boxed<DStmt>>, NoMemory>
    ensures { IfOk result (λ copied. copied ≡ option_map (renumbered_stmt (number_in numbers.now)) rest.now) }
{
    match rest {
        None => Ok(None),
        Some(body) => {
            let copied = renumber_stmt(alloc, body.get(), numbers)?;
            Ok(Some(Boxed::new(alloc, copied)?))
        }
    }
}

#[cycle(renumbers)]
fn renumber_stmts(alloc: Global, parts: &[DStmt], numbers: &[u32]) -> Result<DStmtList, NoMemory>
    ensures { IfOk result (λ copied. copied ≡ map (renumbered_stmt (number_in numbers.now)) parts.now) }
{
    let mut copied = Items::new(alloc);
    for part in parts {
        copied.push(renumber_stmt(alloc, part, numbers)?)?;
    }
    Ok(copied)
}

#[cycle(renumbers)]
pub fn renumber_arm(alloc: Global, arm: &DArm, numbers: &[u32]) -> Result<DArm, NoMemory>
    ensures { IfOk result (λ copied. copied ≡ renumbered_arm (number_in numbers.now) arm.now) }
{
    let matches = renumber_matches(alloc, arm.matches.as_slice(), numbers)?;
    let body = renumber_stmt(alloc, &arm.body, numbers)?;
    Ok(DArm { matches, body })
}

#[cycle(renumbers)]
fn renumber_arms(alloc: Global, arms: &[DArm], numbers: &[u32]) -> Result<DArmList, NoMemory>
    ensures { IfOk result (λ copied. copied ≡ map (renumbered_arm (number_in numbers.now)) arms.now) }
{
    let mut copied = Items::new(alloc);
    for arm in arms {
        copied.push(renumber_arm(alloc, arm, numbers)?)?;
    }
    Ok(copied)
}

#[cycle(renumbers)]
pub fn renumber_match(alloc: Global, item: &DMatch, numbers: &[u32]) -> Result<DMatch, NoMemory>
    ensures { IfOk result (λ copied. copied ≡ renumbered_match (number_in numbers.now) item.now) }
{
    let free = copy_free(alloc, &item.free)?;
    let value = renumber_expr(alloc, &item.value, numbers)?;
    Ok(DMatch { value, free })
}

#[cycle(renumbers)]
fn renumber_matches(
    alloc: Global,
    items: &[DMatch],
    numbers: &[u32],
) -> Result<DMatchList, NoMemory>
    ensures { IfOk result (λ copied. copied ≡ map (renumbered_match (number_in numbers.now)) items.now) }
{
    let mut copied = Items::new(alloc);
    for item in items {
        copied.push(renumber_match(alloc, item, numbers)?)?;
    }
    Ok(copied)
}

fn copy_free(alloc: Global, free: &Option<Bits>) -> Result<Option<Bits>, NoMemory>
    ensures { IfOk result (λ copied. copied ≡ free.now) }
{
    match free {
        None => Ok(None),
        Some(bits) => Ok(Some(Bits::copy(alloc, bits)?)),
    }
}

fn renumber_bit(bit: BitRef, numbers: &[u32]) -> BitRef
    ensures { result ≡ moved (number_in numbers.now) bit }
{
    BitRef {
        signal: number_of(bit.signal, numbers),
        bit: bit.bit,
    }
}

/// A copy of a reset with signals numbered anew.
pub fn renumber_reset(alloc: Global, reset: &DReset, numbers: &[u32]) -> Result<DReset, NoMemory>
    ensures { IfOk result (λ copied. copied ≡ reset_again (number_in numbers.now) reset.now) }
{
    let test = renumber_expr(alloc, &reset.test, numbers)?;
    let branch = renumber_stmt(alloc, &reset.branch, numbers)?;
    Ok(DReset {
        bit: renumber_bit(reset.bit, numbers),
        asserted: reset.asserted,
        test,
        branch,
    })
}

fn renumber_resets(
    alloc: Global,
    reset: &Option<DReset>,
    numbers: &[u32],
) -> Result<Option<DReset>, NoMemory>
    ensures { IfOk result (λ copied. copied ≡ renumbered_reset (number_in numbers.now) reset.now) }
{
    match reset {
        None => Ok(None),
        Some(own) => Ok(Some(renumber_reset(alloc, own, numbers)?)),
    }
}

/// A copy of an item with signals numbered anew; it carries the same weight and stands in the same scope.
pub fn renumber_item(alloc: Global, item: &Item, numbers: &[u32]) -> Result<Item, NoMemory>
    ensures { IfOk result (λ copied. copied ≡ renumbered_item (number_in numbers.now) item.now) }
{
    match item {
        Item::Assign {
            scope,
            weight,
            left,
            right,
        } => {
            let left = renumber_left(alloc, left, numbers)?;
            let right = renumber_expr(alloc, right, numbers)?;
            Ok(Item::Assign {
                scope: *scope,
                weight: *weight,
                left,
                right,
            })
        }
        Item::Comb {
            scope,
            weight,
            body,
        } => {
            let body = renumber_stmt(alloc, body, numbers)?;
            Ok(Item::Comb {
                scope: *scope,
                weight: *weight,
                body,
            })
        }
        Item::Clocked {
            scope,
            weight,
            reset,
            body,
        } => {
            let reset = renumber_resets(alloc, reset, numbers)?;
            let body = renumber_stmt(alloc, body, numbers)?;
            Ok(Item::Clocked {
                scope: *scope,
                weight: *weight,
                reset,
                body,
            })
        }
    }
}
