ghost use Rattle.std.specs.Prelude.{◌≡◌, IfOk};

use crate::operators::Binary;
use crate::tree::{
    DArm, DArmList, DExpr, DExprList, DFunction, DLeft, DLeftList, DLocal, DMatch, DMatchList,
    DNode, DStmt, DStmtList,
};
use bits_core::{Bits, Duplicate, Items, NoMemory};
use sqlite_items::Boxed;
use std::alloc::Global;

#[cycle(copies)]
pub fn copy_expr(alloc: Global, e: &DExpr) -> Result<DExpr, NoMemory>
    ensures { IfOk result (λ copied. copied ≡ e.now) }
{
    let node = copy_node(alloc, &e.node)?;
    Ok(DExpr {
        length: e.length,
        signed: e.signed,
        node,
    })
}

#[cycle(copies)]
fn copy_boxed(alloc: Global, e: &DExpr) -> Result<Boxed<DExpr>, NoMemory>
    ensures { IfOk result (λ copied. copied ≡ e.now) }
{
    let copied = copy_expr(alloc, e)?;
    Ok(Boxed::new(alloc, copied)?)
}

#[cycle(copies)]
pub fn copy_node(alloc: Global, node: &DNode) -> Result<DNode, NoMemory>
    ensures { IfOk result (λ copied. copied ≡ node.now) }
{
    match node {
        DNode::Const(bits) => Ok(DNode::Const(Bits::copy(alloc, bits)?)),
        DNode::Signal(s) => Ok(DNode::Signal(*s)),
        DNode::Local(k) => Ok(DNode::Local(*k)),
        DNode::Select { base, low } => Ok(DNode::Select {
            base: copy_boxed(alloc, base.get())?,
            low: *low,
        }),
        DNode::SelectAt {
            base,
            index,
            offset,
            down,
        } => {
            let base = copy_boxed(alloc, base.get())?;
            finish_select_at(alloc, index.get(), base, *offset, *down)
        }
        DNode::Unary { op, a } => Ok(DNode::Unary {
            op: *op,
            a: copy_boxed(alloc, a.get())?,
        }),
        DNode::Binary { op, a, b } => {
            let a = copy_boxed(alloc, a.get())?;
            finish_binary(alloc, b.get(), *op, a)
        }
        DNode::Mux { c, a, b } => {
            let c = copy_boxed(alloc, c.get())?;
            let a = copy_boxed(alloc, a.get())?;
            finish_mux(alloc, b.get(), c, a)
        }
        DNode::Extend { a, by_sign } => Ok(DNode::Extend {
            a: copy_boxed(alloc, a.get())?,
            by_sign: *by_sign,
        }),
        DNode::Concat(parts) => Ok(DNode::Concat(copy_exprs(alloc, parts.as_slice())?)),
        DNode::Repeat { count, part } => Ok(DNode::Repeat {
            count: *count,
            part: copy_boxed(alloc, part.get())?,
        }),
        DNode::Call {
            function,
            arguments,
        } => {
            let function = copy_called(alloc, function.get())?;
            finish_call(alloc, arguments.as_slice(), function)
        }
    }
}

#[cycle(copies)]
fn finish_select_at(
    alloc: Global,
    index: &DExpr,
    base: Boxed<DExpr>,
    offset: i64,
    down: bool,
) -> Result<DNode, NoMemory>
    ensures { IfOk result (λ copied. copied ≡ DNode.SelectAt base index.now offset down) }
{
    let index = copy_boxed(alloc, index)?;
    Ok(DNode::SelectAt {
        base,
        index,
        offset,
        down,
    })
}

#[cycle(copies)]
fn finish_binary(alloc: Global, b: &DExpr, op: Binary, a: Boxed<DExpr>) -> Result<DNode, NoMemory>
    ensures { IfOk result (λ copied. copied ≡ DNode.Binary op a b.now) }
{
    let b = copy_boxed(alloc, b)?;
    Ok(DNode::Binary { op, a, b })
}

#[cycle(copies)]
fn finish_mux(alloc: Global, b: &DExpr, c: Boxed<DExpr>, a: Boxed<DExpr>) -> Result<DNode, NoMemory>
    ensures { IfOk result (λ copied. copied ≡ DNode.Mux c a b.now) }
{
    let b = copy_boxed(alloc, b)?;
    Ok(DNode::Mux { c, a, b })
}

#[cycle(copies)]
fn finish_call(
    alloc: Global,
    arguments: &[DExpr],
    function: Boxed<DFunction>,
) -> Result<DNode, NoMemory>
    ensures { IfOk result (λ copied. copied ≡ DNode.Call function arguments.now) }
{
    let arguments = copy_exprs(alloc, arguments)?;
    Ok(DNode::Call {
        function,
        arguments,
    })
}

#[cycle(copies)]
fn copy_called(alloc: Global, function: &DFunction) -> Result<Boxed<DFunction>, NoMemory>
    ensures { IfOk result (λ copied. copied ≡ function.now) }
{
    let copied = copy_function(alloc, function)?;
    Ok(Boxed::new(alloc, copied)?)
}

#[cycle(copies)]
fn copy_exprs(alloc: Global, parts: &[DExpr]) -> Result<DExprList, NoMemory>
    ensures { IfOk result (λ copied. copied ≡ parts.now) }
{
    let mut copied = Items::new(alloc);
    for part in parts {
        copied.push(copy_expr(alloc, part)?)?;
    }
    Ok(copied)
}

#[cycle(copies)]
pub fn copy_function(alloc: Global, function: &DFunction) -> Result<DFunction, NoMemory>
    ensures { IfOk result (λ copied. copied ≡ function.now) }
{
    let inputs = function.inputs.copy(alloc)?;
    let locals = function.locals.copy(alloc)?;
    let body = copy_stmt(alloc, &function.body)?;
    Ok(DFunction {
        length: function.length,
        signed: function.signed,
        inputs,
        locals,
        body,
    })
}

#[cycle(copies)]
pub fn copy_left(alloc: Global, left: &DLeft) -> Result<DLeft, NoMemory>
    ensures { IfOk result (λ copied. copied ≡ left.now) }
{
    match left {
        DLeft::Whole { base, length } => Ok(DLeft::Whole {
            base: *base,
            length: *length,
        }),
        DLeft::Part { base, low, length } => Ok(DLeft::Part {
            base: *base,
            low: *low,
            length: *length,
        }),
        DLeft::At {
            base,
            index,
            offset,
            down,
            length,
        } => Ok(DLeft::At {
            base: *base,
            index: copy_boxed(alloc, index.get())?,
            offset: *offset,
            down: *down,
            length: *length,
        }),
        DLeft::Concat(parts) => Ok(DLeft::Concat(copy_lefts(alloc, parts.as_slice())?)),
    }
}

#[cycle(copies)]
fn copy_lefts(alloc: Global, parts: &[DLeft]) -> Result<DLeftList, NoMemory>
    ensures { IfOk result (λ copied. copied ≡ parts.now) }
{
    let mut copied = Items::new(alloc);
    for part in parts {
        copied.push(copy_left(alloc, part)?)?;
    }
    Ok(copied)
}

#[cycle(copies)]
pub fn copy_stmt(alloc: Global, s: &DStmt) -> Result<DStmt, NoMemory>
    ensures { IfOk result (λ copied. copied ≡ s.now) }
{
    match s {
        DStmt::Block(parts) => Ok(DStmt::Block(copy_stmts(alloc, parts.as_slice())?)),
        DStmt::Write {
            left,
            right,
            blocking,
        } => {
            let left = copy_left(alloc, left)?;
            finish_write(alloc, right, left, *blocking)
        }
        DStmt::If { test, yes, no } => {
            let test = copy_expr(alloc, test)?;
            let yes = copy_branch(alloc, yes.get())?;
            finish_if(alloc, no.get(), test, yes)
        }
        DStmt::Case {
            selector,
            arms,
            rest,
        } => {
            let selector = copy_expr(alloc, selector)?;
            let arms = copy_arms(alloc, arms.as_slice())?;
            finish_case(alloc, rest, selector, arms)
        }
        DStmt::Turns(parts) => Ok(DStmt::Turns(copy_stmts(alloc, parts.as_slice())?)),
    }
}

#[cycle(copies)]
fn finish_write(
    alloc: Global,
    right: &DExpr,
    left: DLeft,
    blocking: bool,
) -> Result<DStmt, NoMemory>
    ensures { IfOk result (λ copied. copied ≡ DStmt.Write left right.now blocking) }
{
    let right = copy_expr(alloc, right)?;
    Ok(DStmt::Write {
        left,
        right,
        blocking,
    })
}

#[cycle(copies)]
fn copy_branch(alloc: Global, s: &DStmt) -> Result<Boxed<DStmt>, NoMemory>
    ensures { IfOk result (λ copied. copied ≡ s.now) }
{
    let copied = copy_stmt(alloc, s)?;
    Ok(Boxed::new(alloc, copied)?)
}

#[cycle(copies)]
fn finish_if(alloc: Global, no: &DStmt, test: DExpr, yes: Boxed<DStmt>) -> Result<DStmt, NoMemory>
    ensures { IfOk result (λ copied. copied ≡ DStmt.If test yes no.now) }
{
    let no = copy_branch(alloc, no)?;
    Ok(DStmt::If { test, yes, no })
}

#[cycle(copies)]
fn finish_case(
    alloc: Global,
    rest: &Option<Boxed<DStmt>>,
    selector: DExpr,
    arms: DArmList,
) -> Result<DStmt, NoMemory>
    ensures { IfOk result (λ copied. copied ≡ DStmt.Case selector arms rest.now) }
{
    let rest = copy_rest(alloc, rest)?;
    Ok(DStmt::Case {
        selector,
        arms,
        rest,
    })
}

#[cycle(copies)]
fn copy_rest(alloc: Global, rest: &Option<Boxed<DStmt>>) -> Result<Option<Boxed<DStmt>>, NoMemory>
    ensures { IfOk result (λ copied. copied ≡ rest.now) }
{
    match rest {
        None => Ok(None),
        Some(body) => {
            let copied = copy_stmt(alloc, body.get())?;
            Ok(Some(Boxed::new(alloc, copied)?))
        }
    }
}

#[cycle(copies)]
fn copy_stmts(alloc: Global, parts: &[DStmt]) -> Result<DStmtList, NoMemory>
    ensures { IfOk result (λ copied. copied ≡ parts.now) }
{
    let mut copied = Items::new(alloc);
    for part in parts {
        copied.push(copy_stmt(alloc, part)?)?;
    }
    Ok(copied)
}

#[cycle(copies)]
pub fn copy_arm(alloc: Global, arm: &DArm) -> Result<DArm, NoMemory>
    ensures { IfOk result (λ copied. copied ≡ arm.now) }
{
    let matches = copy_matches(alloc, arm.matches.as_slice())?;
    let body = copy_stmt(alloc, &arm.body)?;
    Ok(DArm { matches, body })
}

#[cycle(copies)]
fn copy_arms(alloc: Global, arms: &[DArm]) -> Result<DArmList, NoMemory>
    ensures { IfOk result (λ copied. copied ≡ arms.now) }
{
    let mut copied = Items::new(alloc);
    for arm in arms {
        copied.push(copy_arm(alloc, arm)?)?;
    }
    Ok(copied)
}

#[cycle(copies)]
pub fn copy_match(alloc: Global, item: &DMatch) -> Result<DMatch, NoMemory>
    ensures { IfOk result (λ copied. copied ≡ item.now) }
{
    let free = copy_free(alloc, &item.free)?;
    let value = copy_expr(alloc, &item.value)?;
    Ok(DMatch { value, free })
}

#[cycle(copies)]
fn copy_matches(alloc: Global, items: &[DMatch]) -> Result<DMatchList, NoMemory>
    ensures { IfOk result (λ copied. copied ≡ items.now) }
{
    let mut copied = Items::new(alloc);
    for item in items {
        copied.push(copy_match(alloc, item)?)?;
    }
    Ok(copied)
}

fn copy_free(alloc: Global, free: &Option<Bits>) -> Result<Option<Bits>, NoMemory>
    ensures { IfOk result (λ copied. copied ≡ free.now) }
{
    match free {
        None => Ok(None),
        Some(bits) => Ok(Some(Bits::copy(alloc, bits)?)),
    }
}

impl Duplicate for DLocal {
    fn copy(&self, alloc: Global) -> Result<DLocal, NoMemory> {
        Ok(*self)
    }
}
