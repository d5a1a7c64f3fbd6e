ghost use Rattle.std.specs.Prelude.{◌≡◌, ◌+◌};
ghost use Rattle.std.specs.Option.{option_copied};
ghost use Rattle.design_core.specs.Formed.{expr_weight, left_length, stmt_weight};
ghost use Rattle.design_core.specs.Wellformed.{signal_lengths};
ghost use Rattle.tree_weights.specs.Rounds.{lengths_in};
ghost use Rattle.tree_weights.specs.Spent.{IsSpent};
ghost use Rattle.tree_weights.specs.Spines.{arm_weight, arms_weight, before_last, beside, exprs_weight, function_weight, last, left_weight, lefts_weight, lengths_sum, matches_weight, spine, stmts_weight};

use crate::lengths::{Locals, length_of, locals_of, spend};
use crate::operators::{binary_weight, unary_weight, variable_weight};
use design_core::{DArm, DExpr, DFunction, DLeft, DMatch, DNode, DStmt, Signal};

/// The operand along which a chain of expressions goes on.
fn next_operand(e: &DExpr) -> Option<&DExpr>
    ensures { option_copied result ≡ spine e.now.node }
{
    match &e.node {
        DNode::Select { base, .. } | DNode::SelectAt { base, .. } => Some(base.get()),
        DNode::Unary { a, .. } | DNode::Binary { a, .. } | DNode::Extend { a, .. } => Some(a.get()),
        DNode::Mux { b, .. } => Some(b.get()),
        DNode::Repeat { part, .. } => Some(part.get()),
        DNode::Const(_)
        | DNode::Signal(_)
        | DNode::Local(_)
        | DNode::Concat(_)
        | DNode::Call { .. } => None,
    }
}

/// The branch along which a chain of statements goes on.
fn last_branch(body: &DStmt) -> Option<&DStmt>
    ensures { option_copied result ≡ last body.now }
{
    match body {
        DStmt::If { no, .. } => Some(no.get()),
        DStmt::Case { rest, .. } => match rest {
            Some(rest) => Some(rest.get()),
            None => None,
        },
        DStmt::Block(_) | DStmt::Write { .. } | DStmt::Turns(_) => None,
    }
}

/// Takes what an expression weighs from what there is room for: what is left, or none exactly where it weighs more. The signals are those of the design,
/// the locals those of the function that the expression stands in.
#[cycle(weights)]
pub fn spend_expr(e: &DExpr, signals: &[Signal], round: Locals, room: u64) -> Option<u64>
    ensures { IsSpent (expr_weight (signal_lengths signals.now) (lengths_in round.entry) e.now) room result }
{
    let mut here = e;
    let mut rest = spend_beside(here, signals, round, room)?;
    while let Some(next) = next_operand(here) {
        here = next;
        rest = spend_beside(here, signals, round, rest)?;
    }
    Some(rest)
}

/// The same for what an expression weighs beside the operand along which its chain goes on.
#[cycle(weights)]
fn spend_beside(e: &DExpr, signals: &[Signal], round: Locals, room: u64) -> Option<u64>
    ensures { IsSpent (beside (signal_lengths signals.now) (lengths_in round.entry) e.now.node e.now.length) room result }
{
    match &e.node {
        DNode::Const(_) | DNode::Signal(_) | DNode::Local(_) => Some(room),
        DNode::Select { .. } | DNode::Extend { .. } | DNode::Repeat { .. } => Some(room),
        DNode::SelectAt { base, index, .. } => {
            let index = index.get();
            let rest = spend(variable_weight(base.get().length, index.length), room)?;
            spend_expr(index, signals, round, rest)
        }
        DNode::Unary { op, a } => spend(unary_weight(*op, a.get().length), room),
        DNode::Binary { op, a, b } => {
            let b = b.get();
            let rest = spend(binary_weight(*op, a.get().length, b.length), room)?;
            spend_expr(b, signals, round, rest)
        }
        DNode::Mux { c, a, .. } => {
            let rest = spend(u128::from(e.length), room)?;
            let rest = spend_expr(c.get(), signals, round, rest)?;
            spend_expr(a.get(), signals, round, rest)
        }
        DNode::Concat(parts) => spend_exprs(parts.as_slice(), signals, round, room),
        DNode::Call {
            function,
            arguments,
        } => {
            let rest = spend_function(function.get(), signals, room)?;
            spend_exprs(arguments.as_slice(), signals, round, rest)
        }
    }
}

#[cycle(weights)]
fn spend_exprs(parts: &[DExpr], signals: &[Signal], round: Locals, room: u64) -> Option<u64>
    ensures { IsSpent (exprs_weight (signal_lengths signals.now) (lengths_in round.entry) parts.now) room result }
{
    let mut rest = room;
    for part in parts {
        rest = spend_expr(part, signals, round, rest)?;
    }
    Some(rest)
}

#[cycle(weights)]
fn spend_function(function: &DFunction, signals: &[Signal], room: u64) -> Option<u64>
    ensures { IsSpent (function_weight (signal_lengths signals.now) function.now) room result }
{
    spend_stmt(&function.body, signals, locals_of(function), room)
}

/// The same for a left side: its variable places.
#[cycle(weights)]
pub fn spend_left(left: &DLeft, signals: &[Signal], round: Locals, room: u64) -> Option<u64>
    ensures { IsSpent (left_weight (signal_lengths signals.now) (lengths_in round.entry) left.now) room result }
{
    match left {
        DLeft::Whole { .. } | DLeft::Part { .. } => Some(room),
        DLeft::At { base, index, .. } => {
            let index = index.get();
            let vector = length_of(*base, signals, round);
            let rest = spend(variable_weight(vector, index.length), room)?;
            spend_expr(index, signals, round, rest)
        }
        DLeft::Concat(parts) => spend_lefts(parts.as_slice(), signals, round, room),
    }
}

#[cycle(weights)]
fn spend_lefts(parts: &[DLeft], signals: &[Signal], round: Locals, room: u64) -> Option<u64>
    ensures { IsSpent (lefts_weight (signal_lengths signals.now) (lengths_in round.entry) parts.now) room result }
{
    let mut rest = room;
    for part in parts {
        rest = spend_left(part, signals, round, rest)?;
    }
    Some(rest)
}

/// The same for the length of a left side, of which each bit weighs 1 where it is written.
#[cycle(lengths)]
pub fn spend_length(left: &DLeft, signals: &[Signal], room: u64) -> Option<u64>
    ensures { IsSpent (left_length (signal_lengths signals.now) left.now) room result }
{
    match left {
        DLeft::Whole { length, .. } => spend(u128::from(*length), room),
        DLeft::Part { length, .. } => spend(u128::from(*length), room),
        DLeft::At { length, .. } => spend(u128::from(*length), room),
        DLeft::Concat(parts) => spend_lengths(parts.as_slice(), signals, room),
    }
}

#[cycle(lengths)]
fn spend_lengths(parts: &[DLeft], signals: &[Signal], room: u64) -> Option<u64>
    ensures { IsSpent (lengths_sum (signal_lengths signals.now) parts.now) room result }
{
    let mut rest = room;
    for part in parts {
        rest = spend_length(part, signals, rest)?;
    }
    Some(rest)
}

/// The same for a statement.
#[cycle(weights)]
pub fn spend_stmt(body: &DStmt, signals: &[Signal], round: Locals, room: u64) -> Option<u64>
    ensures { IsSpent (stmt_weight (signal_lengths signals.now) (lengths_in round.entry) body.now) room result }
{
    let mut here = body;
    let mut rest = spend_before_last(here, signals, round, room)?;
    while let Some(next) = last_branch(here) {
        here = next;
        rest = spend_before_last(here, signals, round, rest)?;
    }
    Some(rest)
}

/// The same for what a statement weighs beside the branch along which its chain goes on.
#[cycle(weights)]
fn spend_before_last(body: &DStmt, signals: &[Signal], round: Locals, room: u64) -> Option<u64>
    ensures { IsSpent (before_last (signal_lengths signals.now) (lengths_in round.entry) body.now) room result }
{
    match body {
        DStmt::Block(parts) => spend_stmts(parts.as_slice(), signals, round, room),
        DStmt::Turns(parts) => {
            let parts = parts.as_slice();
            let rest = spend(parts.len() as u128, room)?;
            spend_stmts(parts, signals, round, rest)
        }
        DStmt::Write { left, right, .. } => {
            let rest = spend_length(left, signals, room)?;
            let rest = spend_left(left, signals, round, rest)?;
            spend_expr(right, signals, round, rest)
        }
        DStmt::If { test, yes, .. } => {
            let rest = spend_expr(test, signals, round, room)?;
            let rest = spend(1, rest)?;
            spend_stmt(yes.get(), signals, round, rest)
        }
        DStmt::Case { selector, arms, .. } => {
            let rest = spend_expr(selector, signals, round, room)?;
            spend_arms(arms.as_slice(), selector.length, signals, round, rest)
        }
    }
}

#[cycle(weights)]
fn spend_stmts(parts: &[DStmt], signals: &[Signal], round: Locals, room: u64) -> Option<u64>
    ensures { IsSpent (stmts_weight (signal_lengths signals.now) (lengths_in round.entry) parts.now) room result }
{
    let mut rest = room;
    for part in parts {
        rest = spend_stmt(part, signals, round, rest)?;
    }
    Some(rest)
}

#[cycle(weights)]
fn spend_arms(
    arms: &[DArm],
    selector: u32,
    signals: &[Signal],
    round: Locals,
    room: u64,
) -> Option<u64>
    ensures { IsSpent (arms_weight (signal_lengths signals.now) (lengths_in round.entry) selector arms.now) room result }
{
    let mut rest = room;
    for arm in arms {
        rest = spend_arm(arm, selector, signals, round, rest)?;
    }
    Some(rest)
}

#[cycle(weights)]
fn spend_arm(arm: &DArm, selector: u32, signals: &[Signal], round: Locals, room: u64) -> Option<u64>
    ensures { IsSpent (arm_weight (signal_lengths signals.now) (lengths_in round.entry) selector arm.now) room result }
{
    let items = arm.matches.as_slice();
    let rest = spend(u128::from(selector) * items.len() as u128, room)?;
    let rest = spend_matches(items, signals, round, rest)?;
    spend_stmt(&arm.body, signals, round, rest)
}

#[cycle(weights)]
fn spend_matches(items: &[DMatch], signals: &[Signal], round: Locals, room: u64) -> Option<u64>
    ensures { IsSpent (matches_weight (signal_lengths signals.now) (lengths_in round.entry) items.now) room result }
{
    let mut rest = room;
    for item in items {
        rest = spend_expr(&item.value, signals, round, rest)?;
    }
    Some(rest)
}
