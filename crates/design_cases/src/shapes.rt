use bits_core::{Bits, NoMemory};
use design_core::{
    BitRef, DArm, DBase, DExpr, DFunction, DLeft, DLocal, DMatch, DNode, DReset, DStmt, Design,
    Item, PowerUp, Scope, Signal,
};

/// What can be written as words: each part after its name, a list with a comma at its end.
pub trait Shape {
    fn put(&self, out: &mut String) -> Result<(), NoMemory>;
}

fn put(out: &mut String, word: &str) -> Result<(), NoMemory> {
    out.push_str(" ")?;
    out.push_str(word)?;
    Ok(())
}

fn put_number(out: &mut String, number: i64) -> Result<(), NoMemory> {
    write!(out, " {number}")?;
    Ok(())
}

fn put_with(out: &mut String, word: &str, number: i64) -> Result<(), NoMemory> {
    put(out, word)?;
    put_number(out, number)
}

// A length, with `s` behind it where there is a sign.
fn put_length(out: &mut String, length: u32, signed: bool) -> Result<(), NoMemory> {
    put_number(out, length as i64)?;
    if signed {
        out.push_str("s")?;
    }
    Ok(())
}

// The bits, the lowest first.
fn put_bits(out: &mut String, bits: &Bits) -> Result<(), NoMemory> {
    out.push_str(" ")?;
    for at in 0..bits.len() {
        out.push_str(if bits.get(at) { "1" } else { "0" })?;
    }
    Ok(())
}

fn put_base(out: &mut String, base: DBase) -> Result<(), NoMemory> {
    match base {
        DBase::Signal(s) => put_with(out, "signal", s as i64),
        DBase::Local(k) => put_with(out, "local", k as i64),
    }
}

fn put_free(out: &mut String, free: &Option<Bits>) -> Result<(), NoMemory> {
    match free {
        None => put(out, "none"),
        Some(bits) => put_bits(out, bits),
    }
}

fn put_locals(out: &mut String, locals: &[DLocal]) -> Result<(), NoMemory> {
    for local in locals {
        put_length(out, local.length, local.signed)?;
    }
    put(out, ",")
}

fn put_at(out: &mut String, down: bool, offset: i64) -> Result<(), NoMemory> {
    put(out, if down { "down" } else { "up" })?;
    put_number(out, offset)
}

fn put_extend(out: &mut String, by_sign: bool) -> Result<(), NoMemory> {
    put(out, if by_sign { "extend_sign" } else { "extend" })
}

// What a node has beside its parts.
fn put_head(out: &mut String, node: &DNode) -> Result<(), NoMemory> {
    match node {
        DNode::Const(bits) => put_bits(out, bits),
        DNode::Signal(s) => put_base(out, DBase::Signal(*s)),
        DNode::Local(k) => put_base(out, DBase::Local(*k)),
        DNode::Select { low, .. } => put_with(out, "select", *low),
        DNode::SelectAt { offset, down, .. } => put_at(out, *down, *offset),
        DNode::Unary { op, .. } => Ok(write!(out, " {op:?}")?),
        DNode::Binary { op, .. } => Ok(write!(out, " {op:?}")?),
        DNode::Mux { .. } => put(out, "mux"),
        DNode::Extend { by_sign, .. } => put_extend(out, *by_sign),
        DNode::Concat(_) => put(out, "concat"),
        DNode::Repeat { count, .. } => put_with(out, "repeat", *count as i64),
        DNode::Call { .. } => put(out, "call"),
    }
}

#[cycle(show)]
fn put_expr(out: &mut String, e: &DExpr) -> Result<(), NoMemory> {
    put_length(out, e.length, e.signed)?;
    put_node(out, &e.node)
}

#[cycle(show)]
fn put_node(out: &mut String, node: &DNode) -> Result<(), NoMemory> {
    put_head(out, node)?;
    put_parts(out, node)
}

#[cycle(show)]
fn put_parts(out: &mut String, node: &DNode) -> Result<(), NoMemory> {
    match node {
        DNode::Select { base, .. } => put_expr(out, base.get()),
        DNode::SelectAt { base, index, .. } => {
            put_expr(out, base.get())?;
            put_expr(out, index.get())
        }
        DNode::Unary { a, .. } => put_expr(out, a.get()),
        DNode::Binary { a, b, .. } => {
            put_expr(out, a.get())?;
            put_expr(out, b.get())
        }
        DNode::Mux { c, a, b } => {
            put_expr(out, c.get())?;
            put_expr(out, a.get())?;
            put_expr(out, b.get())
        }
        DNode::Extend { a, .. } => put_expr(out, a.get()),
        DNode::Concat(parts) => put_exprs(out, parts.as_slice()),
        DNode::Repeat { part, .. } => put_expr(out, part.get()),
        DNode::Call {
            function,
            arguments,
        } => {
            put_function(out, function.get())?;
            put_exprs(out, arguments.as_slice())
        }
        _ => Ok(()),
    }
}

#[cycle(show)]
fn put_exprs(out: &mut String, parts: &[DExpr]) -> Result<(), NoMemory> {
    for part in parts {
        put_expr(out, part)?;
    }
    put(out, ",")
}

#[cycle(show)]
fn put_function(out: &mut String, function: &DFunction) -> Result<(), NoMemory> {
    put_length(out, function.length, function.signed)?;
    put_locals(out, function.inputs.as_slice())?;
    put_locals(out, function.locals.as_slice())?;
    put_stmt(out, &function.body)
}

fn put_whole(out: &mut String, base: DBase, length: u32) -> Result<(), NoMemory> {
    put_base(out, base)?;
    put_number(out, length as i64)
}

fn put_part(out: &mut String, base: DBase, low: i64, length: u32) -> Result<(), NoMemory> {
    put(out, "part")?;
    put_whole(out, base, length)?;
    put_number(out, low)
}

#[cycle(show)]
fn put_left(out: &mut String, left: &DLeft) -> Result<(), NoMemory> {
    match left {
        DLeft::Whole { base, length } => put_whole(out, *base, *length),
        DLeft::Part { base, low, length } => put_part(out, *base, *low, *length),
        DLeft::At {
            base,
            index,
            offset,
            down,
            length,
        } => {
            put_whole(out, *base, *length)?;
            put_at(out, *down, *offset)?;
            put_expr(out, index.get())
        }
        DLeft::Concat(parts) => put_lefts(out, parts.as_slice()),
    }
}

#[cycle(show)]
fn put_lefts(out: &mut String, parts: &[DLeft]) -> Result<(), NoMemory> {
    put(out, "concat")?;
    for part in parts {
        put_left(out, part)?;
    }
    put(out, ",")
}

#[cycle(show)]
fn put_stmt(out: &mut String, body: &DStmt) -> Result<(), NoMemory> {
    match body {
        DStmt::Block(parts) => put_stmts(out, "block", parts.as_slice()),
        DStmt::Write {
            left,
            right,
            blocking,
        } => {
            put_left(out, left)?;
            put(out, if *blocking { "=" } else { "<=" })?;
            put_expr(out, right)
        }
        DStmt::If { test, yes, no } => {
            put(out, "if")?;
            put_expr(out, test)?;
            put_stmt(out, yes.get())?;
            put_stmt(out, no.get())
        }
        DStmt::Case {
            selector,
            arms,
            rest,
        } => {
            put(out, "case")?;
            put_expr(out, selector)?;
            put_arms(out, arms.as_slice())?;
            match rest {
                None => put(out, "none"),
                Some(body) => put_stmt(out, body.get()),
            }
        }
        DStmt::Turns(parts) => put_stmts(out, "turns", parts.as_slice()),
    }
}

#[cycle(show)]
fn put_stmts(out: &mut String, word: &str, parts: &[DStmt]) -> Result<(), NoMemory> {
    put(out, word)?;
    for part in parts {
        put_stmt(out, part)?;
    }
    put(out, ",")
}

#[cycle(show)]
fn put_arms(out: &mut String, arms: &[DArm]) -> Result<(), NoMemory> {
    for arm in arms {
        put_arm(out, arm)?;
    }
    put(out, ",")
}

#[cycle(show)]
fn put_arm(out: &mut String, arm: &DArm) -> Result<(), NoMemory> {
    put_matches(out, arm.matches.as_slice())?;
    put_stmt(out, &arm.body)
}

#[cycle(show)]
fn put_matches(out: &mut String, items: &[DMatch]) -> Result<(), NoMemory> {
    for item in items {
        put_match(out, item)?;
    }
    put(out, ",")
}

#[cycle(show)]
fn put_match(out: &mut String, item: &DMatch) -> Result<(), NoMemory> {
    put_expr(out, &item.value)?;
    put_free(out, &item.free)
}

impl Shape for DExpr {
    fn put(&self, out: &mut String) -> Result<(), NoMemory> {
        put_expr(out, self)
    }
}

impl Shape for DNode {
    fn put(&self, out: &mut String) -> Result<(), NoMemory> {
        put_node(out, self)
    }
}

impl Shape for DFunction {
    fn put(&self, out: &mut String) -> Result<(), NoMemory> {
        put_function(out, self)
    }
}

impl Shape for DLeft {
    fn put(&self, out: &mut String) -> Result<(), NoMemory> {
        put_left(out, self)
    }
}

impl Shape for DStmt {
    fn put(&self, out: &mut String) -> Result<(), NoMemory> {
        put_stmt(out, self)
    }
}

impl Shape for DArm {
    fn put(&self, out: &mut String) -> Result<(), NoMemory> {
        put_arm(out, self)
    }
}

impl Shape for DMatch {
    fn put(&self, out: &mut String) -> Result<(), NoMemory> {
        put_match(out, self)
    }
}

impl Shape for DLocal {
    fn put(&self, out: &mut String) -> Result<(), NoMemory> {
        put_length(out, self.length, self.signed)
    }
}

fn put_bit(out: &mut String, bit: BitRef) -> Result<(), NoMemory> {
    put_number(out, bit.signal as i64)?;
    put_number(out, bit.bit as i64)
}

impl Shape for BitRef {
    fn put(&self, out: &mut String) -> Result<(), NoMemory> {
        put_bit(out, *self)
    }
}

fn put_flag(out: &mut String, flag: bool) -> Result<(), NoMemory> {
    put(out, if flag { "yes" } else { "no" })
}

impl Shape for PowerUp {
    fn put(&self, out: &mut String) -> Result<(), NoMemory> {
        put_bit(out, self.bit)?;
        put_flag(out, self.value)
    }
}

// The bytes of a name, as numbers.
fn put_name(out: &mut String, name: &[u8]) -> Result<(), NoMemory> {
    for byte in name {
        put_number(out, *byte as i64)?;
    }
    put(out, ",")
}

fn put_maybe(out: &mut String, number: Option<i64>) -> Result<(), NoMemory> {
    match number {
        None => put(out, "none"),
        Some(number) => put_number(out, number),
    }
}

fn put_parent(out: &mut String, parent: Option<u32>) -> Result<(), NoMemory> {
    match parent {
        None => put(out, "none"),
        Some(number) => put_number(out, number as i64),
    }
}

impl Shape for Scope {
    fn put(&self, out: &mut String) -> Result<(), NoMemory> {
        put_parent(out, self.parent)?;
        put_name(out, self.name.as_slice())?;
        put_name(out, self.path.as_slice())?;
        put_name(out, self.module.as_slice())
    }
}

impl Shape for Signal {
    fn put(&self, out: &mut String) -> Result<(), NoMemory> {
        put_number(out, self.scope as i64)?;
        put_name(out, self.name.as_slice())?;
        put_name(out, self.path.as_slice())?;
        put_maybe(out, self.word)?;
        put_length(out, self.length, self.signed)?;
        put_flag(out, self.ranged)?;
        put_number(out, self.high)?;
        put_number(out, self.low)
    }
}

impl Shape for DReset {
    fn put(&self, out: &mut String) -> Result<(), NoMemory> {
        put_bit(out, self.bit)?;
        put_flag(out, self.asserted)?;
        put_expr(out, &self.test)?;
        put_stmt(out, &self.branch)
    }
}

fn put_reset(out: &mut String, reset: &Option<DReset>) -> Result<(), NoMemory> {
    match reset {
        None => put(out, "none"),
        Some(reset) => reset.put(out),
    }
}

fn put_place(out: &mut String, word: &str, scope: u32, weight: u64) -> Result<(), NoMemory> {
    put(out, word)?;
    put_number(out, scope as i64)?;
    write!(out, " {weight}")?;
    Ok(())
}

impl Shape for Item {
    fn put(&self, out: &mut String) -> Result<(), NoMemory> {
        match self {
            Item::Assign {
                scope,
                weight,
                left,
                right,
            } => {
                put_place(out, "assign", *scope, *weight)?;
                put_left(out, left)?;
                put_expr(out, right)
            }
            Item::Comb {
                scope,
                weight,
                body,
            } => {
                put_place(out, "comb", *scope, *weight)?;
                put_stmt(out, body)
            }
            Item::Clocked {
                scope,
                weight,
                reset,
                body,
            } => {
                put_place(out, "clocked", *scope, *weight)?;
                put_reset(out, reset)?;
                put_stmt(out, body)
            }
        }
    }
}

fn put_all<T: Shape>(out: &mut String, items: &[T]) -> Result<(), NoMemory> {
    for item in items {
        item.put(out)?;
    }
    put(out, ",")
}

impl Shape for Design {
    fn put(&self, out: &mut String) -> Result<(), NoMemory> {
        put_all(out, self.scopes.as_slice())?;
        put_all(out, self.signals.as_slice())?;
        put_all(out, self.items.as_slice())?;
        put_all(out, self.powerup.as_slice())
    }
}
