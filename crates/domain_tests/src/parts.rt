use bits_core::{Items, NoMemory};
use design_core::{DArm, DBase, DExpr, DLeft, DMatch, DMatchList, DNode, DStmt, Unary};
use sqlite_items::Boxed;
use std::alloc::Global;
use std::test::Fail;
use tree_parts::{asked, children, heads, operands};

// A signal of one bit.
fn signal(s: u32) -> DExpr {
    DExpr {
        length: 1,
        signed: false,
        node: DNode::Signal(s),
    }
}

// The signal that an expression is; of another expression 1000.
fn number(e: &DExpr) -> u32 {
    match &e.node {
        DNode::Signal(s) => *s,
        _ => 1000,
    }
}

// Whether the expressions are these signals.
fn are_signals(all: &[&DExpr], numbers: &[u32]) -> bool {
    if all.len() != numbers.len() {
        return false;
    }
    for at in 0..all.len() {
        if number(all[at]) != numbers[at] {
            return false;
        }
    }
    true
}

// A write to a signal of one bit.
fn write(s: u32) -> DStmt {
    DStmt::Write {
        left: DLeft::Whole {
            base: DBase::Signal(s),
            length: 1,
        },
        right: signal(0),
        blocking: true,
    }
}

// The signal that a write names; of another statement 1000.
fn target(body: &DStmt) -> u32 {
    match body {
        DStmt::Write { left, .. } => match left {
            DLeft::Whole { base, .. } => match base {
                DBase::Signal(s) => *s,
                DBase::Local(_) => 1000,
            },
            _ => 1000,
        },
        _ => 1000,
    }
}

// Whether the statements are writes to these signals.
fn are_writes(all: &[&DStmt], numbers: &[u32]) -> bool {
    if all.len() != numbers.len() {
        return false;
    }
    for at in 0..all.len() {
        if target(all[at]) != numbers[at] {
            return false;
        }
    }
    true
}

fn mux(alloc: Global) -> Result<DExpr, NoMemory> {
    let a = DNode::Unary {
        op: Unary::Not,
        a: Boxed::new(alloc, signal(2))?,
    };
    let a = DExpr {
        length: 1,
        signed: false,
        node: a,
    };
    Ok(DExpr {
        length: 1,
        signed: false,
        node: DNode::Mux {
            c: Boxed::new(alloc, signal(1))?,
            a: Boxed::new(alloc, a)?,
            b: Boxed::new(alloc, signal(3))?,
        },
    })
}

// A select of a signal.
fn select(alloc: Global) -> Result<DExpr, NoMemory> {
    Ok(DExpr {
        length: 1,
        signed: false,
        node: DNode::Select {
            base: Boxed::new(alloc, signal(1))?,
            low: 0,
        },
    })
}

// An item of a case, put behind others.
fn add_item(items: &mut DMatchList, s: u32) -> Result<(), NoMemory> {
    items.push(DMatch {
        value: signal(s),
        free: None,
    })
}

// A case by signal 1, with the items 2 and 3, then 4, and a default.
fn case(alloc: Global) -> Result<DStmt, NoMemory> {
    let mut first = Items::new(alloc);
    add_item(&mut first, 2)?;
    add_item(&mut first, 3)?;
    let mut second = Items::new(alloc);
    add_item(&mut second, 4)?;
    let mut arms = Items::new(alloc);
    arms.push(DArm {
        matches: first,
        body: write(5),
    })?;
    arms.push(DArm {
        matches: second,
        body: write(6),
    })?;
    Ok(DStmt::Case {
        selector: signal(1),
        arms,
        rest: Some(Boxed::new(alloc, write(7))?),
    })
}

fn operands_are(alloc: Global, e: &DExpr, numbers: &[u32]) -> Result<bool, NoMemory> {
    let all = operands(alloc, e)?;
    Ok(are_signals(all.as_slice(), numbers))
}

fn heads_are(alloc: Global, body: &DStmt, numbers: &[u32]) -> Result<bool, NoMemory> {
    let all = heads(alloc, body)?;
    Ok(are_signals(all.as_slice(), numbers))
}

fn children_are(alloc: Global, body: &DStmt, numbers: &[u32]) -> Result<bool, NoMemory> {
    let all = children(alloc, body)?;
    Ok(are_writes(all.as_slice(), numbers))
}

fn asked_are(alloc: Global, body: &DStmt, numbers: &[u32]) -> Result<bool, NoMemory> {
    let all = asked(alloc, body)?;
    Ok(are_signals(all.as_slice(), numbers))
}

fn mux_in_order(alloc: Global) -> Result<bool, NoMemory> {
    let e = mux(alloc)?;
    operands_are(alloc, &e, &[1, 1000, 3])
}

fn select_has_none(alloc: Global) -> Result<bool, NoMemory> {
    let e = select(alloc)?;
    operands_are(alloc, &e, &[])
}

fn case_heads(alloc: Global) -> Result<bool, NoMemory> {
    let body = case(alloc)?;
    heads_are(alloc, &body, &[1, 2, 3, 4])
}

fn case_children(alloc: Global) -> Result<bool, NoMemory> {
    let body = case(alloc)?;
    children_are(alloc, &body, &[5, 6, 7])
}

fn case_asked(alloc: Global) -> Result<bool, NoMemory> {
    let body = case(alloc)?;
    asked_are(alloc, &body, &[1, 2, 3, 4])
}

// A case with a default alone: its selector is compared with nothing.
fn lone_selector(alloc: Global) -> Result<bool, NoMemory> {
    let body = DStmt::Case {
        selector: signal(1),
        arms: Items::new(alloc),
        rest: Some(Boxed::new(alloc, write(7))?),
    };
    asked_are(alloc, &body, &[])
}

#[test]
fn parts_in_order(rt: HostRuntime) -> Result<(), Fail> {
    let alloc = rt.alloc();
    assert!(rt; mux_in_order(alloc) == Ok(true));
    assert!(rt; select_has_none(alloc) == Ok(true));
    assert!(rt; case_heads(alloc) == Ok(true));
    assert!(rt; case_children(alloc) == Ok(true));
    assert!(rt; case_asked(alloc) == Ok(true));
    assert!(rt; lone_selector(alloc) == Ok(true));
    Ok(())
}
