use bits_core::{Items, NoMemory};
use std::alloc::Global;
use std::test::Fail;
use vl_items::{begin, declare_constants, declare_parameters, declare_ports, declare_tokens};
use vl_names::{Index, Kind, Table};
use vl_tree::{
    Ansi, AnsiHead, ConstantValue, Dir, Expr, Pdecl, PdeclList, Ports, Span, Token, TokenKind, Var,
};

fn made<T: Drop>(answer: Result<T, NoMemory>) -> Result<T, Fail> {
    match answer {
        Ok(value) => Ok(value),
        Err(_) => Err(Fail::from("no memory")),
    }
}

fn token(text: &[u8]) -> Token<'_> {
    Token {
        kind: TokenKind::Name,
        text,
        span: Span {
            file: 0,
            start: 0,
            end: 0,
            line: 1,
        },
        implicit: true,
    }
}

fn named<'f>(alloc: Global, name: &'f [u8]) -> Expr<'f> {
    Expr::Name {
        name: token(name),
        selects: Items::new(alloc),
    }
}

fn ansi<'f>(head: Option<AnsiHead<'f>>, name: &'f [u8]) -> Ansi<'f> {
    Ansi {
        head,
        var: Var {
            name: token(name),
            value: None,
        },
    }
}

fn head<'f>(dir: Dir, signed: bool) -> Option<AnsiHead<'f>> {
    Some(AnsiHead {
        dir,
        net: None,
        signed,
        range: None,
    })
}

/// `(input signed a, b, output q)`.
fn ports<'f>(alloc: Global) -> Result<Ports<'f>, NoMemory> {
    let mut ports = Items::new(alloc);
    ports.push(ansi(head(Dir::Input, true), b"a"))?;
    ports.push(ansi(None, b"b"))?;
    ports.push(ansi(head(Dir::Output, false), b"q"))?;
    Ok(Ports::Declared(ports))
}

/// `#(parameter W = N)`.
fn parameters<'f>(alloc: Global) -> Result<PdeclList<'f>, NoMemory> {
    let mut all = Items::new(alloc);
    all.push(Pdecl {
        word: Some(None),
        name: token(b"W"),
        value: named(alloc, b"N"),
    })?;
    Ok(all)
}

fn are_names(names: &Index, expected: &[&[u8]]) -> bool {
    let mut same = names.len() == expected.len();
    for turn in 0..expected.len() {
        same = same && names.place(expected[turn]) == Some(turn);
    }
    same
}

fn kind_of(table: &Table, name: &[u8]) -> Option<Kind> {
    match table.find(name) {
        None => None,
        Some(slot) => Some(slot.kind),
    }
}

#[test]
fn each_name_is_declared_by_its_first_declaration(rt: HostRuntime) -> Result<(), Fail> {
    let alloc = rt.alloc();
    let mut constants = Items::new(alloc);
    made(constants.push(ConstantValue {
        name: token(b"L"),
        value: named(alloc, b"N"),
    }))?;
    let signals = [token(b"p"), token(b"w")];
    let genvars = [token(b"w"), token(b"g"), token(b"L")];
    let all = begin(alloc);
    let all = made(declare_tokens(&signals, alloc, Kind::Signal, false, all))?;
    let all = made(declare_constants(constants.as_slice(), alloc, all))?;
    let all = made(declare_tokens(&genvars, alloc, Kind::GenVar, true, all))?;
    assert!(rt; are_names(&all.names, &[b"p", b"w", b"L", b"g"]));
    assert!(rt; are_names(&all.signed, &[b"w", b"g", b"L"]));
    assert!(rt; kind_of(&all, b"w") == Some(Kind::Signal));
    assert!(rt; kind_of(&all, b"L") == Some(Kind::Constant));
    assert!(rt; kind_of(&all, b"g") == Some(Kind::GenVar));
    assert!(rt; kind_of(&all, b"x").is_none());
    Ok(())
}

#[test]
fn a_head_declares_parameters_and_ports(rt: HostRuntime) -> Result<(), Fail> {
    let alloc = rt.alloc();
    let list = Some(made(parameters(alloc))?);
    let declared = Some(Some(made(ports(alloc))?));
    let all = made(declare_parameters(&list, alloc, begin(alloc)))?;
    let all = made(declare_ports(&declared, alloc, all))?;
    assert!(rt; are_names(&all.names, &[b"W", b"a", b"b", b"q"]));
    assert!(rt; are_names(&all.signed, &[b"a", b"b"]));
    assert!(rt; kind_of(&all, b"W") == Some(Kind::Constant));
    assert!(rt; kind_of(&all, b"b") == Some(Kind::Signal));
    Ok(())
}
