use bits_core::{Items, Name, NoMemory};
use std::alloc::Global;
use std::test::Fail;
use vl_items::{begin, copied, declare};
use vl_names::{Index, Kind, Scope, Table};
use vl_signals::{Site, design_scopes, number, signals_of, site_of};

fn made<T: Drop>(answer: Result<T, NoMemory>) -> Result<T, Fail> {
    match answer {
        Ok(value) => Ok(value),
        Err(_) => Err(Fail::from("no memory")),
    }
}

/// A parameter P and a signal a.
fn outer_names<'f>(alloc: Global) -> Result<Table<'f>, NoMemory> {
    let names = declare(alloc, Kind::Constant, false, begin(alloc), b"P")?;
    declare(alloc, Kind::Signal, false, names, b"a")
}

/// A signal b.
fn inner_names<'f>(alloc: Global) -> Result<Table<'f>, NoMemory> {
    declare(alloc, Kind::Signal, false, begin(alloc), b"b")
}

/// The variable i of a loop.
fn variable<'f>(alloc: Global) -> Result<Table<'f>, NoMemory> {
    declare(alloc, Kind::Signal, false, begin(alloc), b"i")
}

fn top<'f>(alloc: Global) -> Result<Scope<'f>, NoMemory> {
    Ok(Scope {
        parent: None,
        name: copied(alloc, b"m")?,
        path: copied(alloc, b"m")?,
        home: 0,
        place: Items::new(alloc),
        block: false,
        stub: false,
        table: outer_names(alloc)?,
        variable: begin(alloc),
    })
}

fn turn<'f>(alloc: Global) -> Result<Scope<'f>, NoMemory> {
    Ok(Scope {
        parent: Some(0),
        name: copied(alloc, b"g[2]")?,
        path: copied(alloc, b"m.g[2]")?,
        home: 0,
        place: Items::new(alloc),
        block: true,
        stub: false,
        table: inner_names(alloc)?,
        variable: variable(alloc)?,
    })
}

/// A module m with P and a, and in it a turn of a loop with b.
fn two_scopes<'f>(alloc: Global) -> Result<Items<Scope<'f>>, NoMemory> {
    let mut scopes = Items::new(alloc);
    scopes.push(top(alloc)?)?;
    scopes.push(turn(alloc)?)?;
    Ok(scopes)
}

fn is_name(name: &Name, text: &[u8]) -> bool {
    name.as_slice() == text
}

#[test]
fn signals_stand_by_scope(rt: HostRuntime) -> Result<(), Fail> {
    let scopes = made(two_scopes(rt.alloc()))?;
    let found = made(signals_of(rt.alloc(), scopes.as_slice()))?;
    let all = found.signals.as_slice();
    assert!(rt; all.len() == 2);
    if all.len() == 2 {
        assert!(rt; all[0].scope == 0 && is_name(&all[0].path, b"m.a"));
        assert!(rt; all[1].scope == 1 && is_name(&all[1].path, b"m.g[2].b"));
        assert!(rt; is_name(&all[1].name, b"b") && all[1].length == 1);
    }
    Ok(())
}

#[test]
fn names_have_sites_and_signals_numbers(rt: HostRuntime) -> Result<(), Fail> {
    let scopes = made(two_scopes(rt.alloc()))?;
    let found = made(signals_of(rt.alloc(), scopes.as_slice()))?;
    let numbers = found.numbers.as_slice();
    let a = Site { scope: 0, place: 1 };
    let b = Site { scope: 1, place: 0 };
    assert!(rt; site_of(scopes.as_slice(), Some(1), b"a") == Some(a));
    assert!(rt; site_of(scopes.as_slice(), Some(1), b"b") == Some(b));
    assert!(rt; site_of(scopes.as_slice(), Some(0), b"b").is_none());
    assert!(rt; site_of(scopes.as_slice(), Some(1), b"i").is_none());
    assert!(rt; number(numbers, a) == Some(0));
    assert!(rt; number(numbers, b) == Some(1));
    assert!(rt; number(numbers, Site { scope: 0, place: 0 }).is_none());
    Ok(())
}

#[test]
fn blocks_are_of_no_module(rt: HostRuntime) -> Result<(), Fail> {
    let scopes = made(two_scopes(rt.alloc()))?;
    let mut names = Index::new(rt.alloc());
    assert!(rt; made(names.add(b"m"))?);
    let all = made(design_scopes(rt.alloc(), &names, scopes.as_slice()))?;
    let all = all.as_slice();
    assert!(rt; all.len() == 2);
    if all.len() == 2 {
        assert!(rt; is_name(&all[0].module, b"m") && all[0].parent.is_none());
        assert!(rt; all[1].module.len() == 0 && all[1].parent == Some(0));
        assert!(rt; is_name(&all[1].path, b"m.g[2]"));
    }
    Ok(())
}
