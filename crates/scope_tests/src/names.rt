use bits_core::{Bits, Items, NoMemory};
use std::alloc::Global;
use std::test::Fail;
use vl_names::{Index, Kind, Outside, Reach, Scope, Slot, Table};
use vl_size::Const;

fn made<T: Drop>(answer: Result<T, NoMemory>) -> Result<T, Fail> {
    match answer {
        Ok(value) => Ok(value),
        Err(_) => Err(Fail::from("no memory")),
    }
}

#[test]
fn a_name_has_its_first_place(rt: HostRuntime) -> Result<(), Fail> {
    let mut names = Index::new(rt.alloc());
    assert!(rt; made(names.add(b"clk"))?);
    assert!(rt; made(names.add(b"q"))?);
    assert!(rt; !made(names.add(b"clk"))?);
    assert!(rt; names.place(b"clk") == Some(0));
    assert!(rt; names.place(b"q") == Some(1));
    assert!(rt; names.place(b"d").is_none());
    assert!(rt; names.has(b"q") && !names.has(b"d"));
    assert!(rt; names.len() == 2);
    Ok(())
}

/// A table of one constant of one bit.
fn with_bit<'f>(alloc: Global, name: &'f [u8], value: bool) -> Result<Table<'f>, NoMemory> {
    let mut names = Index::new(alloc);
    names.add(name)?;
    let mut bits = Bits::zeros(alloc, 1)?;
    bits.set(0, value);
    let mut slots = Items::new(alloc);
    slots.push(Slot {
        kind: Kind::Constant,
        entry: None,
        value: Some(Const {
            bits,
            signed: false,
        }),
        met: true,
    })?;
    Ok(Table {
        names,
        slots,
        signed: Index::new(alloc),
    })
}

fn bit_of(reach: Reach, name: &[u8]) -> Option<bool> {
    match reach.value(name) {
        None => None,
        Some(value) => {
            if value.bits.len() == 0 {
                None
            } else {
                Some(value.bits.get(0))
            }
        }
    }
}

#[test]
fn an_inner_name_hides_an_outer_one(rt: HostRuntime) -> Result<(), Fail> {
    let alloc = rt.alloc();
    let mut scopes = Items::new(alloc);
    made(scopes.push(Scope {
        parent: None,
        name: Items::new(alloc),
        path: Items::new(alloc),
        home: 0,
        place: Items::new(alloc),
        block: false,
        stub: false,
        table: made(with_bit(alloc, b"A", true))?,
        variable: made(with_bit(alloc, b"i", true))?,
    }))?;
    let own = made(with_bit(alloc, b"A", false))?;
    let variable = made(with_bit(alloc, b"j", true))?;
    let outside = Outside {
        variable: &variable,
        scopes: scopes.as_slice(),
        outer: Some(0),
    };
    let reach = Reach { own: &own, outside };
    assert!(rt; bit_of(reach, b"A") == Some(false));
    assert!(rt; bit_of(reach, b"j") == Some(true));
    assert!(rt; bit_of(reach, b"i") == Some(true));
    assert!(rt; bit_of(reach, b"B").is_none());
    assert!(rt; reach.entry(b"A").is_none());
    assert!(rt; outside.knows(b"A") && !outside.knows(b"B"));
    Ok(())
}
