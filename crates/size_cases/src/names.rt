use bits_core::Items;
use expr_case_lines::{Shape, WIRE, put_name, size_entry, vector};
use std::alloc::{AllocError, Global};
use vl_size::{LengthList, NameKind, SizeEntryList, SizeTable};

/// The names of the cases: wires `a`, `b`; vectors `v`, `w`, `x`, `y` of 8, 16, 128 and 129 bits, `r` that rises; signed `s`, `n` of 8 and 4
/// bits; an `i` of 32 bits, signed; constants `P` and `Q` of 4 and 200 bits; functions `f` of inputs of 8 and 16 bits, and `g` of none.
pub fn table(alloc: Global) -> Result<SizeTable, AllocError> {
    let mut all = Vec::new(alloc);
    put_name(alloc, &mut all, b"a", WIRE)?;
    put_name(alloc, &mut all, b"b", WIRE)?;
    put_name(alloc, &mut all, b"v", vector(8))?;
    put_name(alloc, &mut all, b"w", vector(16))?;
    put_name(alloc, &mut all, b"x", vector(128))?;
    put_name(alloc, &mut all, b"y", vector(129))?;
    put_name(alloc, &mut all, b"z", vector(40_000))?;
    put_name(
        alloc,
        &mut all,
        b"r",
        Shape {
            high: 0,
            low: 7,
            ..vector(8)
        },
    )?;
    put_name(
        alloc,
        &mut all,
        b"s",
        Shape {
            signed: true,
            ..vector(8)
        },
    )?;
    put_name(
        alloc,
        &mut all,
        b"n",
        Shape {
            signed: true,
            ..vector(4)
        },
    )?;
    put_name(
        alloc,
        &mut all,
        b"i",
        Shape {
            signed: true,
            ..vector(32)
        },
    )?;
    put_name(
        alloc,
        &mut all,
        b"P",
        Shape {
            kind: NameKind::Constant,
            length: 4,
            ..WIRE
        },
    )?;
    put_name(
        alloc,
        &mut all,
        b"Q",
        Shape {
            kind: NameKind::Constant,
            length: 200,
            ..WIRE
        },
    )?;
    let function = Shape {
        kind: NameKind::Function,
        ..vector(8)
    };
    let mut inputs = Vec::new(alloc);
    inputs.push(8)?;
    inputs.push(16)?;
    all.push(size_entry(alloc, b"f", function, LengthList::of(inputs))?)?;
    all.push(size_entry(
        alloc,
        b"g",
        Shape {
            length: 4,
            ..function
        },
        Items::new(alloc),
    )?)?;
    Ok(SizeTable {
        entries: SizeEntryList::of(all),
    })
}
