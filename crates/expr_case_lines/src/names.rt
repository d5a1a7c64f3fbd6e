use bits_core::{Items, Name};
use std::alloc::{AllocError, Global};
use vl_size::{LengthList, NameKind, SizeEntry};

/// How a name is declared.
#[derive(Clone, Copy, Debug)]
pub struct Shape {
    pub kind: NameKind,
    pub length: u32,
    pub signed: bool,
    /// It has the range from `high` to `low`.
    pub ranged: bool,
    pub high: i64,
    pub low: i64,
}

/// A wire of one bit without range.
pub const WIRE: Shape = Shape {
    kind: NameKind::Signal,
    length: 1,
    signed: false,
    ranged: false,
    high: 0,
    low: 0,
};

/// A wire of so many bits, of which the last is bit 0.
pub fn vector(length: u32) -> Shape {
    Shape {
        length,
        ranged: true,
        high: i64::from(length) - 1,
        ..WIRE
    }
}

/// The entry of a name.
pub fn size_entry(
    alloc: Global,
    name: &[u8],
    shape: Shape,
    inputs: LengthList,
) -> Result<SizeEntry, AllocError> {
    Ok(SizeEntry {
        name: Name::of(Vec::from_slice(alloc, name)?),
        kind: shape.kind,
        length: shape.length,
        signed: shape.signed,
        ranged: shape.ranged,
        high: shape.high,
        low: shape.low,
        inputs,
    })
}

/// Puts the entry of a name without inputs behind others.
pub fn put_name(
    alloc: Global,
    all: &mut Vec<SizeEntry>,
    name: &[u8],
    shape: Shape,
) -> Result<(), AllocError> {
    all.push(size_entry(alloc, name, shape, Items::new(alloc))?)?;
    Ok(())
}
