use bits_core::{Duplicate, Items, NoMemory};
use std::alloc::Global;

/// A bit that has a fixed value.
#[derive(Clone, Copy, Debug, PartialEq, Eq)]
pub struct FixedBit {
    pub bit: u32,
    pub value: bool,
}

/// Bits that have fixed values.
pub type FixedBitList = Items<FixedBit>;

/// A reset bit: it has the asserted value in so many cycles from the first, and the other value from then on.
#[derive(Clone, Copy, Debug, PartialEq, Eq)]
pub struct FixedReset {
    pub bit: u32,
    pub asserted: bool,
    pub cycles: u32,
}

/// The input bits that are no leaves: the pinned ones, and the reset where there is one.
#[derive(Debug, Drop)]
pub struct Fixed {
    pub pins: FixedBitList,
    pub reset: Option<FixedReset>,
}

/// The stored values of the first cycle: any, or those at power-up.
#[derive(Debug, Drop)]
pub enum StartState {
    Free,
    PowerUp(FixedBitList),
}

impl Duplicate for FixedBit {
    fn copy(&self, alloc: Global) -> Result<FixedBit, NoMemory> {
        Ok(*self)
    }
}
