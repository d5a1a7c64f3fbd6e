ghost use Rattle.std.specs.Prelude.{◌≡◌};
ghost use Rattle.design_core.specs.Wellformed.{carried_weight};

use crate::place::BitRef;
use crate::tree::{DExpr, DLeft, DStmt};
use bits_core::Items;

/// The asynchronous reset of a clocked item: the bit, the value with which it holds, the test as it was written, and the branch that is run while it holds.
#[derive(Drop)]
pub struct DReset {
    pub bit: BitRef,
    pub asserted: bool,
    pub test: DExpr,
    pub branch: DStmt,
}

/// What drives bits: a continuous assignment (IEEE 1364-2005, 6.1), a process of blocking writes, or a process that acts on the clock, perhaps with an
/// asynchronous reset. A register that is only given a power-up value is a `Clocked`, without a reset, in which the bit is assigned to itself.
#[derive(Drop)]
pub enum Item {
    Assign {
        scope: u32,
        weight: u64,
        left: DLeft,
        right: DExpr,
    },
    Comb {
        scope: u32,
        weight: u64,
        body: DStmt,
    },
    Clocked {
        scope: u32,
        weight: u64,
        reset: Option<DReset>,
        body: DStmt,
    },
}

pub type ItemList = Items<Item>;

/// The weight that the item carries.
pub fn weight(item: &Item) -> u64
    ensures { result ≡ carried_weight item.now }
{
    match item {
        Item::Assign { weight, .. } => *weight,
        Item::Comb { weight, .. } => *weight,
        Item::Clocked { weight, .. } => *weight,
    }
}

/// The value of a register bit at power-up.
#[derive(Clone, Copy, Debug, PartialEq, Eq)]
pub struct PowerUp {
    pub bit: BitRef,
    pub value: bool,
}

pub type PowerUpList = Items<PowerUp>;
