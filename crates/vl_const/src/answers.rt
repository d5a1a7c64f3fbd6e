ghost use Rattle.std.specs.Prelude.{◌≡◌};
ghost use Rattle.vl_const.specs.Answers as spec;

use crate::places::Way;
use bits_core::{Bits, Items};
use vl_tree::Code;

/// What is found of an expression in its context: its value, whether it reads a signal or calls a function, and the lowest code among its faults.
#[derive(Drop)]
pub struct Answer {
    pub value: Bits,
    pub reads: bool,
    pub fault: Option<Code>,
}

/// Parts of a concatenation, the highest bit first.
#[derive(Drop)]
pub struct Joined {
    pub bits: Items<bool>,
    pub reads: bool,
    pub fault: Option<Code>,
}

/// Where the bits of a select lie, by the number of its index if that is not too large.
#[derive(Clone, Copy)]
pub struct Place {
    pub way: Way,
    pub at: Option<i64>,
    pub reads: bool,
    pub fault: Option<Code>,
}

/// Whether there is no fault.
pub fn is_none(code: Option<Code>) -> bool
    ensures { result ≡ spec.is_none code }
{
    match code {
        None => true,
        Some(_) => false,
    }
}
