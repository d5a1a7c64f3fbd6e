ghost use Rattle.std.specs.Prelude.{◌≡◌, false, length, refl};
ghost use Rattle.value_domain.specs.Meaning.{Meaning};

use crate::domain::Domain;
use crate::operators::some_set;
use crate::words::{binary_bits, unary_bits};
use bits_core::{Bits, NoMemory};
use design_core::{Binary, Unary};
use std::alloc::Global;

/// The domain of bit lists: each stands for itself, valuations play no part, and no variable stands in it.
#[derive(Drop)]
pub struct BitsDomain {
    alloc: Global,
}

impl BitsDomain {
    /// The domain. Takes no memory.
    pub fn new(alloc: Global) -> BitsDomain {
        BitsDomain { alloc }
    }
}

impl Domain for BitsDomain {
    type Value = Bits;

    ghost meaning = { record { width = length; is_value = λ domain x. Unit {0}; reads = λ domain v x. x; base = λ domain i. false } };

    ghost as_wide = { λ domain v x h. refl };

    fn constant(&mut self, bits: &Bits) -> Result<Bits, NoMemory> {
        Bits::copy(self.alloc, bits)
    }

    fn unary(&mut self, op: Unary, a: &Bits) -> Result<Bits, NoMemory> {
        unary_bits(self.alloc, op, a)
    }

    fn binary(&mut self, op: Binary, a: &Bits, b: &Bits, signed: bool) -> Result<Bits, NoMemory> {
        binary_bits(self.alloc, op, a, b, signed)
    }

    fn mux(&mut self, c: &Bits, a: &Bits, b: &Bits) -> Result<Bits, NoMemory> {
        if some_set(c) {
            Bits::copy(self.alloc, a)
        } else {
            Bits::copy(self.alloc, b)
        }
    }

    fn extend(&mut self, a: &Bits, len: u32, signed: bool) -> Result<Bits, NoMemory> {
        let mut out = Bits::zeros(self.alloc, len as usize)?;
        Bits::extend_into(a, signed, &mut out);
        Ok(out)
    }

    fn select(&mut self, a: &Bits, low: i64, len: u32) -> Result<Bits, NoMemory> {
        let mut out = Bits::zeros(self.alloc, len as usize)?;
        Bits::select_into(a, low, &mut out);
        Ok(out)
    }

    fn place(&mut self, a: &Bits, part: &Bits, low: i64) -> Result<Bits, NoMemory> {
        let mut out = Bits::copy(self.alloc, a)?;
        Bits::place_into(part, low, &mut out);
        Ok(out)
    }

    fn copy(&mut self, a: &Bits) -> Result<Bits, NoMemory> {
        Bits::copy(self.alloc, a)
    }
}
