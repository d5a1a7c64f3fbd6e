ghost use Rattle.std.specs.Prelude.{◌≡◌, ℕ, ◌≤◌, Bool, List, length, IfOk};
ghost use Rattle.bits_core.specs.Places.{extended, placed, selected};
ghost use Rattle.design_core.specs.Operators.{binary_value, chosen, unary_value};
ghost use Rattle.value_domain.specs.Lengths.{FitsBinary, FitsUnary, binary_length, unary_length};
ghost use Rattle.value_domain.specs.Meaning.{Keeps, Meaning, Stands};

use bits_core::{Bits, NoMemory};
use design_core::{Binary, Unary};

/// Values that stand for bit lists: bits themselves, or nodes of a net whose leaves a valuation gives.
///
/// Each operation gives a value that stands, under each valuation, for the operator on what its operands stand for; and the values
/// made before stand for what they stood for, after want of memory too. No operation makes a variable.
pub trait Domain {
    type Value: Drop;

    /// The width of a value, what a value of the domain is, what it reads as under a valuation, and which variables stand in the domain.
    ghost meaning: { Meaning Self Self.Value };

    /// A constant.
    fn constant(&mut self, bits: &Bits) -> Result<Self::Value, NoMemory>
        ensures made { IfOk result (λ r. Stands meaning self.new r (length bits.now) (λ v. bits.now)) }
        ensures kept { Keeps meaning self.old self.new };

    /// An operator of one operand (IEEE 1364-2005, 5.1).
    fn unary(&mut self, op: Unary, a: &Self::Value) -> Result<Self::Value, NoMemory>
        requires value { meaning.is_value self.old a.now }
        requires fits { FitsUnary op (meaning.width a.now) }
        ensures made { IfOk result (λ r. Stands meaning self.new r (unary_length op (meaning.width a.now)) (λ v. unary_value op (meaning.reads self.old v a.now))) }
        ensures kept { Keeps meaning self.old self.new };

    /// An operator of two operands; `signed` decides order and the fill of the arithmetic right shift (IEEE 1364-2005, 5.1).
    fn binary(
        &mut self,
        op: Binary,
        a: &Self::Value,
        b: &Self::Value,
        signed: bool,
    ) -> Result<Self::Value, NoMemory>
        requires values { meaning.is_value self.old a.now × meaning.is_value self.old b.now }
        requires fits { FitsBinary op (meaning.width a.now) (meaning.width b.now) }
        ensures made { IfOk result (λ r. Stands meaning self.new r (binary_length op (meaning.width a.now))
            (λ v. binary_value op signed (meaning.reads self.old v a.now) (meaning.reads self.old v b.now))) }
        ensures kept { Keeps meaning self.old self.new };

    /// The second value where some bit of the first is 1, else the third (IEEE 1364-2005, 5.1.13).
    fn mux(
        &mut self,
        c: &Self::Value,
        a: &Self::Value,
        b: &Self::Value,
    ) -> Result<Self::Value, NoMemory>
        requires values { meaning.is_value self.old c.now × meaning.is_value self.old a.now × meaning.is_value self.old b.now }
        requires same { meaning.width a.now ≡ meaning.width b.now }
        ensures made { IfOk result (λ r. Stands meaning self.new r (meaning.width a.now)
            (λ v. chosen (meaning.reads self.old v c.now) (meaning.reads self.old v a.now) (meaning.reads self.old v b.now))) }
        ensures kept { Keeps meaning self.old self.new };

    /// The value brought to another length (IEEE 1364-2005, 5.5).
    fn extend(&mut self, a: &Self::Value, len: u32, signed: bool) -> Result<Self::Value, NoMemory>
        requires value { meaning.is_value self.old a.now }
        requires some { 1 ≤ len }
        requires most { len ≤ 65536 }
        ensures made { IfOk result (λ r. Stands meaning self.new r len (λ v. extended signed len (meaning.reads self.old v a.now))) }
        ensures kept { Keeps meaning self.old self.new };

    /// Bits from a place on, 0 outside (IEEE 1364-2005, 5.2.1).
    fn select(&mut self, a: &Self::Value, low: i64, len: u32) -> Result<Self::Value, NoMemory>
        requires value { meaning.is_value self.old a.now }
        requires some { 1 ≤ len }
        requires most { len ≤ 65536 }
        ensures made { IfOk result (λ r. Stands meaning self.new r len (λ v. selected low len (meaning.reads self.old v a.now))) }
        ensures kept { Keeps meaning self.old self.new };

    /// A part written over a value from a place on, nothing outside (IEEE 1364-2005, 5.2.1).
    fn place(
        &mut self,
        a: &Self::Value,
        part: &Self::Value,
        low: i64,
    ) -> Result<Self::Value, NoMemory>
        requires values { meaning.is_value self.old a.now × meaning.is_value self.old part.now }
        ensures made { IfOk result (λ r. Stands meaning self.new r (meaning.width a.now)
            (λ v. placed low (meaning.reads self.old v part.now) (meaning.reads self.old v a.now))) }
        ensures kept { Keeps meaning self.old self.new };

    /// The same value once more.
    fn copy(&mut self, a: &Self::Value) -> Result<Self::Value, NoMemory>
        requires { meaning.is_value self.old a.now }
        ensures made { IfOk result (λ r. Stands meaning self.new r (meaning.width a.now) (λ v. meaning.reads self.old v a.now)) }
        ensures kept { Keeps meaning self.old self.new };

    /// A value reads as so many bits as it is wide.
    ghost as_wide: { (domain : Self) (v : ℕ → Bool) (x : Self.Value) → meaning.is_value domain x → length (meaning.reads domain v x) ≡ meaning.width x };
}
