ghost use Rattle.std.specs.Prelude.{◌≡◌, ◌<◌, ◌≤◌, ◌^◌, false, pos};
ghost use Rattle.std.specs.Option.{SomeIff};
ghost use Rattle.std.specs.Int.RustNames.{unsigned_abs};
ghost use Rattle.cnf_core.specs.Lit.{variable_of, is_positive, opposite, literal_of};

use std::marker::Model;

/// A literal: a variable from 1 to 2^30 - 1, or its negation as a number below 0. Contracts see the number.
#[derive(Clone, Copy, PartialEq, Eq, Debug)]
pub struct Lit {
    value: i32,
}

impl Model for Lit {
    ghost use Rattle.std.specs.Prelude.{ℤ, ℕ, ◌<◌, ◌≤◌, ◌^◌};
    ghost use Rattle.std.specs.Int.RustNames.{unsigned_abs};

    ghost Value = { ℤ };

    ghost view = { λ lit. lit.value };

    ghost invariant = { λ lit. (1 ≤ unsigned_abs lit.value) × (unsigned_abs lit.value < 2 ^ 30) };

    ghost inverse = { λ z. record { value = z } };
}

impl Lit {
    /// The literal of a number: there is one exactly where the number is not 0 and its absolute value is below 2^30.
    pub fn new(value: i32) -> Option<Lit>
        ensures { SomeIff result ((1 ≤ unsigned_abs value) × (unsigned_abs value < 2 ^ 30)) value }
    {
        if value == 0 || value.unsigned_abs() >= 1 << 30 {
            return None;
        }
        Some(Lit { value })
    }

    /// The literal of a variable, positive or negative.
    pub fn of(variable: u32, positive: bool) -> Lit
        requires above { 1 ≤ variable }
        requires below { variable < 2 ^ 30 }
        ensures value { result ≡ literal_of variable positive }
        ensures variable { variable_of result ≡ variable }
        ensures sign { is_positive result ≡ positive }
    {
        if positive {
            Lit {
                value: variable as i32,
            }
        } else {
            Lit {
                value: -(variable as i32),
            }
        }
    }

    /// The literal of an integer that is not 0.
    pub fn of_integer(value: i64) -> Lit
        requires full { 1 ≤ unsigned_abs value }
        requires below { unsigned_abs value < 2 ^ 30 }
        ensures { result ≡ value }
    {
        Lit {
            value: value as i32,
        }
    }

    /// The number: the variable, or below 0 its negation.
    pub fn value(self) -> i32
        ensures { result ≡ self }
    {
        self.value
    }

    pub fn variable(self) -> u32
        ensures value { result ≡ variable_of self }
        ensures above { 1 ≤ variable_of self }
        ensures below { variable_of self < 2 ^ 30 }
    {
        self.value.unsigned_abs()
    }

    pub fn is_positive(self) -> bool
        ensures { result ≡ is_positive self }
    {
        self.value > 0
    }

    /// The complement.
    pub fn negated(self) -> Lit
        ensures { result ≡ opposite self }
    {
        Lit { value: -self.value }
    }
}
