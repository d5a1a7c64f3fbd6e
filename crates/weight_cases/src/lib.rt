//! A design that is formed, with its weights worked by hand, and the same with one thing wrong.
#![tactic(auto)]

ghost use Rattle.weight_cases.specs.Design.{DesignIsFormed, DesignWeighs, NoPowerUp, WrongTest, WrongWeight};

/// A design with a product, a variable select, a function, a `case` and a register under an asynchronous reset is formed and weighs what is worked by hand. It is none with a weight that is
/// one too small, with a reset test that is true where the reset does not hold, or with a register bit without a value at power-up. Does nothing.
pub fn weights_as_worked()
    ensures formed { DesignIsFormed }
    ensures weighs { DesignWeighs }
    ensures weight { WrongWeight }
    ensures test { WrongTest }
    ensures power_up { NoPowerUp }
{}
