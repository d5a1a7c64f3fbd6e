ghost use Rattle.bits_core.specs.Laws.{LeftMultiplies, RightDivides, NumbersOfBits, BitsOfNumbers};

/// The bits of a number are those of the number modulo 2 to their length.
#[tactic(auto, using(crate::proofs::ShiftLaws::numbers_of_bits))]
pub fn bits_keep_numbers()
    ensures { NumbersOfBits }
{}

/// Bits are the bits of their number.
#[tactic(auto, using(crate::proofs::ShiftLaws::bits_of_numbers))]
pub fn numbers_keep_bits()
    ensures { BitsOfNumbers }
{}

/// Moving bits up multiplies their number by a power of 2, modulo 2 to the length.
#[tactic(auto, using(crate::proofs::ShiftLaws::left_multiplies))]
pub fn shift_left_multiplies()
    ensures { LeftMultiplies }
{}

/// Moving bits down with 0 divides their number by a power of 2.
#[tactic(auto, using(crate::proofs::ShiftLaws::right_divides))]
pub fn shift_right_divides()
    ensures { RightDivides }
{}
