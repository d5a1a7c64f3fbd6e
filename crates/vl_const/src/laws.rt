ghost use Rattle.vl_const.specs.Laws.{FaultsAreLowest, LogarithmsAreLeast, NumbersAreDivided, PowersAreOfNumbers, ValuesAreLong, ValuesAreUsed};

/// What a walk tells for a fault is the lowest of the faults that stand in the expression, place by place. Does nothing.
#[tactic(auto, using(crate::proofs::FaultLaws::fault_is))]
pub fn faults_are_lowest()
    ensures { FaultsAreLowest }
{}

/// A value has the length of its context. Does nothing.
#[tactic(auto, using(crate::proofs::WorthLaws::value_long))]
pub fn values_are_long()
    ensures { ValuesAreLong }
{}

/// The walk of values uses the same values of counts, bounds and widths as that of sizes. Does nothing.
#[tactic(auto, using(crate::proofs::WorthLaws::rest_is))]
pub fn values_are_used()
    ensures { ValuesAreUsed }
{}

/// A power is that of the numbers, modulo 2 to the length. Does nothing.
#[tactic(auto, using(crate::proofs::PowerLaws::power_is))]
pub fn powers_are_of_numbers()
    ensures { PowersAreOfNumbers }
{}

/// The rounded logarithm is the least exponent of 2 that reaches the number. Does nothing.
#[tactic(auto, using(crate::proofs::LogLaws::logarithm_is))]
pub fn logarithms_are_least()
    ensures { LogarithmsAreLeast }
{}

/// A number is the quotient times the divisor and what is left, which is less than the divisor and has the sign of the number. Does nothing.
#[tactic(auto, using(crate::proofs::DivisionLaws::divided))]
pub fn numbers_are_divided()
    ensures { NumbersAreDivided }
{}
