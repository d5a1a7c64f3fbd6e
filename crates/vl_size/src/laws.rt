ghost use Rattle.vl_size.specs.Faults.{FaultsAreLowest, WholeFaultsAreLowest};
ghost use Rattle.vl_size.specs.Sharing.{OperandsShare};

/// An expression by itself has the largest length of the operands that share its context, and a sign where all of them have one
/// (IEEE 1364-2005, 5.4.1 and 5.5.1). Does nothing.
#[tactic(auto, using(crate::proofs::SharingLaws::operands_share))]
pub fn operands_share()
    ensures { OperandsShare }
{}

/// The fault that is kept at an expression is the lowest of its faults, one by one and place by place, and so is what a whole expression in a context is refused
/// with. Does nothing.
#[tactic(auto, using(crate::proofs::FaultLaws::faults_are_lowest, crate::proofs::FaultLaws::whole_faults_are_lowest))]
pub fn faults_are_lowest()
    ensures own { FaultsAreLowest }
    ensures whole { WholeFaultsAreLowest }
{}
