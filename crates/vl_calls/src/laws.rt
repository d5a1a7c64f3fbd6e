ghost use Rattle.vl_calls.specs.Reaching.{CircularReach};

/// The functions that are found to be circular are exactly those that call themselves through any calls.
#[tactic(auto, using(crate::proofs::ReachLaws::circular_reach))]
pub fn circular_functions_reach_themselves()
    ensures { CircularReach }
{}
