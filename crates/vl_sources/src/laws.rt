ghost use Rattle.vl_sources.specs.Sources.{ModulesStandInPlace};

/// Where no two modules have one name, each name stands at the place of its module. Does nothing.
#[tactic(auto, using(crate::proofs::PlaceLaws::in_place))]
pub fn modules_stand_in_place()
    ensures { ModulesStandInPlace }
{}
