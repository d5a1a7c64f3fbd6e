ghost use Rattle.vl_places.specs.Laws.{BlocksStandInPlace};

/// The items at the place of a block are those of the block. Does nothing.
#[tactic(auto, using(crate::proofs::BlockLaws::in_place))]
pub fn blocks_stand_in_place()
    ensures { BlocksStandInPlace }
{}
