ghost use Rattle.vl_tree.specs.Order.{LowestIsLowest, LowestOfBoth};
ghost use Rattle.vl_tree.specs.AllWords.{EachWordIsListed};

/// The lowest of some codes is one of them, and none of them stands below it. Does nothing.
#[tactic(auto, using(crate::proofs::OrderLaws::lowest_is_lowest))]
pub fn lowest_is_lowest()
    ensures { LowestIsLowest }
{}

/// The lower of the lowest of two lists of codes is the lowest of both together. Does nothing.
#[tactic(auto, using(crate::proofs::OrderLaws::both))]
pub fn lowest_of_both()
    ensures { LowestOfBoth }
{}

/// What holds of each word of the list of all words holds of any word. Does nothing.
#[tactic(auto, using(crate::proofs::WordLaws::at_word))]
pub fn each_word_is_listed()
    ensures { EachWordIsListed }
{}
