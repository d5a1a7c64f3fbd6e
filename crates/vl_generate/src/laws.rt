ghost use Rattle.vl_generate.specs.Firsts.{FirstArmsCount};
ghost use Rattle.vl_generate.specs.Followed.{LongLoopsAreRefused, TurnsFollow};

/// The values of a loop are exactly those of its turns, one step from each to the next, as long as its test holds, where these are no more than the
/// limit. Does nothing.
pub fn turns_follow_the_header()
    ensures { TurnsFollow }
{}

/// A loop whose test still holds behind as many turns as the limit is refused as too long. Does nothing.
#[tactic(auto, using(crate::proofs::TurnLaws::long_loops))]
pub fn long_loops_are_refused()
    ensures { LongLoopsAreRefused }
{}

/// The arm of a `case` that matches is the first of which an item has the selector's value, and the `default` is the first that is one. Does
/// nothing.
pub fn first_arms_count()
    ensures { FirstArmsCount }
{}
