//! Laws on nets that grow.
#![tactic(auto)]

ghost use Rattle.net_laws.specs.Leaves.{BelowIsHad, GatedStayBelow, PushedStayBelow};

/// All leaves of a net are below a number exactly where each leaf that it has is. They stay below it where a node is pushed that is no leaf from the
/// number on, and where a goal is pushed, which is gates alone.
pub fn leaves_stay_below()
    ensures had { BelowIsHad }
    ensures pushed { PushedStayBelow }
    ensures gated { GatedStayBelow }
{}
