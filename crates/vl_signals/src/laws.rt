ghost use Rattle.vl_signals.specs.Laws.{NamesHaveSites, SignalsHaveNumbers};

/// What a name stands for is declared at its site, unless it is the variable of a loop.
#[tactic(auto, using(crate::proofs::SiteLaws::names_have_sites))]
pub fn names_have_sites()
    ensures { NamesHaveSites }
{}

/// Beside each name that is a signal stands the number that its signal has in the design.
#[tactic(auto, using(crate::proofs::NumberLaws::signals_have_numbers))]
pub fn signals_have_numbers()
    ensures { SignalsHaveNumbers }
{}
