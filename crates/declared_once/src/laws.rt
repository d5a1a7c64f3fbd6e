ghost use Rattle.declared_once.specs.Laws.{KeptNamesTell};

/// What is kept of declarations tells of one more whether it goes together with each of them.
#[tactic(auto, using(crate::proofs::KeptLaws::kept_names_tell))]
pub fn kept_names_tell()
    ensures { KeptNamesTell }
{}
