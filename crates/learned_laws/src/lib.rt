//! A law on learned logs.
#![tactic(auto)]

ghost use Rattle.std.specs.Prelude.{ℕ, ◌<◌, ◌^◌, List, length};
ghost use Rattle.cnf_core.specs.declared.lit.Lit.{Lit};
ghost use Rattle.cnf_core.specs.declared.formula.Step.{Step};
ghost use Rattle.cnf_core.specs.Learned.{IsLearnedLog};

/// A learned log over m leaves has fewer than 2^m clauses, so a solver with a budget of as many never spends it.
pub fn learned_logs_are_short()
    ensures { (cs : List (List Lit)) (leaves : ℕ) (log : List Step) → IsLearnedLog cs leaves log → length log < 2 ^ leaves }
{}
