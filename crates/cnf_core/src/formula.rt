use crate::lit::Lit;
use bits_core::Items;

/// A clause: it holds where one of its literals does.
pub type Clause = Items<Lit>;

/// A list of clauses.
pub type ClauseList = Items<Clause>;

/// A list of the ids of clauses; a number below 0 is the id of none.
pub type IdList = Items<i64>;

/// A formula in conjunctive normal form over the variables 1 to `variables`: it holds where all its clauses do.
#[derive(Debug, Drop)]
pub struct Formula {
    pub variables: u32,
    pub clauses: ClauseList,
}

/// A step of a log: a clause is added under an id, with the ids of the clauses that imply it, or clauses are deleted.
#[derive(Debug, Drop)]
pub enum Step {
    Add {
        id: u64,
        lits: Clause,
        hints: IdList,
    },
    Delete {
        ids: IdList,
    },
}

/// A log of steps, which may refute a formula.
pub type Log = Items<Step>;
