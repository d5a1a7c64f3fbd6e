use crate::formula::{Formula, Step};
use crate::lit::Lit;
use bits_core::{Duplicate, NoMemory};
use std::alloc::Global;

impl Duplicate for Lit {
    fn copy(&self, alloc: Global) -> Result<Lit, NoMemory> {
        Ok(*self)
    }
}

impl Duplicate for Formula {
    fn copy(&self, alloc: Global) -> Result<Formula, NoMemory> {
        Ok(Formula {
            variables: self.variables,
            clauses: self.clauses.copy(alloc)?,
        })
    }
}

impl Duplicate for Step {
    fn copy(&self, alloc: Global) -> Result<Step, NoMemory> {
        match self {
            Step::Add { id, lits, hints } => Ok(Step::Add {
                id: *id,
                lits: lits.copy(alloc)?,
                hints: hints.copy(alloc)?,
            }),
            Step::Delete { ids } => Ok(Step::Delete {
                ids: ids.copy(alloc)?,
            }),
        }
    }
}
