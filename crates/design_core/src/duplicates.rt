ghost use Rattle.std.specs.Prelude.{◌≡◌, IfOk};

use crate::copies::{
    copy_arm, copy_expr, copy_function, copy_left, copy_match, copy_node, copy_stmt,
};
use crate::items::{DReset, Item, PowerUp};
use crate::place::BitRef;
use crate::signals::{Scope, Signal};
use crate::tree::{DArm, DExpr, DFunction, DLeft, DMatch, DNode, DStmt};
use bits_core::{Duplicate, NoMemory};
use std::alloc::Global;

impl Duplicate for BitRef {
    fn copy(&self, alloc: Global) -> Result<BitRef, NoMemory> {
        Ok(*self)
    }
}

impl Duplicate for PowerUp {
    fn copy(&self, alloc: Global) -> Result<PowerUp, NoMemory> {
        Ok(*self)
    }
}

impl Duplicate for DExpr {
    fn copy(&self, alloc: Global) -> Result<DExpr, NoMemory> {
        copy_expr(alloc, self)
    }
}

impl Duplicate for DNode {
    fn copy(&self, alloc: Global) -> Result<DNode, NoMemory> {
        copy_node(alloc, self)
    }
}

impl Duplicate for DFunction {
    fn copy(&self, alloc: Global) -> Result<DFunction, NoMemory> {
        copy_function(alloc, self)
    }
}

impl Duplicate for DLeft {
    fn copy(&self, alloc: Global) -> Result<DLeft, NoMemory> {
        copy_left(alloc, self)
    }
}

impl Duplicate for DStmt {
    fn copy(&self, alloc: Global) -> Result<DStmt, NoMemory> {
        copy_stmt(alloc, self)
    }
}

impl Duplicate for DArm {
    fn copy(&self, alloc: Global) -> Result<DArm, NoMemory> {
        copy_arm(alloc, self)
    }
}

impl Duplicate for DMatch {
    fn copy(&self, alloc: Global) -> Result<DMatch, NoMemory> {
        copy_match(alloc, self)
    }
}

impl Duplicate for Scope {
    fn copy(&self, alloc: Global) -> Result<Scope, NoMemory> {
        let name = self.name.copy(alloc)?;
        let path = self.path.copy(alloc)?;
        let module = self.module.copy(alloc)?;
        Ok(Scope {
            parent: self.parent,
            name,
            path,
            module,
        })
    }
}

impl Duplicate for Signal {
    fn copy(&self, alloc: Global) -> Result<Signal, NoMemory> {
        let name = self.name.copy(alloc)?;
        let path = self.path.copy(alloc)?;
        Ok(Signal {
            scope: self.scope,
            name,
            path,
            word: self.word,
            length: self.length,
            signed: self.signed,
            ranged: self.ranged,
            high: self.high,
            low: self.low,
        })
    }
}

impl Duplicate for DReset {
    fn copy(&self, alloc: Global) -> Result<DReset, NoMemory> {
        let test = copy_expr(alloc, &self.test)?;
        let branch = copy_stmt(alloc, &self.branch)?;
        Ok(DReset {
            bit: self.bit,
            asserted: self.asserted,
            test,
            branch,
        })
    }
}

fn copy_reset(alloc: Global, reset: &Option<DReset>) -> Result<Option<DReset>, NoMemory>
    ensures { IfOk result (λ copied. copied ≡ reset.now) }
{
    match reset {
        None => Ok(None),
        Some(own) => Ok(Some(own.copy(alloc)?)),
    }
}

impl Duplicate for Item {
    fn copy(&self, alloc: Global) -> Result<Item, NoMemory> {
        match self {
            Item::Assign {
                scope,
                weight,
                left,
                right,
            } => {
                let left = copy_left(alloc, left)?;
                let right = copy_expr(alloc, right)?;
                Ok(Item::Assign {
                    scope: *scope,
                    weight: *weight,
                    left,
                    right,
                })
            }
            Item::Comb {
                scope,
                weight,
                body,
            } => {
                let body = copy_stmt(alloc, body)?;
                Ok(Item::Comb {
                    scope: *scope,
                    weight: *weight,
                    body,
                })
            }
            Item::Clocked {
                scope,
                weight,
                reset,
                body,
            } => {
                let reset = copy_reset(alloc, reset)?;
                let body = copy_stmt(alloc, body)?;
                Ok(Item::Clocked {
                    scope: *scope,
                    weight: *weight,
                    reset,
                    body,
                })
            }
        }
    }
}
