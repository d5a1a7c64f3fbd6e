ghost use Rattle.std.specs.Prelude.{◌≡◌, All, IfOk, IfSome};
ghost use Rattle.run_cases.specs.Trees.{IsArm, IsExpr, IsItem, IsLeft, IsStmt};

use bits_core::{Bits, NoMemory};
use design_core::{DArm, DExpr, DMatch, DStmt};
use formed_trees::SizedLeft;
use std::alloc::Global;
use std::mem;

/// The signals of a case, its stacks, and the items and arms that wait for their case.
#[derive(Drop)]
pub struct Machine {
    alloc: Global,
    pub signals: Vec<Bits>,
    exprs: Vec<DExpr>,
    lefts: Vec<SizedLeft>,
    stmts: Vec<DStmt>,
    items: Vec<DMatch>,
    arms: Vec<DArm>,
    ghost exprs_are: { All (IsExpr signals.items) exprs.items },
    ghost lefts_are: { All (IsLeft signals.items) lefts.items },
    ghost stmts_are: { All (IsStmt signals.items) stmts.items },
    ghost items_are: { All (IsItem signals.items) items.items },
    ghost arms_are: { All (IsArm signals.items) arms.items },
}

impl Machine {
    /// The stacks are empty.
    pub fn new(alloc: Global, signals: Vec<Bits>) -> Machine {
        Machine {
            alloc,
            signals,
            exprs: Vec::new(alloc),
            lefts: Vec::new(alloc),
            stmts: Vec::new(alloc),
            items: Vec::new(alloc),
            arms: Vec::new(alloc),
        }
    }

    /// Whether nothing is left.
    pub fn is_empty(&self) -> bool {
        self.exprs.is_empty()
            && self.lefts.is_empty()
            && self.stmts.is_empty()
            && self.items.is_empty()
            && self.arms.is_empty()
    }

    /// Whether a statement is left.
    pub fn has_stmt(&self) -> bool {
        !self.stmts.is_empty()
    }

    /// The expression on top.
    pub fn pop(&mut self) -> Option<DExpr>
        ensures same { self.new.signals.items ≡ self.old.signals.items }
        ensures formed { IfSome result (IsExpr self.new.signals.items) }
    {
        self.exprs.pop()
    }

    /// Puts an expression on top, and says whether there is one.
    pub fn put(&mut self, made: Option<DExpr>) -> Result<bool, NoMemory>
        requires { IfSome made (IsExpr self.old.signals.items) }
    {
        match made {
            None => Ok(false),
            Some(e) => {
                self.exprs.push(e)?;
                Ok(true)
            }
        }
    }

    /// So many expressions from the top, in the order in which they were put there.
    pub fn pop_many(&mut self, count: u32) -> Result<Option<Vec<DExpr>>, NoMemory>
        ensures { IfOk result (λ taken. IfSome taken (λ parts. All (IsExpr self.new.signals.items) parts.items)) }
    {
        let count = count as usize;
        let all = self.exprs.len();
        if count > all {
            return Ok(None);
        }
        Ok(Some(self.exprs.split_off(all - count)?))
    }

    /// The left side on top.
    pub fn pop_left(&mut self) -> Option<SizedLeft>
        ensures same { self.new.signals.items ≡ self.old.signals.items }
        ensures formed { IfSome result (IsLeft self.new.signals.items) }
    {
        self.lefts.pop()
    }

    /// Puts a left side on top, and says whether there is one.
    pub fn put_left(&mut self, made: Option<SizedLeft>) -> Result<bool, NoMemory>
        requires { IfSome made (IsLeft self.old.signals.items) }
        ensures { self.new.signals.items ≡ self.old.signals.items }
    {
        match made {
            None => Ok(false),
            Some(left) => {
                self.lefts.push(left)?;
                Ok(true)
            }
        }
    }

    /// The statement on top.
    pub fn pop_stmt(&mut self) -> Option<DStmt>
        ensures same { self.new.signals.items ≡ self.old.signals.items }
        ensures formed { IfSome result (IsStmt self.new.signals.items) }
    {
        self.stmts.pop()
    }

    /// Puts a statement on top, and says whether there is one.
    pub fn put_stmt(&mut self, made: Option<DStmt>) -> Result<bool, NoMemory>
        requires { IfSome made (IsStmt self.old.signals.items) }
    {
        match made {
            None => Ok(false),
            Some(s) => {
                self.stmts.push(s)?;
                Ok(true)
            }
        }
    }

    /// So many statements from the top, in the order in which they were put there.
    pub fn pop_stmts(&mut self, count: u32) -> Result<Option<Vec<DStmt>>, NoMemory>
        ensures { IfOk result (λ taken. IfSome taken (λ parts. All (IsStmt self.new.signals.items) parts.items)) }
    {
        let count = count as usize;
        let all = self.stmts.len();
        if count > all {
            return Ok(None);
        }
        Ok(Some(self.stmts.split_off(all - count)?))
    }

    /// An item that waits for its arm, and whether there is one.
    pub fn put_item(&mut self, made: Option<DMatch>) -> Result<bool, NoMemory>
        requires { IfSome made (IsItem self.old.signals.items) }
    {
        match made {
            None => Ok(false),
            Some(item) => {
                self.items.push(item)?;
                Ok(true)
            }
        }
    }

    /// All items that wait for their arm.
    pub fn take_items(&mut self) -> Vec<DMatch>
        ensures same { self.new.signals.items ≡ self.old.signals.items }
        ensures formed { All (IsItem self.new.signals.items) result.items }
    {
        mem::replace(&mut self.items, Vec::new(self.alloc))
    }

    /// An arm that waits for its case.
    pub fn put_arm(&mut self, arm: DArm) -> Result<bool, NoMemory>
        requires { IsArm self.old.signals.items arm }
    {
        self.arms.push(arm)?;
        Ok(true)
    }

    /// All arms that wait for their case.
    pub fn take_arms(&mut self) -> Vec<DArm>
        ensures same { self.new.signals.items ≡ self.old.signals.items }
        ensures formed { All (IsArm self.new.signals.items) result.items }
    {
        mem::replace(&mut self.arms, Vec::new(self.alloc))
    }
}
