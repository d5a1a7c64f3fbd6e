ghost use Rattle.std.specs.Prelude.{◌≡◌, map, OnOk, IfOk};
ghost use Rattle.vl_lex.specs.Lexed.{placed};
ghost use Rattle.vl_lex.specs.Macros.{look};
ghost use Rattle.vl_lex.specs.Walk as spec;

use crate::directives::Directive;
use crate::lexer::Lined;
use crate::macros::Macros;
use bits_core::NoMemory;
use std::alloc::Global;
use vl_tree::TokenKind;

/// A branch that is open: whether the text round it is kept, whether one of its branches was true, whether its last has begun.
#[derive(Clone, Copy, Debug)]
pub struct Branch {
    pub outer: bool,
    pub seen: bool,
    pub last: bool,
}

/// The branches of a file that are open, and whether the text here is kept.
#[derive(Drop)]
pub struct Branches {
    pub stack: Vec<Branch>,
    pub active: bool,
}

impl Branches {
    /// No branch is open.
    pub fn new(alloc: Global) -> Branches
        ensures { spec.branches_view result ≡ spec.no_branches }
    {
        Branches {
            stack: Vec::new(alloc),
            active: true,
        }
    }

    fn open(&mut self, cond: bool) -> Result<(), NoMemory>
        ensures { OnOk result (spec.branches_view self.new ≡ spec.opened (spec.branches_view self.old) cond) }
    {
        let branch = Branch {
            outer: self.active,
            seen: cond,
            last: false,
        };
        self.stack.push(branch)?;
        self.active = self.active && cond;
        Ok(())
    }

    /// The next branch begins; false where none is open, or its last has begun.
    #[tactic(auto, unfolding(crate::specs::Walk::next_branch), using(crate::proofs::Tops::tops))]
    fn next(&mut self, cond: bool, last: bool) -> Result<bool, NoMemory>
        ensures { IfOk result (λ ok. spec.IsNext ok (spec.branches_view self.new) (spec.next_branch (spec.branches_view self.old) cond last)) }
    {
        let Some(branch) = self.stack.pop() else {
            return Ok(false);
        };
        if branch.last {
            return Ok(false);
        }
        let next = Branch {
            outer: branch.outer,
            seen: branch.seen || cond,
            last,
        };
        self.stack.push(next)?;
        self.active = branch.outer && (!branch.seen && cond);
        Ok(true)
    }

    #[tactic(auto, unfolding(crate::specs::Walk::closed), using(crate::proofs::Tops::tops))]
    fn close(&mut self) -> bool
        ensures { spec.IsNext result (spec.branches_view self.new) (spec.closed (spec.branches_view self.old)) }
    {
        match self.stack.pop() {
            None => false,
            Some(branch) => {
                self.active = branch.outer;
                true
            }
        }
    }
}

/// A name that is not escaped.
pub fn is_name_kind(kind: TokenKind) -> bool
    ensures { result ≡ spec.is_name_kind kind }
{
    match kind {
        TokenKind::Name => true,
        _ => false,
    }
}

/// The name that stands next on the line of a directive.
pub fn name_after<'f>(row: u32, rest: &[Lined<'f>]) -> Option<&'f [u8]>
    ensures { spec.name_is result (spec.name_after row (map placed rest.now)) }
{
    match rest {
        [] => None,
        [next, ..] => {
            if next.row == row && is_name_kind(next.token.kind) {
                Some(next.token.text)
            } else {
                None
            }
        }
    }
}

/// What a branch word does: how many tokens it takes, none where it is misplaced or its name is missing.
#[tactic(auto, unfolding(crate::specs::Walk::branch_turn))]
pub fn branch_turn<'f>(
    branches: &mut Branches,
    macros: &Macros<'f>,
    directive: Directive,
    row: u32,
    rest: &[Lined<'f>],
) -> Result<Option<usize>, NoMemory>
    ensures { IfOk result (λ taken. spec.IsBranched taken (spec.branches_view branches.new) (spec.branch_turn directive (spec.branches_view branches.old) (look macros.now) row (map placed rest.now))) }
{
    match directive {
        Directive::IfDef => match name_after(row, rest) {
            None => Ok(None),
            Some(name) => {
                branches.open(macros.is_defined(name))?;
                Ok(Some(1))
            }
        },
        Directive::IfNdef => match name_after(row, rest) {
            None => Ok(None),
            Some(name) => {
                branches.open(!macros.is_defined(name))?;
                Ok(Some(1))
            }
        },
        Directive::ElsIf => match name_after(row, rest) {
            None => Ok(None),
            Some(name) => {
                if branches.next(macros.is_defined(name), false)? {
                    Ok(Some(1))
                } else {
                    Ok(None)
                }
            }
        },
        Directive::Else => {
            if branches.next(true, true)? {
                Ok(Some(0))
            } else {
                Ok(None)
            }
        }
        Directive::EndIf => {
            if branches.close() {
                Ok(Some(0))
            } else {
                Ok(None)
            }
        }
        _ => Ok(None),
    }
}
