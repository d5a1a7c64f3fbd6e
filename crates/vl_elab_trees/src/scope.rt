ghost use Rattle.std.specs.Prelude.{◌≡◌, IfOk};
ghost use Rattle.std.specs.Option.{option_copied};
ghost use Rattle.vl_elab_trees.specs.Scopes.{Meaning, Bases};

use bits_core::NoMemory;
use design_core::{DBase, DExprList, DNode};
use std::alloc::Global;
use vl_const::Constants;
use vl_size::{Const, SizeEntry};

/// A scope of the source, in which names have a meaning in a design.
pub trait Scope {
    ghost meaning: { Self → Meaning };

    ghost bases: { Self → Bases };

    /// The size of a name, if it is known.
    fn entry(&self, name: &[u8]) -> Option<&SizeEntry>
        ensures { option_copied result ≡ (meaning self.now).known.look name.now };

    /// The value of a constant.
    fn value(&self, name: &[u8]) -> Option<&Const>
        ensures { option_copied result ≡ (meaning self.now).known.value name.now };

    /// What a name is where it is read: a signal, a local or a constant.
    fn leaf(&self, alloc: Global, name: &[u8]) -> Result<DNode, NoMemory>
        ensures { IfOk result (λ made. made ≡ (meaning self.now).leaf name.now) };

    /// What a name is where it is written, if it may be.
    fn base(&self, name: &[u8]) -> Option<DBase>
        ensures { result ≡ bases self.now name.now };

    /// A call of a function.
    fn called(&self, alloc: Global, name: &[u8], arguments: DExprList) -> Result<DNode, NoMemory>
        ensures { IfOk result (λ made. made ≡ (meaning self.now).called name.now arguments) };
}

/// The sizes and constants of a scope.
#[derive(Drop)]
pub struct Known<'s, S> {
    pub scope: &'s S,
}

impl<'s, S: Scope> Constants for Known<'s, S> {
    ghost meaning = { λ known. (S.meaning known.scope.now).known };

    fn entry(&self, name: &[u8]) -> Option<&SizeEntry> {
        self.scope.entry(name)
    }

    fn value(&self, name: &[u8]) -> Option<&Const> {
        self.scope.value(name)
    }
}
