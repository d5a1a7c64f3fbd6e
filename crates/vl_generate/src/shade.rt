ghost use Rattle.std.specs.Prelude.{◌≡◌};
ghost use Rattle.vl_names.specs.Names.{listed};
ghost use Rattle.vl_names.specs.Outward.{all};
ghost use Rattle.vl_names.specs.Tables.{table};
ghost use Rattle.vl_generate.specs.Shades as spec;
ghost use Rattle.std.specs.Str.{bytes_eq};

use vl_const::Constants;
use vl_names::{Index, Reach};
use vl_size::{Const, SizeEntry};

/// The names of a scope with one constant before them: the variable of a loop in its header.
#[derive(Drop)]
pub struct Bound<'s, S> {
    pub scope: &'s S,
    pub name: &'s [u8],
    pub entry: &'s SizeEntry,
    pub value: &'s Const,
}

fn is_text(text: &[u8], word: &[u8]) -> bool
    ensures { result ≡ bytes_eq text.now word.now }
{
    text == word
}

impl<'s, S: Constants> Constants for Bound<'s, S> {
    ghost meaning = { λ b. spec.bound b.name.now b.entry.now b.value.now (S.meaning b.scope.now) };

    fn entry(&self, name: &[u8]) -> Option<&SizeEntry> {
        if is_text(name, self.name) {
            Some(self.entry)
        } else {
            self.scope.entry(name)
        }
    }

    fn value(&self, name: &[u8]) -> Option<&Const> {
        if is_text(name, self.name) {
            Some(self.value)
        } else {
            self.scope.value(name)
        }
    }
}

/// The names of a scope with others before them that are no constants: those of a function.
#[derive(Drop)]
pub struct Shaded<'s, 'f, S> {
    pub scope: &'s S,
    pub names: &'s Index<'f>,
    /// What each of these stands for.
    pub entry: &'s SizeEntry,
}

impl<'s, 'f, S: Constants> Constants for Shaded<'s, 'f, S> {
    ghost meaning = { λ s. spec.shaded (listed s.names.now) s.entry.now (S.meaning s.scope.now) };

    fn entry(&self, name: &[u8]) -> Option<&SizeEntry> {
        match self.names.place(name) {
            Some(_) => Some(self.entry),
            None => self.scope.entry(name),
        }
    }

    fn value(&self, name: &[u8]) -> Option<&Const> {
        match self.names.place(name) {
            Some(_) => None,
            None => self.scope.value(name),
        }
    }
}

/// The names that are declared in a scope and in reach of it.
#[derive(Drop)]
pub struct Known<'a, 'f> {
    pub reach: Reach<'a, 'f>,
}

impl<'a, 'f> Constants for Known<'a, 'f> {
    ghost meaning = { λ k. spec.reach_meaning (table k.reach.own.now) (table k.reach.outside.variable.now) (all k.reach.outside.scopes.now) k.reach.outside.outer };

    fn entry(&self, name: &[u8]) -> Option<&SizeEntry> {
        self.reach.entry(name)
    }

    fn value(&self, name: &[u8]) -> Option<&Const> {
        self.reach.value(name)
    }
}
