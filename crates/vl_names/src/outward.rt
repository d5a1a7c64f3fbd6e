ghost use Rattle.std.specs.Prelude.{◌≡◌, length};
ghost use Rattle.std.specs.Option.{option_copied};
ghost use Rattle.vl_names.specs.Outward as spec;
ghost use Rattle.vl_names.specs.Tables.{table, entry_of, value_of};

use crate::table::{Slot, Table};
use bits_core::{Items, Name};
use vl_size::{Const, SizeEntry};

/// Places of items and branches, from the outside in.
pub type PlaceList = Items<u32>;

/// A scope: the top, an instance, or a generate block that is taken.
#[derive(Drop)]
pub struct Scope<'f> {
    /// The number of the scope round it; the top has none.
    pub parent: Option<u32>,
    pub name: Name,
    pub path: Name,
    /// The place in the source of the module whose text it has.
    pub home: u32,
    /// For a generate block, the place of each item and of the branch taken in it, from the module's items down.
    pub place: PlaceList,
    /// It is a generate block.
    pub block: bool,
    pub stub: bool,
    pub table: Table<'f>,
    /// The variable of the loop of which it is a turn; a name that the block declares hides it.
    pub variable: Table<'f>,
}

/// The scope round a block; names are sought no further than in a module.
fn around(scope: &Scope) -> Option<u32>
    ensures { result ≡ spec.around (spec.scope scope.now) }
{
    if scope.block { scope.parent } else { None }
}

fn scope_at<'s, 'f>(scopes: &'s [Scope<'f>], at: Option<u32>) -> Option<&'s Scope<'f>>
    ensures { spec.scope_in (option_copied result) ≡ spec.scope_at (spec.all scopes.now) at }
{
    match at {
        None => None,
        Some(at) => scopes.get(at as usize),
    }
}

/// The module and the parent of a scope.
pub fn parent_at<'f>(scopes: &[Scope<'f>], at: Option<u32>) -> Option<(u32, Option<u32>)>
    ensures { result ≡ spec.parent_at (spec.all scopes.now) at }
{
    match scope_at(scopes, at) {
        None => None,
        Some(scope) => Some((scope.home, scope.parent)),
    }
}

fn found_here<'t, 'f>(own: &'t Table<'f>, variable: &'t Table<'f>, name: &[u8]) -> Option<&'t Slot>
    ensures { option_copied result ≡ spec.found_here (table own.entry.now) (table variable.entry.now) name.now }
{
    let found = own.find(name);
    if found.is_some() {
        return found;
    }
    variable.find(name)
}

fn outward<'s, 'f>(name: &[u8], scopes: &'s [Scope<'f>], from: Option<u32>) -> Option<&'s Slot>
    ensures { option_copied result ≡ spec.outward (length scopes.now) name.now (spec.all scopes.now) from }
{
    let mut at = from;
    for turn in 0..scopes.len() {
        match scope_at(scopes, at) {
            None => return None,
            Some(scope) => {
                let found = found_here(&scope.table, &scope.variable, name);
                if found.is_some() {
                    return found;
                }
                at = around(scope);
            }
        }
    }
    None
}

fn is_there(found: Option<&Slot>) -> bool
    ensures { result ≡ spec.is_there (option_copied found.entry) }
{
    match found {
        None => false,
        Some(_) => true,
    }
}

/// What is in reach of a scope beyond the names that it declares: the variable of its loop, and the scopes round a block.
#[derive(Clone, Copy)]
pub struct Outside<'a, 'f> {
    pub variable: &'a Table<'f>,
    pub scopes: &'a [Scope<'f>],
    /// The scope in which names are sought next.
    pub outer: Option<u32>,
}

impl<'a, 'f> Outside<'a, 'f> {
    fn find(&self, name: &[u8]) -> Option<&Slot>
        ensures { option_copied result ≡ spec.beyond (table self.now.variable.now) (spec.all self.now.scopes.now) self.now.outer name.now }
    {
        let found = self.variable.find(name);
        if found.is_some() {
            return found;
        }
        outward(name, self.scopes, self.outer)
    }

    /// Whether a name is declared there.
    pub fn knows(&self, name: &[u8]) -> bool
        ensures { result ≡ spec.is_known (table self.now.variable.now) (spec.all self.now.scopes.now) self.now.outer name.now }
    {
        is_there(self.find(name))
    }
}

/// The names in reach of a scope: its own so far, and those beyond.
#[derive(Clone, Copy)]
pub struct Reach<'a, 'f> {
    pub own: &'a Table<'f>,
    pub outside: Outside<'a, 'f>,
}

impl<'a, 'f> Reach<'a, 'f> {
    /// What a name stands for, where it is declared in reach.
    pub fn find(&self, name: &[u8]) -> Option<&Slot>
        ensures { option_copied result ≡ spec.inward (table self.now.own.now) (table self.now.outside.variable.now) (spec.all self.now.outside.scopes.now) self.now.outside.outer name.now }
    {
        let found = self.own.find(name);
        if found.is_some() {
            return found;
        }
        self.outside.find(name)
    }

    /// The size of a name, if it is known.
    pub fn entry(&self, name: &[u8]) -> Option<&SizeEntry>
        ensures { option_copied result ≡ entry_of (spec.inward (table self.now.own.now) (table self.now.outside.variable.now) (spec.all self.now.outside.scopes.now) self.now.outside.outer name.now) }
    {
        entry_of(self.find(name))
    }

    /// The value of a constant.
    pub fn value(&self, name: &[u8]) -> Option<&Const>
        ensures { option_copied result ≡ value_of (spec.inward (table self.now.own.now) (table self.now.outside.variable.now) (spec.all self.now.outside.scopes.now) self.now.outside.outer name.now) }
    {
        value_of(self.find(name))
    }
}

fn entry_of(found: Option<&Slot>) -> Option<&SizeEntry>
    ensures { option_copied result ≡ entry_of (option_copied found.entry) }
{
    match found {
        None => None,
        Some(slot) => slot.entry.as_ref(),
    }
}

fn value_of(found: Option<&Slot>) -> Option<&Const>
    ensures { option_copied result ≡ value_of (option_copied found.entry) }
{
    match found {
        None => None,
        Some(slot) => slot.value.as_ref(),
    }
}
