ghost use Rattle.std.specs.Prelude.{◌≡◌};
ghost use Rattle.std.specs.Option.{option_copied};
ghost use Rattle.vl_names.specs.Tables as spec;

use crate::index::Index;
use bits_core::Items;
use vl_size::{Const, SizeEntry};

/// What a declaration makes of a name.
#[derive(Clone, Copy, Debug, PartialEq, Eq)]
pub enum Kind {
    Constant,
    Signal,
    Function,
    GenVar,
}

/// What a declared name stands for. A genvar, and a constant that was not met yet, have no entry.
#[derive(Drop)]
pub struct Slot {
    /// What its first declaration makes of it.
    pub kind: Kind,
    pub entry: Option<SizeEntry>,
    /// The value of a constant.
    pub value: Option<Const>,
    /// Its declaration was met: the entry is as it stays.
    pub met: bool,
}

/// The names that a scope declares, each once, and what each stands for.
#[derive(Drop)]
pub struct Table<'f> {
    pub names: Index<'f>,
    pub slots: Items<Slot>,
    /// The names of which some declaration has a sign.
    pub signed: Index<'f>,
}

fn slot_in(slots: &[Slot], place: Option<usize>) -> Option<&Slot>
    ensures { option_copied result ≡ spec.slot_in slots.now place }
{
    match place {
        None => None,
        Some(at) => slots.get(at),
    }
}

impl<'f> Table<'f> {
    /// What a name stands for, if it is declared. Constant time on average.
    pub fn find(&self, name: &[u8]) -> Option<&Slot>
        ensures { option_copied result ≡ spec.found (spec.table self.now) name.now }
    {
        slot_in(self.slots.as_slice(), self.names.place(name))
    }
}
