ghost use Rattle.std.specs.Prelude.{◌≡◌, OnOk};
ghost use Rattle.declared_once.specs.Seen as spec;

use bits_core::NoMemory;
use std::alloc::Global;
use vl_names::Index;

/// What a declaration says of its name.
#[derive(Clone, Copy, Debug, PartialEq, Eq)]
pub enum Role {
    /// The direction of a port.
    Direction,
    /// A net or a variable: the type of a port, where the name is one.
    Net,
    /// Direction and type of a port at once, or a name that is no signal.
    Whole,
}

/// What is to be said of one more declaration of a name.
#[derive(Clone, Copy, Debug, PartialEq, Eq)]
pub enum Judgement {
    /// It is the first one.
    First,
    /// It is the other part of a port.
    Second,
    /// It is one too many.
    Clash,
}

/// The names of a scope that were declared so far, by what was said of them.
#[derive(Drop)]
pub struct Declared<'f> {
    directions: Index<'f>,
    types: Index<'f>,
    wholes: Index<'f>,
}

fn of_part(is_own: bool, is_other: bool, same: bool) -> Judgement
    ensures { result ≡ spec.of_part is_own is_other same }
{
    if is_own || (is_other && !same) {
        Judgement::Clash
    } else if is_other {
        Judgement::Second
    } else {
        Judgement::First
    }
}

impl<'f> Declared<'f> {
    /// No names. Takes no memory.
    pub fn new(alloc: Global) -> Declared<'f>
        ensures { spec.kept result ≡ spec.nothing }
    {
        Declared {
            directions: Index::new(alloc),
            types: Index::new(alloc),
            wholes: Index::new(alloc),
        }
    }

    /// What is to be said of one more declaration, where `same` tells whether it has the bounds of the name's first one. Constant time on average.
    pub fn judge(&self, role: Role, name: &[u8], same: bool) -> Judgement
        ensures { result ≡ spec.judge (spec.kept self.now) role name.now same }
    {
        let direction = self.directions.has(name);
        let net = self.types.has(name);
        let whole = self.wholes.has(name);
        match role {
            Role::Direction => of_part(direction || whole, net, same),
            Role::Net => of_part(net || whole, direction, same),
            Role::Whole => of_part(direction || (net || whole), false, same),
        }
    }

    /// Keeps a declaration.
    pub fn add(&mut self, role: Role, name: &'f [u8]) -> Result<(), NoMemory>
        ensures { OnOk result (spec.kept self.new ≡ spec.with_name (spec.kept self.old) role name.entry.now) }
    {
        match role {
            Role::Direction => {
                self.directions.add(name)?;
            }
            Role::Net => {
                self.types.add(name)?;
            }
            Role::Whole => {
                self.wholes.add(name)?;
            }
        }
        Ok(())
    }
}
