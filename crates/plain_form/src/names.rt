// Names with their places.
ghost use Rattle.std.specs.Prelude.{◌≡◌, ◌++◌, ◌∷◌, [], true, false, not, map, length, position, slice_index_or, IfOk};
ghost use Rattle.std.specs.List.{list_any};
ghost use Rattle.std.specs.Str.{bytes_eq};
ghost use Rattle.plain_form.specs.Names.{listed};

use bits_core::NoMemory;
use indexmap::IndexSet;
use std::alloc::Global;

/// Different names in order, each found in constant time on average.
#[derive(Drop)]
pub struct Names<'f> {
    set: IndexSet<&'f [u8]>,
}

impl<'f> Names<'f> {
    /// No names. Takes no memory.
    pub fn new(alloc: Global) -> Names<'f>
        ensures { listed result ≡ [] }
    {
        Names {
            set: IndexSet::new(alloc),
        }
    }

    /// Puts a name at the end and answers true, or answers false where it is there already.
    pub fn add(&mut self, name: &'f [u8]) -> Result<bool, NoMemory>
        ensures is_new { IfOk result (λ r. r ≡ not (list_any (bytes_eq name.entry.now) (listed self.old))) }
        ensures added { IfOk result (λ r. r ≡ true → listed self.new ≡ listed self.old ++ name.entry.now ∷ []) }
        ensures kept { IfOk result (λ r. r ≡ false → listed self.new ≡ listed self.old) }
    {
        Ok(self.set.insert(name)?)
    }

    /// The place of a name: the first at which the list has it.
    pub fn place(&self, name: &[u8]) -> Option<usize>
        ensures { result ≡ position (bytes_eq name.now) (listed self.now) }
    {
        self.set.get_index_of(name)
    }

    /// The name at a place; the empty name past the last.
    pub fn name(&self, at: usize) -> &[u8]
        ensures { result.now ≡ slice_index_or (listed self.now) at [] }
    {
        match self.set.get_index(at) {
            Some(name) => name,
            None => b"",
        }
    }

    /// How many names there are.
    pub fn len(&self) -> usize
        ensures { result ≡ length (listed self.now) }
    {
        self.set.len()
    }
}
