// Names with their places.
ghost use Rattle.std.specs.Prelude.{◌≡◌, ◌++◌, ◌∷◌, [], true, false, not, length, map, position, IfOk};
ghost use Rattle.std.specs.List.{list_any};
ghost use Rattle.std.specs.Str.{bytes_eq};
ghost use Rattle.vl_names.specs.Names.{listed};

use bits_core::NoMemory;
use indexmap::IndexSet;
use std::alloc::Global;

/// Different names in order, each found in constant time on average.
#[derive(Drop)]
pub struct Index<'f> {
    set: IndexSet<&'f [u8]>,
}

impl<'f> Index<'f> {
    /// No names. Takes no memory.
    pub fn new(alloc: Global) -> Index<'f>
        ensures { listed result ≡ [] }
    {
        Index {
            set: IndexSet::new(alloc),
        }
    }

    /// Puts a name at the end and answers true, or answers false where it is there already.
    pub fn add(&mut self, name: &'f [u8]) -> Result<bool, NoMemory>
        ensures is_new { IfOk result (λ r. r ≡ not (list_any (bytes_eq name.entry.now) (listed self.old))) }
        ensures added { IfOk result (λ r. r ≡ true → listed self.new ≡ listed self.old ++ name.entry.now ∷ []) }
        ensures kept { IfOk result (λ r. r ≡ false → listed self.new ≡ listed self.old) }
    {
        Ok(self.set.insert(name)?)
    }

    /// The place of a name, if it is there.
    pub fn place(&self, name: &[u8]) -> Option<usize>
        ensures { result ≡ position (bytes_eq name.now) (listed self.now) }
    {
        self.set.get_index_of(name)
    }

    /// Whether a name is there.
    pub fn has(&self, name: &[u8]) -> bool
        ensures { result ≡ list_any (bytes_eq name.now) (listed self.now) }
    {
        self.set.contains(name)
    }

    /// The names in order.
    pub fn as_slice(&self) -> &[&'f [u8]]
        ensures { map (λ n. n.now) result.now ≡ listed self.now }
    {
        self.set.as_slice()
    }

    /// How many names there are.
    pub fn len(&self) -> usize
        ensures { result ≡ length (listed self.now) }
    {
        self.set.len()
    }
}
