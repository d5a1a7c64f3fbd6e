ghost use Rattle.std.specs.Prelude.{◌≡◌, ℕ, List, Option};
ghost use Rattle.std.specs.Option.{option_copied};
ghost use Rattle.std.specs.Str.{bytes_eq};
ghost use Rattle.vl_size.specs.Tables.{first};
ghost use Rattle.vl_size.specs.declared.table.SizeEntry.{SizeEntry};

use bits_core::{Items, Name};

/// What a name stands for.
#[derive(Clone, Copy, Debug, PartialEq, Eq)]
pub enum NameKind {
    Constant,
    Signal,
    Array,
    Function,
}

/// A list of lengths in bits.
pub type LengthList = Items<u32>;

/// A name in reach: its length in bits, its sign and its range as declared, and for a function the lengths of its inputs in order.
#[derive(Drop)]
pub struct SizeEntry {
    pub name: Name,
    pub kind: NameKind,
    pub length: u32,
    pub signed: bool,
    /// It was declared with a range, `[high:low]`.
    pub ranged: bool,
    pub high: i64,
    pub low: i64,
    pub inputs: LengthList,
}

/// A list of names in reach.
pub type SizeEntryList = Items<SizeEntry>;

/// The names in reach, each once; of two entries of one name the first counts.
#[derive(Drop)]
pub struct SizeTable {
    pub entries: SizeEntryList,
}

/// A place where names are looked up.
pub trait Sizes {
    /// What each name stands for, if anything.
    ghost look: { Self → List ℕ → Option SizeEntry };

    /// What the name stands for.
    fn find(&self, name: &[u8]) -> Option<&SizeEntry>
        ensures { option_copied result ≡ look self.now name.now };
}

impl Sizes for SizeTable {
    ghost look = { λ table name. first name table.entries };

    /// Looks from the front of the table.
    fn find(&self, name: &[u8]) -> Option<&SizeEntry> {
        find_in(self.entries.as_slice(), name)
    }
}

fn find_in<'t>(entries: &'t [SizeEntry], name: &[u8]) -> Option<&'t SizeEntry>
    ensures { option_copied result ≡ first name.now entries.now }
{
    for entry in entries {
        if is_text(name, entry.name.as_slice()) {
            return Some(entry);
        }
    }
    None
}

fn is_text(text: &[u8], word: &[u8]) -> bool
    ensures { result ≡ bytes_eq text.now word.now }
{
    text == word
}
