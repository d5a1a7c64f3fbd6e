// Files by name.
ghost use Rattle.std.specs.Prelude.{◌≡◌, ◌≤◌, List, ℕ, Option, IfOk, IfSome, IsSome, length};
ghost use Rattle.shelf_io.specs.Files.{Files};
ghost use Rattle.shelf_io.specs.Shelf.{ReadCause, ReadsFile, AbsentIfFailed};

use std::alloc::{AllocError, AllocFailed, Global};

/// Why a read gives no bytes: the file is not there or could not be read, it has too many bytes, or memory was wanting.
#[derive(Clone, Copy, Debug, PartialEq, Eq)]
pub enum ShelfError {
    Failed,
    TooLong,
    NoMemory,
}

impl From<AllocError> for ShelfError {
    ghost use Rattle.shelf_io.specs.declared.shelf.ShelfError.TheVariants.{NoMemory};

    ghost from_gives = { λ _ e. e ≡ NoMemory };

    fn from(_: AllocError) -> ShelfError {
        ShelfError::NoMemory
    }
}

impl<T: Drop> From<AllocFailed<T>> for ShelfError {
    ghost use Rattle.shelf_io.specs.declared.shelf.ShelfError.TheVariants.{NoMemory};

    ghost from_gives = { λ _ e. e ≡ NoMemory };

    fn from(_: AllocFailed<T>) -> ShelfError {
        ShelfError::NoMemory
    }
}

/// Named files that can be read. What a shelf holds may be told or not, and no read changes it.
pub trait Shelf {
    /// The files, where the shelf tells them.
    ghost tells: { Self → Option Files };

    /// How often a read has failed; the count stands still at the greatest `u64`.
    ghost faults: { Self → ℕ };

    /// A read fails only where the name is absent.
    ghost is_steady: { Self → Type 0 };

    /// The bytes of a file of at most `most` bytes. `Failed` comes only where the count of faults rose in this call,
    /// `TooLong` exactly where the file has more bytes.
    fn read(&mut self, alloc: Global, name: &str, most: usize) -> Result<Vec<u8>, ShelfError>
        ensures kept { tells self.new ≡ tells self.old }
        ensures cause { ReadCause (faults self.old) (faults self.new) result }
        ensures few { IfOk result (λ b. length b.items ≤ most) }
        ensures bytes { IfSome (tells self.old) (λ files. ReadsFile (λ b. b.items) (files name.now) most result) }
        ensures steady { is_steady self.old → is_steady self.new }
        ensures absent { is_steady self.old → IfSome (tells self.old) (λ files. AbsentIfFailed (files name.now) result) };

    /// A steady shelf tells what it holds.
    ghost steady_tells: { (s : Self) → is_steady s → IsSome (tells s) };
}
