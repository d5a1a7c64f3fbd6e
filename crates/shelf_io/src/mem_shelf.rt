// Files in memory, with reads that fail by their number.
ghost use Rattle.std.specs.Prelude.{◌≡◌, ◌≤◌, ◌+◌, ◌-◌, ◌^◌, min, Contains, Some, [], IfOk, IfSome, length, option_map, refl};
ghost use Rattle.shelf_io.specs.Cause.{Rose};
ghost use Rattle.shelf_io.specs.Memory.{file_of};
ghost use Rattle.shelf_io.specs.MemShelf.{shelf_files, shelf_failing, shelf_reads, shelf_faults};
ghost use Rattle.shelf_io.specs.Shelf.{ReadCause, ReadsFile, AbsentIfFailed, FailsWhereAbsent};

use crate::shelf::{Shelf, ShelfError};
use bits_core::{File, FileList};
use std::alloc::Global;

/// Files in memory. The reads whose number, from 0, stands in `failing` fail, and so does a read of a name that is absent.
/// Of two files of one name the first counts.
#[derive(Drop)]
pub struct MemShelf {
    files: FileList,
    failing: Vec<u64>,
    reads: u64,
    faults: u64,
}

// The bytes of the first file of this name.
fn find<'a>(files: &'a [File], name: &str) -> Option<&'a [u8]>
    ensures { option_map (λ b. b.now) result ≡ file_of files.entry.now name.now }
{
    for file in files {
        if file.name.as_slice() == name.as_bytes() {
            return Some(file.bytes.as_slice());
        }
    }
    None
}

impl MemShelf {
    /// A shelf of these files, before its first read. Takes no memory.
    pub fn new(files: FileList, failing: Vec<u64>) -> MemShelf
        ensures files { shelf_files result ≡ files }
        ensures failing { shelf_failing result ≡ failing.items }
        ensures fresh { (shelf_reads result ≡ 0) × (shelf_faults result ≡ 0) }
    {
        MemShelf {
            files,
            failing,
            reads: 0,
            faults: 0,
        }
    }

    // Counts a fault.
    fn fail(&mut self) -> ShelfError
        ensures result { result ≡ ShelfError.Failed }
        ensures rose { Rose self.old.faults self.new.faults }
        ensures rest { self.new ≡ record self.old { faults = self.new.faults } }
    {
        self.faults = self.faults.saturating_add(1);
        ShelfError::Failed
    }
}

impl Shelf for MemShelf {
    ghost tells = { λ s. Some (file_of s.files) };

    ghost faults = { λ s. s.faults };

    ghost is_steady = { λ s. s.failing.items ≡ [] };

    ghost steady_tells = { λ s steady. refl };

    /// Linear in the number of files and the length of the file.
    fn read(&mut self, alloc: Global, name: &str, most: usize) -> Result<Vec<u8>, ShelfError>
        ensures kept { Some (file_of self.new.files) ≡ Some (file_of self.old.files) }
        ensures cause { ReadCause self.old.faults self.new.faults result }
        ensures few { IfOk result (λ b. length b.items ≤ most) }
        ensures bytes { ReadsFile (λ b. b.items) (file_of self.old.files name.now) most result }
        ensures steady { self.old.failing.items ≡ [] → self.new.failing.items ≡ [] }
        ensures absent { self.old.failing.items ≡ [] → AbsentIfFailed (file_of self.old.files name.now) result }
        ensures failing { Contains (shelf_failing self.old) (shelf_reads self.old) → result ≡ Err ShelfError.Failed }
        ensures works { (Contains (shelf_failing self.old) (shelf_reads self.old) → ⊥)
            → FailsWhereAbsent (file_of (shelf_files self.old) name.now) result }
        ensures counts { shelf_reads self.new ≡ min (shelf_reads self.old + 1) (2 ^ 64 - 1) }
        ensures keeps { (shelf_files self.new ≡ shelf_files self.old) × (shelf_failing self.new ≡ shelf_failing self.old) }
    {
        let number = self.reads;
        self.reads = self.reads.saturating_add(1);
        if self.failing.contains(&number) {
            return Err(self.fail());
        }
        match find(self.files.as_slice(), name) {
            None => Err(self.fail()),
            Some(bytes) if bytes.len() > most => Err(ShelfError::TooLong),
            Some(bytes) => Ok(bytes.to_vec(alloc)?),
        }
    }
}
