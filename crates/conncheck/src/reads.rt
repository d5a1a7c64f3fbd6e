// Files of a shelf, one after the other.
ghost use Rattle.std.specs.Prelude.{◌≡◌, ◌≤◌, ◌^◌, IfOk, IfSome, length, map, string_bytes};
ghost use Rattle.conncheck.specs.Reads.{ReadsAll, ReadsCause, ReadsOne};
ghost use Rattle.vl_lex.specs.Sources.{AreSmall};

use bits_core::{File, FileList, Items, NoMemory};
use shelf_io::{Shelf, ShelfError};
use std::alloc::{AllocError, Global};
use vl_tree::Code;

/// Why files were not all read: a read failed, at this name; a file has too many bytes; or memory was wanting.
#[derive(Clone, Copy)]
pub enum Unread<'n> {
    Missing(&'n str),
    TooLong,
    NoMemory,
}

impl From<NoMemory> for Unread<'_> {
    ghost use Rattle.conncheck.specs.declared.reads.Unread.TheVariants.{NoMemory};

    ghost from_gives = { λ _ e. e ≡ NoMemory };

    fn from(_: NoMemory) -> Self {
        Unread::NoMemory
    }
}

impl From<AllocError> for Unread<'_> {
    ghost use Rattle.conncheck.specs.declared.reads.Unread.TheVariants.{NoMemory};

    ghost from_gives = { λ _ e. e ≡ NoMemory };

    fn from(_: AllocError) -> Self {
        Unread::NoMemory
    }
}

fn file_of(alloc: Global, name: &str, bytes: Vec<u8>) -> Result<File, NoMemory>
    ensures { IfOk result (λ f. f ≡ record { name = name.now; bytes = bytes.items }) }
{
    let name = Vec::from_slice(alloc, name.as_bytes())?;
    Ok(File {
        name: Items::of(name),
        bytes: Items::of(bytes),
    })
}

/// A file within the limit of bytes. Linear in the file.
pub fn read_one<'n, H: Shelf>(
    alloc: Global,
    name: &'n str,
    shelf: &mut H,
) -> Result<File, Unread<'n>>
    ensures kept { H.tells shelf.new ≡ H.tells shelf.old }
    ensures steady { H.is_steady shelf.old → H.is_steady shelf.new }
    ensures cause { ReadsCause (H.faults shelf.old) (H.faults shelf.new) result }
    ensures small { IfOk result (λ f. length f.bytes ≤ 2 ^ 24) }
    ensures files { IfSome (H.tells shelf.old) (λ files. ReadsOne (H.is_steady shelf.old) files name.entry.now result) }
{
    match shelf.read(alloc, name, Code::FileBytes.bound() as usize) {
        Ok(bytes) => Ok(file_of(alloc, name, bytes)?),
        Err(ShelfError::Failed) => Err(Unread::Missing(name)),
        Err(ShelfError::TooLong) => Err(Unread::TooLong),
        Err(ShelfError::NoMemory) => Err(Unread::NoMemory),
    }
}

/// The files of these names in order, up to the first that is not read. Linear in the files.
pub fn read_each<'n, H: Shelf>(
    alloc: Global,
    names: &'n [String],
    shelf: &mut H,
) -> Result<FileList, Unread<'n>>
    ensures cause { ReadsCause (H.faults shelf.old) (H.faults shelf.new) result }
    ensures kept { H.tells shelf.new ≡ H.tells shelf.old }
    ensures steady { H.is_steady shelf.old → H.is_steady shelf.new }
    ensures small { IfOk result AreSmall }
    ensures files { IfSome (H.tells shelf.old) (λ files. ReadsAll (H.is_steady shelf.old) files (map string_bytes names.entry.now) result) }
{
    let mut files = Items::new(alloc);
    for name in names {
        let file = read_one(alloc, name.as_str(), shelf)?;
        files.push(file)?;
    }
    Ok(files)
}
