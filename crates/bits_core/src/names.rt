use crate::duplicate::Duplicate;
use crate::items::Items;
use crate::memory::NoMemory;
use std::alloc::Global;

/// A name or a word, as its bytes.
pub type Name = Items<u8>;

/// The bytes of a file or of a text.
pub type Bytes = Items<u8>;

/// A list of names.
pub type NameList = Items<Name>;

/// A list of numbers that count something: items, scopes, places.
pub type NumberList = Items<u32>;

/// A file: its name and its bytes.
#[derive(Debug, Drop)]
pub struct File {
    pub name: Name,
    pub bytes: Bytes,
}

/// A list of files.
pub type FileList = Items<File>;

impl Duplicate for File {
    fn copy(&self, alloc: Global) -> Result<File, NoMemory> {
        Ok(File {
            name: self.name.copy(alloc)?,
            bytes: self.bytes.copy(alloc)?,
        })
    }
}
