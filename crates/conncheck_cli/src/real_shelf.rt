// Files of the system.
ghost use Rattle.std.specs.Prelude.{◌≡◌, ◌<◌, None, IfOk, length};
ghost use Rattle.shelf_io.specs.Cause.{Rose};
ghost use Rattle.conncheck_cli.specs.ReadsUpTo.{ReadsUpTo};

use shelf_io::{Shelf, ShelfError};
use std::alloc::{AllocError, Global};
use std::io::Read;
use std::rt::Files;
use std::{fs, io};

// How much of a file is asked for at a time.
const TURN: usize = 65_536;

/// The files of the system, from the folder of the run. What they hold is not told.
#[derive(Drop)]
pub struct RealShelf<'a, R: Files> {
    rt: &'a R,
    faults: u64,
    reason: Option<io::Error>,
}

impl<'a, R: Files> RealShelf<'a, R> {
    /// Takes no memory.
    pub fn new(rt: &'a R) -> RealShelf<'a, R> {
        RealShelf {
            rt,
            faults: 0,
            reason: None,
        }
    }

    /// Why the last read that failed did so. Takes no memory.
    pub fn reason(&self) -> Option<io::Error> {
        self.reason
    }

    // Counts a fault, and keeps its reason.
    fn fail(&mut self, reason: io::Error) -> ShelfError
        ensures result { result ≡ ShelfError.Failed }
        ensures rose { Rose self.old.faults self.new.faults }
    {
        self.faults = self.faults.saturating_add(1);
        self.reason = Some(reason);
        ShelfError::Failed
    }
}

/// Why a file was not read to its end.
enum Unread {
    Failed(io::Error),
    TooLong,
    NoMemory,
}

impl From<AllocError> for Unread {
    ghost use Rattle.conncheck_cli.specs.declared.real_shelf.Unread.TheVariants.{NoMemory};

    ghost from_gives = { λ _ e. e ≡ NoMemory };

    fn from(_: AllocError) -> Unread {
        Unread::NoMemory
    }
}

// Reads a file to its end, or one byte further than `most`, as much at a time as the buffer takes.
fn read_by<F: Read>(
    alloc: Global,
    file: &mut F,
    most: usize,
    buffer: &mut [u8],
) -> Result<Vec<u8>, Unread>
    requires { 0 < length buffer.now }
    ensures { ReadsUpTo (λ b. b.items) most (F.remaining file.old) result }
{
    let mut bytes = Vec::new(alloc);
    'turns: loop {
        let room = most - bytes.len();
        let want = if room < buffer.len() {
            room + 1
        } else {
            buffer.len()
        };
        let count = match file.read(&mut buffer[..want]) {
            Ok(count) => count,
            Err(reason) => return Err(Unread::Failed(reason)),
        };
        if count == 0 {
            return Ok(bytes);
        }
        if count > room {
            return Err(Unread::TooLong);
        }
        bytes.extend_from_slice(&buffer[..count])?;
    }
}

// So many bytes of 0.
fn zeros(alloc: Global, len: usize) -> Result<Vec<u8>, AllocError>
    ensures { IfOk result (λ b. length b.items ≡ len) }
{
    vec![in alloc; 0u8; len]
}

fn read_up_to<F: Read>(alloc: Global, file: &mut F, most: usize) -> Result<Vec<u8>, Unread>
    ensures { ReadsUpTo (λ b. b.items) most (F.remaining file.old) result }
{
    let mut buffer = zeros(alloc, TURN)?;
    read_by(alloc, file, most, buffer.as_mut_slice())
}

impl<R: Files> Shelf for RealShelf<'_, R> {
    ghost tells = { λ _. None };

    ghost faults = { λ s. s.faults };

    ghost is_steady = { λ _. ⊥ };

    ghost steady_tells = { λ s steady. absurd steady };

    /// Reads at most `most + 1` bytes, each turn at least one.
    fn read(&mut self, alloc: Global, name: &str, most: usize) -> Result<Vec<u8>, ShelfError> {
        let mut file = match fs::open(self.rt, name) {
            Ok(file) => file,
            Err(reason) => return Err(self.fail(reason)),
        };
        match read_up_to(alloc, &mut file, most) {
            Ok(bytes) => Ok(bytes),
            Err(Unread::Failed(reason)) => Err(self.fail(reason)),
            Err(Unread::TooLong) => Err(ShelfError::TooLong),
            Err(Unread::NoMemory) => Err(ShelfError::NoMemory),
        }
    }
}

#[cfg(test)]
mod tests {
    use crate::real_shelf::RealShelf;
    use shelf_io::{Shelf, ShelfError};
    use std::fs;
    use std::test::Fail;

    #[test]
    fn files_of_the_system(rt: HostRuntime) -> Result<(), Fail> {
        let alloc = rt.alloc();
        fs::write(&rt, "small.txt", b"two\nlines\n".as_slice())?;
        let mut shelf = RealShelf::new(&rt);
        let whole = shelf.read(alloc, "small.txt", 10).ok().ok_or("whole")?;
        assert!(rt; whole.as_slice() == b"two\nlines\n".as_slice());
        assert!(rt; shelf.read(alloc, "small.txt", 9).err() == Some(ShelfError::TooLong));
        assert_eq!(rt; shelf.faults, 0);
        assert!(rt; shelf.read(alloc, "missing.txt", 10).err() == Some(ShelfError::Failed));
        assert_eq!(rt; shelf.faults, 1);
        assert!(rt; shelf.reason().is_some());
        Ok(())
    }
}
