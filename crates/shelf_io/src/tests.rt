use crate::{MemShelf, MemSink, Shelf, ShelfError, Sink, SinkError};
use bits_core::{File, FileList, Items};
use std::alloc::{AllocError, Global};
use std::test::Fail;

fn file(alloc: Global, name: &[u8], text: &[u8]) -> Result<File, AllocError> {
    Ok(File {
        name: Items::of(name.to_vec(alloc)?),
        bytes: Items::of(text.to_vec(alloc)?),
    })
}

// The length of the file, or the error.
fn length_by<H: Shelf>(alloc: Global, shelf: &mut H, name: &str) -> Result<usize, ShelfError> {
    Ok(shelf.read(alloc, name, 3)?.len())
}

fn put<K: Sink>(sink: &mut K, bytes: &[u8]) -> Result<(), SinkError> {
    sink.write_all(bytes)
}

#[test]
fn reads_in_turn(rt: HostRuntime) -> Result<(), Fail> {
    let alloc = rt.alloc();
    let mut files: FileList = Items::new(alloc);
    files.push(file(alloc, b"a", b"xyz")?).ok().ok_or("memory")?;
    files
        .push(file(alloc, b"b", b"wxyz")?)
        .ok()
        .ok_or("memory")?;
    files.push(file(alloc, b"a", b"q")?).ok().ok_or("memory")?;
    let mut shelf = MemShelf::new(files, vec![in alloc; 3]?);
    assert_eq!(rt; length_by(alloc, &mut shelf, "a"), Ok(3));
    assert_eq!(rt; length_by(alloc, &mut shelf, "b"), Err(ShelfError::TooLong));
    assert_eq!(rt; length_by(alloc, &mut shelf, "c"), Err(ShelfError::Failed));
    assert_eq!(rt; length_by(alloc, &mut shelf, "a"), Err(ShelfError::Failed));
    assert_eq!(rt; length_by(alloc, &mut shelf, "a"), Ok(3));
    Ok(())
}

#[test]
fn writes_in_turn(rt: HostRuntime) -> Result<(), Fail> {
    let alloc = rt.alloc();
    let mut sink = MemSink::new(alloc, 5, vec![in alloc; 1]?)
        .ok()
        .ok_or("room")?;
    assert_eq!(rt; put(&mut sink, b"abc"), Ok(()));
    assert_eq!(rt; put(&mut sink, b"d"), Err(SinkError::Failed));
    assert_eq!(rt; put(&mut sink, b"efg"), Err(SinkError::Failed));
    assert!(rt; sink.taken() == b"abcef".as_slice());
    Ok(())
}
