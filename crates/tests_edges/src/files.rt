//! A shelf over files that are read and written little at once. By hand: what is read from a place on is what stands in the text there.
use crate::disk::{Disk, Manners};
use crate::system::System;
use bl_outside::{FileShelf, Shelf};
use std::alloc::Global;
use std::cell::RefCell;
use std::io::Result;
use std::random::RandomSource;
use std::rt::Files;
use std::test::Fail;

const TEXT: &[u8] = b"twenty bytes in all.";

/// A disk with the file `text`.
fn disk_of(alloc: Global, at_once: usize) -> Result<RefCell<Disk>> {
    let manners = Manners {
        at_once,
        failing: 0,
        is_shut: false,
    };
    let mut disk = Disk::new(alloc, manners);
    disk.put("text", TEXT)?;
    Ok(RefCell::new(disk))
}

/// Whether that file stands on the disk with these bytes, and no other.
pub fn stands_alone(disk: &RefCell<Disk>, name: &str, bytes: &[u8]) -> bool {
    match disk.try_borrow() {
        Ok(disk) => disk.holds_alone(name, bytes),
        Err(_) => false,
    }
}

/// Whether a file is taken off the disk.
fn is_removed(disk: &RefCell<Disk>, name: &str) -> bool {
    match disk.try_borrow_mut() {
        Ok(mut disk) => disk.remove(name).is_ok(),
        Err(_) => false,
    }
}

/// Whether a file is kept byte for byte under its own name, over another one and where none stood.
fn is_kept<R: Files + RandomSource>(alloc: Global, rt: &R, disk: &RefCell<Disk>) -> bool {
    let mut shelf = FileShelf::new(alloc, rt);
    let over = shelf.keep("text", b"other bytes").is_ok();
    let stands = stands_alone(disk, "text", b"other bytes");
    let removed = is_removed(disk, "text");
    let made = shelf.keep("new", TEXT).is_ok();
    over && stands && removed && made && stands_alone(disk, "new", TEXT)
}

/// Whether that holds where so many bytes are written at once.
fn is_kept_at(alloc: Global, at_once: usize) -> Result<bool> {
    let disk = disk_of(alloc, at_once)?;
    Ok(is_kept(alloc, &System { disk: &disk }, &disk))
}

#[test]
fn a_file_is_kept_byte_for_byte(rt: HostRuntime) -> std::result::Result<(), Fail> {
    assert!(rt; is_kept_at(rt.alloc(), 1)?);
    assert!(rt; is_kept_at(rt.alloc(), 3)?);
    Ok(())
}

/// Whether these bytes of the file are read from a place on.
fn reads<F: Shelf>(shelf: &mut F, from: u8, bytes: &[u8]) -> bool {
    match shelf.part("text", u64::from(from), 6) {
        Ok(piece) => piece.as_slice() == bytes,
        Err(_) => false,
    }
}

/// Whether the file is read whole, and in parts from places in and out of turn.
fn is_read<F: Shelf>(shelf: &mut F) -> bool {
    let whole = match shelf.fetch("text", 19) {
        Ok(bytes) => bytes.as_slice() == TEXT,
        Err(_) => false,
    };
    whole
        && reads(shelf, 0, b"twenty")
        && reads(shelf, 0, b"twenty")
        && reads(shelf, 6, b" bytes")
        && reads(shelf, 3, b"nty by")
        && reads(shelf, 15, b" all.")
        && reads(shelf, 20, b"")
}

/// Whether that holds, and a file that is removed is read on.
fn is_read_on<R: Files + RandomSource>(alloc: Global, rt: &R, disk: &RefCell<Disk>) -> bool {
    let mut shelf = FileShelf::new(alloc, rt);
    let read = is_read(&mut shelf) && reads(&mut shelf, 0, b"twenty");
    let removed = is_removed(disk, "text");
    let on = reads(&mut shelf, 6, b" bytes") && reads(&mut shelf, 12, b" in al");
    read && removed && on && !reads(&mut shelf, 0, b"twenty")
}

/// Whether that holds where so many bytes are read at once.
fn is_read_on_at(alloc: Global, at_once: usize) -> Result<bool> {
    let disk = disk_of(alloc, at_once)?;
    Ok(is_read_on(alloc, &System { disk: &disk }, &disk))
}

#[test]
fn a_file_is_read_byte_for_byte(rt: HostRuntime) -> std::result::Result<(), Fail> {
    assert!(rt; is_read_on_at(rt.alloc(), 1)?);
    assert!(rt; is_read_on_at(rt.alloc(), 3)?);
    Ok(())
}
