//! A file that is kept over another one, where one call of the system's that writes fails. By hand: so many bytes are written by a call for each three
//! of them, so the call behind the last one is never made.
use crate::disk::{Disk, Manners};
use crate::files::stands_alone;
use crate::system::System;
use bl_outside::{FileShelf, Shelf};
use std::alloc::Global;
use std::cell::RefCell;
use std::io::Result;
use std::random::RandomSource;
use std::rt::Files;
use std::test::Fail;

/// Whether bytes are kept under the name of a file.
fn is_kept<R: Files + RandomSource>(alloc: Global, rt: &R, bytes: &[u8]) -> bool {
    FileShelf::new(alloc, rt).keep("file", bytes).is_ok()
}

/// Whether bytes are kept over old ones, or a fault leaves the old ones, where so many bytes are written at once; the answer is whether
/// they are kept.
fn keeps(alloc: Global, manners: Manners, old: &[u8], new: &[u8]) -> Result<Option<bool>> {
    let mut disk = Disk::new(alloc, manners);
    disk.put("file", old)?;
    let disk = RefCell::new(disk);
    let kept = is_kept(alloc, &System { disk: &disk }, new);
    let stands = stands_alone(&disk, "file", if kept { new } else { old });
    Ok(if stands { Some(kept) } else { None })
}

/// How many of ten calls of the system that write are met by a fault which leaves the old bytes, before the one that isn't made.
fn met(alloc: Global, is_shut: bool, old: &[u8], new: &[u8]) -> Result<u32> {
    for failing in 1..=10u32 {
        let manners = Manners {
            at_once: 3,
            failing,
            is_shut,
        };
        match keeps(alloc, manners, old, new)? {
            Some(false) => {}
            Some(true) => return Ok(failing),
            None => return Ok(0),
        }
    }
    Ok(0)
}

#[test]
fn a_fault_leaves_what_stood_there(rt: HostRuntime) -> std::result::Result<(), Fail> {
    assert_eq!(rt; met(rt.alloc(), false, b"twelve bytes", b"nine more")?, 4);
    assert_eq!(rt; met(rt.alloc(), true, b"twelve bytes", b"nine more")?, 4);
    assert_eq!(rt; met(rt.alloc(), true, b"nine more", b"some fifteen by")?, 6);
    assert_eq!(rt; met(rt.alloc(), true, b"", b"nine more")?, 4);
    Ok(())
}
