//! A disk in memory as a system's files.
use crate::disk::Disk;
use std::alloc::Allocator;
use std::cell::RefCell;
use std::fs::{Metadata, OpenFile, OpenOptions, Permissions};
use std::io::{Error, ErrorKind, Read, Result, Seek, SeekFrom, Write};
use std::path::PathBuf;
use std::random::RandomSource;
use std::rt::Files;

/// A system with that disk.
#[derive(Drop)]
pub struct System<'d> {
    pub disk: &'d RefCell<Disk>,
}

/// An open file of a disk, and its place.
#[derive(Drop)]
pub struct Handle<'d> {
    disk: &'d RefCell<Disk>,
    file: usize,
    place: usize,
}

/// The answer to what the system doesn't do.
fn unsupported<T>() -> Result<T> {
    Err(Error::from(ErrorKind::Unsupported))
}

impl Read for Handle<'_> {
    fn read(&mut self, buf: &mut [u8]) -> Result<usize> {
        let count = self.disk.try_borrow()?.read(self.file, self.place, buf);
        self.place = self.place.wrapping_add(count);
        Ok(count)
    }
}

impl Write for Handle<'_> {
    fn write(&mut self, buf: &[u8]) -> Result<usize> {
        let count = self
            .disk
            .try_borrow_mut()?
            .write(self.file, self.place, buf)?;
        self.place = self.place.wrapping_add(count);
        Ok(count)
    }

    fn flush(&mut self) -> Result<()> {
        Ok(())
    }
}

impl Seek for Handle<'_> {
    fn seek(&mut self, to: SeekFrom) -> Result<u64> {
        match to {
            SeekFrom::Start(place) => {
                self.place = usize::try_from(place).unwrap_or(0);
                Ok(place)
            }
            _ => unsupported(),
        }
    }
}

impl OpenFile for Handle<'_> {
    fn metadata(&self) -> Result<Metadata> {
        Ok(Metadata::of_file(self.disk.try_borrow()?.len(self.file)))
    }

    fn set_len(&self, size: u64) -> Result<()> {
        let size = usize::try_from(size).unwrap_or(0);
        self.disk.try_borrow_mut()?.cut(self.file, size);
        Ok(())
    }

    fn sync_all(&self) -> Result<()> {
        Ok(())
    }

    fn sync_data(&self) -> Result<()> {
        Ok(())
    }

    fn set_permissions(&self, _perm: Permissions) -> Result<()> {
        Ok(())
    }
}

impl<'d> Files for System<'d> {
    type File = Handle<'d>;

    type Dir = Handle<'d>;

    fn open_file(&self, how: &OpenOptions, path: &str) -> Result<Handle<'d>> {
        let file = self.disk.try_borrow_mut()?.open(how, path)?;
        Ok(Handle {
            disk: self.disk,
            file,
            place: 0,
        })
    }

    fn open_dir(&self, _path: &str) -> Result<Handle<'d>> {
        unsupported()
    }

    fn metadata(&self, path: &str) -> Result<Metadata> {
        Ok(Metadata::of_file(self.disk.try_borrow()?.len_of(path)?))
    }

    fn symlink_metadata(&self, path: &str) -> Result<Metadata> {
        Ok(Metadata::of_file(self.disk.try_borrow()?.len_of(path)?))
    }

    fn copy(&self, _from: &str, _to: &str) -> Result<u64> {
        unsupported()
    }

    fn rename(&self, from: &str, to: &str) -> Result<()> {
        self.disk.try_borrow_mut()?.rename(from, to)
    }

    fn remove_file(&self, path: &str) -> Result<()> {
        self.disk.try_borrow_mut()?.remove(path)
    }

    fn create_dir(&self, _path: &str) -> Result<()> {
        unsupported()
    }

    fn remove_dir(&self, _path: &str) -> Result<()> {
        unsupported()
    }

    fn remove_dir_all<B: Allocator>(&self, _alloc: B, _path: &str) -> Result<()> {
        unsupported()
    }

    fn canonicalize<B: Allocator>(&self, alloc: B, path: &str) -> Result<PathBuf<B>> {
        Ok(PathBuf::from_str(alloc, path)?)
    }
}

impl RandomSource for System<'_> {
    fn fill_bytes(&self, buf: &mut [u8]) -> Result<()> {
        let next = self.disk.try_borrow_mut()?.next_byte();
        for byte in buf.iter_mut() {
            *byte = next;
        }
        Ok(())
    }
}
