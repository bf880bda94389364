//! A disk in memory, which reads and writes short, and fails where it is told to.
ghost use Rattle.std.specs.Prelude.{◌≤◌, length, IfOk};

use std::alloc::Global;
use std::fs::OpenOptions;
use std::io::{Error, ErrorKind, Result};

/// A name on a disk, and the number of its file.
#[derive(Drop)]
struct Entry {
    name: String,
    file: usize,
}

/// What a disk does otherwise than a plain one.
#[derive(Clone, Copy)]
pub struct Manners {
    /// The most bytes that a call reads or writes.
    pub at_once: usize,

    /// The number of the call that writes and fails; none at 0.
    pub failing: u32,

    /// Whether no file can be made.
    pub is_shut: bool,
}

/// Named files.
#[derive(Drop)]
pub struct Disk {
    alloc: Global,
    entries: Vec<Entry>,
    files: Vec<Vec<u8>>,
    manners: Manners,
    writes: u32,
    turn: u8,
}

impl Disk {
    /// A disk without files.
    pub fn new(alloc: Global, manners: Manners) -> Disk {
        Disk {
            alloc,
            entries: Vec::new(alloc),
            files: Vec::new(alloc),
            manners,
            writes: 0,
            turn: 0,
        }
    }

    /// The number of the file of that name.
    fn find(&self, name: &str) -> Option<usize> {
        for entry in &self.entries {
            if entry.name.as_str() == name {
                return Some(entry.file);
            }
        }
        None
    }

    /// Puts a file with these bytes under a name.
    pub fn put(&mut self, name: &str, bytes: &[u8]) -> Result<()> {
        let mut file = Vec::new(self.alloc);
        file.extend_from_slice(bytes)?;
        let text = String::from_str(self.alloc, name)?;
        self.entries.push(Entry {
            name: text,
            file: self.files.len(),
        })?;
        self.files.push(file)?;
        Ok(())
    }

    /// Makes a file, and answers its number.
    fn make(&mut self, name: &str) -> Result<usize> {
        if self.manners.is_shut {
            return Err(Error::from(ErrorKind::PermissionDenied));
        }
        let file = self.files.len();
        self.put(name, b"")?;
        Ok(file)
    }

    /// Opens a file, and answers its number.
    pub fn open(&mut self, how: &OpenOptions, name: &str) -> Result<usize> {
        match self.find(name) {
            Some(file) => {
                if how.asks_create_new() {
                    return Err(Error::from(ErrorKind::AlreadyExists));
                }
                if how.asks_truncate() {
                    self.cut(file, 0);
                }
                Ok(file)
            }
            None => {
                if how.asks_create() || how.asks_create_new() {
                    self.make(name)
                } else {
                    Err(Error::from(ErrorKind::NotFound))
                }
            }
        }
    }

    /// Cuts a file at a length.
    pub fn cut(&mut self, file: usize, len: usize) {
        if let Some(bytes) = self.files.get_mut(file) {
            bytes.truncate(len);
        }
    }

    /// Takes a name off the disk. Its file stays for who has it open.
    pub fn remove(&mut self, name: &str) -> Result<()> {
        for place in 0..self.entries.len() {
            if self.entries[place].name.as_str() == name {
                self.entries.swap_remove(place);
                return Ok(());
            }
        }
        Err(Error::from(ErrorKind::NotFound))
    }

    /// Gives the file of a name another one, and takes that off what had it.
    pub fn rename(&mut self, from: &str, to: &str) -> Result<()> {
        let Some(file) = self.find(from) else {
            return Err(Error::from(ErrorKind::NotFound));
        };
        let _ = self.remove(to);
        self.remove(from)?;
        let name = String::from_str(self.alloc, to)?;
        self.entries.push(Entry { name, file })?;
        Ok(())
    }

    /// How many bytes a file has.
    pub fn len(&self, file: usize) -> u64 {
        match self.files.get(file) {
            Some(bytes) => bytes.len() as u64,
            None => 0,
        }
    }

    /// How many bytes the file of a name has, if there is one.
    pub fn len_of(&self, name: &str) -> Result<u64> {
        match self.find(name) {
            Some(file) => Ok(self.len(file)),
            None => Err(Error::from(ErrorKind::NotFound)),
        }
    }

    /// Reads some bytes of a file from a place on, and answers how many.
    pub fn read(&self, file: usize, place: usize, buf: &mut [u8]) -> usize
        ensures { result ≤ length buf.new }
    {
        let rest = match self.files.get(file) {
            Some(bytes) => bytes.get(place..).unwrap_or(b""),
            None => b"",
        };
        let count = rest.len().min(buf.len()).min(self.manners.at_once);
        buf[..count].copy_from_slice(&rest[..count]);
        count
    }

    /// Writes some bytes to a file from a place on, and answers how many.
    pub fn write(&mut self, file: usize, place: usize, bytes: &[u8]) -> Result<usize>
        ensures { IfOk result (λ n. n ≤ length bytes.now) }
    {
        self.writes = self.writes.wrapping_add(1);
        if self.writes == self.manners.failing {
            return Err(Error::from(ErrorKind::StorageFull));
        }
        let count = bytes.len().min(self.manners.at_once);
        if let Some(file) = self.files.get_mut(file) {
            lay(file, place, &bytes[..count])?;
        }
        Ok(count)
    }

    /// A byte that differs from the last one.
    pub fn next_byte(&mut self) -> u8 {
        self.turn = self.turn.wrapping_add(1);
        self.turn
    }

    /// Whether that file stands on the disk with these bytes, and no other.
    pub fn holds_alone(&self, name: &str, bytes: &[u8]) -> bool {
        match self.find(name).and_then(|file| self.files.get(file)) {
            Some(found) => self.entries.len() == 1 && found.as_slice() == bytes,
            None => false,
        }
    }
}

/// Writes bytes over those of a file from a place on, and behind its end.
fn lay(file: &mut Vec<u8>, place: usize, bytes: &[u8]) -> Result<()> {
    let mut at = place;
    for byte in bytes {
        match file.get_mut(at) {
            Some(old) => *old = *byte,
            None => file.push(*byte)?,
        }
        at = at.wrapping_add(1);
    }
    Ok(())
}
