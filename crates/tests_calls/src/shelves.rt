//! Shelves in memory, and what stands on them.
use bl_base::{List, NoMemory};
use bl_outside::MemoryShelf;
use std::alloc::Global;

/// Whether a file stands on a shelf.
pub fn stands(shelf: &MemoryShelf, name: &str) -> bool {
    shelf.entry(name).is_some()
}

/// Whether a file stands on a shelf with those bytes.
pub fn holds(shelf: &MemoryShelf, name: &str, bytes: &[u8]) -> bool {
    match shelf.entry(name) {
        Some(found) => found == bytes,
        None => false,
    }
}

/// The numbers of the calls of a shelf that fail: that one, if any.
fn failing_calls(alloc: Global, failing: Option<u64>) -> Result<List<u64>, NoMemory> {
    let mut numbers = List::new(alloc);
    if let Some(number) = failing {
        numbers.push(number)?;
    }
    Ok(numbers)
}

/// A shelf with these files, of which the call of that number fails.
pub fn shelf_failing(
    alloc: Global,
    files: &[(&str, &[u8])],
    failing: Option<u64>,
) -> Result<MemoryShelf, NoMemory> {
    let mut shelf = MemoryShelf::new(alloc, failing_calls(alloc, failing)?);
    for (name, bytes) in files {
        shelf.put(*name, *bytes)?;
    }
    Ok(shelf)
}

/// A shelf with these files.
pub fn shelf_of(alloc: Global, files: &[(&str, &[u8])]) -> Result<MemoryShelf, NoMemory> {
    shelf_failing(alloc, files, None)
}

/// The bytes of a file on a shelf; none where there is no such file.
pub fn bytes_of<'a>(shelf: &'a MemoryShelf, name: &str) -> &'a [u8] {
    match shelf.entry(name) {
        Some(bytes) => bytes,
        None => b"",
    }
}

/// Whether bytes are these texts behind one another.
pub fn is_joined(bytes: &[u8], texts: &[&str]) -> bool {
    let mut rest = bytes;
    for text in texts {
        match rest.strip_prefix(text.as_bytes()) {
            Some(behind) => rest = behind,
            None => return false,
        }
    }
    rest.is_empty()
}
