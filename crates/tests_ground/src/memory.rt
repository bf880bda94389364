//! The shelf in memory. By hand: an entry gives what was put or kept last, and the calls that are listed fail.
use crate::shelves::{fails, gives, reads, stops};
use bl_base::{List, NoMemory};
use bl_outside::{MemoryShelf, Shelf};
use std::alloc::Global;
use std::test::Fail;

/// Whether the entry of that name has those bytes.
fn holds(shelf: &MemoryShelf, name: &str, bytes: &[u8]) -> bool {
    match shelf.entry(name) {
        Some(found) => found == bytes,
        None => false,
    }
}

/// Whether all entries are put.
fn filled(shelf: &mut MemoryShelf, entries: &[(&str, &[u8])]) -> bool {
    for (name, bytes) in entries {
        if shelf.put(*name, *bytes).is_err() {
            return false;
        }
    }
    true
}

/// A shelf whose third call fails.
fn failing(alloc: Global) -> Result<MemoryShelf, NoMemory> {
    let mut fail = List::new(alloc);
    fail.push(3)?;
    Ok(MemoryShelf::new(alloc, fail))
}

/// Whether the second entry is made new by the second call, the third call fails, and so does one at a name that is absent.
fn is_called_in_turn(shelf: &mut MemoryShelf) -> bool {
    gives(shelf, "a", 2, b"byt")
        && shelf.keep("b", b"new").is_ok()
        && fails(shelf, "a", 9)
        && gives(shelf, "a", 5, b"bytes")
        && fails(shelf, "c", 5)
}

/// What is put before the calls; the first entry twice.
static ENTRIES: [(&str, &[u8]); 3] = [("a", b"first"), ("b", b"other"), ("a", b"bytes")];

/// Whether a shelf with those entries answers its calls so, and has the entries that are left.
fn is_told(alloc: Global) -> Result<bool, NoMemory> {
    let mut shelf = failing(alloc)?;
    Ok(
        filled(&mut shelf, &ENTRIES)
            && is_called_in_turn(&mut shelf)
            && holds(&shelf, "a", b"bytes")
            && holds(&shelf, "b", b"new")
            && shelf.entry("c").is_none(),
    )
}

#[test]
fn a_memory_shelf_fails_at_the_listed_calls(rt: HostRuntime) -> Result<(), Fail> {
    assert!(rt; is_told(rt.alloc())?);
    Ok(())
}

/// Whether an entry is read from its beginning, from its middle and at its end, and one that is absent fails.
fn is_read_in_pieces(shelf: &mut MemoryShelf) -> bool {
    reads(shelf, "a", 0, 3, b"byt")
        && reads(shelf, "a", 3, 3, b"es")
        && reads(shelf, "a", 1, 1, b"y")
        && reads(shelf, "a", 4, 100, b"s")
        && reads(shelf, "a", 5, 3, b"")
        && reads(shelf, "a", 9, 3, b"")
        && stops(shelf, "c", 0, 3)
        && stops(shelf, "c", 9, 3)
}

/// Whether that holds of a shelf with those entries, whose entries stay as they are.
fn are_pieces_told(alloc: Global) -> Result<bool, NoMemory> {
    let mut shelf = MemoryShelf::new(alloc, List::new(alloc));
    Ok(
        filled(&mut shelf, &ENTRIES)
            && is_read_in_pieces(&mut shelf)
            && holds(&shelf, "a", b"bytes")
            && holds(&shelf, "b", b"other")
            && shelf.entry("c").is_none(),
    )
}

#[test]
fn a_memory_shelf_is_read_in_pieces(rt: HostRuntime) -> Result<(), Fail> {
    assert!(rt; are_pieces_told(rt.alloc())?);
    Ok(())
}

/// Whether the third call fails, be it the first or the second of an entry's pieces, and the next one doesn't.
fn is_numbered_together(shelf: &mut MemoryShelf) -> bool {
    reads(shelf, "a", 0, 2, b"by")
        && shelf.keep("b", b"new").is_ok()
        && stops(shelf, "a", 2, 2)
        && reads(shelf, "a", 2, 2, b"te")
        && gives(shelf, "b", 2, b"new")
}

/// Whether that holds of a shelf with those entries.
fn are_numbered_together(alloc: Global) -> Result<bool, NoMemory> {
    let mut shelf = failing(alloc)?;
    Ok(filled(&mut shelf, &ENTRIES) && is_numbered_together(&mut shelf))
}

#[test]
fn the_calls_of_a_memory_shelf_are_numbered_together(rt: HostRuntime) -> Result<(), Fail> {
    assert!(rt; are_numbered_together(rt.alloc())?);
    Ok(())
}
