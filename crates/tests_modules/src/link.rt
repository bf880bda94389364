//! Modules that import from one another. Those that can be linked were run by node v20.20.2, each given the exports of those before;
//! the others break one rule each.
use bl_base::{List, NoMemory};
use bl_link::LinkError;
use bl_wasm::{Exports, Memory, Tree};
use std::alloc::Global;
use std::test::Fail;
use tests_linked::linked;

/// A function "f" that adds one; a memory "m" of one page to three with 1, 2, 3, 4 at 10; a table "t" of four slots with the
/// function in the first; and a global "g" that is 7.
static FIRST: &[u8] =
    b"\0asm\x01\0\0\0\x01\x09\x02`\0\0`\x01\x7f\x01\x7f\x03\x02\x01\x01\x04\x04\x01p\0\x04\x05\x04\x01\x01\x01\x03\x06\x06\
      \x01\x7f\0A\x07\x0b\x07\x11\x04\x01f\0\0\x01m\x02\0\x01t\x01\0\x01g\x03\0\x09\x07\x01\0A\0\x0b\x01\0\n\x09\x01\x07\0 \
      \0A\x01j\x0b\x0b\n\x01\0A\n\x0b\x04\x01\x02\x03\x04";

/// A function "h" that adds two by calling the first module's; that function again as "f"; it writes both into the table from 1
/// on, 9 where the global says, and 8, 7 at 11.
static SECOND: &[u8] =
    b"\0asm\x01\0\0\0\x01\x06\x01`\x01\x7f\x01\x7f\x02\x1d\x04\x01a\x01f\0\0\x01a\x01m\x02\0\x01\x01a\x01t\x01p\0\x02\x01a\
      \x01g\x03\x7f\0\x03\x02\x01\0\x07\x09\x02\x01h\0\x01\x01f\0\0\x09\x08\x01\0A\x01\x0b\x02\x01\0\n\n\x01\x08\0 \0\x10\0\
      \x10\0\x0b\x0b\x0e\x02\0#\0\x0b\x01\x09\0A\x0b\x0b\x02\x08\x07";

/// A function "k" that calls the second module's by its name and then by its slot.
static THIRD: &[u8] =
    b"\0asm\x01\0\0\0\x01\x06\x01`\x01\x7f\x01\x7f\x02\x0f\x02\x01b\x01h\0\0\x01a\x01t\x01p\0\0\x03\x02\x01\0\x07\x05\x01\
      \x01k\0\x01\n\x0d\x01\x0b\0 \0\x10\0A\x01\x11\0\0\x0b";

/// A module that imports the first module's table with a maximum of 4, which it doesn't have.
static BOUNDED: &[u8] = b"\0asm\x01\0\0\0\x02\x0a\x01\x01a\x01t\x01p\x01\0\x04";

/// A module that writes two element segments into the first module's table, the second beyond its end, and a byte beyond the end of
/// its memory.
static BEYOND: &[u8] =
    b"\0asm\x01\0\0\0\x01\x06\x01`\x01\x7f\x01\x7f\x02\x16\x03\x01a\x01f\0\0\x01a\x01t\x01p\0\0\x01a\x01m\x02\0\0\x09\x0d\
      \x02\0A\0\x0b\x01\0\0A\x04\x0b\x01\0\x0b\x09\x01\0A\x80\x80\x04\x0b\x01\x05";

/// The same with the second segment in the table.
static WITHIN: &[u8] =
    b"\0asm\x01\0\0\0\x01\x06\x01`\x01\x7f\x01\x7f\x02\x16\x03\x01a\x01f\0\0\x01a\x01t\x01p\0\0\x01a\x01m\x02\0\0\x09\x0d\
      \x02\0A\0\x0b\x01\0\0A\x03\x0b\x01\0\x0b\x09\x01\0A\x80\x80\x04\x0b\x01\x05";

/// Whether those are the exports of the three modules.
fn has_exports(exports: &Exports) -> bool {
    exports.len() == 4
        && exports.find("a/f") == Some(0)
        && exports.find("b/h") == Some(1)
        && exports.find("b/f") == Some(0)
        && exports.find("c/k") == Some(2)
}

/// Whether the first table is the one that the second module writes.
fn has_slots(tables: &[List<Option<u32>>]) -> bool {
    let slots = tables.first().map(|table| table.as_slice());
    matches!(slots, Some([Some(0), Some(1), Some(0), None]))
}

/// Whether the first memory has the bytes that both modules write, a page and its reserve.
fn has_bytes(memories: &[Memory]) -> bool {
    let Some(memory) = memories.first() else {
        return false;
    };
    let bytes = memory.bytes.as_slice();
    matches!(bytes, [0, 0, 0, 0, 0, 0, 0, 9, 0, 0, 1, 8, 7, 4, 0, ..])
        && bytes.len() == 65_536
        && memory.reserve == 3
}

/// Whether that is what is linked of the three modules.
fn is_wanted(tree: &Tree) -> bool {
    has_exports(&tree.exports)
        && has_slots(tree.tables.as_slice())
        && has_bytes(tree.memories.as_slice())
}

/// Whether the three modules are linked so.
fn are_linked(alloc: Global) -> Result<bool, NoMemory> {
    let modules = [("a", FIRST), ("b", SECOND), ("c", THIRD)];
    let answer = linked(alloc, modules.as_slice())?;
    let is_right = match &answer {
        Some(Ok(linked)) => is_wanted(linked.tree()),
        _ => false,
    };
    drop(answer);
    Ok(is_right)
}

#[test]
fn modules_are_linked(rt: HostRuntime) -> Result<(), Fail> {
    assert!(rt; are_linked(rt.alloc())?);
    Ok(())
}

/// Whether linking those modules has that fault.
fn is_refused(
    alloc: Global,
    modules: [(&str, &[u8]); 2],
    wanted: LinkError,
) -> Result<bool, NoMemory> {
    let answer = linked(alloc, modules.as_slice())?;
    let is_right = match &answer {
        Some(Err(error)) => *error == wanted,
        _ => false,
    };
    drop(answer);
    Ok(is_right)
}

#[test]
fn an_import_of_a_later_module_is_unknown(rt: HostRuntime) -> Result<(), Fail> {
    let wanted = LinkError::Unknown { part: 0, import: 0 };
    assert!(rt; is_refused(rt.alloc(), [("b", SECOND), ("a", FIRST)], wanted)?);
    Ok(())
}

#[test]
fn a_table_without_a_maximum_does_not_match_one(rt: HostRuntime) -> Result<(), Fail> {
    let wanted = LinkError::Mismatch { part: 1, import: 0 };
    assert!(rt; is_refused(rt.alloc(), [("a", FIRST), ("b", BOUNDED)], wanted)?);
    Ok(())
}

/// Whether a byte beyond the memory counts where both element segments are in the table alone.
fn elements_are_first(alloc: Global) -> Result<bool, NoMemory> {
    Ok(
        is_refused(
            alloc,
            [("a", FIRST), ("b", BEYOND)],
            LinkError::ElementRange(1),
        )? && is_refused(
            alloc,
            [("a", FIRST), ("b", WITHIN)],
            LinkError::DataRange(1),
        )?,
    )
}

#[test]
fn all_element_segments_are_tested_before_data(rt: HostRuntime) -> Result<(), Fail> {
    assert!(rt; elements_are_first(rt.alloc())?);
    Ok(())
}
