//! Exports, the empty tree, and the size of an instruction. By hand: a function is found by the name that it was added with;
//! 16 bytes are what an instruction is meant to take.
use bl_base::{List, NoMemory};
use bl_wasm::{Exports, Instr, Linked, Tree};
use std::alloc::Global;
use std::mem::size_of;
use std::test::Fail;

/// Whether the one export is function 7, `a/f`.
fn has_one(exports: &Exports) -> bool {
    exports.find("a/f") == Some(7) && exports.find("a/g").is_none() && exports.len() == 1
}

/// Whether that function is found once it is added, and not before.
fn is_found(alloc: Global) -> Result<bool, NoMemory> {
    let mut exports = Exports::new(alloc);
    let found_before = exports.find("a/f").is_some();
    exports.add(b"a/f".to_vec(alloc)?, 7)?;
    Ok(!found_before && has_one(&exports))
}

#[test]
fn a_function_is_found_by_its_name(rt: HostRuntime) -> Result<(), Fail> {
    assert!(rt; is_found(rt.alloc())?);
    Ok(())
}

/// Whether the empty tree is linked.
fn is_linked(alloc: Global) -> bool {
    let linked = Linked::of(Tree {
        types: List::new(alloc),
        functions: List::new(alloc),
        globals: List::new(alloc),
        memories: List::new(alloc),
        tables: List::new(alloc),
        exports: Exports::new(alloc),
    });
    linked.tree().functions.len() == 0
}

#[test]
fn the_empty_tree_is_linked(rt: HostRuntime) -> Result<(), Fail> {
    assert!(rt; is_linked(rt.alloc()));
    Ok(())
}

#[test]
fn an_item_takes_16_bytes(rt: HostRuntime) -> Result<(), Fail> {
    assert_eq!(rt; size_of::<Instr>(), 16);
    Ok(())
}
