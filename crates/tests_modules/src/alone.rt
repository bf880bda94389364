//! One module as a program of its own. The module's bytes were run by node v20.20; what is linked of them was read off by hand.
use bl_base::NoMemory;
use bl_wasm::{BlockType, Exports, Function, Global as LinkedGlobal, Instr, Signature, Tree};
use std::alloc::Global;
use std::test::Fail;
use tests_linked::linked;

/// The types [i32] -> [i32] and [] -> [i32 i64]; a global i32 that is 7 at first; an exported function "f" that sets it and calls
/// the first one, in which a block has the second type; and an export "g" of the global.
static MODULE: &[u8] =
    b"\0asm\x01\0\0\0\x01\x0b\x02`\x01\x7f\x01\x7f`\0\x02\x7f~\x03\x03\x02\0\0\x06\x06\x01\x7f\x01A\x07\x0b\x07\x09\x02\x01f\0\x01\x01g\x03\0\n\x1a\x02\x0d\0\x02\x01A\x01B\x02\x0b\x1a\x1a \0\x0b\n\0 \0$\0#\0\x10\0\x0b";

/// Whether that function alone is exported.
fn has_export(exports: &Exports) -> bool {
    exports.len() == 1 && exports.find("m/f") == Some(1)
}

/// Whether the types are those two.
fn has_types(types: &[Signature]) -> bool {
    types.first().map(|kind| kind.params.len()) == Some(1)
        && types.get(1).map(|kind| kind.results.len()) == Some(2)
}

/// Whether the functions are those two.
fn has_functions(functions: &[Function]) -> bool {
    let items = functions.first().map(|one| one.code.items.as_slice());
    functions.first().map(|one| one.labels.len()) == Some(1)
        && functions.first().map(|one| one.demanded.len()) == Some(1)
        && functions.get(1).map(|one| one.code.items.len()) == Some(4)
        && matches!(items, Some([Instr::Block(BlockType::Index(1)), ..]))
}

/// Whether the first global is 7 at first, and isn't demanded public.
fn has_global(globals: &[LinkedGlobal]) -> bool {
    globals.first().map(|global| global.initial) == Some(7)
        && globals.first().map(|global| global.demanded) == Some(false)
}

/// Whether that is what is linked of `MODULE`.
fn is_wanted(tree: &Tree) -> bool {
    has_export(&tree.exports)
        && has_types(tree.types.as_slice())
        && has_functions(tree.functions.as_slice())
        && has_global(tree.globals.as_slice())
}

/// Whether `MODULE` is linked so.
fn is_linked(alloc: Global) -> Result<bool, NoMemory> {
    match linked(alloc, &[("m", MODULE)])? {
        Some(Ok(linked)) => Ok(is_wanted(linked.tree())),
        _ => Ok(false),
    }
}

#[test]
fn a_module_is_linked(rt: HostRuntime) -> Result<(), Fail> {
    assert!(rt; is_linked(rt.alloc())?);
    Ok(())
}
