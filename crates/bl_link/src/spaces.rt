//! The spaces of a part.
ghost use Rattle.std.specs.Prelude.{◌≡◌, ◌+◌, ◌<◌, ◌^◌, ◌++◌, IfOk};
ghost use Rattle.std.specs.List.{range_with_len};
ghost use Rattle.bl_link.specs.{HasRoom.HasNumbers, IndexSpaces.of_kind as of_kind_of, IndexSpaces.spaces_of as spaces_of_part};

use crate::store::{External, Spaces, Store};
use bl_base::{List, NoMemory};
use bl_wasm::{ExportKind, Module};
use std::alloc::Global;

/// The numbers of the values of a kind.
fn of_kind(alloc: Global, kind: ExportKind, values: &[External]) -> Result<List<u32>, NoMemory>
    ensures { IfOk result (λ all. all ≡ of_kind_of kind values.now) }
{
    let mut numbers = List::new(alloc);
    for value in values {
        if kind == value.kind {
            numbers.push(value.number)?;
        }
    }
    Ok(numbers)
}

/// The numbers of what is defined, so many from the first one on, behind those of what is imported.
#[tactic(auto, using(crate::proofs::RangeLists::ranges))]
fn with_defined(imported: List<u32>, first: usize, many: usize) -> Result<List<u32>, NoMemory>
    requires { first + many < 2 ^ 32 }
    ensures { IfOk result (λ all. all ≡ imported ++ range_with_len first many) }
{
    let mut numbers = imported;
    for i in 0..many {
        numbers.push((first + i) as u32)?;
    }
    Ok(numbers)
}

/// The spaces of a part whose imports are given those values: what it defines stands behind all that is linked so far.
pub(crate) fn spaces_of(
    alloc: Global,
    store: &Store,
    wasm: &Module,
    given: &[External],
) -> Result<Spaces, NoMemory>
    requires { HasNumbers store.now wasm.now }
    ensures { IfOk result (λ spaces. spaces ≡ spaces_of_part store.now wasm.now given.now) }
{
    let tree = &store.tree;
    let functions = of_kind(alloc, ExportKind::Function, given)?;
    let tables = of_kind(alloc, ExportKind::Table, given)?;
    let memories = of_kind(alloc, ExportKind::Memory, given)?;
    let globals = of_kind(alloc, ExportKind::Global, given)?;
    Ok(Spaces {
        types: with_defined(List::new(alloc), tree.types.len(), wasm.types.len())?,
        functions: with_defined(functions, tree.functions.len(), wasm.functions.len())?,
        tables: with_defined(tables, tree.tables.len(), wasm.tables.len())?,
        memories: with_defined(memories, tree.memories.len(), wasm.memories.len())?,
        globals: with_defined(globals, tree.globals.len(), wasm.globals.len())?,
    })
}
