//! What a module has that labels can name.
ghost use Rattle.std.specs.Prelude.{◌≡◌, ◌+◌, ◌++◌, ◌≤◌, nat_le, length, filter_map, option_copied, IfOk};
ghost use Rattle.bl_wasm.specs.Validity.{function_of, global_of, memory_of};
ghost use Rattle.bl_labels.specs.Faults.{count, params_of, results_of, spaces_of, function_type_at as type_of_function};

use bl_base::{List, NoMemory};
use bl_wasm::{FuncType, Import, ImportKind, Module};
use std::alloc::Global;

/// What a module has that labels can name: each index below the number of what is imported names an import.
#[derive(Debug, Drop)]
pub(crate) struct Spaces {
    /// The type indices of all functions, imports first.
    pub functions: List<u32>,
    /// How many functions are imported.
    pub imported_functions: usize,
    /// How many globals are imported.
    pub imported_globals: usize,
    /// How many globals are defined.
    pub globals: usize,
    /// How many memories are imported.
    pub imported_memories: usize,
    /// How many memories are defined.
    pub memories: usize,
}

/// What a module has.
pub(crate) fn spaces_in(alloc: Global, wasm: &Module) -> Result<Spaces, NoMemory>
    ensures { IfOk result (λ spaces. spaces ≡ spaces_of wasm.now) }
{
    let imports = wasm.imports.as_slice();
    let imported_globals = imported_globals(imports);
    let imported_memories = imported_memories(imports);
    let imported = imported_functions(alloc, imports)?;
    let imported_functions = imported.len();
    let functions = with_defined(imported, wasm.functions.as_slice())?;
    Ok(Spaces {
        functions,
        imported_functions,
        globals: wasm.globals.len(),
        imported_globals,
        memories: wasm.memories.len(),
        imported_memories,
    })
}

/// The type indices of imported functions.
fn imported_functions(alloc: Global, imports: &[Import]) -> Result<List<u32>, NoMemory>
    ensures { IfOk result (λ all. all ≡ filter_map (λ entry. function_of entry.kind) imports.now) }
{
    let mut functions = List::new(alloc);
    for entry in imports {
        if let ImportKind::Function(kind) = entry.kind {
            functions.push(kind)?;
        }
    }
    Ok(functions)
}

/// The type indices of functions that are defined, behind those that are imported.
fn with_defined(imported: List<u32>, defined: &[u32]) -> Result<List<u32>, NoMemory>
    ensures { IfOk result (λ all. all ≡ imported ++ defined.now) }
{
    let mut functions = imported;
    for kind in defined {
        functions.push(*kind)?;
    }
    Ok(functions)
}

/// How many globals are imported.
fn imported_globals(imports: &[Import]) -> usize
    ensures count { result ≡ length (filter_map (λ entry. global_of entry.kind) imports.now) }
    ensures few { result ≤ length imports.now }
{
    let mut count = 0;
    for entry in imports {
        count += globals_in(entry.kind);
    }
    count
}

/// 1 where that is a global, and else 0.
fn globals_in(kind: ImportKind) -> usize
    ensures { result ≡ count (global_of kind) }
{
    match kind {
        ImportKind::Global(_) => 1,
        _ => 0,
    }
}

/// How many memories are imported.
fn imported_memories(imports: &[Import]) -> usize
    ensures count { result ≡ length (filter_map (λ entry. memory_of entry.kind) imports.now) }
    ensures few { result ≤ length imports.now }
{
    let mut count = 0;
    for entry in imports {
        count += memories_in(entry.kind);
    }
    count
}

/// 1 where that is a memory, and else 0.
fn memories_in(kind: ImportKind) -> usize
    ensures { result ≡ count (memory_of kind) }
{
    match kind {
        ImportKind::Memory(_) => 1,
        _ => 0,
    }
}

/// Whether no place has that index behind so many that are imported and so many that are defined.
pub(crate) fn is_outside(index: u32, imported: usize, defined: usize) -> bool
    ensures { result ≡ nat_le (imported + defined) index }
{
    match imported.checked_add(defined) {
        Some(all) => all <= index as usize,
        None => false,
    }
}

/// The type of a function, where it has one.
fn type_of<'a>(types: &'a [FuncType], spaces: &Spaces, function: u32) -> Option<&'a FuncType>
    ensures { option_copied result ≡ type_of_function types.now spaces.now function }
{
    let index = spaces.functions.as_slice().get(function as usize)?;
    types.get(*index as usize)
}

/// How many parameters a function has; none where it has no type.
pub(crate) fn params(types: &[FuncType], spaces: &Spaces, function: u32) -> usize
    ensures { result ≡ params_of types.now spaces.now function }
{
    match type_of(types, spaces, function) {
        Some(kind) => kind.params.len(),
        None => 0,
    }
}

/// How many results a function has; none where it has no type.
pub(crate) fn results(types: &[FuncType], spaces: &Spaces, function: u32) -> usize
    ensures { result ≡ results_of types.now spaces.now function }
{
    match type_of(types, spaces, function) {
        Some(kind) => kind.results.len(),
        None => 0,
    }
}
