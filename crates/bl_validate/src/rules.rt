//! The rules on the parts of a module other than its bodies' typing (WebAssembly 1.0, section 3.4).
ghost use Rattle.std.specs.Prelude.{◌≡◌, ◌<◌, ◌≤◌, ◌↔◌, length, vec_len, IsTrue, IfOk, slice_get, Some, false};
ghost use Rattle.std.specs.List.{All};
ghost use Rattle.bl_wasm.specs.Validity.{AreDistinct, HasIntegers, IsCode, IsInitial, IsFunctionType, IsLimits, IsMemory, IsValid};
ghost use Rattle.bl_validate.specs.ModuleRules.{AreExports, AreFunctions, AreGlobals, AreParts, AreStores, IsDataAt, IsElementAt, space_in};
ghost use Rattle.bl_validate.specs.Scopes.{IsScope};

use crate::scope::Scope;
use bl_base::NoMemory;
use bl_wasm::{
    Code, DataSegment, DefinedGlobal, ElementSegment, Export, ExportKind, FuncType, GlobalType,
    Instr, Limits, Module, WasmType,
};
use std::alloc::Global;
use std::collections::BTreeSet;

/// The most pages of a memory.
const MOST_PAGES: u32 = 65_536;

/// Whether the module keeps every rule but the typing of its bodies.
pub(crate) fn is_valid(alloc: Global, tree: &Module, scope: &Scope) -> Result<bool, NoMemory>
    requires { IsScope tree.now scope.now }
    ensures { IfOk result (λ ok. IsTrue ok ↔ IsValid tree.now) }
{
    Ok(has_valid_parts(tree, scope) && has_valid_exports(alloc, tree.exports.as_slice(), scope)?)
}

/// Whether the module keeps every rule but the typing of its bodies and those on its exports.
fn has_valid_parts(tree: &Module, scope: &Scope) -> bool
    requires { scope.now.imported ≤ vec_len scope.now.globals }
    ensures { IsTrue result ↔ AreParts tree.now scope.now }
{
    let globals = scope.globals.as_slice();
    has_valid_functions(tree, scope)
        && has_valid_stores(&scope.tables, &scope.memories)
        && has_valid_globals(globals, &globals[..scope.imported], tree.globals.as_slice())
        && has_valid_segments(tree, scope)
        && tree.start.is_none()
}

/// The types, the functions' type indices, and the types in the functions' code.
fn has_valid_functions(tree: &Module, scope: &Scope) -> bool
    ensures { IsTrue result ↔ AreFunctions scope.now.types.now scope.now.functions.items tree.now.functions tree.now.bodies }
{
    are_types(scope.types)
        && are_below(&scope.functions, scope.types.len())
        && tree.functions.len() == tree.bodies.len()
        && are_codes(tree.bodies.as_slice())
}

/// Whether each index is below the size of a space.
fn are_below(indices: &[u32], size: usize) -> bool
    ensures { IsTrue result ↔ All (λ index. index < size) indices.now }
{
    indices.iter().all(|index| (*index as usize) < size)
}

/// The tables and memories, imports included.
fn has_valid_stores(tables: &[Limits], memories: &[Limits]) -> bool
    ensures { IsTrue result ↔ AreStores tables.now memories.now }
{
    tables.len() <= 1
        && memories.len() <= 1
        && tables.iter().all(|limits| is_limits(*limits))
        && memories.iter().all(|limits| is_memory(*limits))
}

/// The globals' types, and the initial values of those that are defined.
fn has_valid_globals(
    globals: &[GlobalType],
    imports: &[GlobalType],
    defined: &[DefinedGlobal],
) -> bool
    ensures { IsTrue result ↔ AreGlobals globals.now imports.now defined.now }
{
    globals.iter().all(|global| global.kind.is_integer())
        && defined.iter().all(|global| is_initial(
            imports,
            global.kind.kind,
            global.initial.as_slice(),
        ))
}

/// The segments of tables and those of memories.
fn has_valid_segments(tree: &Module, scope: &Scope) -> bool
    ensures { IsTrue result ↔ (All (IsElementAt (length scope.now.tables.items) (length scope.now.functions.items) scope.now.globals.items) tree.now.elements
        × All (IsDataAt (length scope.now.memories.items) scope.now.globals.items) tree.now.segments) }
{
    tree.elements
        .as_slice()
        .iter()
        .all(|segment| is_element(scope, segment))
        && tree
            .segments
            .as_slice()
            .iter()
            .all(|segment| is_data(scope, segment))
}

/// The exports: their indices are in range, and no two have one name.
fn has_valid_exports(alloc: Global, exports: &[Export], scope: &Scope) -> Result<bool, NoMemory>
    ensures { IfOk result (λ ok. IsTrue ok ↔ AreExports scope.now exports.now) }
{
    Ok(
        exports.iter().all(|export| (export.index as usize) < space(scope, export.kind))
            && are_distinct(alloc, exports)?,
    )
}

/// Whether no two exports have one name.
fn are_distinct(alloc: Global, exports: &[Export]) -> Result<bool, NoMemory>
    ensures { IfOk result (λ ok. IsTrue ok ↔ AreDistinct exports.now) }
{
    let mut names = BTreeSet::new(alloc);
    for export in exports {
        if !names.insert(export.name.as_slice())? {
            return Ok(false);
        }
    }
    Ok(true)
}

/// The size of the space that an export names.
fn space(scope: &Scope, kind: ExportKind) -> usize
    ensures { result ≡ space_in scope.now kind }
{
    match kind {
        ExportKind::Function => scope.functions.len(),
        ExportKind::Table => scope.tables.len(),
        ExportKind::Memory => scope.memories.len(),
        ExportKind::Global => scope.globals.len(),
    }
}

/// Whether each is a function's type of this profile.
fn are_types(types: &[FuncType]) -> bool
    ensures { IsTrue result ↔ All IsFunctionType types.now }
{
    types.iter().all(|kind| is_function_type(kind))
}

/// Whether the types are integers.
fn is_function_type(kind: &FuncType) -> bool
    ensures { IsTrue result ↔ IsFunctionType kind.now }
{
    kind.params
        .as_slice()
        .iter()
        .all(|param| param.is_integer())
        && kind.results.as_slice().iter().all(|kind| kind.is_integer())
}

/// Whether the locals and the types of blocks are integers.
fn is_code(code: &Code) -> bool
    ensures { IsTrue result ↔ IsCode code.now }
{
    code.locals
        .as_slice()
        .iter()
        .all(|run| run.kind.is_integer())
        && code.items.as_slice().iter().all(|item| has_integers(item))
}

/// Whether each has locals and types of blocks of this profile.
fn are_codes(bodies: &[Code]) -> bool
    ensures { IsTrue result ↔ All IsCode bodies.now }
{
    bodies.iter().all(|code| is_code(code))
}

/// Whether a block's type is of this profile.
fn has_integers(item: &Instr) -> bool
    ensures { IsTrue result ↔ HasIntegers item.now }
{
    match item {
        Instr::Block(kind) | Instr::Loop(kind) | Instr::If(kind) => kind.is_integer(),
        _ => true,
    }
}

/// Whether the minimum is at most the maximum.
fn is_limits(limits: Limits) -> bool
    ensures { IsTrue result ↔ IsLimits limits }
{
    match limits.max {
        Some(max) => limits.min <= max,
        None => true,
    }
}

/// Whether the limits are those of a memory.
fn is_memory(limits: Limits) -> bool
    ensures { IsTrue result ↔ IsMemory limits }
{
    match limits.max {
        Some(max) => limits.min <= max && max <= MOST_PAGES,
        None => limits.min <= MOST_PAGES,
    }
}

/// Whether the items are one constant of the type, or one of these globals that is immutable and of it.
fn is_initial(globals: &[GlobalType], kind: WasmType, items: &[Instr]) -> bool
    ensures { IsTrue result ↔ IsInitial globals.now kind items.now }
{
    match items {
        [Instr::I32Const(_)] => kind == WasmType::I32,
        [Instr::I64Const(_)] => kind == WasmType::I64,
        [Instr::GlobalGet(x)] => is_constant(globals, *x, kind),
        _ => false,
    }
}

/// Whether the global exists, is of the type and can't be set.
fn is_constant(globals: &[GlobalType], x: u32, kind: WasmType) -> bool
    ensures { IsTrue result ↔ (slice_get globals.now x ≡ Some (record { kind = kind; mutable = false })) }
{
    match globals.get(x as usize) {
        Some(global) => !global.mutable && global.kind == kind,
        None => false,
    }
}

/// Whether the segment's table and functions exist, and its offset is one.
#[tactic(auto, using(crate::proofs::ModuleRuleLemmas::initial_i32))]
fn is_element(scope: &Scope, segment: &ElementSegment) -> bool
    ensures { IsTrue result ↔ IsElementAt (length scope.now.tables.items) (length scope.now.functions.items) scope.now.globals.items segment.now }
{
    (segment.table as usize) < scope.tables.len()
        && is_initial(&scope.globals, WasmType::I32, segment.offset.as_slice())
        && are_below(segment.functions.as_slice(), scope.functions.len())
}

/// Whether the segment's memory exists, and its offset is one.
#[tactic(auto, using(crate::proofs::ModuleRuleLemmas::initial_i32))]
fn is_data(scope: &Scope, segment: &DataSegment) -> bool
    ensures { IsTrue result ↔ IsDataAt (length scope.now.memories.items) scope.now.globals.items segment.now }
{
    (segment.memory as usize) < scope.memories.len()
        && is_initial(&scope.globals, WasmType::I32, segment.offset.as_slice())
}
