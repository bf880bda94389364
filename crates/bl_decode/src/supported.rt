//! Whether a tree is supported: no floats, and no start function.
ghost use Rattle.std.specs.Prelude.{◌↔◌, All, IsFalse, IsTrue};
ghost use Rattle.bl_wasm.specs.Validity.{IsInteger};
ghost use Rattle.bl_decode.specs.Supported.{IsIntegerCode, IsIntegerFunction, IsIntegerImport, IsIntegerInstr, IsSupported};

use bl_wasm::{
    Code, DataSegment, DefinedGlobal, ElementSegment, FuncType, Import, ImportKind, Instr,
    LocalRun, Module, WasmType,
};

/// Whether the types are all types of integers.
fn are_integers(kinds: &[WasmType]) -> bool
    ensures { IsTrue result ↔ All IsInteger kinds.now }
{
    kinds.iter().all(|kind| kind.is_integer())
}

/// Whether the type of a function has integers alone.
#[tactic(auto, unfolding(crate::specs::Supported::IsIntegerFunction))]
fn is_integer_function(kind: &FuncType) -> bool
    ensures { IsTrue result ↔ IsIntegerFunction kind.now }
{
    are_integers(kind.params.as_slice()) && are_integers(kind.results.as_slice())
}

/// Whether the types of functions have integers alone.
fn are_integer_functions(kinds: &[FuncType]) -> bool
    ensures { IsTrue result ↔ All IsIntegerFunction kinds.now }
{
    kinds.iter().all(|kind| is_integer_function(kind))
}

/// Whether the import is no global of floats.
fn is_integer_import(kind: ImportKind) -> bool
    ensures { IsTrue result ↔ IsIntegerImport kind }
{
    match kind {
        ImportKind::Global(kind) => kind.kind.is_integer(),
        _ => true,
    }
}

/// Whether the imports are no globals of floats.
fn are_integer_imports(imports: &[Import]) -> bool
    ensures { IsTrue result ↔ All (λ entry. IsIntegerImport entry.kind) imports.now }
{
    imports.iter().all(|entry| is_integer_import(entry.kind))
}

/// Whether the instruction is without floats.
fn is_integer_instr(item: &Instr) -> bool
    ensures { IsTrue result ↔ IsIntegerInstr item.now }
{
    match item {
        Instr::Block(kind) | Instr::Loop(kind) | Instr::If(kind) => kind.is_integer(),
        Instr::FloatAccess { .. } | Instr::F32Const(_) | Instr::F64Const(_) | Instr::Float(_) => {
            false
        }
        _ => true,
    }
}

/// Whether the instructions are all without floats.
fn are_integer_instrs(items: &[Instr]) -> bool
    ensures { IsTrue result ↔ All IsIntegerInstr items.now }
{
    items.iter().all(is_integer_instr)
}

/// Whether the locals are integers, those of empty runs too.
fn are_integer_locals(runs: &[LocalRun]) -> bool
    ensures { IsTrue result ↔ All (λ run. IsInteger run.kind) runs.now }
{
    runs.iter().all(|run| run.kind.is_integer())
}

/// Whether the code of a function is without floats.
#[tactic(auto, unfolding(crate::specs::Supported::IsIntegerCode))]
pub(crate) fn is_integer_code(code: &Code) -> bool
    ensures { IsTrue result ↔ IsIntegerCode code.now }
{
    are_integer_locals(code.locals.as_slice()) && are_integer_instrs(code.items.as_slice())
}

/// Whether the globals are integers, with initial values of integers.
fn are_integer_globals(globals: &[DefinedGlobal]) -> bool
    ensures { IsTrue result ↔ All (λ global. IsInteger global.kind.kind × All IsIntegerInstr global.initial) globals.now }
{
    globals.iter().all(|global| {
        global.kind.kind.is_integer() && are_integer_instrs(global.initial.as_slice())
    })
}

/// Whether the offsets of element segments are without floats.
fn are_integer_elements(segments: &[ElementSegment]) -> bool
    ensures { IsTrue result ↔ All (λ segment. All IsIntegerInstr segment.offset) segments.now }
{
    segments
        .iter()
        .all(|segment| are_integer_instrs(segment.offset.as_slice()))
}

/// Whether the offsets of data segments are without floats.
fn are_integer_segments(segments: &[DataSegment]) -> bool
    ensures { IsTrue result ↔ All (λ segment. All IsIntegerInstr segment.offset) segments.now }
{
    segments
        .iter()
        .all(|segment| are_integer_instrs(segment.offset.as_slice()))
}

/// Whether the module is supported but for the code of its functions.
pub(crate) fn is_supported_outside(tree: &Module) -> bool
    ensures yes { IsTrue result → All IsIntegerCode tree.now.bodies → IsSupported tree.now }
    ensures no { IsFalse result → ¬ IsSupported tree.now }
{
    if tree.start.is_some() {
        return false;
    }
    if !are_integer_functions(tree.types.as_slice()) {
        return false;
    }
    if !are_integer_imports(tree.imports.as_slice()) {
        return false;
    }
    if !are_integer_globals(tree.globals.as_slice()) {
        return false;
    }
    if !are_integer_elements(tree.elements.as_slice()) {
        return false;
    }
    are_integer_segments(tree.segments.as_slice())
}
