//! Which import an external value can be given to (section 4.5.2).
ghost use Rattle.std.specs.{Prelude.◌≡◌, Prelude.slice_get, Cmp.Lexicographic.pointwise};
ghost use Rattle.bl_link.specs.ImportMatches.{matches as matches_of, passes, same as same_of, same_global as same_global_of, same_type as same_type_of, within as within_of};

use crate::store::{External, Store};
use bl_base::ValueType;
use bl_wasm::{ExportKind, FuncType, GlobalType, ImportKind, Limits, Module, Signature, WasmType};

/// Whether two types of values are one.
fn same(a: ValueType, b: WasmType) -> bool
    ensures { result ≡ same_of a b }
{
    matches!(
        (a, b),
        (ValueType::I32, WasmType::I32) | (ValueType::I64, WasmType::I64)
    )
}

/// Whether two lists of types are one.
fn same_all(a: &[ValueType], b: &[WasmType]) -> bool
    ensures { result ≡ pointwise same_of a.now b.now }
{
    if a.len() != b.len() {
        return false;
    }
    for i in 0..a.len() {
        if !same(a[i], b[i]) {
            return false;
        }
    }
    true
}

/// Whether two types of functions are one.
fn same_type(a: &Signature, b: &FuncType) -> bool
    ensures { result ≡ same_type_of a.now b.now }
{
    same_all(a.params.as_slice(), b.params.as_slice())
        && same_all(a.results.as_slice(), b.results.as_slice())
}

/// Whether a global has that type.
fn same_global(a: &bl_wasm::Global, b: GlobalType) -> bool
    ensures { result ≡ same_global_of a.now b }
{
    same(a.kind, b.kind) && a.mutable == b.mutable
}

/// Whether limits are within wanted ones.
fn within(these: Limits, wanted: Limits) -> bool
    ensures { result ≡ within_of these wanted }
{
    let max = match (these.max, wanted.max) {
        (_, None) => true,
        (None, Some(_)) => false,
        (Some(max), Some(most)) => max <= most,
    };
    wanted.min <= these.min && max
}

/// Whether an external value matches what an import of the module wants.
pub(crate) fn matches(store: &Store, wasm: &Module, wanted: ImportKind, value: External) -> bool
    ensures { result ≡ matches_of store.now wasm.now wanted value.kind value.number }
{
    match (wanted, value.kind) {
        (ImportKind::Function(index), ExportKind::Function) => {
            let Some(kind) = store.tree.type_of(value.number) else {
                return false;
            };
            match wasm.types.as_slice().get(index as usize) {
                Some(wanted) => same_type(kind, wanted),
                None => false,
            }
        }
        (ImportKind::Table(wanted), ExportKind::Table) => {
            match store.tables.as_slice().get(value.number as usize) {
                Some(limits) => within(*limits, wanted),
                None => false,
            }
        }
        (ImportKind::Memory(wanted), ExportKind::Memory) => {
            match store.memories.as_slice().get(value.number as usize) {
                Some(limits) => within(*limits, wanted),
                None => false,
            }
        }
        (ImportKind::Global(wanted), ExportKind::Global) => {
            match store.tree.globals.as_slice().get(value.number as usize) {
                Some(global) => same_global(global, wanted),
                None => false,
            }
        }
        _ => false,
    }
}
