//! The types of a module as types of the tree.
ghost use Rattle.std.specs.Prelude.{◌≡◌, map, IfOk};
ghost use Rattle.bl_link.specs.Signatures.{signature as signature_of, value_of};

use bl_base::{List, NoMemory, ValueType};
use bl_wasm::{FuncType, Signature, WasmType};
use std::alloc::Global;

/// A type of functions.
pub(crate) fn signature(alloc: Global, kind: &FuncType) -> Result<Signature, NoMemory>
    ensures { IfOk result (λ signature. signature ≡ signature_of kind.now) }
{
    let params = value_types(alloc, kind.params.as_slice())?;
    let results = value_types(alloc, kind.results.as_slice())?;
    Ok(Signature { params, results })
}

/// Types of values.
fn value_types(alloc: Global, kinds: &[WasmType]) -> Result<List<ValueType>, NoMemory>
    ensures { IfOk result (λ all. all ≡ map value_of kinds.now) }
{
    let mut values = List::new(alloc);
    for kind in kinds {
        values.push(value_type(*kind))?;
    }
    Ok(values)
}

/// A type of values; a float's is never asked for.
pub(crate) fn value_type(kind: WasmType) -> ValueType
    ensures { result ≡ value_of kind }
{
    match kind {
        WasmType::I32 | WasmType::F32 => ValueType::I32,
        WasmType::I64 | WasmType::F64 => ValueType::I64,
    }
}
