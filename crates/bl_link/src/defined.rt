//! What a part defines beside its functions.
ghost use Rattle.std.specs.Prelude.{◌≡◌, ◌+◌, ◌<◌, ◌^◌, ◌++◌, length, map, min, option_map, slice_get, unwrap_or, IfOk};
ghost use Rattle.std.specs.List.{enumerate_from};
ghost use Rattle.bl_base.specs.Quantity.{limit_of};
ghost use Rattle.bl_base.specs.declared.quantity.Quantity.TheVariants as quantity;
ghost use Rattle.bl_link.specs.Links.{constant_value as constant_value_of, global as global_of, memory as memory_of, table as table_of};
ghost use Rattle.bl_link.specs.Signatures.{signature as signature_of};

use crate::bodies::secret_if;
use crate::rename::number;
use crate::signatures::{signature, value_type};
use crate::store::Spaces;
use bl_base::{List, NoMemory, Quantity, Text};
use bl_labels::Marks;
use bl_wasm::{DefinedGlobal, FuncType, Instr, Limits, Memory, Signature};
use std::alloc::Global;

/// The types behind those of the parts before.
pub(crate) fn with_types(
    alloc: Global,
    before: List<Signature>,
    defined: &[FuncType],
) -> Result<List<Signature>, NoMemory>
    ensures { IfOk result (λ all. all ≡ before ++ map signature_of defined.now) }
{
    let mut types = before;
    for kind in defined {
        types.push(signature(alloc, kind)?)?;
    }
    Ok(types)
}

/// The value of an initialiser or an offset: a constant, or the initial value of a global.
pub(crate) fn constant_value(globals: &[bl_wasm::Global], spaces: &Spaces, items: &[Instr]) -> u64
    ensures { result ≡ constant_value_of globals.now spaces.now items.now }
{
    match items {
        [Instr::I32Const(n)] => *n as u64,
        [Instr::I64Const(n)] => *n,
        [Instr::GlobalGet(index)] => {
            match globals.get(number(&spaces.globals, *index) as usize) {
                Some(global) => global.initial,
                None => 0,
            }
        }
        _ => 0,
    }
}

/// A global with its initial value, by its index in the part.
fn global(
    before: &[bl_wasm::Global],
    marks: &Marks,
    spaces: &Spaces,
    at: u32,
    defined: &DefinedGlobal,
) -> bl_wasm::Global
    ensures { result ≡ global_of before.now marks.now spaces.now (at, defined.now) }
{
    bl_wasm::Global {
        kind: value_type(defined.kind.kind),
        mutable: defined.kind.mutable,
        initial: constant_value(before, spaces, defined.initial.as_slice()),
        label: secret_if(marks.is_secret_global(at)),
        demanded: marks.is_demanded_global(at),
    }
}

/// The globals behind those of the parts before, whose initial values they may have.
pub(crate) fn with_globals(
    alloc: Global,
    before: List<bl_wasm::Global>,
    marks: &Marks,
    spaces: &Spaces,
    imported: u32,
    defined: &[DefinedGlobal],
) -> Result<List<bl_wasm::Global>, NoMemory>
    requires { imported + length defined.now < 2 ^ 32 }
    ensures { IfOk result (λ all. all ≡ before ++ map (global_of before marks.now spaces.now) (enumerate_from imported defined.now)) }
{
    let mut more = Vec::new(alloc);
    let mut at = imported;
    for one in defined {
        more.push(global(before.as_slice(), marks, spaces, at, one))?;
        at += 1;
    }
    let mut cells = before.into_vec();
    cells.append(&mut more)?;
    Ok(List::of(cells))
}

/// The most pages that a memory grows to: its maximum, or the limit where that is greater or absent.
fn reserve(max: Option<u32>) -> u32
    ensures { result ≡ min (limit_of quantity.Memory) (unwrap_or max (limit_of quantity.Memory)) }
{
    let most = Quantity::Memory.limit() as u32;
    match max {
        Some(max) if max < most => max,
        _ => most,
    }
}

/// A memory of zeros, by its index in the part.
fn memory(alloc: Global, marks: &Marks, at: u32, limits: Limits) -> Result<Memory, NoMemory>
    ensures { IfOk result (λ one. one ≡ memory_of marks.now (at, limits)) }
{
    let bytes = vec![in alloc; 0u8; limits.min as usize * 65_536]?;
    Ok(Memory {
        pages: limits.min,
        reserve: reserve(limits.max),
        label: secret_if(marks.is_secret_memory(at)),
        bytes: Text::of(bytes),
    })
}

/// The memories behind those of the parts before, the first one with that index in its part.
pub(crate) fn with_memories(
    alloc: Global,
    before: List<Memory>,
    marks: &Marks,
    imported: u32,
    defined: &[Limits],
) -> Result<List<Memory>, NoMemory>
    requires { imported + length defined.now < 2 ^ 32 }
    ensures { IfOk result (λ all. all ≡ before ++ map (memory_of marks.now) (enumerate_from imported defined.now)) }
{
    let mut memories = before;
    let mut at = imported;
    for limits in defined {
        memories.push(memory(alloc, marks, at, *limits)?)?;
        at += 1;
    }
    Ok(memories)
}

/// The tables behind those of the parts before; their slots are empty.
pub(crate) fn with_tables(
    alloc: Global,
    before: List<List<Option<u32>>>,
    defined: &[Limits],
) -> Result<List<List<Option<u32>>>, NoMemory>
    ensures { IfOk result (λ all. all ≡ before ++ map table_of defined.now) }
{
    let mut tables = before;
    for limits in defined {
        let slots = vec![in alloc; None; limits.min as usize]?;
        tables.push(List::of(slots))?;
    }
    Ok(tables)
}

/// Limits behind those of the parts before.
pub(crate) fn with_limits(
    before: List<Limits>,
    defined: &[Limits],
) -> Result<List<Limits>, NoMemory>
    ensures { IfOk result (λ all. all ≡ before ++ defined.now) }
{
    let mut all = before;
    for limits in defined {
        all.push(*limits)?;
    }
    Ok(all)
}
