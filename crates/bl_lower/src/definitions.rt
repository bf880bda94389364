//! The parts of a program that are copied from the linked tree.
ghost use Rattle.std.specs.Prelude.{◌≡◌, ◌+◌, ◌*◌, ◌<◌, ◌≤◌, ◌^◌, ◌++◌, [], map, drop, take, length, IfOk, OnOk};
ghost use Rattle.std.specs.List.{All, filter, range_with_len, zip};
ghost use Rattle.bl_lower.specs.Trees.{demanded_from, demanded_results, export_def as export_of, function_def as function_of, global_def as global_of, is_filled as filled_of, memory_def as memory_of, param_def as param_of, memory_row_at, rows_of};
ghost use Rattle.bl_emit.specs.Numbers.{function_size, function_variables};
ghost use Rattle.bl_program.specs.declared.definitions.Demand.TheVariants as demand;

use bl_base::{Label, List, NoMemory, Text, ValueType};
use bl_program::{Demand, ExportDef, FunctionDef, GlobalDef, MemRow, MemoryDef, ParamDef};
use bl_wasm::{Exports, Function, Memory, Tree};
use std::alloc::Global;

/// A global as a program has it.
fn global_def(global: &bl_wasm::Global) -> GlobalDef
    ensures { result ≡ global_of global.now }
{
    GlobalDef {
        kind: global.kind,
        label: global.label,
        first: global.initial,
    }
}

/// The globals as a program has them.
pub(crate) fn global_defs(
    alloc: Global,
    globals: &[bl_wasm::Global],
) -> Result<List<GlobalDef>, NoMemory>
    ensures { IfOk result (λ all. all ≡ map global_of globals.now) }
{
    let mut all = List::new(alloc);
    for global in globals {
        all.push(global_def(global))?;
    }
    Ok(all)
}

/// The parameters of a function of these types, with their labels.
pub(crate) fn param_defs(
    alloc: Global,
    kinds: &[ValueType],
    labels: &[Label],
) -> Result<List<ParamDef>, NoMemory>
    ensures { IfOk result (λ all. all ≡ map param_of (zip kinds.now labels.now)) }
{
    let mut all = List::new(alloc);
    for (kind, label) in kinds.iter().zip(labels) {
        all.push(ParamDef {
            kind: *kind,
            label: *label,
        })?;
    }
    Ok(all)
}

/// The types of values, copied.
fn value_types(alloc: Global, kinds: &[ValueType]) -> Result<List<ValueType>, NoMemory>
    ensures { IfOk result (λ all. all ≡ kinds.now) }
{
    let mut all = List::new(alloc);
    for kind in kinds {
        all.push(*kind)?;
    }
    Ok(all)
}

/// A function of the tree as a program has it, by the numbers of its variables and of its commands.
pub(crate) fn function_def(
    alloc: Global,
    tree: &Tree,
    function: &Function,
    vars: u32,
    length: u32,
) -> Result<FunctionDef, NoMemory>
    requires vars { vars ≡ function_variables tree.now function.now }
    requires length { length ≡ function_size tree.now function.now }
    ensures { IfOk result (λ one. one ≡ function_of tree.now function.now) }
{
    let Some(signature) = tree.types.as_slice().get(function.type_index as usize) else {
        return Ok(FunctionDef {
            params: List::new(alloc),
            results: List::new(alloc),
            vars,
            length,
        });
    };
    let params = param_defs(
        alloc,
        signature.params.as_slice(),
        function.labels.as_slice(),
    )?;
    let results = value_types(alloc, signature.results.as_slice())?;
    Ok(FunctionDef {
        params,
        results,
        vars,
        length,
    })
}

/// The exports as a program has them; their names are moved.
pub(crate) fn export_defs(alloc: Global, exports: Exports) -> Result<List<ExportDef>, NoMemory>
    ensures { IfOk result (λ all. all ≡ map export_of exports) }
{
    let all = exports
        .into_pairs()
        .map(|(name, function)| ExportDef {
            name: Text::of(name),
            function,
        })
        .collect(alloc)?;
    Ok(List::of(all))
}

/// Whether one of the bytes isn't 0.
fn is_filled(bytes: &[u8]) -> bool
    ensures { result ≡ filled_of bytes.now }
{
    for byte in bytes {
        if *byte != 0 {
            return true;
        }
    }
    false
}

/// The row of that number of a memory's bytes.
fn row(bytes: &[u8], number: u32) -> MemRow
    requires { number * 16 + 16 ≤ length bytes.now }
    ensures { result ≡ memory_row_at bytes.now number }
{
    let Some(sixteen) = bytes[number as usize * 16..].first_chunk::<16>() else {
        unreachable!()
    };
    MemRow {
        number,
        bytes: *sixteen,
    }
}

/// The rows of a memory's bytes that aren't all zero, in order.
fn rows(alloc: Global, bytes: &[u8]) -> Result<List<MemRow>, NoMemory>
    requires { length bytes.now < 2 ^ 32 }
    ensures { IfOk result (λ all. all ≡ rows_of bytes.now) }
{
    let mut all = List::new(alloc);
    let count = (bytes.len() / 16) as u32;
    for number in 0..count {
        let row = row(bytes, number);
        if is_filled(&row.bytes) {
            all.push(row)?;
        }
    }
    Ok(all)
}

/// A memory as a program has it.
fn memory_def(alloc: Global, memory: &Memory) -> Result<MemoryDef, NoMemory>
    requires { length memory.now.bytes < 2 ^ 32 }
    ensures { IfOk result (λ one. one ≡ memory_of memory.now) }
{
    let rows = rows(alloc, memory.bytes.as_slice())?;
    Ok(MemoryDef {
        pages: memory.pages,
        reserve: memory.reserve,
        label: memory.label,
        rows,
    })
}

/// The memories as a program has them.
pub(crate) fn memory_defs(alloc: Global, memories: &[Memory]) -> Result<List<MemoryDef>, NoMemory>
    requires { All (λ memory. length memory.bytes < 2 ^ 32) memories.now }
    ensures { IfOk result (λ all. all ≡ map memory_of memories.now) }
{
    let mut all = List::new(alloc);
    for memory in memories {
        all.push(memory_def(alloc, memory)?)?;
    }
    Ok(all)
}

/// Appends a demand for each result of the function that is demanded. A refusal leaves what stood before, and some more.
fn push_results(to: &mut List<Demand>, function: u32, demanded: &[bool]) -> Result<(), NoMemory>
    requires { length demanded.now < 2 ^ 32 }
    ensures { OnOk result (to.new ≡ to.old ++ demanded_from (demand.Result function) 0 demanded.now) }
{
    for index in 0..demanded.len() as u32 {
        if demanded[index as usize] {
            to.push(Demand::Result { function, index })?;
        }
    }
    Ok(())
}

/// The results and the globals that are demanded.
pub(crate) fn demands(
    alloc: Global,
    functions: &[Function],
    globals: &[bl_wasm::Global],
) -> Result<List<Demand>, NoMemory>
    requires results { All (λ function. length function.demanded < 2 ^ 32) functions.now }
    requires functions { length functions.now < 2 ^ 32 }
    requires globals { length globals.now < 2 ^ 32 }
    ensures { IfOk result (λ all. all ≡ demanded_results 0 functions.now
        ++ demanded_from demand.Global 0 (map (λ global. global.demanded) globals.now)) }
{
    let mut all = List::new(alloc);
    for number in 0..functions.len() as u32 {
        push_results(
            &mut all,
            number,
            functions[number as usize].demanded.as_slice(),
        )?;
    }
    for number in 0..globals.len() as u32 {
        if globals[number as usize].demanded {
            all.push(Demand::Global(number))?;
        }
    }
    Ok(all)
}
