//! The rules on the whole program: its memories, functions, globals and exports, its demands and weights.
ghost use Rattle.std.specs.Prelude.{◌≡◌, ◌≤◌, ◌<◌, ◌*◌, ◌^◌, ◌↔◌, IfOk, IsTrue, MatchOption, length};
ghost use Rattle.std.specs.List.{All, AllPairs};
ghost use Rattle.bl_base.specs.{Fits.ArgumentFits, Quantity.limit_of};
ghost use Rattle.bl_base.specs.declared.quantity.Quantity.TheVariants as quantity;
ghost use Rattle.bl_program.specs.Layout.{first_of, sum_before};
ghost use Rattle.bl_program.specs.Rules.{IsDemand, IsFunction, IsMemory, IsRow, IsWeight, Precedes, Rule2, Rule3, Rule9};
ghost use Rattle.bl_program.specs.declared.definitions.Demand.TheVariants as demand_is;
ghost use Rattle.bl_cmd.specs.Verdicts.{AreDistinct, BreaksParts, KeepsParts};

use bl_base::{Label, NoMemory, Quantity, argument_fits};
use bl_program::{
    Demand, ExportDef, FunctionDef, GlobalDef, MemRow, MemoryDef, ProgramParts, SiteWeight,
    is_total_small, mark_at,
};
use std::alloc::Global;
use std::collections::BTreeSet;

/// The number of the first of rules 1 to 3 and 9 that the program breaks; None where it keeps them.
pub(crate) fn broken_part(alloc: Global, parts: &ProgramParts) -> Result<Option<u8>, NoMemory>
    ensures { IfOk result (λ rule. MatchOption rule (KeepsParts parts.now) (BreaksParts parts.now)) }
{
    if !keeps_memories(parts.memories.as_slice()) {
        return Ok(Some(1));
    }
    if !keeps_functions(parts) {
        return Ok(Some(2));
    }
    if !keeps_exports(alloc, parts)? {
        return Ok(Some(3));
    }
    if !keeps_demands(parts) {
        return Ok(Some(9));
    }
    Ok(None)
}

/// Whether each memory is one, and their reserves are small enough.
fn keeps_memories(memories: &[MemoryDef]) -> bool
    ensures { IsTrue result ↔ All IsMemory memories.now × (sum_before (λ memory. memory.reserve) memories.now (length memories.now) ≤ limit_of quantity.Reserve) }
{
    memories.iter().all(|memory| is_memory(memory)) && have_room(memories)
}

/// Whether all reserves together are small enough.
fn have_room(memories: &[MemoryDef]) -> bool
    ensures { IsTrue result ↔ (sum_before (λ memory. memory.reserve) memories.now (length memories.now) ≤ limit_of quantity.Reserve) }
{
    let most = Quantity::Reserve.limit() as u32;
    let mut total: u32 = 0;
    for memory in memories {
        if memory.reserve > most - total {
            return false;
        }
        total += memory.reserve;
    }
    true
}

/// Whether the memory's sizes and rows are ones.
fn is_memory(memory: &MemoryDef) -> bool
    ensures { IsTrue result ↔ IsMemory memory.now }
{
    memory.pages <= memory.reserve
        && u64::from(memory.reserve) <= Quantity::Memory.limit()
        && rows_rise(memory.rows.as_slice())
        && are_rows(memory.pages, memory.rows.as_slice())
}

/// Whether the numbers of the rows rise.
fn rows_rise(rows: &[MemRow]) -> bool
    ensures { IsTrue result ↔ AllPairs (λ row next. row.number < next.number) rows.now }
{
    for i in 1..rows.len() {
        if rows[i - 1].number >= rows[i].number {
            return false;
        }
    }
    true
}

/// Whether each is a row of so many pages.
fn are_rows(pages: u32, rows: &[MemRow]) -> bool
    ensures { IsTrue result ↔ All (IsRow pages) rows.now }
{
    rows.iter().all(|row| is_row(pages, row))
}

/// Whether the row isn't all zero, and lies in so many pages.
fn is_row(pages: u32, row: &MemRow) -> bool
    ensures { IsTrue result ↔ IsRow pages row.now }
{
    !is_zero(&row.bytes) && u64::from(row.number) * 16 + 16 <= u64::from(pages) * 65_536
}

/// Whether the bytes are all zero.
fn is_zero(bytes: &[u8]) -> bool
    ensures { IsTrue result ↔ All (λ byte. byte ≡ 0) bytes.now }
{
    bytes.iter().all(|byte| *byte == 0)
}

/// The most functions of a program: each of its modules has few enough.
fn most_functions() -> u64
    ensures { result ≡ limit_of quantity.Modules * limit_of quantity.Functions }
{
    Quantity::Modules.limit() * Quantity::Functions.limit()
}

/// Whether the functions, the variables, the commands and the globals' initial values are as they have to be.
fn keeps_functions(parts: &ProgramParts) -> bool
    ensures { IsTrue result ↔ Rule2 parts.now }
{
    parts.functions.len() as u64 <= most_functions()
        && are_functions(parts.functions.as_slice())
        && are_few(parts)
        && parts.commands.len() as u64 <= Quantity::Commands.limit()
        && are_values(parts.globals.as_slice())
}

/// Whether each function has a command, and variables for its parameters and results.
fn are_functions(functions: &[FunctionDef]) -> bool
    ensures { IsTrue result ↔ All IsFunction functions.now }
{
    functions.iter().all(|function| is_function(function))
}

/// Whether the function has a command, and variables for its parameters and results.
fn is_function(function: &FunctionDef) -> bool
    ensures { IsTrue result ↔ IsFunction function.now }
{
    let vars = function.vars as usize;
    let params = function.params.len();
    1 <= function.length && params <= vars && function.results.len() <= vars - params
}

/// Whether all variables are fewer than 2^31.
fn are_few(parts: &ProgramParts) -> bool
    ensures { IsTrue result ↔ (first_of parts.now (length parts.now.functions) < 2 ^ 31) }
{
    let limit = 0x7FFF_FFFF;
    let globals = parts.globals.len();
    let memories = parts.memories.len();
    if globals > limit || memories > limit - globals {
        return false;
    }
    have_few(
        parts.functions.as_slice(),
        (limit - globals - memories) as u32,
    )
}

/// Whether the functions' variables are at most so many.
fn have_few(functions: &[FunctionDef], most: u32) -> bool
    ensures { IsTrue result ↔ (sum_before (λ function. function.vars) functions.now (length functions.now) ≤ most) }
{
    let mut total: u32 = 0;
    for function in functions {
        if function.vars > most - total {
            return false;
        }
        total += function.vars;
    }
    true
}

/// Whether each initial value is one of its type.
fn are_values(globals: &[GlobalDef]) -> bool
    ensures { IsTrue result ↔ All (λ global. ArgumentFits global.kind global.first) globals.now }
{
    globals
        .iter()
        .all(|global| argument_fits(global.kind, global.first))
}

/// Whether no two exports have one name, and what they name exists.
fn keeps_exports(alloc: Global, parts: &ProgramParts) -> Result<bool, NoMemory>
    ensures { IfOk result (λ ok. IsTrue ok ↔ Rule3 parts.now) }
{
    let exports = parts.exports.as_slice();
    Ok(exist(exports, parts.functions.len()) && are_distinct(alloc, exports)?)
}

/// Whether each export's function is one of so many.
fn exist(exports: &[ExportDef], functions: usize) -> bool
    ensures { IsTrue result ↔ All (λ entry. entry.function < functions) exports.now }
{
    exports
        .iter()
        .all(|entry| (entry.function as usize) < functions)
}

/// Whether no two exports have one name.
fn are_distinct(alloc: Global, exports: &[ExportDef]) -> Result<bool, NoMemory>
    ensures { IfOk result (λ ok. IsTrue ok ↔ AreDistinct exports.now) }
{
    let mut names = BTreeSet::new(alloc);
    for entry in exports {
        if !names.insert(entry.name.as_slice())? {
            return Ok(false);
        }
    }
    Ok(true)
}

/// Whether the demands and the weights are as they have to be.
fn keeps_demands(parts: &ProgramParts) -> bool
    ensures { IsTrue result ↔ Rule9 parts.now }
{
    let weights = parts.weights.as_slice();
    if !weights_rise(weights) {
        return false;
    }
    demands_rise(parts.demands.as_slice())
        && are_demands(parts)
        && are_weights(parts)
        && is_total_small(parts)
}

/// Whether the demands rise, results before globals.
fn demands_rise(demands: &[Demand]) -> bool
    ensures { IsTrue result ↔ AllPairs Precedes demands.now }
{
    for i in 1..demands.len() {
        if !precedes(demands[i - 1], demands[i]) {
            return false;
        }
    }
    true
}

/// Whether the one demand stands before the other.
fn precedes(one: Demand, other: Demand) -> bool
    ensures { IsTrue result ↔ Precedes one other }
{
    match (one, other) {
        (
            Demand::Result { function, index },
            Demand::Result {
                function: next,
                index: after,
            },
        ) => function < next || function == next && index < after,
        (Demand::Result { .. }, Demand::Global(_)) => true,
        (Demand::Global(_), Demand::Result { .. }) => false,
        (Demand::Global(x), Demand::Global(y)) => x < y,
    }
}

/// Whether each demand is one.
fn are_demands(parts: &ProgramParts) -> bool
    ensures { IsTrue result ↔ All (IsDemand parts.now) parts.now.demands }
{
    parts
        .demands
        .as_slice()
        .iter()
        .all(|demand| is_demand(parts, *demand))
}

/// Whether the demand names a result that exists, or a global that exists and isn't declared secret.
fn is_demand(parts: &ProgramParts, demand: Demand) -> bool
    ensures { IsTrue result ↔ IsDemand parts.now demand }
{
    match demand {
        Demand::Result { function, index } => has_result(parts, function, index),
        Demand::Global(x) => is_public(parts, x),
    }
}

/// Whether there is a function of that number with a result of that index.
fn has_result(parts: &ProgramParts, function: u32, index: u32) -> bool
    ensures { IsTrue result ↔ IsDemand parts.now (demand_is.Result function index) }
{
    match parts.functions.as_slice().get(function as usize) {
        Some(defined) => (index as usize) < defined.results.len(),
        None => false,
    }
}

/// Whether there is a global of that number that isn't declared secret.
fn is_public(parts: &ProgramParts, x: u32) -> bool
    ensures { IsTrue result ↔ IsDemand parts.now (demand_is.Global x) }
{
    match parts.globals.as_slice().get(x as usize) {
        Some(global) => global.label == Label::Public,
        None => false,
    }
}

/// Whether the positions of the weights rise.
fn weights_rise(weights: &[SiteWeight]) -> bool
    ensures { IsTrue result ↔ AllPairs (λ entry next. entry.at.0 < next.at.0) weights.now }
{
    for i in 1..weights.len() {
        if weights[i - 1].at.0 >= weights[i].at.0 {
            return false;
        }
    }
    true
}

/// Whether each weight is one of a site, and at least 1.
fn are_weights(parts: &ProgramParts) -> bool
    ensures { IsTrue result ↔ All (IsWeight parts.now) parts.now.weights }
{
    parts
        .weights
        .as_slice()
        .iter()
        .all(|entry| is_weight(parts, *entry))
}

/// Whether the weight is one of a site, and at least 1.
fn is_weight(parts: &ProgramParts, entry: SiteWeight) -> bool
    ensures { IsTrue result ↔ IsWeight parts.now entry }
{
    mark_at(parts, entry.at.0 as usize).is_some() && 1 <= entry.weight
}
