//! Starts that fit a program's function.
ghost use Rattle.std.specs.Prelude.{◌≡◌, IfOk, IsTrue, map};
ghost use Rattle.bl_program.specs.Outcomes.{IsStart};

use bl_base::{NoMemory, Start, ValueType, fits};
use bl_program::{MemoryDef, ParamDef, WellFormed};
use std::alloc::Global;

/// The types of parameters.
fn kinds_of(alloc: Global, params: &[ParamDef]) -> Result<Vec<ValueType>, NoMemory>
    ensures { IfOk result (λ kinds. kinds.items ≡ map (λ param. param.kind) params.now) }
{
    let mut kinds = Vec::new(alloc);
    for param in params {
        kinds.push(param.kind)?;
    }
    Ok(kinds)
}

/// The first pages of memories.
fn pages_of(alloc: Global, memories: &[MemoryDef]) -> Result<Vec<u32>, NoMemory>
    ensures { IfOk result (λ pages. pages.items ≡ map (λ memory. memory.pages) memories.now) }
{
    let mut pages = Vec::new(alloc);
    for memory in memories {
        pages.push(memory.pages)?;
    }
    Ok(pages)
}

/// Whether a start fits the function of that number.
pub fn is_start(
    alloc: Global,
    program: &WellFormed,
    function: u32,
    start: &Start,
) -> Result<bool, NoMemory>
    ensures { IfOk result (λ yes. IsTrue yes → IsStart program.now function start.now) }
{
    let parts = program.program().parts();
    let Some(defined) = parts.functions.as_slice().get(function as usize) else {
        return Ok(false);
    };
    let kinds = kinds_of(alloc, defined.params.as_slice())?;
    let pages = pages_of(alloc, parts.memories.as_slice())?;
    Ok(fits(&kinds, &pages, start))
}
