//! The machine before the first step.
ghost use Rattle.std.specs.Prelude.{◌≡◌, ℕ, ◌^◌, ◌<◌, ◌-◌, ◌*◌, ◌++◌, IfOk, OnOk, length, map, replicate};
ghost use Rattle.std.specs.List.{All};
ghost use Rattle.bl_base.specs.{Bytes.patched, Runs.memory_of, Fits.PatchFits};
ghost use Rattle.bl_program.specs.Outcomes.{IsStart, first_memories, first_memory, first_registers, opening, space_of};
ghost use Rattle.bl_seq.specs.{InitialMemories.LiesInside, RegisterTrees.filled, RegisterTrees.register_at, Layouts.IsLayout};
ghost use Rattle.bl_seq.specs.Machines.{shown};

use crate::chain::Chain;
use crate::layout::Layout;
use crate::registers::Registers;
use crate::state::Machine;
use bl_base::{List, NoMemory, Pages, Patch, Start};
use bl_bytes::{Bytes, Space};
use bl_program::{MemoryDef, ProgramParts, WellFormed};
use std::alloc::Global;

/// The memories before the first step: their first contents, with the patches of the start. Linear in the memories' pages and the
/// patches.
pub fn first_memories(
    alloc: Global,
    program: &WellFormed,
    start: &Start,
) -> Result<List<Pages>, NoMemory>
    requires { All (PatchFits (map (λ memory. memory.pages) program.now.memories)) start.now.patches }
    ensures { IfOk result (λ memories. map memory_of memories ≡ first_memories program.now start.now) }
{
    let contents = first_contents(alloc, program.program().parts(), start)?;
    pages_of(alloc, contents)
}

/// Contents as pages.
fn pages_of(alloc: Global, contents: Vec<Space>) -> Result<List<Pages>, NoMemory>
    ensures { IfOk result (λ pages. map memory_of pages ≡ contents.items) }
{
    let pages = contents
        .into_iter()
        .map(|memory| memory.into_pages())
        .collect(alloc)?;
    Ok(List::of(pages))
}

/// The machine at a function's entry with the arguments of the start.
pub fn begin(
    alloc: Global,
    layout: &Layout,
    function: u32,
    start: &Start,
) -> Result<Machine, NoMemory>
    requires layout { IsLayout layout.now }
    requires start { IsStart layout.now.parts.now function start.now }
    ensures { IfOk result (λ machine. shown machine ≡ opening layout.now.parts.now function start.now) }
{
    let entry = layout.frame(function).entry;
    let registers = first_registers(alloc, layout, function, start)?;
    let space = first_space(alloc, layout.parts, start)?;
    Ok(Machine {
        position: entry,
        chain: Chain::new(alloc),
        registers,
        space,
    })
}

/// The globals and the sizes at depth 0, the arguments at depth 1.
fn first_registers(
    alloc: Global,
    layout: &Layout,
    function: u32,
    start: &Start,
) -> Result<Registers, NoMemory>
    requires { IsLayout layout.now }
    ensures { IfOk result (λ registers. (d v : ℕ) → register_at registers d v ≡ first_registers layout.now.parts.now function start.now d v) }
{
    let first = layout.frame(function).first;
    let registers = statics_only(alloc, layout.parts)?;
    with_arguments(alloc, registers, first, start.args.as_slice())
}

/// The registers with the arguments at depth 1, from a variable on.
fn with_arguments(
    alloc: Global,
    mut registers: Registers,
    first: usize,
    arguments: &[u64],
) -> Result<Registers, NoMemory>
    requires { first < 2 ^ 31 }
    ensures { IfOk result (λ after. (d v : ℕ) → register_at after d v ≡ filled (λ d v. register_at registers d v) 1 first arguments.now d v) }
{
    registers.write_all(alloc, 1, first, arguments)?;
    Ok(registers)
}

/// The globals and the sizes at depth 0.
fn statics_only(alloc: Global, parts: &ProgramParts) -> Result<Registers, NoMemory>
    ensures { IfOk result (λ registers. (d v : ℕ) → register_at registers d v
        ≡ filled (λ d v. 0) 0 0 (map (λ global. global.first) parts.now.globals ++ map (λ memory. memory.pages) parts.now.memories) d v) }
{
    let numbers = first_statics(alloc, parts)?;
    let mut registers = Registers::new(alloc);
    registers.write_all(alloc, 0, 0, &numbers)?;
    Ok(registers)
}

/// The bytes of all memories.
fn first_space(alloc: Global, parts: &ProgramParts, start: &Start) -> Result<Bytes, NoMemory>
    requires { All (PatchFits (map (λ memory. memory.pages) parts.now.memories)) start.now.patches }
    ensures { IfOk result (λ space. space ≡ space_of parts.now.memories (first_memories parts.now start.now)) }
{
    let memories = first_contents(alloc, parts, start)?;
    space_of(alloc, parts.memories.as_slice(), &memories)
}

/// The initial values of the globals and the first sizes.
fn first_statics(alloc: Global, parts: &ProgramParts) -> Result<Vec<u64>, NoMemory>
    ensures { IfOk result (λ numbers. numbers.items ≡ map (λ global. global.first) parts.now.globals ++ map (λ memory. memory.pages) parts.now.memories) }
{
    let mut numbers = Vec::new(alloc);
    for global in parts.globals.as_slice() {
        numbers.push(global.first)?;
    }
    for memory in parts.memories.as_slice() {
        numbers.push(u64::from(memory.pages))?;
    }
    Ok(numbers)
}

/// The first contents of the memories, with the patches of the start.
fn first_contents(
    alloc: Global,
    parts: &ProgramParts,
    start: &Start,
) -> Result<Vec<Space>, NoMemory>
    requires { All (PatchFits (map (λ memory. memory.pages) parts.now.memories)) start.now.patches }
    ensures is { IfOk result (λ memories. memories.items ≡ first_memories parts.now start.now) }
    ensures count { IfOk result (λ memories. length parts.now.memories ≡ length memories.items) }
{
    let mut memories = before_patches(alloc, parts.memories.as_slice())?;
    for patch in start.patches.as_slice() {
        patch_memory(&mut memories, patch);
    }
    Ok(memories)
}

/// The contents of the memories before the patches.
fn before_patches(alloc: Global, memories: &[MemoryDef]) -> Result<Vec<Space>, NoMemory>
    ensures { IfOk result (λ contents. contents.items ≡ map first_memory memories.now) }
{
    let mut contents = Vec::new(alloc);
    for memory in memories {
        contents.push(first_memory(alloc, memory)?)?;
    }
    Ok(contents)
}

/// A memory before the patches.
fn first_memory(alloc: Global, memory: &MemoryDef) -> Result<Space, NoMemory>
    ensures { IfOk result (λ contents. contents ≡ first_memory memory.now) }
{
    let mut space = Bytes::new(alloc);
    space.push_zeros(memory.pages as usize * 65_536)?;
    for row in memory.rows.as_slice() {
        space.overlay(row.number as usize * 16, &row.bytes);
    }
    Ok(Space::of(memory.pages, space))
}

/// Writes a patch over the memory that it names.
fn patch_memory(memories: &mut Vec<Space>, patch: &Patch)
    requires { LiesInside patch.now memories.old.items }
    ensures { memories.new.items ≡ patched memories.old.items patch.now }
{
    let number = patch.memory as usize;
    if number < memories.len() {
        memories[number].overlay(patch.offset as usize, patch.bytes.as_slice());
    }
}

/// The memories one after another, each with room for its reserve.
fn space_of(alloc: Global, memories: &[MemoryDef], contents: &[Space]) -> Result<Bytes, NoMemory>
    requires { length memories.now ≡ length contents.now }
    ensures { IfOk result (λ space. space ≡ space_of memories.now contents.now) }
{
    let mut space = Bytes::new(alloc);
    for i in 0..memories.len() {
        push_padded(&mut space, memories[i].reserve, &contents[i])?;
    }
    Ok(space)
}

/// Appends a memory's bytes, and zeros up to so many pages.
fn push_padded(space: &mut Bytes, reserve: u32, contents: &Space) -> Result<(), NoMemory>
    ensures { OnOk result (space.new ≡ space.old ++ (contents.now.bytes ++ replicate (reserve * 65536 - length contents.now.bytes) 0)) }
{
    let room = reserve as usize * 65_536;
    space.push_all(contents.as_slice())?;
    space.push_zeros(room.saturating_sub(contents.len()))?;
    Ok(())
}
