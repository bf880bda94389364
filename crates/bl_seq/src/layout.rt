//! What is known of a program before a run.
ghost use Rattle.std.specs.Prelude.{◌≡◌, ◌≤◌, ◌+◌, ◌*◌, ◌^◌, ◌<◌, ◌∷◌, ◌++◌, IfOk, OnOk, length, replicate};
ghost use Rattle.bl_base.specs.Quantity.{limit_of};
ghost use Rattle.bl_base.specs.declared.quantity.Quantity.TheVariants as quantity;
ghost use Rattle.bl_program.specs.Layout.{base, entry_of, first_of, params_of, result as variable_of_result, results_of, running, statics, sum_before};
ghost use Rattle.bl_program.specs.{Rules.IsWellFormed, Programs.IsProgram, Steps.held};
ghost use Rattle.bl_seq.specs.Layouts.{IsLayout, ends_from, frame_of, frames_from, owners_from};

use bl_base::NoMemory;
use bl_program::{FIRST_ENTRY, FunctionDef, MemoryDef, ProgramParts};
use std::alloc::Global;

/// Where a function's commands and variables begin, and the numbers of its parameters and results.
#[derive(Clone, Copy, Debug)]
pub struct Frame {
    /// The position of its first command.
    pub entry: usize,
    /// Its first variable.
    pub first: usize,
    /// The number of its parameters.
    pub params: usize,
    /// The number of its results.
    pub results: usize,
}

/// What is known of a program before a run.
#[derive(Debug, Drop)]
pub struct Layout<'p> {
    /// The program.
    pub parts: &'p ProgramParts,
    /// How many variables are no function's.
    pub statics: usize,
    /// The functions by their numbers, and behind them one that has nothing.
    pub frames: Vec<Frame>,
    /// The number of the function that holds each position.
    pub owners: Vec<u32>,
    /// Where each memory begins, and behind them the end of all.
    pub bases: Vec<usize>,
}

impl<'p> Layout<'p> {
    /// The layout of a program. Linear in the program.
    pub fn of(alloc: Global, parts: &'p ProgramParts) -> Result<Layout<'p>, NoMemory>
        requires facts { IsProgram parts.now }
        requires rules { IsWellFormed parts.now }
        ensures { IfOk result (λ layout. (layout.parts.now ≡ parts.now) × IsLayout layout) }
    {
        let statics = parts.globals.len() + parts.memories.len();
        Ok(Layout {
            parts,
            statics,
            frames: frames_of(alloc, parts.functions.as_slice(), statics)?,
            owners: owners_of(alloc, parts.functions.as_slice())?,
            bases: bases_of(alloc, parts.memories.as_slice())?,
        })
    }

    /// The function of that number.
    pub fn frame(&self, function: u32) -> Frame
        requires { IsLayout self.now }
        ensures is { result ≡ frame_of self.now.parts.now function }
        ensures small { (result.first < 2 ^ 31) × (result.params + result.results < 2 ^ 31) }
    {
        let last = self.frames.len() - 1;
        self.frames[last.min(function as usize)]
    }

    /// The function that holds a position; the number of all functions behind the last command.
    pub fn running(&self, position: usize) -> u32
        requires { IsLayout self.now }
        ensures { result ≡ running self.now.parts.now position }
    {
        if position < self.owners.len() {
            self.owners[position]
        } else {
            self.parts.functions.len() as u32
        }
    }

    /// The result of that index of the function that holds a position.
    pub fn result(&self, position: usize, index: u32) -> usize
        requires { IsLayout self.now }
        ensures { result ≡ variable_of_result self.now.parts.now (running self.now.parts.now position) index }
    {
        let frame = self.frame(self.running(position));
        frame.first + frame.params + index as usize
    }

    /// Where the memory of that number begins.
    pub fn base(&self, memory: u32) -> usize
        requires { IsLayout self.now }
        ensures place { result ≡ base self.now.parts.now memory }
        ensures small { result ≤ limit_of quantity.Reserve * 65536 }
    {
        let last = self.bases.len() - 1;
        self.bases[last.min(memory as usize)]
    }

    /// The depth at which a frame of that depth finds a variable.
    pub fn held(&self, depth: usize, x: usize) -> usize
        requires { IsLayout self.now }
        ensures { result ≡ held self.now.parts.now depth x }
    {
        if x < self.statics { 0 } else { depth }
    }
}

/// The functions.
fn frames_of(
    alloc: Global,
    functions: &[FunctionDef],
    statics: usize,
) -> Result<Vec<Frame>, NoMemory>
    requires functions { length functions.now ≤ limit_of quantity.Modules * limit_of quantity.Functions }
    requires statics { statics < 2 ^ 31 }
    ensures { IfOk result (λ frames. frames.items ≡ frames_from 7 statics functions.now) }
{
    let mut frames = Vec::new(alloc);
    let mut entry = FIRST_ENTRY as usize;
    let mut first = statics;
    for function in functions {
        frames.push(Frame {
            entry,
            first,
            params: function.params.len(),
            results: function.results.len(),
        })?;
        entry += function.length as usize;
        first += function.vars as usize;
    }
    frames.push(Frame {
        entry,
        first,
        params: 0,
        results: 0,
    })?;
    Ok(frames)
}

/// The function that holds each position; the traps are the first one's.
fn owners_of(alloc: Global, functions: &[FunctionDef]) -> Result<Vec<u32>, NoMemory>
    requires { length functions.now ≤ limit_of quantity.Modules * limit_of quantity.Functions }
    ensures { IfOk result (λ owners. owners.items ≡ replicate 7 0 ++ owners_from 0 functions.now) }
{
    let mut owners = Vec::new(alloc);
    push_owner(&mut owners, 0, FIRST_ENTRY)?;
    for (number, function) in functions.iter().enumerate() {
        push_owner(&mut owners, number as u32, function.length)?;
    }
    Ok(owners)
}

/// Appends a function's number for so many positions.
fn push_owner(owners: &mut Vec<u32>, number: u32, count: u32) -> Result<(), NoMemory>
    ensures { OnOk result (owners.new.items ≡ owners.old.items ++ replicate count number) }
{
    for _ in 0..count {
        owners.push(number)?;
    }
    Ok(())
}

/// Where each memory begins.
fn bases_of(alloc: Global, memories: &[MemoryDef]) -> Result<Vec<usize>, NoMemory>
    requires { sum_before (λ memory. memory.reserve) memories.now (length memories.now) ≤ limit_of quantity.Reserve }
    ensures { IfOk result (λ bases. bases.items ≡ 0 ∷ ends_from 0 memories.now) }
{
    let mut bases = Vec::new(alloc);
    let mut base = 0;
    bases.push(base)?;
    for memory in memories {
        base += memory.reserve as usize * 65_536;
        bases.push(base)?;
    }
    Ok(bases)
}
