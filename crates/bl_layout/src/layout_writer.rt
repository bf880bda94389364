//! The instructions of a whole program, in two passes: the first counts the instructions of each command, and the second writes them.
ghost use Rattle.std.specs.Prelude.{◌≡◌, ◌+◌, ◌≤◌, ◌↔◌, IfErr, IfOk, IsTrue, MatchOption, length, slice_index};
ghost use Rattle.bl_layout.specs.Blocks.{AreWritable, IsWritable, blocks_from};
ghost use Rattle.bl_layout.specs.Layouts.{AreStarts, IsFirstRefused, IsLaidOut};
ghost use Rattle.bl_seq.specs.Layouts.{IsLayout};

use crate::block_writer::{count_at, is_writable, push_at};
use bl_base::{NoMemory, Pos};
use bl_program::{Command, FIRST_ENTRY, WellFormed};
use bl_seq::Layout;
use bl_x64::Instruction;
use std::alloc::Global;

/// A program that is laid out.
#[derive(Debug, Drop)]
pub struct Code {
    /// The first instruction of each position, and the number of all instructions.
    pub starts: Vec<u32>,
    /// The instructions.
    pub instructions: Vec<Instruction>,
}

/// Whether a position is that of a trap, or its command can be written.
fn is_fine(layout: &Layout, position: usize, command: Command) -> bool
    requires { IsLayout layout.now }
    ensures { IsTrue result ↔ (7 ≤ position → IsWritable layout.now.parts.now position command) }
{
    position < FIRST_ENTRY as usize || is_writable(layout, position, command)
}

/// The first position of a function whose command cannot be written.
fn first_refused(layout: &Layout) -> Option<Pos>
    requires { IsLayout layout.now }
    ensures { MatchOption result (AreWritable layout.now.parts.now) (λ refused. IsFirstRefused layout.now.parts.now refused.0) }
{
    for (position, command) in layout.parts.commands.as_slice().iter().enumerate() {
        if !is_fine(layout, position, *command) {
            let at = position as u32;
            return Some(Pos(at));
        }
    }
    None
}

/// So many zeros.
fn zeros(alloc: Global, count: usize) -> Result<Vec<u32>, NoMemory>
    ensures { IfOk result (λ zeros. length zeros.items ≡ count) }
{
    let mut zeros = Vec::new(alloc);
    for done in 0..count {
        zeros.push(0)?;
    }
    Ok(zeros)
}

/// The first instruction of each position, and the number of all instructions.
fn starts_of(alloc: Global, layout: &Layout, targets: &[u32]) -> Result<Vec<u32>, NoMemory>
    requires layout { IsLayout layout.now }
    requires writable { AreWritable layout.now.parts.now }
    requires targets { length targets.now ≡ length layout.now.parts.now.commands + 1 }
    ensures { IfOk result (λ starts. AreStarts layout.now.parts.now (slice_index targets.now) starts.items) }
{
    let mut block: Vec<Instruction> = Vec::new(alloc);
    let mut starts: Vec<u32> = Vec::new(alloc);
    let mut start: u32 = 0;
    starts.push(0)?;
    for (position, command) in layout.parts.commands.as_slice().iter().enumerate() {
        let count = count_at(layout, targets, position, *command, &mut block)?;
        start += count;
        starts.push(start)?;
    }
    Ok(starts)
}

/// The instructions of all commands.
fn instructions_of(
    alloc: Global,
    layout: &Layout,
    targets: &[u32],
) -> Result<Vec<Instruction>, NoMemory>
    requires layout { IsLayout layout.now }
    requires writable { AreWritable layout.now.parts.now }
    requires targets { length targets.now ≡ length layout.now.parts.now.commands + 1 }
    ensures { IfOk result (λ code. code.items ≡ blocks_from layout.now.parts.now (slice_index targets.now) 0 layout.now.parts.now.commands) }
{
    let mut code: Vec<Instruction> = Vec::new(alloc);
    for (position, command) in layout.parts.commands.as_slice().iter().enumerate() {
        push_at(layout, targets, position, *command, &mut code)?;
    }
    Ok(code)
}

/// The code of a program all of whose commands can be written.
fn code_of(alloc: Global, layout: &Layout) -> Result<Code, NoMemory>
    requires layout { IsLayout layout.now }
    requires writable { AreWritable layout.now.parts.now }
    ensures { IfOk result (λ code. IsLaidOut layout.now.parts.now code.starts.items code.instructions.items) }
{
    let count = layout.parts.commands.len() + 1;
    let none = zeros(alloc, count)?;
    let no_targets = none.as_slice();
    let starts = starts_of(alloc, layout, no_targets)?;
    let targets = starts.as_slice();
    let instructions = instructions_of(alloc, layout, targets)?;
    Ok(Code {
        starts,
        instructions,
    })
}

/// The code of a program, with all variables in the frame and the context; the first position whose command cannot be written if there is one. Linear
/// in the program.
pub fn lay_out(alloc: Global, program: &WellFormed) -> Result<Result<Code, Pos>, NoMemory>
    ensures written { IfOk result (λ answer. IfOk answer (λ code. IsLaidOut program.now code.starts.items code.instructions.items)) }
    ensures refused { IfOk result (λ answer. IfErr answer (λ position. IsFirstRefused program.now position.0)) }
{
    let layout = Layout::of(alloc, program.program().parts())?;
    match first_refused(&layout) {
        Some(position) => Ok(Err(position)),
        None => {
            let code = code_of(alloc, &layout)?;
            Ok(Ok(code))
        }
    }
}
