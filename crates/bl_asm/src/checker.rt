//! The check whether a program can be assembled, and its bytes if it can.
ghost use Rattle.std.specs.Prelude.{◌≡◌, ◌↔◌, ◌^◌, ◌<◌, ◌≤◌, IfNone, IfOk, IfSome, IsTrue};
ghost use Rattle.bl_asm.specs.Assembly.{AreInstructions, IsAimed, IsCode, assembled};
ghost use Rattle.bl_x64.specs.Programs.{IsAddress, IsInstruction, IsPlace};

use crate::assembler::{assemble, places_of};
use bl_base::NoMemory;
use bl_x64::{Address, Instruction, Place, Register};
use std::alloc::Global;

/// Whether an address has an encoding.
fn is_address(a: Address) -> bool
    ensures { IsTrue result ↔ IsAddress a }
{
    match a.index {
        None => true,
        Some(r) => r != Register::Rsp,
    }
}

/// Whether a place has an encoding.
fn is_place(place: Place) -> bool
    ensures { IsTrue result ↔ IsPlace place }
{
    match place {
        Place::Register(_) => true,
        Place::Memory(a) => is_address(a),
    }
}

/// Whether an instruction has an encoding.
fn is_instruction(instruction: Instruction) -> bool
    ensures { IsTrue result ↔ IsInstruction instruction }
{
    match instruction {
        Instruction::Mov { from, .. }
        | Instruction::Extend { from, .. }
        | Instruction::Alu { from, .. }
        | Instruction::Imul { from, .. }
        | Instruction::Count { from, .. }
        | Instruction::MoveIf { from, .. } => is_place(from),
        Instruction::Store { to, .. } => is_address(to),
        _ => true,
    }
}

/// Whether an instruction, if it is a jump or a call, goes to an instruction of the program or to its end.
fn is_aimed(code: &[Instruction], instruction: Instruction) -> bool
    ensures { IsTrue result ↔ IsAimed code.now instruction }
{
    match instruction {
        Instruction::Jump { to } | Instruction::JumpIf { to, .. } | Instruction::Call { to } => {
            to as usize <= code.len()
        }
        _ => true,
    }
}

/// Whether each instruction has an encoding, and each jump and each call a target in the program.
fn are_instructions(code: &[Instruction]) -> bool
    ensures { IsTrue result ↔ AreInstructions code.now }
{
    for instruction in code {
        if !is_instruction(*instruction) || !is_aimed(code, *instruction) {
            return false;
        }
    }
    true
}

/// The bytes of a program; None exactly if the program cannot be assembled: an instruction has no encoding, a jump or a call has no target in the program, or
/// the program has 2^31 bytes or more.
pub fn assemble_checked(alloc: Global, code: &[Instruction]) -> Result<Option<Vec<u8>>, NoMemory>
    ensures bytes { IfOk result (λ answer. IfSome answer (λ bytes. IsCode code.now × (bytes.items ≡ assembled code.now))) }
    ensures refused { IfOk result (λ answer. IfNone answer (IsCode code.now → ⊥)) }
{
    if !are_instructions(code) {
        return Ok(None);
    }
    let places = places_of(alloc, code)?;
    if places[code.len()] >= 0x8000_0000 {
        return Ok(None);
    }
    let bytes = assemble(alloc, code)?;
    Ok(Some(bytes))
}
