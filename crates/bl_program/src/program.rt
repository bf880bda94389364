//! Programs.
ghost use Rattle.std.specs.Prelude.{◌≡◌, ◌+◌, ◌<◌, ◌↔◌, ℕ, IfOk, IfErr, IsTrue, None, length};
ghost use Rattle.std.specs.List.{All};
ghost use Rattle.bl_program.specs.Layout.{sum_before};
ghost use Rattle.bl_program.specs.Programs.{ArePadded, IsCommand, IsProgram, IsTrapAt, IsZero, arity, arity_by};

use crate::command::{Command, Operand};
use crate::definitions::{FunctionDef, ProgramParts};
use bl_ops::{Op, row};
use std::marker::Model;

/// The first position of the commands of functions: those before it are the traps.
pub const FIRST_ENTRY: u32 = 7;

/// A program. Each load has the kind of a load and each store that of a store; operands past those that an operator takes
/// are 0; positions 0 to 6 are the traps of kinds 0 to 6; and the functions' lengths add up to the commands behind them
/// (`IsProgram`). Contracts see its parts.
#[derive(Debug, Drop)]
pub struct Program {
    parts: ProgramParts,
}

impl Model for Program {
    ghost use Rattle.bl_program.specs.declared.definitions.ProgramParts.{ProgramParts};

    ghost Value = { ProgramParts };

    ghost use Rattle.bl_program.specs.Programs.{IsProgram};

    ghost view = { λ program. program.parts };

    ghost invariant = { λ program. IsProgram program.parts };
}

impl Program {
    /// Parts that are those of a program, as one; takes no memory.
    pub(crate) fn from_parts(parts: ProgramParts) -> Program
        requires { IsProgram parts }
        ensures { result ≡ parts }
    {
        Program { parts }
    }

    /// The parts as a program; where they aren't those of one they come back unchanged. Linear in the commands and the
    /// functions; takes no memory.
    pub fn of(parts: ProgramParts) -> Result<Program, ProgramParts>
        ensures program { IfOk result (λ program. program ≡ parts) }
        ensures facts { IfOk result (λ program. IsProgram program) }
        ensures refused { IfErr result (λ refused. (refused ≡ parts) × (IsProgram parts → ⊥)) }
    {
        if is_program(&parts) {
            Ok(Program { parts })
        } else {
            Err(parts)
        }
    }

    /// The parts, and that they are a program's; takes no memory.
    pub fn parts(&self) -> &ProgramParts
        ensures same { result.now ≡ self.now }
        ensures facts { IsProgram self.now }
    {
        &self.parts
    }

    /// The parts, given back; takes no memory.
    pub fn into_parts(self) -> ProgramParts
        ensures same { result ≡ self }
        ensures facts { IsProgram result }
    {
        self.parts
    }
}

/// Whether the parts are those of a program.
fn is_program(parts: &ProgramParts) -> bool
    ensures { IsTrue result ↔ IsProgram parts.now }
{
    let commands = parts.commands.as_slice();
    if !are_commands(commands) {
        return false;
    }
    if !have_traps(commands) {
        return false;
    }
    fill(parts.functions.as_slice(), commands.len())
}

/// Whether each command's kind is one for it, and the operands of each Set are padded.
fn are_commands(commands: &[Command]) -> bool
    ensures { IsTrue result ↔ All IsCommand commands.now }
{
    commands.iter().all(|command| is_command(*command))
}

/// Whether the command's kind is one for it, and its operands are padded if it is a Set.
fn is_command(command: Command) -> bool
    ensures { IsTrue result ↔ IsCommand command }
{
    match command {
        Command::Set { op, b, c, .. } => is_padded(op, b, c),
        Command::Load {
            kind,
            offset: _offset,
            ..
        } => kind.is_load(),
        Command::Store {
            kind,
            offset: _offset,
            ..
        } => !kind.is_load(),
        _ => true,
    }
}

/// Whether the second and the third operand are 0 where the operator takes none.
fn is_padded(op: Op, b: Operand, c: Operand) -> bool
    ensures { IsTrue result ↔ ArePadded op b c }
{
    let count = arity(op);
    is_zero_from(count, 2, b) && is_zero_from(count, 3, c)
}

/// Whether the operand of that place is 0, or an operator of so many operands takes it.
fn is_zero_from(count: u8, place: u8, operand: Operand) -> bool
    ensures { IsTrue result ↔ (count < place → IsZero operand) }
{
    count >= place || operand == Operand::Const(0)
}

/// How many operands the operator takes: 1, 2 or 3.
pub fn arity(op: Op) -> u8
    ensures { result ≡ arity op }
{
    match row(op) {
        Some(row) => row.operands,
        None => unlisted_arity(op),
    }
}

/// How many operands an operator without a row takes.
fn unlisted_arity(op: Op) -> u8
    ensures { result ≡ arity_by op None }
{
    match op {
        Op::Move => 1,
        _ => 3,
    }
}

/// Whether positions 0 to 6 are the traps of kinds 0 to 6.
fn have_traps(commands: &[Command]) -> bool
    ensures { IsTrue result ↔ ((position : ℕ) → position < 7 → IsTrapAt commands.now position) }
{
    for position in 0..FIRST_ENTRY {
        if !is_trap_at(commands, position) {
            return false;
        }
    }
    true
}

/// Whether the command at the position is the trap of that kind.
fn is_trap_at(commands: &[Command], position: u32) -> bool
    requires { position < 7 }
    ensures { IsTrue result ↔ IsTrapAt commands.now position }
{
    match commands.get(position as usize) {
        Some(Command::Trap { kind }) => u32::from(kind.code()) == position,
        _ => false,
    }
}

/// Whether the traps and the functions' commands are so many together.
fn fill(functions: &[FunctionDef], count: usize) -> bool
    ensures { IsTrue result ↔ (count ≡ 7 + sum_before (λ function. function.length) functions.now (length functions.now)) }
{
    if count < FIRST_ENTRY as usize {
        return false;
    }
    let mut rest = count - FIRST_ENTRY as usize;
    for function in functions {
        if function.length as usize > rest {
            return false;
        }
        rest -= function.length as usize;
    }
    rest == 0
}
