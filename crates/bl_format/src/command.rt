//! Writers of commands.
ghost use Rattle.std.specs.Prelude.{◌≡◌, ◌≤◌, [], ◌∷◌, take, OnOk};
ghost use Rattle.bl_format.specs.Grammar.{each};
ghost use Rattle.bl_format.specs.Image.{command, command_code, fields, operand};
ghost use Rattle.bl_format.specs.WriterAnswers.{Adds, CommandFits, HasLength};

use crate::write::{Write, length_of_u32, write_byte};
use bl_base::NoMemory;
use bl_program::{Command, Operand, arity};

/// Appends the operands of a Set: as many as its operator takes.
fn write_operands(
    count: u8,
    a: Operand,
    b: Operand,
    c: Operand,
    to: &mut Vec<u8>,
) -> Result<(), NoMemory>
    requires some { 1 ≤ count }
    requires most { count ≤ 3 }
    ensures { OnOk result (Adds (each operand (take count (a ∷ b ∷ c ∷ []))) to.old.items to.new.items) }
{
    match count {
        1 => a.write(to),
        2 => (a, b).write(to),
        _ => (a, (b, c)).write(to),
    }
}

/// Appends the fields of a command.
fn write_fields(one: Command, to: &mut Vec<u8>) -> Result<(), NoMemory>
    requires { CommandFits one }
    ensures { OnOk result (Adds (fields one) to.old.items to.new.items) }
{
    match one {
        Command::Set {
            mark,
            op,
            to: variable,
            a,
            b,
            c,
        } => {
            (mark, (op, variable)).write(to)?;
            write_operands(arity(op), a, b, c, to)
        }
        Command::Load {
            mark,
            kind,
            memory,
            to: variable,
            offset,
            address,
        } => (mark, (kind, (memory, (variable, (offset, address))))).write(to),
        Command::Store {
            kind,
            memory,
            offset,
            address,
            value,
        } => (kind, (memory, (offset, (address, value)))).write(to),
        Command::Test { cond, yes, no } => (cond, (yes, no)).write(to),
        Command::Jump { to: position } => position.write(to),
        Command::Arg {
            mark,
            function,
            index,
            value,
        } => (mark, (function, (index, value))).write(to),
        Command::Call { function } => function.write(to),
        Command::Out { mark, index, value } => (mark, (index, value)).write(to),
        Command::Ret => Ok(()),
        Command::Trap { kind } => kind.write(to),
    }
}

/// How many bytes the operands of a Set have: as many operands as its operator takes.
fn length_of_operands(count: u8, a: Operand, b: Operand, c: Operand) -> u64
    requires some { 1 ≤ count }
    requires most { count ≤ 3 }
    ensures { HasLength (each operand (take count (a ∷ b ∷ c ∷ []))) result }
{
    match count {
        1 => a.spelled_length(),
        2 => (a, b).spelled_length(),
        _ => (a, (b, c)).spelled_length(),
    }
}

/// How many bytes the fields of a command have.
fn length_of_fields(one: Command) -> u64
    requires { CommandFits one }
    ensures { HasLength (fields one) result }
{
    match one {
        Command::Set {
            mark,
            op,
            to: variable,
            a,
            b,
            c,
        } => {
            let front = (mark, (op, variable)).spelled_length();
            front.saturating_add(length_of_operands(arity(op), a, b, c))
        }
        Command::Load {
            mark,
            kind,
            memory,
            to: variable,
            offset,
            address,
        } => (mark, (kind, (memory, (variable, (offset, address))))).spelled_length(),
        Command::Store {
            kind,
            memory,
            offset,
            address,
            value,
        } => (kind, (memory, (offset, (address, value)))).spelled_length(),
        Command::Test { cond, yes, no } => (cond, (yes, no)).spelled_length(),
        Command::Jump { to: position } => length_of_u32(position.0),
        Command::Arg {
            mark,
            function,
            index,
            value,
        } => (mark, (function, (index, value))).spelled_length(),
        Command::Call { function } => length_of_u32(function),
        Command::Out { mark, index, value } => (mark, (index, value)).spelled_length(),
        Command::Ret => 0,
        Command::Trap { kind } => kind.spelled_length(),
    }
}

/// The code of a command.
fn code_of(one: Command) -> u8
    ensures { result ≡ command_code one }
{
    match one {
        Command::Set { .. } => 0x00,
        Command::Load { .. } => 0x01,
        Command::Store { .. } => 0x02,
        Command::Test { .. } => 0x03,
        Command::Jump { .. } => 0x04,
        Command::Arg { .. } => 0x05,
        Command::Call { .. } => 0x06,
        Command::Out { .. } => 0x07,
        Command::Ret => 0x08,
        Command::Trap { .. } => 0x09,
    }
}

impl Write for Command {
    ghost written = { command };

    ghost fits = { CommandFits };

    fn write(&self, to: &mut Vec<u8>) -> Result<(), NoMemory> {
        write_byte(code_of(*self), to)?;
        write_fields(*self, to)?;
        Ok(())
    }

    fn spelled_length(&self) -> u64 {
        length_of_fields(*self).saturating_add(1)
    }
}
