//! Readers of commands.
ghost use Rattle.std.specs.Prelude.{◌≤◌, length};
ghost use Rattle.bl_format.specs.Image.{command};
ghost use Rattle.bl_image.specs.ReaderAnswers.{Finds, fields_behind, operands_of};

use crate::error::Malformed;
use crate::read::{Find, read_byte, read_u32};
use bl_base::{Pos, Trap, Var};
use bl_ops::{AccessKind, Op};
use bl_program::{Command, Mark, Operand, arity};

/// What stands for an operand that an operator doesn't take.
const ZERO: Operand = Operand::Const(0);

/// Reads so many operands; the others are 0. Malformed for another count than 1 to 3.
fn read_operands(
    count: u8,
    bytes: &[u8],
    at: usize,
) -> Result<((Operand, (Operand, Operand)), usize), Malformed>
    requires place { at ≤ length bytes.now }
    requires some { 1 ≤ count }
    requires most { count ≤ 3 }
    ensures { Finds (operands_of count) bytes.now at result }
{
    match count {
        1 => {
            let (a, place) = Operand::find(bytes, at)?;
            Ok(((a, (ZERO, ZERO)), place))
        }
        2 => {
            let ((a, b), place) = <(Operand, Operand)>::find(bytes, at)?;
            Ok(((a, (b, ZERO)), place))
        }
        _ => <(Operand, (Operand, Operand))>::find(bytes, at),
    }
}

fn read_set(bytes: &[u8], at: usize) -> Result<(Command, usize), Malformed>
    requires { at ≤ length bytes.now }
    ensures { Finds (fields_behind 0) bytes.now at result }
{
    let ((mark, (op, to)), place) = <(Mark, (Op, Var))>::find(bytes, at)?;
    let ((a, (b, c)), end) = read_operands(arity(op), bytes, place)?;
    let one = Command::Set {
        mark,
        op,
        to,
        a,
        b,
        c,
    };
    Ok((one, end))
}

fn read_load(bytes: &[u8], at: usize) -> Result<(Command, usize), Malformed>
    requires { at ≤ length bytes.now }
    ensures { Finds (fields_behind 1) bytes.now at result }
{
    let ((mark, (kind, (memory, (to, (offset, address))))), place) = <(
        Mark,
        (AccessKind, (u32, (Var, (u32, Operand)))),
    )>::find(bytes, at)?;
    if !kind.is_load() {
        return Err(Malformed);
    }
    let one = Command::Load {
        mark,
        kind,
        memory,
        to,
        offset,
        address,
    };
    Ok((one, place))
}

fn read_store(bytes: &[u8], at: usize) -> Result<(Command, usize), Malformed>
    requires { at ≤ length bytes.now }
    ensures { Finds (fields_behind 2) bytes.now at result }
{
    let ((kind, (memory, (offset, (address, value)))), place) = <(
        AccessKind,
        (u32, (u32, (Operand, Operand))),
    )>::find(bytes, at)?;
    if kind.is_load() {
        return Err(Malformed);
    }
    let one = Command::Store {
        kind,
        memory,
        offset,
        address,
        value,
    };
    Ok((one, place))
}

fn read_test(bytes: &[u8], at: usize) -> Result<(Command, usize), Malformed>
    requires { at ≤ length bytes.now }
    ensures { Finds (fields_behind 3) bytes.now at result }
{
    let ((cond, (yes, no)), place) = <(Operand, (Pos, Pos))>::find(bytes, at)?;
    Ok((Command::Test { cond, yes, no }, place))
}

fn read_jump(bytes: &[u8], at: usize) -> Result<(Command, usize), Malformed>
    requires { at ≤ length bytes.now }
    ensures { Finds (fields_behind 4) bytes.now at result }
{
    let (to, place) = Pos::find(bytes, at)?;
    Ok((Command::Jump { to }, place))
}

fn read_arg(bytes: &[u8], at: usize) -> Result<(Command, usize), Malformed>
    requires { at ≤ length bytes.now }
    ensures { Finds (fields_behind 5) bytes.now at result }
{
    let ((mark, (function, (index, value))), place) = <(Mark, (u32, (u32, Operand)))>::find(
        bytes, at,
    )?;
    let one = Command::Arg {
        mark,
        function,
        index,
        value,
    };
    Ok((one, place))
}

fn read_call(bytes: &[u8], at: usize) -> Result<(Command, usize), Malformed>
    requires { at ≤ length bytes.now }
    ensures { Finds (fields_behind 6) bytes.now at result }
{
    let (function, place) = read_u32(bytes, at)?;
    Ok((Command::Call { function }, place))
}

fn read_out(bytes: &[u8], at: usize) -> Result<(Command, usize), Malformed>
    requires { at ≤ length bytes.now }
    ensures { Finds (fields_behind 7) bytes.now at result }
{
    let ((mark, (index, value)), place) = <(Mark, (u32, Operand))>::find(bytes, at)?;
    Ok((Command::Out { mark, index, value }, place))
}

fn read_trap(bytes: &[u8], at: usize) -> Result<(Command, usize), Malformed>
    requires { at ≤ length bytes.now }
    ensures { Finds (fields_behind 9) bytes.now at result }
{
    let (kind, place) = Trap::find(bytes, at)?;
    Ok((Command::Trap { kind }, place))
}

/// Reads the fields of a command of that code.
fn read_fields(code: u8, bytes: &[u8], at: usize) -> Result<(Command, usize), Malformed>
    requires { at ≤ length bytes.now }
    ensures { Finds (fields_behind code) bytes.now at result }
{
    match code {
        0x00 => read_set(bytes, at),
        0x01 => read_load(bytes, at),
        0x02 => read_store(bytes, at),
        0x03 => read_test(bytes, at),
        0x04 => read_jump(bytes, at),
        0x05 => read_arg(bytes, at),
        0x06 => read_call(bytes, at),
        0x07 => read_out(bytes, at),
        0x08 => Ok((Command::Ret, at)),
        0x09 => read_trap(bytes, at),
        _ => Err(Malformed),
    }
}

impl Find for Command {
    ghost spells = { command };

    fn find(bytes: &[u8], at: usize) -> Result<(Command, usize), Malformed> {
        let (code, place) = read_byte(bytes, at)?;
        read_fields(code, bytes, place)
    }
}
