//! The instructions of divisions: guards against the cases in which the processor faults, and the division itself. No instruction branches.
ghost use Rattle.std.specs.Prelude.{◌≡◌, ◌++◌, OnOk};
ghost use Rattle.bl_select.specs.Templates.{divide_by_rcx, division_of, guards, minus_guard, take_rest, zero_guard};

use crate::location::Source;
use crate::operands::{alu, choose, constant, load, push_two, test_zero};
use bl_base::NoMemory;
use bl_x64::{Alu, Instruction, Place, Register, Size};

/// If the divisor in `rcx` is 0, 0 is divided by 1 instead.
fn push_zero_guard(size: Size, code: &mut Vec<Instruction>) -> Result<(), NoMemory>
    ensures { OnOk result (code.new.items ≡ code.old.items ++ zero_guard size) }
{
    code.push(constant(Register::Rdx, 0))?;
    code.push(test_zero(size, Register::Rcx))?;
    code.push(choose(Register::Rax, Register::Rdx))?;
    code.push(constant(Register::Rdx, 1))?;
    code.push(choose(Register::Rcx, Register::Rdx))?;
    Ok(())
}

/// If the divisor is -1, the negated dividend is divided by 1 instead.
fn push_minus_guard(
    size: Size,
    a: Source,
    b: Source,
    code: &mut Vec<Instruction>,
) -> Result<(), NoMemory>
    ensures { OnOk result (code.new.items ≡ code.old.items ++ minus_guard size a b) }
{
    code.push(constant(Register::Rdx, 0))?;
    code.push(alu(Alu::Sub, size, Register::Rdx, Register::Rax))?;
    code.push(constant(Register::Rax, 1))?;
    code.push(alu(Alu::Add, size, Register::Rcx, Register::Rax))?;
    code.push(load(size, Register::Rax, a))?;
    code.push(choose(Register::Rax, Register::Rdx))?;
    code.push(load(size, Register::Rcx, b))?;
    code.push(constant(Register::Rdx, 1))?;
    code.push(choose(Register::Rcx, Register::Rdx))?;
    Ok(())
}

/// The guards of a division.
fn push_guards(
    signed: bool,
    size: Size,
    a: Source,
    b: Source,
    code: &mut Vec<Instruction>,
) -> Result<(), NoMemory>
    ensures { OnOk result (code.new.items ≡ code.old.items ++ guards signed size a b) }
{
    if signed {
        push_minus_guard(size, a, b, code)?;
        return push_zero_guard(size, code);
    }
    push_zero_guard(size, code)
}

/// Writes the upper half of the dividend to `rdx`, and divides by `rcx`.
fn push_division(signed: bool, size: Size, code: &mut Vec<Instruction>) -> Result<(), NoMemory>
    ensures { OnOk result (code.new.items ≡ code.old.items ++ divide_by_rcx signed size) }
{
    let by = Register::Rcx;
    if signed {
        code.push(Instruction::FillSign { size })?;
        code.push(Instruction::Divide { signed, size, by })?;
        return Ok(());
    }
    code.push(constant(Register::Rdx, 0))?;
    code.push(Instruction::Divide { signed, size, by })?;
    Ok(())
}

/// Moves the remainder to `rax`, if the remainder is the result.
fn push_rest(rest: bool, code: &mut Vec<Instruction>) -> Result<(), NoMemory>
    ensures { OnOk result (code.new.items ≡ code.old.items ++ take_rest rest) }
{
    if rest {
        code.push(Instruction::Mov {
            size: Size::Quad,
            to: Register::Rax,
            from: Place::Register(Register::Rdx),
        })?;
    }
    Ok(())
}

/// Writes a quotient or a remainder to `rax`. A quotient by 0 is 0, and so is a remainder.
pub(crate) fn push_divide(
    signed: bool,
    rest: bool,
    size: Size,
    a: Source,
    b: Source,
    code: &mut Vec<Instruction>,
) -> Result<(), NoMemory>
    ensures { OnOk result (code.new.items ≡ code.old.items ++ division_of signed rest size a b) }
{
    push_two(size, a, b, code)?;
    push_guards(signed, size, a, b, code)?;
    push_division(signed, size, code)?;
    push_rest(rest, code)
}
