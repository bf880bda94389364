//! The instructions of a Set.
ghost use Rattle.std.specs.Prelude.{◌≡◌, ◌++◌, ◌∷◌, [], OnOk};
ghost use Rattle.bl_x64.specs.declared.instruction.Instruction.TheVariants as i;
ghost use Rattle.bl_x64.specs.declared.register.Register.TheVariants.{Rax, Rcx};
ghost use Rattle.bl_select.specs.declared.location.Shape.TheVariants as shape_as;
ghost use Rattle.bl_select.specs.Templates.{in_register, load as load_of, load_reach, set_template, value};

use crate::division_writer::push_divide;
use crate::location::{Location, Shape, Source};
use crate::operands::{
    alu, choose, constant, extended, load, product, push_finish, push_truth, push_two, test_zero,
};
use crate::shape_table::shape_of;
use bl_base::NoMemory;
use bl_ops::Op;
use bl_x64::{Alu, Condition, Count, Instruction, Place, Register, Rotation, Size};

/// Writes the reach of an access, modulo 2^34, to `rdx`.
fn push_reach(source: Source, code: &mut Vec<Instruction>) -> Result<(), NoMemory>
    ensures { OnOk result (code.new.items ≡ code.old.items ++ load_reach source) }
{
    match source {
        Source::Number(number) => {
            code.push(constant(Register::Rdx, number % 0x4_0000_0000))?;
            Ok(())
        }
        Source::At(l) => {
            code.push(load(Size::Quad, Register::Rdx, Source::At(l)))?;
            code.push(constant(Register::Rcx, 0x3_FFFF_FFFF))?;
            code.push(alu(Alu::And, Size::Quad, Register::Rdx, Register::Rcx))?;
            Ok(())
        }
    }
}

/// Writes the bounds test of an access to `rax`.
fn push_outside(
    a: Source,
    b: Source,
    c: Source,
    code: &mut Vec<Instruction>,
) -> Result<(), NoMemory>
    ensures { OnOk result (code.new.items ≡ code.old.items ++ value shape_as.Outside a b c) }
{
    push_reach(c, code)?;
    code.push(load(Size::Long, Register::Rax, a))?;
    code.push(alu(Alu::Add, Size::Quad, Register::Rax, Register::Rdx))?;
    code.push(load(Size::Long, Register::Rcx, b))?;
    code.push(constant(Register::Rdx, 65536))?;
    code.push(product(Size::Quad, Register::Rcx, Register::Rdx))?;
    code.push(alu(Alu::Cmp, Size::Quad, Register::Rcx, Register::Rax))?;
    push_truth(Condition::Below, code)
}

/// Writes the first or the second operand to `rax`, chosen by the third.
fn push_select(a: Source, b: Source, c: Source, code: &mut Vec<Instruction>) -> Result<(), NoMemory>
    ensures { OnOk result (code.new.items ≡ code.old.items ++ value shape_as.Select a b c) }
{
    code.push(load(Size::Quad, Register::Rax, a))?;
    code.push(load(Size::Quad, Register::Rcx, b))?;
    code.push(load(Size::Long, Register::Rdx, c))?;
    code.push(test_zero(Size::Long, Register::Rdx))?;
    code.push(choose(Register::Rax, Register::Rcx))?;
    Ok(())
}

/// Writes 1 to `rax` if a comparison of two operands holds, and 0 if it does not.
fn push_compare(
    condition: Condition,
    size: Size,
    a: Source,
    b: Source,
    code: &mut Vec<Instruction>,
) -> Result<(), NoMemory>
    ensures { OnOk result (code.new.items ≡ code.old.items ++ value (shape_as.Compare condition size) a b b) }
{
    push_two(size, a, b, code)?;
    code.push(alu(Alu::Cmp, size, Register::Rax, Register::Rcx))?;
    push_truth(condition, code)
}

/// Writes 1 to `rax` if an operand is 0, and 0 if it is not.
fn push_is_zero(size: Size, a: Source, code: &mut Vec<Instruction>) -> Result<(), NoMemory>
    ensures { OnOk result (code.new.items ≡ code.old.items ++ value (shape_as.IsZero size) a a a) }
{
    code.push(load(size, Register::Rax, a))?;
    code.push(test_zero(size, Register::Rax))?;
    push_truth(Condition::Equal, code)
}

/// Writes the result of an operation of two operands to `rax`, by the instruction that follows their loads.
fn push_binary(
    size: Size,
    a: Source,
    b: Source,
    operation: Instruction,
    code: &mut Vec<Instruction>,
) -> Result<(), NoMemory>
    ensures { OnOk result (code.new.items ≡ code.old.items ++ load_of size Rax a ∷ load_of size Rcx b ∷ operation ∷ []) }
{
    push_two(size, a, b, code)?;
    code.push(operation)?;
    Ok(())
}

/// Writes the result of an operation of one operand to `rax`, by the instruction that follows its load.
fn push_unary(
    size: Size,
    a: Source,
    operation: Instruction,
    code: &mut Vec<Instruction>,
) -> Result<(), NoMemory>
    ensures { OnOk result (code.new.items ≡ code.old.items ++ load_of size Rax a ∷ operation ∷ []) }
{
    code.push(load(size, Register::Rax, a))?;
    code.push(operation)?;
    Ok(())
}

/// Shifts or rotates `rax` by `cl`.
fn rotated(op: Rotation, size: Size) -> Instruction
    ensures { result ≡ i.Rotate op size Rax }
{
    Instruction::Rotate {
        op,
        size,
        to: Register::Rax,
    }
}

/// Counts bits of `rax`.
fn counted(op: Count, size: Size) -> Instruction
    ensures { result ≡ i.Count op size Rax (in_register Rax) }
{
    Instruction::Count {
        op,
        size,
        to: Register::Rax,
        from: Place::Register(Register::Rax),
    }
}

/// Writes the value of a shape to `rax`.
fn push_value(
    shape: Shape,
    a: Source,
    b: Source,
    c: Source,
    code: &mut Vec<Instruction>,
) -> Result<(), NoMemory>
    ensures { OnOk result (code.new.items ≡ code.old.items ++ value shape a b c) }
{
    let (rax, rcx) = (Register::Rax, Register::Rcx);
    match shape {
        Shape::Alu(op, size) => push_binary(size, a, b, alu(op, size, rax, rcx), code),
        Shape::Multiply(size) => push_binary(size, a, b, product(size, rax, rcx), code),
        Shape::Rotate(op, size) => push_binary(size, a, b, rotated(op, size), code),
        Shape::Compare(condition, size) => push_compare(condition, size, a, b, code),
        Shape::IsZero(size) => push_is_zero(size, a, code),
        Shape::Count(op, size) => push_unary(size, a, counted(op, size), code),
        Shape::Extend(how, size) => push_unary(Size::Quad, a, extended(how, size), code),
        Shape::Same(size) => {
            code.push(load(size, rax, a))?;
            Ok(())
        }
        Shape::Select => push_select(a, b, c, code),
        Shape::Outside => push_outside(a, b, c, code),
        Shape::Divide { signed, rest, size } => push_divide(signed, rest, size, a, b, code),
    }
}

/// Appends the instructions of a Set by an operator (`set_template`, specs/Templates.antt): its result goes to a location, and a fence follows if
/// the command is protected. Operands that the operator does not have are ignored.
pub fn push_set(
    protect: bool,
    op: Op,
    to: Location,
    a: Source,
    b: Source,
    c: Source,
    code: &mut Vec<Instruction>,
) -> Result<(), NoMemory>
    ensures { OnOk result (code.new.items ≡ code.old.items ++ set_template protect op to a b c) }
{
    push_value(shape_of(op), a, b, c, code)?;
    push_finish(protect, to, code)
}
