//! Single instructions of templates, and the short sequences that several templates share.
ghost use Rattle.std.specs.Prelude.{◌≡◌, ◌++◌, OnOk};
ghost use Rattle.bl_x64.specs.declared.instruction.Instruction.TheVariants as i;
ghost use Rattle.bl_x64.specs.declared.instruction.Width.TheVariants as width_as;
ghost use Rattle.bl_x64.specs.declared.register.Register.TheVariants.{Rax};
ghost use Rattle.bl_select.specs.Templates.{alu_of, behind as behind_base, chosen_of, finish, in_register, load as load_of, place_of as place_at, truth_of, two_of, write as write_of};

use crate::location::{Location, Source};
use bl_base::NoMemory;
use bl_x64::{Address, Alu, Condition, Extension, Instruction, Place, Register, Size, Width};

/// The address at a displacement from a register.
fn behind(base: Register, displacement: u32) -> Address
    ensures { result ≡ behind_base base displacement }
{
    Address {
        base,
        index: None,
        displacement,
    }
}

/// The operand that names a location.
pub(crate) fn place_of(l: Location) -> Place
    ensures { result ≡ place_at l }
{
    match l {
        Location::Register(r) => Place::Register(r),
        Location::Slot(at) => Place::Memory(behind(Register::Rsp, at)),
        Location::Context(at) => Place::Memory(behind(Register::R15, at)),
    }
}

/// Writes a number to a register.
pub(crate) fn constant(to: Register, value: u64) -> Instruction
    ensures { result ≡ i.Constant to value }
{
    Instruction::Constant { to, value }
}

/// Loads an operand to a register, with zeros above its size.
pub(crate) fn load(size: Size, to: Register, source: Source) -> Instruction
    ensures { result ≡ load_of size to source }
{
    match source {
        Source::At(l) => Instruction::Mov {
            size,
            to,
            from: place_of(l),
        },
        Source::Number(number) => match size {
            Size::Long => constant(to, number % 0x1_0000_0000),
            Size::Quad => constant(to, number),
        },
    }
}

/// Stores `rax` at an address.
fn store_result(to: Address) -> Instruction
    ensures { result ≡ i.Store width_as.Quad to Rax }
{
    Instruction::Store {
        width: Width::Quad,
        to,
        from: Register::Rax,
    }
}

/// Writes `rax` to a location.
fn write(l: Location) -> Instruction
    ensures { result ≡ write_of l }
{
    match l {
        Location::Register(r) => Instruction::Mov {
            size: Size::Quad,
            to: r,
            from: Place::Register(Register::Rax),
        },
        Location::Slot(at) => store_result(behind(Register::Rsp, at)),
        Location::Context(at) => store_result(behind(Register::R15, at)),
    }
}

/// Writes `rax` to a location, with a fence after it if the command is protected.
pub(crate) fn push_finish(
    protect: bool,
    to: Location,
    code: &mut Vec<Instruction>,
) -> Result<(), NoMemory>
    ensures { OnOk result (code.new.items ≡ code.old.items ++ finish protect to) }
{
    code.push(write(to))?;
    if protect {
        code.push(Instruction::Lfence)?;
    }
    Ok(())
}

/// An operation of two registers.
pub(crate) fn alu(op: Alu, size: Size, to: Register, from: Register) -> Instruction
    ensures { result ≡ alu_of op size to from }
{
    Instruction::Alu {
        op,
        size,
        to,
        from: Place::Register(from),
    }
}

/// The product of two registers.
pub(crate) fn product(size: Size, to: Register, from: Register) -> Instruction
    ensures { result ≡ i.Imul size to (in_register from) }
{
    Instruction::Imul {
        size,
        to,
        from: Place::Register(from),
    }
}

/// The flags of a register that is tested for 0.
pub(crate) fn test_zero(size: Size, one: Register) -> Instruction
    ensures { result ≡ i.Test size one one }
{
    Instruction::Test {
        size,
        one,
        other: one,
    }
}

/// A move if the last result was 0.
pub(crate) fn choose(to: Register, from: Register) -> Instruction
    ensures { result ≡ chosen_of to from }
{
    Instruction::MoveIf {
        condition: Condition::Equal,
        size: Size::Quad,
        to,
        from: Place::Register(from),
    }
}

/// Extends `rax` in place.
pub(crate) fn extended(how: Extension, size: Size) -> Instruction
    ensures { result ≡ i.Extend how size Rax (in_register Rax) }
{
    Instruction::Extend {
        how,
        size,
        to: Register::Rax,
        from: Place::Register(Register::Rax),
    }
}

/// Writes 1 to `rax` if a condition holds, and 0 if it does not.
pub(crate) fn push_truth(condition: Condition, code: &mut Vec<Instruction>) -> Result<(), NoMemory>
    ensures { OnOk result (code.new.items ≡ code.old.items ++ truth_of condition) }
{
    code.push(Instruction::SetIf {
        condition,
        to: Register::Rax,
    })?;
    code.push(extended(Extension::Zero8, Size::Long))?;
    Ok(())
}

/// Loads two operands to `rax` and `rcx`.
pub(crate) fn push_two(
    size: Size,
    a: Source,
    b: Source,
    code: &mut Vec<Instruction>,
) -> Result<(), NoMemory>
    ensures { OnOk result (code.new.items ≡ code.old.items ++ two_of size a b) }
{
    code.push(load(size, Register::Rax, a))?;
    code.push(load(size, Register::Rcx, b))?;
    Ok(())
}
