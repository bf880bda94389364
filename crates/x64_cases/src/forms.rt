//! Encodings of all forms of instructions: `BYTES TEXT`, with the text in Intel's syntax.
use crate::intel::push_intel;
use crate::text::push_code;
use bl_base::NoMemory;
use bl_x64::{
    Address, Alu, Condition, Count, Extension, Instruction, Place, Register, Rotation, Size, Width,
};
use std::alloc::Global;

static REGISTERS: [Register; 16] = [
    Register::Rax,
    Register::Rcx,
    Register::Rdx,
    Register::Rbx,
    Register::Rsp,
    Register::Rbp,
    Register::Rsi,
    Register::Rdi,
    Register::R8,
    Register::R9,
    Register::R10,
    Register::R11,
    Register::R12,
    Register::R13,
    Register::R14,
    Register::R15,
];

static DISPLACEMENTS: [u32; 4] = [0, 16, 0x1234_5678, 0xFFFF_FFF0];

static CONDITIONS: [Condition; 10] = [
    Condition::Below,
    Condition::AboveOrEqual,
    Condition::Equal,
    Condition::NotEqual,
    Condition::BelowOrEqual,
    Condition::Above,
    Condition::Less,
    Condition::GreaterOrEqual,
    Condition::LessOrEqual,
    Condition::Greater,
];

static ALUS: [Alu; 6] = [Alu::Add, Alu::Or, Alu::And, Alu::Sub, Alu::Xor, Alu::Cmp];

static COUNTS: [Count; 3] = [Count::Lzcnt, Count::Tzcnt, Count::Popcnt];

static ROTATIONS: [Rotation; 5] = [
    Rotation::Rol,
    Rotation::Ror,
    Rotation::Shl,
    Rotation::Shr,
    Rotation::Sar,
];

static EXTENSIONS: [Extension; 5] = [
    Extension::Zero8,
    Extension::Zero16,
    Extension::Sign8,
    Extension::Sign16,
    Extension::Sign32,
];

static WIDTHS: [Width; 4] = [Width::Byte, Width::Word, Width::Long, Width::Quad];

/// A register by its number, modulo 16.
fn register(i: usize) -> Register {
    REGISTERS[i % 16]
}

/// The number of a register that is used with the i-th one.
fn partner(i: usize) -> usize {
    i % 16 * 5 + 3
}

/// The address that is used with the i-th register: without an index, or with one that is not RSP.
fn address(indexed: bool, i: usize) -> Address {
    let index = register(i % 16 * 7 + 1);
    Address {
        base: register(partner(i)),
        index: if indexed && index != Register::Rsp {
            Some(index)
        } else {
            None
        },
        displacement: DISPLACEMENTS[i % 4],
    }
}

/// Appends the operations of two numbers.
fn push_alus(
    size: Size,
    to: Register,
    from: Place,
    code: &mut Vec<Instruction>,
) -> Result<(), NoMemory> {
    for op in &ALUS {
        let op = *op;
        code.push(Instruction::Alu { op, size, to, from })?;
    }
    Ok(())
}

/// Appends the counts of bits.
fn push_counts(
    size: Size,
    to: Register,
    from: Place,
    code: &mut Vec<Instruction>,
) -> Result<(), NoMemory> {
    for op in &COUNTS {
        let op = *op;
        code.push(Instruction::Count { op, size, to, from })?;
    }
    Ok(())
}

/// Appends the moves on conditions.
fn push_moves(
    size: Size,
    to: Register,
    from: Place,
    code: &mut Vec<Instruction>,
) -> Result<(), NoMemory> {
    for condition in &CONDITIONS {
        let condition = *condition;
        code.push(Instruction::MoveIf {
            condition,
            size,
            to,
            from,
        })?;
    }
    Ok(())
}

/// Appends the extensions.
fn push_extensions(
    size: Size,
    to: Register,
    from: Place,
    code: &mut Vec<Instruction>,
) -> Result<(), NoMemory> {
    for how in &EXTENSIONS {
        let how = *how;
        code.push(Instruction::Extend {
            how,
            size,
            to,
            from,
        })?;
    }
    Ok(())
}

/// Appends the instructions with a register and an operand.
fn push_placed(
    size: Size,
    to: Register,
    from: Place,
    code: &mut Vec<Instruction>,
) -> Result<(), NoMemory> {
    code.push(Instruction::Mov { size, to, from })?;
    code.push(Instruction::Imul { size, to, from })?;
    push_alus(size, to, from, code)?;
    push_counts(size, to, from, code)?;
    push_moves(size, to, from, code)?;
    push_extensions(size, to, from, code)
}

/// Appends the shifts and rotations.
fn push_rotations(size: Size, to: Register, code: &mut Vec<Instruction>) -> Result<(), NoMemory> {
    for op in &ROTATIONS {
        let op = *op;
        code.push(Instruction::Rotate { op, size, to })?;
    }
    Ok(())
}

/// Appends the instructions of a size with the i-th register.
fn push_sized(size: Size, i: usize, code: &mut Vec<Instruction>) -> Result<(), NoMemory> {
    let (to, other) = (register(i), register(partner(i)));
    push_placed(size, to, Place::Register(other), code)?;
    push_placed(size, to, Place::Memory(address(false, i)), code)?;
    push_placed(size, to, Place::Memory(address(true, i)), code)?;
    push_rotations(size, to, code)?;
    code.push(Instruction::Test {
        size,
        one: to,
        other,
    })?;
    code.push(Instruction::Divide {
        signed: false,
        size,
        by: to,
    })?;
    code.push(Instruction::Divide {
        signed: true,
        size,
        by: to,
    })?;
    Ok(())
}

/// Appends the stores of the i-th register.
fn push_stores(i: usize, to: Address, code: &mut Vec<Instruction>) -> Result<(), NoMemory> {
    for width in &WIDTHS {
        let (width, from) = (*width, register(i));
        code.push(Instruction::Store { width, to, from })?;
    }
    Ok(())
}

/// Appends the writes of bytes on conditions.
fn push_set_ifs(to: Register, code: &mut Vec<Instruction>) -> Result<(), NoMemory> {
    for condition in &CONDITIONS {
        let condition = *condition;
        code.push(Instruction::SetIf { condition, to })?;
    }
    Ok(())
}

/// Appends the writes of numbers.
fn push_constants(to: Register, code: &mut Vec<Instruction>) -> Result<(), NoMemory> {
    for value in [
        0,
        0x89AB_CDEF,
        0xFFFF_FFFF,
        0x1_0000_0000,
        0x123_4567_89AB_CDEF,
    ] {
        code.push(Instruction::Constant { to, value })?;
    }
    Ok(())
}

/// Appends all instructions with the i-th register.
fn push_register_forms(i: usize, code: &mut Vec<Instruction>) -> Result<(), NoMemory> {
    push_sized(Size::Long, i, code)?;
    push_sized(Size::Quad, i, code)?;
    push_stores(i, address(false, i), code)?;
    push_stores(i, address(true, i), code)?;
    push_set_ifs(register(i), code)?;
    push_constants(register(i), code)
}

/// Appends the jumps on conditions.
fn push_jump_ifs(to: u32, code: &mut Vec<Instruction>) -> Result<(), NoMemory> {
    for condition in &CONDITIONS {
        let condition = *condition;
        code.push(Instruction::JumpIf { condition, to })?;
    }
    Ok(())
}

/// Appends the instructions without an operand that is chosen.
fn push_other_forms(code: &mut Vec<Instruction>) -> Result<(), NoMemory> {
    push_jump_ifs(0x1234, code)?;
    push_jump_ifs(0xFFFF_EDCC, code)?;
    code.push(Instruction::Jump { to: 0x1234_5678 })?;
    code.push(Instruction::Jump { to: 0xFFFF_FFF0 })?;
    code.push(Instruction::Call { to: 0x1234_5678 })?;
    code.push(Instruction::Call { to: 0xFFFF_FFF0 })?;
    code.push(Instruction::Ret)?;
    code.push(Instruction::FillSign { size: Size::Long })?;
    code.push(Instruction::FillSign { size: Size::Quad })?;
    code.push(Instruction::Lfence)?;
    Ok(())
}

/// Appends an instruction's bytes and its text.
fn push_form(alloc: Global, instruction: Instruction, text: &mut Vec<u8>) -> Result<(), NoMemory> {
    push_code(alloc, &[instruction], text)?;
    text.push(b' ')?;
    push_intel(instruction, text)?;
    text.push(b'\n')?;
    Ok(())
}

/// Appends the bytes and the text of each instruction.
fn push_forms(alloc: Global, code: &[Instruction], text: &mut Vec<u8>) -> Result<(), NoMemory> {
    for instruction in code {
        push_form(alloc, *instruction, text)?;
    }
    Ok(())
}

/// Appends all forms: those with each of the 16 registers, and those without.
pub fn each_form(alloc: Global, text: &mut Vec<u8>) -> Result<(), NoMemory> {
    let mut code: Vec<Instruction> = Vec::new(alloc);
    push_other_forms(&mut code)?;
    for i in 0..16 {
        push_register_forms(i, &mut code)?;
    }
    push_forms(alloc, &code, text)
}

/// Appends the forms with `r12`, and those without a register.
pub fn few_forms(alloc: Global, text: &mut Vec<u8>) -> Result<(), NoMemory> {
    let mut code: Vec<Instruction> = Vec::new(alloc);
    push_other_forms(&mut code)?;
    push_register_forms(12, &mut code)?;
    push_forms(alloc, &code, text)
}
