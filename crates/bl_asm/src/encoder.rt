//! Writes the bytes of an instruction. Each function appends exactly the bytes that specs/Encoding.antt defines.
ghost use Rattle.std.specs.Prelude.{◌≡◌, ◌+◌, ◌*◌, ◌/◌, ◌%◌, ◌<◌, ◌++◌, ◌∷◌, [], OnOk};
ghost use Rattle.bl_base.specs.Bytes.{bytes_of};
ghost use Rattle.bl_asm.specs.Encoding.{alu_opcode, base_bit, condition_code, count_opcode, encoded, index_bit, index_code, one, operand_bytes, rex_byte, rotation_code, two, wide};
ghost use Rattle.bl_asm.specs.Encoding.{encoded_constant};
ghost use Rattle.bl_x64.specs.declared.instruction.Instruction.TheVariants as i;

use bl_base::NoMemory;
use bl_x64::{
    Address, Alu, Condition, Count, Extension, Instruction, Place, Register, Rotation, Size, Width,
};

/// Appends a number in 4 bytes, little endian.
fn push_4(number: u32, bytes: &mut Vec<u8>) -> Result<(), NoMemory>
    ensures { OnOk result (bytes.new.items ≡ bytes.old.items ++ bytes_of 4 number) }
{
    let second = number / 256;
    let third = second / 256;
    let fourth = third / 256;
    bytes.push((number % 256) as u8)?;
    bytes.push((second % 256) as u8)?;
    bytes.push((third % 256) as u8)?;
    bytes.push((fourth % 256) as u8)?;
    Ok(())
}

/// Appends a number in 8 bytes, little endian.
fn push_8(number: u64, bytes: &mut Vec<u8>) -> Result<(), NoMemory>
    ensures { OnOk result (bytes.new.items ≡ bytes.old.items ++ bytes_of 8 number) }
{
    let second = number / 256;
    let third = second / 256;
    let fourth = third / 256;
    let fifth = fourth / 256;
    let sixth = fifth / 256;
    let seventh = sixth / 256;
    let eighth = seventh / 256;
    bytes.push((number % 256) as u8)?;
    bytes.push((second % 256) as u8)?;
    bytes.push((third % 256) as u8)?;
    bytes.push((fourth % 256) as u8)?;
    bytes.push((fifth % 256) as u8)?;
    bytes.push((sixth % 256) as u8)?;
    bytes.push((seventh % 256) as u8)?;
    bytes.push((eighth % 256) as u8)?;
    Ok(())
}

/// The bit REX.W of a size.
fn wide_of(size: Size) -> u8
    ensures value { result ≡ wide size }
    ensures small { result < 2 }
{
    match size {
        Size::Long => 0,
        Size::Quad => 1,
    }
}

/// The number of a condition (volume 1 of the manual, appendix B).
fn code_of_condition(condition: Condition) -> u8
    ensures value { result ≡ condition_code condition }
    ensures small { result < 16 }
{
    match condition {
        Condition::Below => 2,
        Condition::AboveOrEqual => 3,
        Condition::Equal => 4,
        Condition::NotEqual => 5,
        Condition::BelowOrEqual => 6,
        Condition::Above => 7,
        Condition::Less => 12,
        Condition::GreaterOrEqual => 13,
        Condition::LessOrEqual => 14,
        Condition::Greater => 15,
    }
}

/// The opcode of an operation of two numbers.
fn opcode_of_alu(op: Alu) -> u8
    ensures { result ≡ alu_opcode op }
{
    match op {
        Alu::Add => 0x03,
        Alu::Or => 0x0B,
        Alu::And => 0x23,
        Alu::Sub => 0x2B,
        Alu::Xor => 0x33,
        Alu::Cmp => 0x3B,
    }
}

/// The field reg of a shift or a rotation.
fn code_of_rotation(op: Rotation) -> u8
    ensures value { result ≡ rotation_code op }
    ensures small { result < 8 }
{
    match op {
        Rotation::Rol => 0,
        Rotation::Ror => 1,
        Rotation::Shl => 4,
        Rotation::Shr => 5,
        Rotation::Sar => 7,
    }
}

/// The opcode of a count of bits, after the byte 0x0F.
fn opcode_of_count(op: Count) -> u8
    ensures { result ≡ count_opcode op }
{
    match op {
        Count::Popcnt => 0xB8,
        Count::Tzcnt => 0xBC,
        Count::Lzcnt => 0xBD,
    }
}

/// The number of an index; 4 if there is none.
fn code_of_index(index: Option<Register>) -> u8
    ensures value { result ≡ index_code index }
    ensures small { result < 16 }
{
    match index {
        None => 4,
        Some(r) => r.code(),
    }
}

/// The REX byte of four bits.
fn rex_of(w: u8, r: u8, x: u8, b: u8) -> u8
    requires w_bit { w < 2 }
    requires r_bit { r < 2 }
    requires x_bit { x < 2 }
    requires b_bit { b < 2 }
    ensures { result ≡ rex_byte w r x b }
{
    64 + 8 * w + 4 * r + 2 * x + b
}

/// The REX byte of an instruction with a size, a number in the field reg, and a place.
fn rex_at(w: u8, reg: u8, place: Place) -> u8
    requires w_bit { w < 2 }
    requires reg_bits { reg < 16 }
    ensures { result ≡ rex_byte w (reg / 8) (index_bit place) (base_bit place) }
{
    match place {
        Place::Register(r) => rex_of(w, reg / 8, 0, r.code() / 8),
        Place::Memory(a) => rex_of(w, reg / 8, code_of_index(a.index) / 8, a.base.code() / 8),
    }
}

/// Appends the ModRM byte of a field reg and a place, and for memory the SIB byte and the displacement.
fn push_operands(field: u8, place: Place, bytes: &mut Vec<u8>) -> Result<(), NoMemory>
    requires { field < 8 }
    ensures { OnOk result (bytes.new.items ≡ bytes.old.items ++ operand_bytes field place) }
{
    match place {
        Place::Register(r) => {
            bytes.push(192 + 8 * field + r.code() % 8)?;
            Ok(())
        }
        Place::Memory(a) => {
            bytes.push(132 + 8 * field)?;
            bytes.push(8 * (code_of_index(a.index) % 8) + a.base.code() % 8)?;
            push_4(a.displacement, bytes)
        }
    }
}

/// Appends an instruction with an opcode of one byte.
fn push_one(opcode: u8, w: u8, reg: u8, place: Place, bytes: &mut Vec<u8>) -> Result<(), NoMemory>
    requires w_bit { w < 2 }
    requires reg_bits { reg < 16 }
    ensures { OnOk result (bytes.new.items ≡ bytes.old.items ++ one opcode w reg place) }
{
    bytes.push(rex_at(w, reg, place))?;
    bytes.push(opcode)?;
    push_operands(reg % 8, place, bytes)
}

/// Appends an instruction with an opcode of two bytes, of which the first is 0x0F.
fn push_two(opcode: u8, w: u8, reg: u8, place: Place, bytes: &mut Vec<u8>) -> Result<(), NoMemory>
    requires w_bit { w < 2 }
    requires reg_bits { reg < 16 }
    ensures { OnOk result (bytes.new.items ≡ bytes.old.items ++ two opcode w reg place) }
{
    bytes.push(rex_at(w, reg, place))?;
    bytes.push(0x0F)?;
    bytes.push(opcode)?;
    push_operands(reg % 8, place, bytes)
}

/// Appends a move.
fn push_move(size: Size, to: Register, from: Place, bytes: &mut Vec<u8>) -> Result<(), NoMemory>
    ensures { OnOk result (bytes.new.items ≡ bytes.old.items ++ encoded (i.Mov size to from)) }
{
    push_one(0x8B, wide_of(size), to.code(), from, bytes)
}

/// Appends a store of a register.
fn push_store(
    width: Width,
    to: Address,
    from: Register,
    bytes: &mut Vec<u8>,
) -> Result<(), NoMemory>
    ensures { OnOk result (bytes.new.items ≡ bytes.old.items ++ encoded (i.Store width to from)) }
{
    let (reg, place) = (from.code(), Place::Memory(to));
    match width {
        Width::Byte => push_one(0x88, 0, reg, place, bytes),
        Width::Word => {
            bytes.push(0x66)?;
            push_one(0x89, 0, reg, place, bytes)
        }
        Width::Long => push_one(0x89, 0, reg, place, bytes),
        Width::Quad => push_one(0x89, 1, reg, place, bytes),
    }
}

/// Appends an extension of a number of fewer bits.
fn push_extension(
    how: Extension,
    size: Size,
    to: Register,
    from: Place,
    bytes: &mut Vec<u8>,
) -> Result<(), NoMemory>
    ensures { OnOk result (bytes.new.items ≡ bytes.old.items ++ encoded (i.Extend how size to from)) }
{
    let (w, reg) = (wide_of(size), to.code());
    match how {
        Extension::Zero8 => push_two(0xB6, w, reg, from, bytes),
        Extension::Zero16 => push_two(0xB7, w, reg, from, bytes),
        Extension::Sign8 => push_two(0xBE, w, reg, from, bytes),
        Extension::Sign16 => push_two(0xBF, w, reg, from, bytes),
        Extension::Sign32 => push_one(0x63, w, reg, from, bytes),
    }
}

/// Appends the instruction that writes a number to a register, in the shorter of two forms.
fn push_constant(reg: u8, value: u64, bytes: &mut Vec<u8>) -> Result<(), NoMemory>
    requires { reg < 16 }
    ensures { OnOk result (bytes.new.items ≡ bytes.old.items ++ encoded_constant reg value) }
{
    if value < 0x1_0000_0000 {
        bytes.push(rex_of(0, 0, 0, reg / 8))?;
        bytes.push(184 + reg % 8)?;
        push_4(value as u32, bytes)
    } else {
        bytes.push(rex_of(1, 0, 0, reg / 8))?;
        bytes.push(184 + reg % 8)?;
        push_8(value, bytes)
    }
}

/// Appends an operation of two numbers.
fn push_alu(
    op: Alu,
    size: Size,
    to: Register,
    from: Place,
    bytes: &mut Vec<u8>,
) -> Result<(), NoMemory>
    ensures { OnOk result (bytes.new.items ≡ bytes.old.items ++ encoded (i.Alu op size to from)) }
{
    push_one(opcode_of_alu(op), wide_of(size), to.code(), from, bytes)
}

/// Appends a product.
fn push_product(size: Size, to: Register, from: Place, bytes: &mut Vec<u8>) -> Result<(), NoMemory>
    ensures { OnOk result (bytes.new.items ≡ bytes.old.items ++ encoded (i.Imul size to from)) }
{
    push_two(0xAF, wide_of(size), to.code(), from, bytes)
}

/// Appends a test of two registers.
fn push_test(
    size: Size,
    one: Register,
    other: Register,
    bytes: &mut Vec<u8>,
) -> Result<(), NoMemory>
    ensures { OnOk result (bytes.new.items ≡ bytes.old.items ++ encoded (i.Test size one other)) }
{
    let place = Place::Register(one);
    push_one(0x85, wide_of(size), other.code(), place, bytes)
}

/// Appends a shift or a rotation.
fn push_rotation(
    op: Rotation,
    size: Size,
    to: Register,
    bytes: &mut Vec<u8>,
) -> Result<(), NoMemory>
    ensures { OnOk result (bytes.new.items ≡ bytes.old.items ++ encoded (i.Rotate op size to)) }
{
    let place = Place::Register(to);
    push_one(0xD3, wide_of(size), code_of_rotation(op), place, bytes)
}

/// Appends a count of bits.
fn push_count(
    op: Count,
    size: Size,
    to: Register,
    from: Place,
    bytes: &mut Vec<u8>,
) -> Result<(), NoMemory>
    ensures { OnOk result (bytes.new.items ≡ bytes.old.items ++ encoded (i.Count op size to from)) }
{
    bytes.push(0xF3)?;
    push_two(opcode_of_count(op), wide_of(size), to.code(), from, bytes)
}

/// Appends the instruction that writes 1 or 0 by a condition.
fn push_set_if(condition: Condition, to: Register, bytes: &mut Vec<u8>) -> Result<(), NoMemory>
    ensures { OnOk result (bytes.new.items ≡ bytes.old.items ++ encoded (i.SetIf condition to)) }
{
    let opcode = 144 + code_of_condition(condition);
    push_two(opcode, 0, 0, Place::Register(to), bytes)
}

/// Appends a move on a condition.
fn push_move_if(
    condition: Condition,
    size: Size,
    to: Register,
    from: Place,
    bytes: &mut Vec<u8>,
) -> Result<(), NoMemory>
    ensures { OnOk result (bytes.new.items ≡ bytes.old.items ++ encoded (i.MoveIf condition size to from)) }
{
    let opcode = 64 + code_of_condition(condition);
    push_two(opcode, wide_of(size), to.code(), from, bytes)
}

/// Appends the instruction that fills `rdx` with the sign of `rax`.
fn push_sign(size: Size, bytes: &mut Vec<u8>) -> Result<(), NoMemory>
    ensures { OnOk result (bytes.new.items ≡ bytes.old.items ++ encoded (i.FillSign size)) }
{
    bytes.push(rex_of(wide_of(size), 0, 0, 0))?;
    bytes.push(0x99)?;
    Ok(())
}

/// Appends a division.
fn push_division(
    signed: bool,
    size: Size,
    by: Register,
    bytes: &mut Vec<u8>,
) -> Result<(), NoMemory>
    ensures { OnOk result (bytes.new.items ≡ bytes.old.items ++ encoded (i.Divide signed size by)) }
{
    let field = if signed { 7 } else { 6 };
    push_one(0xF7, wide_of(size), field, Place::Register(by), bytes)
}

/// Appends a fence.
fn push_fence(bytes: &mut Vec<u8>) -> Result<(), NoMemory>
    ensures { OnOk result (bytes.new.items ≡ bytes.old.items ++ encoded i.Lfence) }
{
    bytes.push(0x0F)?;
    bytes.push(0xAE)?;
    bytes.push(0xE8)?;
    Ok(())
}

/// Appends a jump by a distance.
fn push_jump(distance: u32, bytes: &mut Vec<u8>) -> Result<(), NoMemory>
    ensures { OnOk result (bytes.new.items ≡ bytes.old.items ++ encoded (i.Jump distance)) }
{
    bytes.push(0xE9)?;
    push_4(distance, bytes)
}

/// Appends a jump on a condition, by a distance.
fn push_jump_if(condition: Condition, distance: u32, bytes: &mut Vec<u8>) -> Result<(), NoMemory>
    ensures { OnOk result (bytes.new.items ≡ bytes.old.items ++ encoded (i.JumpIf condition distance)) }
{
    bytes.push(0x0F)?;
    bytes.push(128 + code_of_condition(condition))?;
    push_4(distance, bytes)
}

/// Appends a call by a distance.
fn push_call(distance: u32, bytes: &mut Vec<u8>) -> Result<(), NoMemory>
    ensures { OnOk result (bytes.new.items ≡ bytes.old.items ++ encoded (i.Call distance)) }
{
    bytes.push(0xE8)?;
    push_4(distance, bytes)
}

/// Appends a return.
fn push_return(bytes: &mut Vec<u8>) -> Result<(), NoMemory>
    ensures { OnOk result (bytes.new.items ≡ bytes.old.items ++ encoded i.Ret) }
{
    bytes.push(0xC3)?;
    Ok(())
}

/// Appends the bytes of an instruction (`encoded`, specs/Encoding.antt). The target of a jump or a call is its distance.
pub fn encode(instruction: Instruction, bytes: &mut Vec<u8>) -> Result<(), NoMemory>
    ensures { OnOk result (bytes.new.items ≡ bytes.old.items ++ encoded instruction) }
{
    match instruction {
        Instruction::Mov { size, to, from } => push_move(size, to, from, bytes),
        Instruction::Store { width, to, from } => push_store(width, to, from, bytes),
        Instruction::Constant { to, value } => push_constant(to.code(), value, bytes),
        Instruction::Extend {
            how,
            size,
            to,
            from,
        } => push_extension(how, size, to, from, bytes),
        Instruction::Alu { op, size, to, from } => push_alu(op, size, to, from, bytes),
        Instruction::Test { size, one, other } => push_test(size, one, other, bytes),
        Instruction::Imul { size, to, from } => push_product(size, to, from, bytes),
        Instruction::Rotate { op, size, to } => push_rotation(op, size, to, bytes),
        Instruction::Count { op, size, to, from } => push_count(op, size, to, from, bytes),
        Instruction::SetIf { condition, to } => push_set_if(condition, to, bytes),
        Instruction::MoveIf {
            condition,
            size,
            to,
            from,
        } => push_move_if(condition, size, to, from, bytes),
        Instruction::FillSign { size } => push_sign(size, bytes),
        Instruction::Divide { signed, size, by } => push_division(signed, size, by, bytes),
        Instruction::Lfence => push_fence(bytes),
        Instruction::Jump { to } => push_jump(to, bytes),
        Instruction::JumpIf { condition, to } => push_jump_if(condition, to, bytes),
        Instruction::Call { to } => push_call(to, bytes),
        Instruction::Ret => push_return(bytes),
    }
}
