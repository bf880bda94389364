//! Instructions in Intel's syntax, as objdump prints them, except that a jump has its distance with a sign.
use crate::text::{push_hexadecimal, push_signed, push_word};
use bl_base::NoMemory;
use bl_x64::{
    Address, Alu, Condition, Count, Extension, Instruction, Place, Register, Rotation, Size, Width,
};

static QUADS: [&str; 16] = [
    "rax", "rcx", "rdx", "rbx", "rsp", "rbp", "rsi", "rdi", "r8", "r9", "r10", "r11", "r12", "r13",
    "r14", "r15",
];

static LONGS: [&str; 16] = [
    "eax", "ecx", "edx", "ebx", "esp", "ebp", "esi", "edi", "r8d", "r9d", "r10d", "r11d", "r12d",
    "r13d", "r14d", "r15d",
];

static WORDS: [&str; 16] = [
    "ax", "cx", "dx", "bx", "sp", "bp", "si", "di", "r8w", "r9w", "r10w", "r11w", "r12w", "r13w",
    "r14w", "r15w",
];

static BYTES: [&str; 16] = [
    "al", "cl", "dl", "bl", "spl", "bpl", "sil", "dil", "r8b", "r9b", "r10b", "r11b", "r12b",
    "r13b", "r14b", "r15b",
];

/// The name of a register at a width.
fn name(width: Width, r: Register) -> &'static str {
    let number = usize::from(r.code());
    match width {
        Width::Byte => BYTES[number],
        Width::Word => WORDS[number],
        Width::Long => LONGS[number],
        Width::Quad => QUADS[number],
    }
}

/// The name of a width in front of an address.
fn pointer(width: Width) -> &'static str {
    match width {
        Width::Byte => "BYTE PTR [",
        Width::Word => "WORD PTR [",
        Width::Long => "DWORD PTR [",
        Width::Quad => "QWORD PTR [",
    }
}

/// The width of a size.
fn width_of(size: Size) -> Width {
    match size {
        Size::Long => Width::Long,
        Size::Quad => Width::Quad,
    }
}

fn condition_name(condition: Condition) -> &'static str {
    match condition {
        Condition::Below => "b",
        Condition::AboveOrEqual => "ae",
        Condition::Equal => "e",
        Condition::NotEqual => "ne",
        Condition::BelowOrEqual => "be",
        Condition::Above => "a",
        Condition::Less => "l",
        Condition::GreaterOrEqual => "ge",
        Condition::LessOrEqual => "le",
        Condition::Greater => "g",
    }
}

fn alu_name(op: Alu) -> &'static str {
    match op {
        Alu::Add => "add",
        Alu::Or => "or",
        Alu::And => "and",
        Alu::Sub => "sub",
        Alu::Xor => "xor",
        Alu::Cmp => "cmp",
    }
}

fn rotation_name(op: Rotation) -> &'static str {
    match op {
        Rotation::Rol => "rol",
        Rotation::Ror => "ror",
        Rotation::Shl => "shl",
        Rotation::Shr => "shr",
        Rotation::Sar => "sar",
    }
}

fn count_name(op: Count) -> &'static str {
    match op {
        Count::Lzcnt => "lzcnt",
        Count::Tzcnt => "tzcnt",
        Count::Popcnt => "popcnt",
    }
}

fn extension_name(how: Extension) -> &'static str {
    match how {
        Extension::Zero8 | Extension::Zero16 => "movzx",
        Extension::Sign8 | Extension::Sign16 => "movsx",
        Extension::Sign32 => "movsxd",
    }
}

/// The width of what an extension reads.
fn extended_width(how: Extension) -> Width {
    match how {
        Extension::Zero8 | Extension::Sign8 => Width::Byte,
        Extension::Zero16 | Extension::Sign16 => Width::Word,
        Extension::Sign32 => Width::Long,
    }
}

/// Appends an address with its width.
fn push_address(width: Width, a: Address, text: &mut Vec<u8>) -> Result<(), NoMemory> {
    push_word(pointer(width), text)?;
    push_word(name(Width::Quad, a.base), text)?;
    if let Some(index) = a.index {
        push_word("+", text)?;
        push_word(name(Width::Quad, index), text)?;
        push_word("*1", text)?;
    }
    push_signed(a.displacement, text)?;
    push_word("]", text)
}

/// Appends an operand.
fn push_place(width: Width, place: Place, text: &mut Vec<u8>) -> Result<(), NoMemory> {
    match place {
        Place::Register(r) => push_word(name(width, r), text),
        Place::Memory(a) => push_address(width, a, text),
    }
}

/// Appends an instruction with one register. Its name is given in two parts.
fn push_one(
    front: &str,
    back: &str,
    width: Width,
    r: Register,
    text: &mut Vec<u8>,
) -> Result<(), NoMemory> {
    push_word(front, text)?;
    push_word(back, text)?;
    push_word(" ", text)?;
    push_word(name(width, r), text)
}

/// Appends an instruction with a register and an operand of the same size. Its name is given in two parts.
fn push_two(
    front: &str,
    back: &str,
    size: Size,
    to: Register,
    from: Place,
    text: &mut Vec<u8>,
) -> Result<(), NoMemory> {
    push_one(front, back, width_of(size), to, text)?;
    push_word(",", text)?;
    push_place(width_of(size), from, text)
}

/// Appends a store.
fn push_store(
    width: Width,
    to: Address,
    from: Register,
    text: &mut Vec<u8>,
) -> Result<(), NoMemory> {
    push_word("mov ", text)?;
    push_address(width, to, text)?;
    push_word(",", text)?;
    push_word(name(width, from), text)
}

/// Appends the write of a number, by the form that its encoding has.
fn push_constant(to: Register, value: u64, text: &mut Vec<u8>) -> Result<(), NoMemory> {
    if value < 0x1_0000_0000 {
        push_one("mov", "", Width::Long, to, text)?;
    } else {
        push_one("movabs", "", Width::Quad, to, text)?;
    }
    push_word(",", text)?;
    push_hexadecimal(value, text)
}

/// Appends an extension.
fn push_extension(
    how: Extension,
    size: Size,
    to: Register,
    from: Place,
    text: &mut Vec<u8>,
) -> Result<(), NoMemory> {
    push_one(extension_name(how), "", width_of(size), to, text)?;
    push_word(",", text)?;
    push_place(extended_width(how), from, text)
}

/// Appends a shift or a rotation.
fn push_rotation(
    op: Rotation,
    size: Size,
    to: Register,
    text: &mut Vec<u8>,
) -> Result<(), NoMemory> {
    push_one(rotation_name(op), "", width_of(size), to, text)?;
    push_word(",cl", text)
}

/// Appends a jump. Its name is given in two parts.
fn push_jump(front: &str, back: &str, to: u32, text: &mut Vec<u8>) -> Result<(), NoMemory> {
    push_word(front, text)?;
    push_word(back, text)?;
    push_word(" ", text)?;
    push_signed(to, text)
}

/// The name of an instruction that fills `rdx` with the sign of `rax`.
fn sign_name(size: Size) -> &'static str {
    match size {
        Size::Long => "cdq",
        Size::Quad => "cqo",
    }
}

/// Appends a division.
fn push_division(
    signed: bool,
    size: Size,
    by: Register,
    text: &mut Vec<u8>,
) -> Result<(), NoMemory> {
    let front = if signed { "i" } else { "" };
    push_one(front, "div", width_of(size), by, text)
}

/// Appends a test of two registers.
fn push_test(
    size: Size,
    one: Register,
    other: Register,
    text: &mut Vec<u8>,
) -> Result<(), NoMemory> {
    push_two("test", "", size, one, Place::Register(other), text)
}

/// Appends a count of bits.
fn push_count(
    op: Count,
    size: Size,
    to: Register,
    from: Place,
    text: &mut Vec<u8>,
) -> Result<(), NoMemory> {
    push_two(count_name(op), "", size, to, from, text)
}

/// Appends an operation of two numbers.
fn push_alu(
    op: Alu,
    size: Size,
    to: Register,
    from: Place,
    text: &mut Vec<u8>,
) -> Result<(), NoMemory> {
    push_two(alu_name(op), "", size, to, from, text)
}

/// Appends the write of a byte on a condition.
fn push_set_if(condition: Condition, to: Register, text: &mut Vec<u8>) -> Result<(), NoMemory> {
    push_one("set", condition_name(condition), Width::Byte, to, text)
}

/// Appends an instruction.
pub fn push_intel(instruction: Instruction, text: &mut Vec<u8>) -> Result<(), NoMemory> {
    match instruction {
        Instruction::Mov { size, to, from } => push_two("mov", "", size, to, from, text),
        Instruction::Store { width, to, from } => push_store(width, to, from, text),
        Instruction::Constant { to, value } => push_constant(to, value, text),
        Instruction::Extend {
            how,
            size,
            to,
            from,
        } => push_extension(how, size, to, from, text),
        Instruction::Alu { op, size, to, from } => push_alu(op, size, to, from, text),
        Instruction::Test { size, one, other } => push_test(size, one, other, text),
        Instruction::Imul { size, to, from } => push_two("imul", "", size, to, from, text),
        Instruction::Rotate { op, size, to } => push_rotation(op, size, to, text),
        Instruction::Count { op, size, to, from } => push_count(op, size, to, from, text),
        Instruction::SetIf { condition, to } => push_set_if(condition, to, text),
        Instruction::MoveIf {
            condition,
            size,
            to,
            from,
        } => push_two("cmov", condition_name(condition), size, to, from, text),
        Instruction::FillSign { size } => push_word(sign_name(size), text),
        Instruction::Divide { signed, size, by } => push_division(signed, size, by, text),
        Instruction::Lfence => push_word("lfence", text),
        Instruction::Jump { to } => push_jump("jmp", "", to, text),
        Instruction::JumpIf { condition, to } => push_jump(
            "j",
            condition_name(condition),
            to,
            text,
        ),
        Instruction::Call { to } => push_jump("call", "", to, text),
        Instruction::Ret => push_word("ret", text),
    }
}
