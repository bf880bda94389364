//! Instructions (WebAssembly 1.0, section 5.4).
ghost use Rattle.std.specs.Prelude.{◌≡◌, ◌≤◌, ℕ, List as Listed, [], ◌∷◌, length, IfSome, IfNone};
ghost use Rattle.bl_ops.specs.Access.{access_code};
ghost use Rattle.bl_wasm.specs.{Codes.float_access_code, Types.block_type, Values.u32};
ghost use Rattle.bl_wasm.specs.{Instructions.instruction, Instructions.memory_argument, declared.instruction.Instr.Instr};
ghost use Rattle.bl_code.specs.ReaderAnswers.{Finds, Reads, behind};
ghost use Rattle.bl_code.specs.Shapes.{IsTypedCode, IsIndexedCode, IsAccessCode, IsZeroCode, IsOtherCode, IsNumericCode};
ghost use Rattle.bl_wasm.specs.declared.types.BlockType.{BlockType};

use crate::error::{CodeError, Malformed};
use crate::format::{Format, read_vec};
use crate::types::read_block_type;
use crate::values::{read_byte, read_f32, read_f64, read_i32, read_i64, read_u32};
use bl_ops::AccessKind;
use bl_wasm::{BlockType, FloatAccess, FloatOp, Instr, MemoryArgument, Targets};
use std::alloc::Global;

/// An unsigned number of 32 bits, as an index.
pub struct Index;

impl Format for Index {
    type Tree = u32;

    ghost use Rattle.bl_wasm.specs.Values.{u32};
    ghost use Rattle.bl_code.specs.Laws.{u32_prefix_free};

    ghost spellings = { u32 };

    ghost prefix_free = { u32_prefix_free };

    fn read(_alloc: Global, bytes: &[u8], at: usize) -> Result<(u32, usize), CodeError> {
        Ok(read_u32(bytes, at)?)
    }
}

/// Reads the instruction whose spelling begins at `at`, a place of `bytes` or their length; of a block, a loop or an if,
/// what stands before its items (section 5.4). Ok gives it with the place after its last byte. Malformed comes exactly
/// where no instruction begins there, Memory where there was none for the labels of a `br_table`. It reads no byte
/// more than twice, and keeps no more labels than there are bytes.
pub fn read_instr(alloc: Global, bytes: &[u8], at: usize) -> Result<(Instr, usize), CodeError>
    requires { at ≤ length bytes.now }
    ensures { Reads instruction bytes.now at result }
{
    let (code, place) = read_byte(bytes, at)?;
    read_behind(alloc, code, bytes, place)
}

/// Reads what stands behind the code of an instruction.
fn read_behind(
    alloc: Global,
    code: u8,
    bytes: &[u8],
    at: usize,
) -> Result<(Instr, usize), CodeError>
    requires { at ≤ length bytes.now }
    ensures { Reads (behind instruction code) bytes.now at result }
{
    match code {
        0x02..=0x04 => read_block(code, bytes, at),
        0x0C | 0x0D | 0x10 | 0x20..=0x24 => read_indexed(code, bytes, at),
        0x0E => read_br_table(alloc, bytes, at),
        0x11 => read_call_indirect(bytes, at),
        0x28..=0x3E => read_access(code, bytes, at),
        0x3F | 0x40 => read_memory_size(code, bytes, at),
        0x41 => read_i32_const(bytes, at),
        0x42 => read_i64_const(bytes, at),
        0x43 => read_f32_const(bytes, at),
        0x44 => read_f64_const(bytes, at),
        _ => read_bare(code, bytes, at),
    }
}

/// Reads what stands behind the code of a block, a loop or an if (section 5.4.1).
fn read_block(code: u8, bytes: &[u8], at: usize) -> Result<(Instr, usize), CodeError>
    requires within { at ≤ length bytes.now }
    requires code { IsTypedCode code }
    ensures { Reads (behind instruction code) bytes.now at result }
{
    let (kind, place) = read_block_type(bytes, at)?;
    Ok((block(code, kind), place))
}

/// The block, loop or if of that code and of that type.
fn block(code: u8, kind: BlockType) -> Instr
    requires { IsTypedCode code }
    ensures { (rest : Listed ℕ) → block_type kind rest → instruction result (code ∷ rest) }
{
    match code {
        0x02 => Instr::Block(kind),
        0x03 => Instr::Loop(kind),
        _ => Instr::If(kind),
    }
}

/// Reads the index behind the code of an instruction that has one (sections 5.4.1 and 5.4.3).
fn read_indexed(code: u8, bytes: &[u8], at: usize) -> Result<(Instr, usize), CodeError>
    requires within { at ≤ length bytes.now }
    requires code { IsIndexedCode code }
    ensures { Reads (behind instruction code) bytes.now at result }
{
    let (index, place) = read_u32(bytes, at)?;
    Ok((indexed(code, index), place))
}

/// The instruction of that code and with that index.
fn indexed(code: u8, index: u32) -> Instr
    requires { IsIndexedCode code }
    ensures { (rest : Listed ℕ) → u32 index rest → instruction result (code ∷ rest) }
{
    match code {
        0x0C => Instr::Br(index),
        0x0D => Instr::BrIf(index),
        0x10 => Instr::Call(index),
        0x20 => Instr::LocalGet(index),
        0x21 => Instr::LocalSet(index),
        0x22 => Instr::LocalTee(index),
        0x23 => Instr::GlobalGet(index),
        _ => Instr::GlobalSet(index),
    }
}

/// Reads what stands behind the code of a `br_table` (section 5.4.1).
fn read_br_table(alloc: Global, bytes: &[u8], at: usize) -> Result<(Instr, usize), CodeError>
    requires { at ≤ length bytes.now }
    ensures { Reads (behind instruction 0x0E) bytes.now at result }
{
    let (labels, place) = read_vec::<Index>(alloc, bytes, at)?;
    let (default, place) = read_u32(bytes, place)?;
    let targets = Targets::of(alloc, labels)?;
    Ok((Instr::BrTable { default, targets }, place))
}

/// Reads what stands behind the code of a `call_indirect` (section 5.4.1): an index, and a number that is zero.
fn read_call_indirect(bytes: &[u8], at: usize) -> Result<(Instr, usize), CodeError>
    requires { at ≤ length bytes.now }
    ensures { Reads (behind instruction 0x11) bytes.now at result }
{
    let (index, place) = read_u32(bytes, at)?;
    let (zero, place) = read_u32(bytes, place)?;
    if zero != 0 {
        return Err(CodeError::Malformed);
    }
    Ok((Instr::CallIndirect(index), place))
}

/// Reads the immediate of a load or a store (section 5.4.4): two numbers.
fn read_memory_argument(bytes: &[u8], at: usize) -> Result<(MemoryArgument, usize), Malformed>
    requires { at ≤ length bytes.now }
    ensures { Finds memory_argument bytes.now at result }
{
    let (alignment, place) = read_u32(bytes, at)?;
    let (offset, place) = read_u32(bytes, place)?;
    Ok((MemoryArgument { alignment, offset }, place))
}

/// Reads what stands behind the code of a load or a store (section 5.4.4).
fn read_access(code: u8, bytes: &[u8], at: usize) -> Result<(Instr, usize), CodeError>
    requires within { at ≤ length bytes.now }
    requires code { IsAccessCode code }
    ensures { Reads (behind instruction code) bytes.now at result }
{
    let (argument, place) = read_memory_argument(bytes, at)?;
    if let Some(kind) = AccessKind::by_code(code) {
        return Ok((access(kind, argument), place));
    }
    match float_access(code) {
        Some(kind) => Ok((access_float(kind, argument), place)),
        None => Err(CodeError::Malformed),
    }
}

/// The load or store of that kind.
fn access(kind: AccessKind, argument: MemoryArgument) -> Instr
    ensures { (rest : Listed ℕ) → memory_argument argument rest → instruction result (access_code kind ∷ rest) }
{
    if kind.is_load() {
        Instr::Load { kind, argument }
    } else {
        Instr::Store { kind, argument }
    }
}

/// The load or store of a float of that kind.
fn access_float(kind: FloatAccess, argument: MemoryArgument) -> Instr
    ensures { (rest : Listed ℕ) → memory_argument argument rest → instruction result (float_access_code kind ∷ rest) }
{
    Instr::FloatAccess { kind, argument }
}

/// The load or store of a float of that code; None where the byte is the code of none.
fn float_access(code: u8) -> Option<FloatAccess>
    ensures found { IfSome result (λ kind. float_access_code kind ≡ code) }
    ensures none { IfNone result ((kind : _) → float_access_code kind ≡ code → ⊥) }
{
    match code {
        0x2A => Some(FloatAccess::F32Load),
        0x2B => Some(FloatAccess::F64Load),
        0x38 => Some(FloatAccess::F32Store),
        0x39 => Some(FloatAccess::F64Store),
        _ => None,
    }
}

/// Reads the zero byte behind the code of `memory.size` or `memory.grow` (section 5.4.4).
fn read_memory_size(code: u8, bytes: &[u8], at: usize) -> Result<(Instr, usize), CodeError>
    requires within { at ≤ length bytes.now }
    requires code { IsZeroCode code }
    ensures { Reads (behind instruction code) bytes.now at result }
{
    let (reserved, place) = read_byte(bytes, at)?;
    if reserved != 0 {
        return Err(CodeError::Malformed);
    }
    if code == 0x3F {
        Ok((Instr::MemorySize, place))
    } else {
        Ok((Instr::MemoryGrow, place))
    }
}

/// Reads the number of an `i32.const` (section 5.4.5).
fn read_i32_const(bytes: &[u8], at: usize) -> Result<(Instr, usize), CodeError>
    requires { at ≤ length bytes.now }
    ensures { Reads (behind instruction 0x41) bytes.now at result }
{
    let (number, place) = read_i32(bytes, at)?;
    Ok((Instr::I32Const(number), place))
}

/// Reads the number of an `i64.const` (section 5.4.5).
fn read_i64_const(bytes: &[u8], at: usize) -> Result<(Instr, usize), CodeError>
    requires { at ≤ length bytes.now }
    ensures { Reads (behind instruction 0x42) bytes.now at result }
{
    let (number, place) = read_i64(bytes, at)?;
    Ok((Instr::I64Const(number), place))
}

/// Reads the float of an `f32.const` (section 5.4.5).
fn read_f32_const(bytes: &[u8], at: usize) -> Result<(Instr, usize), CodeError>
    requires { at ≤ length bytes.now }
    ensures { Reads (behind instruction 0x43) bytes.now at result }
{
    let (bits, place) = read_f32(bytes, at)?;
    Ok((Instr::F32Const(bits), place))
}

/// Reads the float of an `f64.const` (section 5.4.5).
fn read_f64_const(bytes: &[u8], at: usize) -> Result<(Instr, usize), CodeError>
    requires { at ≤ length bytes.now }
    ensures { Reads (behind instruction 0x44) bytes.now at result }
{
    let (bits, place) = read_f64(bytes, at)?;
    Ok((Instr::F64Const(bits), place))
}

/// Gives the instruction of a code that has nothing behind it.
fn read_bare(code: u8, bytes: &[u8], at: usize) -> Result<(Instr, usize), CodeError>
    requires within { at ≤ length bytes.now }
    requires code { IsOtherCode code }
    ensures { Reads (behind instruction code) bytes.now at result }
{
    match code {
        0x00 => Ok((Instr::Unreachable, at)),
        0x01 => Ok((Instr::Nop, at)),
        0x05 => Ok((Instr::Else, at)),
        0x0B => Ok((Instr::End, at)),
        0x0F => Ok((Instr::Return, at)),
        0x1A => Ok((Instr::Drop, at)),
        0x1B => Ok((Instr::Select, at)),
        _ => read_numeric(code, bytes, at),
    }
}

/// Gives the numeric instruction of a code without immediates (section 5.4.5).
fn read_numeric(code: u8, bytes: &[u8], at: usize) -> Result<(Instr, usize), CodeError>
    requires within { at ≤ length bytes.now }
    requires code { IsNumericCode code }
    ensures { Reads (behind instruction code) bytes.now at result }
{
    if let Some(op) = bl_ops::by_code(code) {
        return Ok((Instr::Integer(op), at));
    }
    match FloatOp::by_code(code) {
        Some(op) => Ok((Instr::Float(op), at)),
        None => Err(CodeError::Malformed),
    }
}
