//! Instructions, types and vectors by their bytes. All was read off by hand: the binary format of WebAssembly 1.0 (section 5), with block types by index
//! (a number of 33 bits with a sign that isn't negative) and extensions by sign.
use bl_code::{
    CodeError, Index, Malformed, read_block_type, read_expression, read_instr, read_limits,
    read_name, read_sized, read_vec,
};
use bl_ops::{AccessKind, Op};
use bl_wasm::{BlockType, Instr, Limits, MemoryArgument, WasmType};
use std::alloc::Global;
use std::test::Fail;

/// Spellings of block types, and the place after each; None where no block type begins.
static BLOCK_TYPES: [(&[u8], Option<(BlockType, usize)>); 21] = [
    (&[0x40], Some((BlockType::Empty, 1))),
    (&[0x7F], Some((BlockType::Value(WasmType::I32), 1))),
    (&[0x7E], Some((BlockType::Value(WasmType::I64), 1))),
    (&[0x7D], Some((BlockType::Value(WasmType::F32), 1))),
    (&[0x7C], Some((BlockType::Value(WasmType::F64), 1))),
    (&[0x00], Some((BlockType::Index(0), 1))),
    (&[0x3F, 0x0B], Some((BlockType::Index(63), 1))),
    (&[0xC0, 0x00], Some((BlockType::Index(64), 2))),
    (
        &[0x81, 0x80, 0x80, 0x80, 0x00],
        Some((BlockType::Index(1), 5)),
    ),
    (
        &[0xFF, 0xFF, 0xFF, 0xFF, 0x0F],
        Some((BlockType::Index(4_294_967_295), 5)),
    ),
    // no value type, and negative numbers
    (&[0x7B], None),
    (&[0x41], None),
    (&[0xC0, 0x7F], None),
    (&[0xFF, 0x7F], None),
    (&[0xFF, 0xFF, 0xFF, 0xFF, 0x7F], None),
    (&[0x80, 0x80, 0x80, 0x80, 0x70], None),
    // numbers of more than 33 bits, and spellings that are too long or end early
    (&[0x80, 0x80, 0x80, 0x80, 0x10], None),
    (&[0x81, 0x80, 0x80, 0x80, 0x80, 0x00], None),
    (&[0x80], None),
    (&[0xFF, 0xFF, 0xFF, 0xFF], None),
    (&[], None),
];

/// How many spellings are read so before the first that isn't.
fn block_types() -> u32 {
    let mut passed = 0u32;
    for (bytes, found) in &BLOCK_TYPES {
        if read_block_type(*bytes, 0) != found.ok_or(Malformed) {
            break;
        }
        passed = passed.wrapping_add(1);
    }
    passed
}

/// An instruction that is read.
enum Wanted {
    Loop(BlockType),
    LocalGet(u32),
    I32Const(u32),
    F64Const(u64),
    Integer(Op),
    /// Any operator with floats.
    Float,
    Load(AccessKind, MemoryArgument),
    CallIndirect(u32),
}

/// Whether an instruction is that one.
fn is_wanted(item: &Instr, wanted: &Wanted) -> bool {
    match wanted {
        Wanted::Loop(kind) => matches!(item, Instr::Loop(found) if *found == *kind),
        Wanted::LocalGet(x) => matches!(item, Instr::LocalGet(found) if *found == *x),
        Wanted::I32Const(x) => matches!(item, Instr::I32Const(found) if *found == *x),
        Wanted::F64Const(x) => matches!(item, Instr::F64Const(found) if *found == *x),
        Wanted::Integer(op) => matches!(item, Instr::Integer(found) if *found == *op),
        Wanted::Float => matches!(item, Instr::Float(_)),
        Wanted::Load(access, place) => {
            matches!(item, Instr::Load { kind, argument } if *kind == *access && *argument == *place)
        }
        Wanted::CallIndirect(x) => matches!(item, Instr::CallIndirect(found) if *found == *x),
    }
}

/// Bytes, the place where an instruction is read, the instruction, and the place behind it.
type Item = (&'static [u8], usize, Wanted, usize);

/// Whether that instruction is read.
fn is_read(alloc: Global, item: &Item) -> bool {
    let (bytes, at, wanted, end) = item;
    if *at > bytes.len() {
        return false;
    }
    match &read_instr(alloc, *bytes, *at) {
        Ok((found, place)) => *place == *end && is_wanted(found, wanted),
        Err(_) => false,
    }
}

/// How many instructions are read before the first that isn't.
fn items(alloc: Global, items: &[Item]) -> u32 {
    let mut passed = 0u32;
    for item in items {
        if !is_read(alloc, item) {
            break;
        }
        passed = passed.wrapping_add(1);
    }
    passed
}

/// Whether no instruction begins there.
fn is_malformed(alloc: Global, bytes: &[u8]) -> bool {
    let found = read_instr(alloc, bytes, 0);
    matches!(&found, Err(CodeError::Malformed))
}

static LOOP: [Item; 1] = [(&[0x03, 0x81, 0x00], 0, Wanted::Loop(BlockType::Index(1)), 3)];

#[test]
fn a_block_type_is_nothing_a_value_type_or_an_index(rt: HostRuntime) -> Result<(), Fail> {
    assert_eq!(rt; block_types(), 21);
    assert_eq!(rt; items(rt.alloc(), &LOOP), 1);
    assert!(rt; is_malformed(rt.alloc(), &[0x04, 0xFF, 0x7F]));
    Ok(())
}

static EXTENSIONS: [Item; 2] = [
    (&[0xC0], 0, Wanted::Integer(Op::I32Extend8S), 1),
    (&[0xC4], 0, Wanted::Integer(Op::I64Extend32S), 1),
];

#[test]
fn extensions_by_sign_are_integer_operators(rt: HostRuntime) -> Result<(), Fail> {
    assert_eq!(rt; items(rt.alloc(), &EXTENSIONS), 2);
    Ok(())
}

static ITEMS: [Item; 7] = [
    (&[0x20, 0x05], 0, Wanted::LocalGet(5), 2),
    (&[0x00, 0x41, 0x7F], 1, Wanted::I32Const(0xFFFF_FFFF), 3),
    (&[0x6A], 0, Wanted::Integer(Op::I32Add), 1),
    (
        &[0x2D, 0x00, 0x88, 0x00],
        0,
        Wanted::Load(
            AccessKind::I32Load8U,
            MemoryArgument {
                alignment: 0,
                offset: 8,
            },
        ),
        4,
    ),
    (
        &[0x44, 0, 0, 0, 0, 0, 0, 0xF0, 0x3F],
        0,
        Wanted::F64Const(0x3FF0_0000_0000_0000),
        9,
    ),
    (&[0x8B], 0, Wanted::Float, 1),
    (&[0x11, 0x01, 0x80, 0x00], 0, Wanted::CallIndirect(1), 4),
];

#[test]
fn instructions_are_those_of_the_opcode_table(rt: HostRuntime) -> Result<(), Fail> {
    assert_eq!(rt; items(rt.alloc(), &ITEMS), 7);
    Ok(())
}

/// Bytes that begin no instruction.
static NO_INSTRUCTIONS: [&[u8]; 19] = [
    &[],
    // immediates that end early
    &[0x41],
    &[0x42, 0x80],
    &[0x0C],
    &[0x20, 0x80],
    &[0x28, 0x02],
    &[0x2A, 0x02],
    &[0x43, 0x00, 0x00, 0x00],
    &[0x44, 0x00, 0x00, 0x00, 0x00, 0x00, 0x00, 0x00],
    // reserved immediates that aren't zero
    &[0x11, 0x00, 0x01],
    &[0x3F, 0x01],
    &[0x40, 0x80, 0x00],
    // codes of no instruction
    &[0x06],
    &[0x12],
    &[0xC5],
    // no block type
    &[0x02, 0x7B],
    // labels that end early
    &[0x0E, 0x01, 0x00],
    &[0x0E, 0xFF, 0xFF, 0xFF, 0xFF, 0x0F, 0x00, 0x00],
    // an index of more than 32 bits
    &[0x10, 0x80, 0x80, 0x80, 0x80, 0x10],
];

/// How many of them are malformed before the first that isn't.
fn no_instructions(alloc: Global) -> u32 {
    let mut passed = 0u32;
    for bytes in &NO_INSTRUCTIONS {
        if !is_malformed(alloc, *bytes) {
            break;
        }
        passed = passed.wrapping_add(1);
    }
    passed
}

#[test]
fn what_begins_no_instruction_is_malformed(rt: HostRuntime) -> Result<(), Fail> {
    assert_eq!(rt; no_instructions(rt.alloc()), 19);
    Ok(())
}

/// Whether an expression of so many items is read up to that place.
fn has_items(alloc: Global, bytes: &[u8], count: usize, end: usize) -> bool {
    match &read_expression(alloc, bytes, 0) {
        Ok((items, place)) => items.len() == count && *place == end,
        Err(_) => false,
    }
}

/// Bytes that begin no expression.
static NO_EXPRESSIONS: [&[u8]; 4] = [
    &[0x05, 0x0B],
    &[0x02, 0x40, 0x05, 0x0B, 0x0B],
    &[0x04, 0x40, 0x05, 0x05, 0x0B, 0x0B],
    &[0x03, 0x40, 0x0B],
];

/// Whether no expression begins there.
fn has_no_end(alloc: Global, bytes: &[u8]) -> bool {
    let found = read_expression(alloc, bytes, 0);
    matches!(&found, Err(CodeError::Malformed))
}

/// How many of them are malformed before the first that isn't.
fn no_expressions(alloc: Global) -> u32 {
    let mut passed = 0u32;
    for bytes in &NO_EXPRESSIONS {
        if !has_no_end(alloc, *bytes) {
            break;
        }
        passed = passed.wrapping_add(1);
    }
    passed
}

#[test]
fn an_expression_ends_with_its_own_end(rt: HostRuntime) -> Result<(), Fail> {
    let bytes = [0x04, 0x40, 0x01, 0x05, 0x02, 0x7F, 0x0B, 0x0B, 0x0B, 0x0B];
    assert!(rt; has_items(rt.alloc(), &bytes, 6, 9));
    assert_eq!(rt; no_expressions(rt.alloc()), 4);
    Ok(())
}

/// Whether a name of those bytes is read, up to the place 3.
fn is_name(alloc: Global, bytes: &[u8], name: &[u8]) -> bool {
    match &read_name(alloc, bytes, 0) {
        Ok((found, place)) => found.as_slice() == name && *place == 3,
        Err(_) => false,
    }
}

/// Whether no name begins there.
fn is_no_name(alloc: Global, bytes: &[u8]) -> bool {
    let found = read_name(alloc, bytes, 0);
    matches!(&found, Err(CodeError::Malformed))
}

/// Whether a vector of those indices is read, up to the place 4.
fn are_indices(alloc: Global, bytes: &[u8], indices: &[u32]) -> bool {
    match &read_vec::<Index>(alloc, bytes, 0) {
        Ok((found, place)) => found.as_slice() == indices && *place == 4,
        Err(_) => false,
    }
}

/// Whether an index behind its size is read so.
fn is_sized(alloc: Global, bytes: &[u8], wanted: Result<(u32, usize), CodeError>) -> bool {
    read_sized::<Index>(alloc, bytes, 0) == wanted
}

/// Whether limits are read so.
fn are_limits(bytes: &[u8], wanted: Result<(Limits, usize), Malformed>) -> bool {
    read_limits(bytes, 0) == wanted
}

#[test]
fn values_types_and_vectors_are_read(rt: HostRuntime) -> Result<(), Fail> {
    let limits = Limits {
        min: 1,
        max: Some(128),
    };
    let malformed = Err(CodeError::Malformed);
    assert!(rt; is_name(rt.alloc(), &[0x02, 0xC3, 0xA9], &[0xC3, 0xA9]));
    assert!(rt; is_no_name(rt.alloc(), &[0x01, 0xC3]));
    assert!(rt; are_limits(&[0x01, 0x01, 0x80, 0x01], Ok((limits, 4))));
    assert!(rt; are_limits(&[0x02, 0x01], Err(Malformed)));
    assert!(rt; are_indices(rt.alloc(), &[0x02, 0x07, 0x87, 0x00], &[7, 7]));
    assert!(rt; is_sized(rt.alloc(), &[0x02, 0x87, 0x00], Ok((7, 3))));
    assert!(rt; is_sized(rt.alloc(), &[0x02, 0x07, 0x00], malformed));
    assert!(rt; is_sized(rt.alloc(), &[0x02, 0x87], malformed));
    Ok(())
}
