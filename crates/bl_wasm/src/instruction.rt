//! Instructions (WebAssembly 1.0, section 2.4).
use crate::float::{FloatAccess, FloatOp};
use crate::targets::Targets;
use crate::types::BlockType;
use bl_ops::{AccessKind, Op};

/// One item of a body. A body is a flat list of these, in which a block, loop or if stands before its items, and its
/// `end` after them; the `end` of the body itself isn't an item. Labels count the constructs round the item, from 0
/// for the innermost.
#[derive(Debug, Drop)]
pub enum Instr {
    /// `unreachable` (section 2.4.5).
    Unreachable,
    /// `nop`.
    Nop,
    /// `block` with its type.
    Block(BlockType),
    /// `loop` with its type.
    Loop(BlockType),
    /// `if` with its type.
    If(BlockType),
    /// `else`: the then part of an if ends, and its else part begins.
    Else,
    /// `end` of a block, a loop or an if.
    End,
    /// `br` to that label.
    Br(u32),
    /// `br_if` to that label.
    BrIf(u32),
    /// `br_table`.
    BrTable {
        /// The label where the index is past the others.
        default: u32,
        /// The other labels by index.
        targets: Targets,
    },
    /// `return`.
    Return,
    /// `call` of the function of that index, imports first.
    Call(u32),
    /// `call_indirect` at the type of that index.
    CallIndirect(u32),
    /// `drop` (section 2.4.2).
    Drop,
    /// `select`.
    Select,
    /// `local.get` of the local of that index, parameters first (section 2.4.3).
    LocalGet(u32),
    /// `local.set` of the local of that index.
    LocalSet(u32),
    /// `local.tee` of the local of that index.
    LocalTee(u32),
    /// `global.get` of the global of that index, imports first.
    GlobalGet(u32),
    /// `global.set` of the global of that index.
    GlobalSet(u32),
    /// A load of an integer (section 2.4.4).
    Load {
        /// Which of the loads.
        kind: AccessKind,
        /// Its immediate.
        argument: MemoryArgument,
    },
    /// A store of an integer.
    Store {
        /// Which of the stores.
        kind: AccessKind,
        /// Its immediate.
        argument: MemoryArgument,
    },
    /// A load or a store of a float.
    FloatAccess {
        /// Which one.
        kind: FloatAccess,
        /// Its immediate.
        argument: MemoryArgument,
    },
    /// `memory.size`.
    MemorySize,
    /// `memory.grow`.
    MemoryGrow,
    /// `i32.const` of that number, unsigned (section 2.4.1).
    I32Const(u32),
    /// `i64.const` of that number, unsigned.
    I64Const(u64),
    /// `f32.const` of the float whose bits are those of this number (IEEE 754, binary32).
    F32Const(u32),
    /// `f64.const` of the float whose bits are those of this number (IEEE 754, binary64).
    F64Const(u64),
    /// A numeric operator on integers, one of the 66 that have a code.
    Integer(Op),
    /// A numeric operator with floats.
    Float(FloatOp),
}

/// The immediate of a load or a store (section 2.4.4).
#[derive(Clone, Copy, Debug, PartialEq, Eq)]
pub struct MemoryArgument {
    /// The exponent of the alignment, which is 2^alignment bytes.
    pub alignment: u32,
    /// What is added to the address, in bytes.
    pub offset: u32,
}
