//! Instructions and their operands. The page that is named with an instruction is its page in volume 2 of the Intel 64 and IA-32 Architectures
//! Software Developer's Manual.
use crate::register::Register;

/// The size of an instruction's operands.
#[derive(Clone, Copy, Debug, PartialEq, Eq)]
pub enum Size {
    /// 32 bits. A result of 32 bits sets the upper half of its register to zero.
    Long,
    /// 64 bits.
    Quad,
}

/// The number of bytes that a store writes.
#[derive(Clone, Copy, Debug, PartialEq, Eq)]
pub enum Width {
    /// One byte.
    Byte,
    /// Two bytes.
    Word,
    /// Four bytes.
    Long,
    /// Eight bytes.
    Quad,
}

/// A condition on the flags. The variants are in the order of their numbers (volume 1 of the manual, appendix B).
#[derive(Clone, Copy, Debug, PartialEq, Eq)]
pub enum Condition {
    /// `b`: CF.
    Below,
    /// `ae`: not CF.
    AboveOrEqual,
    /// `e`: ZF.
    Equal,
    /// `ne`: not ZF.
    NotEqual,
    /// `be`: CF or ZF.
    BelowOrEqual,
    /// `a`: neither CF nor ZF.
    Above,
    /// `l`: SF is not OF.
    Less,
    /// `ge`: SF is OF.
    GreaterOrEqual,
    /// `le`: ZF, or SF is not OF.
    LessOrEqual,
    /// `g`: not ZF, and SF is OF.
    Greater,
}

/// An operation on two numbers that sets CF, ZF, SF and OF.
#[derive(Clone, Copy, Debug, PartialEq, Eq)]
pub enum Alu {
    /// `add`: the sum.
    Add,
    /// `or`: the bits that are in either number.
    Or,
    /// `and`: the bits that are in both numbers.
    And,
    /// `sub`: the difference.
    Sub,
    /// `xor`: the bits that are in one number and not in the other.
    Xor,
    /// `cmp`: only the flags of the difference.
    Cmp,
}

/// A shift or a rotation by the number in `cl`, modulo the number of bits.
#[derive(Clone, Copy, Debug, PartialEq, Eq)]
pub enum Rotation {
    /// `rol`: a rotation to the left.
    Rol,
    /// `ror`: a rotation to the right.
    Ror,
    /// `shl`: a shift to the left.
    Shl,
    /// `shr`: a shift to the right that fills with zeros.
    Shr,
    /// `sar`: a shift to the right that fills with the sign.
    Sar,
}

/// A count of bits.
#[derive(Clone, Copy, Debug, PartialEq, Eq)]
pub enum Count {
    /// `lzcnt`: the leading zeros.
    Lzcnt,
    /// `tzcnt`: the trailing zeros.
    Tzcnt,
    /// `popcnt`: the ones.
    Popcnt,
}

/// How a number of fewer bits is extended.
#[derive(Clone, Copy, Debug, PartialEq, Eq)]
pub enum Extension {
    /// `movzx`: extends 8 bits with zeros.
    Zero8,
    /// `movzx`: extends 16 bits with zeros.
    Zero16,
    /// `movsx`: extends 8 bits with their sign.
    Sign8,
    /// `movsx`: extends 16 bits with their sign.
    Sign16,
    /// `movsxd`: extends 32 bits with their sign.
    Sign32,
}

/// A memory operand: the sum of the base, of the index if there is one, and of a displacement of 32 bits in two's complement, modulo 2^64.
#[derive(Clone, Copy, Debug, PartialEq, Eq)]
pub struct Address {
    /// The base register.
    pub base: Register,
    /// The index register, with scale 1. `Rsp` cannot be an index.
    pub index: Option<Register>,
    /// The displacement, in two's complement.
    pub displacement: u32,
}

/// An operand that the field r/m of an instruction names.
#[derive(Clone, Copy, Debug, PartialEq, Eq)]
pub enum Place {
    /// A register.
    Register(Register),
    /// Bytes of memory from an address on.
    Memory(Address),
}

/// An instruction. The target of a jump or a call is the number of an instruction in a program of instructions. In the bytes of a program it is the
/// distance from the end of the jump or the call, in two's complement.
#[derive(Clone, Copy, Debug, PartialEq, Eq)]
pub enum Instruction {
    /// `mov r, r/m` ("MOV").
    Mov {
        /// The size of the operands.
        size: Size,
        /// The register that is written.
        to: Register,
        /// The operand that is read.
        from: Place,
    },
    /// `mov m, r` ("MOV").
    Store {
        /// The number of bytes that are written.
        width: Width,
        /// The address of the first byte.
        to: Address,
        /// The operand that is read.
        from: Register,
    },
    /// `mov r, imm` ("MOV"), of 32 bits if the number is below 2^32, else of 64 bits.
    Constant {
        /// The register that is written.
        to: Register,
        /// The number.
        value: u64,
    },
    /// `movzx r, r/m` ("MOVZX"), `movsx r, r/m` or `movsxd r, r/m` ("MOVSX/MOVSXD").
    Extend {
        /// The number of bits that are extended, and how.
        how: Extension,
        /// The size of the result.
        size: Size,
        /// The register that is written.
        to: Register,
        /// The operand that is read.
        from: Place,
    },
    /// `add r, r/m`, or `or`, `and`, `sub`, `xor`, `cmp` (the pages of these names).
    Alu {
        /// The operation.
        op: Alu,
        /// The size of the operands.
        size: Size,
        /// The first operand, and the register that is written.
        to: Register,
        /// The second operand.
        from: Place,
    },
    /// `test r, r` ("TEST").
    Test {
        /// The size of the operands.
        size: Size,
        /// The first operand.
        one: Register,
        /// The second operand.
        other: Register,
    },
    /// `imul r, r/m` ("IMUL", the form with two operands).
    Imul {
        /// The size of the operands.
        size: Size,
        /// The first operand, and the register that is written.
        to: Register,
        /// The second operand.
        from: Place,
    },
    /// `rol r, cl` or `ror` ("RCL/RCR/ROL/ROR"), `shl`, `shr` or `sar` ("SAL/SAR/SHL/SHR").
    Rotate {
        /// The operation.
        op: Rotation,
        /// The size of the operands.
        size: Size,
        /// The operand, and the register that is written.
        to: Register,
    },
    /// `lzcnt r, r/m`, or `tzcnt`, `popcnt` (the pages of these names).
    Count {
        /// The operation.
        op: Count,
        /// The size of the operands.
        size: Size,
        /// The register that is written.
        to: Register,
        /// The operand.
        from: Place,
    },
    /// `setcc r`, which writes the lowest 8 bits of the register ("SETcc").
    SetIf {
        /// The condition.
        condition: Condition,
        /// The register that is written.
        to: Register,
    },
    /// `cmovcc r, r/m` ("CMOVcc").
    MoveIf {
        /// The condition.
        condition: Condition,
        /// The size of the operands.
        size: Size,
        /// The register that is written.
        to: Register,
        /// The operand, which is read whether or not the condition holds.
        from: Place,
    },
    /// `cdq` or `cqo`: the sign of `rax` to all bits of `rdx` ("CWD/CDQ/CQO").
    FillSign {
        /// The size of the operands.
        size: Size,
    },
    /// `div r` ("DIV") or `idiv r` ("IDIV").
    Divide {
        /// Whether it is `idiv`.
        signed: bool,
        /// The size of the operands.
        size: Size,
        /// The divisor.
        by: Register,
    },
    /// `lfence` ("LFENCE").
    Lfence,
    /// `jmp rel32` ("JMP").
    Jump {
        /// The target.
        to: u32,
    },
    /// `jcc rel32` ("Jcc").
    JumpIf {
        /// The condition.
        condition: Condition,
        /// The target.
        to: u32,
    },
    /// `call rel32` ("CALL", a near call with a relative displacement).
    Call {
        /// The target.
        to: u32,
    },
    /// `ret` ("RET", a near return that pops nothing but the address).
    Ret,
}
