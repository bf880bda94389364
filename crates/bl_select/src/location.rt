//! The locations of variables, and the shapes of operators.
use bl_x64::{Alu, Condition, Count, Extension, Register, Rotation, Size};

/// The location of a variable.
#[derive(Clone, Copy, Debug, PartialEq, Eq)]
pub enum Location {
    /// A register.
    Register(Register),
    /// 8 bytes of the frame, at a displacement from its beginning, which is in `rsp`.
    Slot(u32),
    /// 8 bytes of the context, at a displacement from its beginning, which is in `r15`.
    Context(u32),
}

/// The source of an operand.
#[derive(Clone, Copy, Debug, PartialEq, Eq)]
pub enum Source {
    /// A location.
    At(Location),
    /// A number.
    Number(u64),
}

/// The kind of instructions that compute an operator. They load its operands to `rax`, `rcx` and `rdx`, and leave its value in `rax`.
#[derive(Clone, Copy, Debug, PartialEq, Eq)]
pub enum Shape {
    /// One operation of two operands.
    Alu(Alu, Size),
    /// A product.
    Multiply(Size),
    /// A shift or a rotation.
    Rotate(Rotation, Size),
    /// A comparison, with the value 1 or 0.
    Compare(Condition, Size),
    /// The test for zero, with the value 1 or 0.
    IsZero(Size),
    /// A count of bits.
    Count(Count, Size),
    /// An extension to a size.
    Extend(Extension, Size),
    /// The operand itself, at a size.
    Same(Size),
    /// The first operand if the third is not 0, else the second.
    Select,
    /// The bounds test of an access.
    Outside,
    /// A quotient or a remainder.
    Divide {
        /// Whether the operands are signed.
        signed: bool,
        /// Whether the value is the remainder.
        rest: bool,
        /// The size of the operands.
        size: Size,
    },
}
