//! The shape of each operator.
ghost use Rattle.std.specs.Prelude.{◌≡◌};
ghost use Rattle.bl_select.specs.Shapes.{shape_of as shape_of_op};

use crate::location::Shape;
use bl_ops::Op;
use bl_x64::{Alu, Condition, Count, Extension, Rotation, Size};

/// The table of shapes: in each row an operator, the kind of its shape, and the parts of the shape.
macro_rules! by_row {
    (@rows ($one:expr) $($op:ident $kind:ident $($part:ident)*,)*) => {
        match $one {
            $(Op::$op => by_row!(@$kind $($part)*),)*
            Op::Select => Shape::Select,
            Op::Outside => Shape::Outside,
        }
    };
    (@Alu $op:ident $size:ident) => { Shape::Alu(Alu::$op, Size::$size) };
    (@Multiply $size:ident) => { Shape::Multiply(Size::$size) };
    (@Rotate $op:ident $size:ident) => { Shape::Rotate(Rotation::$op, Size::$size) };
    (@Compare $condition:ident $size:ident) => { Shape::Compare(Condition::$condition, Size::$size) };
    (@IsZero $size:ident) => { Shape::IsZero(Size::$size) };
    (@Count $op:ident $size:ident) => { Shape::Count(Count::$op, Size::$size) };
    (@Extend $how:ident $size:ident) => { Shape::Extend(Extension::$how, Size::$size) };
    (@Same $size:ident) => { Shape::Same(Size::$size) };
    (@Quotient Signed $size:ident) => {
        Shape::Divide { signed: true, rest: false, size: Size::$size }
    };
    (@Quotient Unsigned $size:ident) => {
        Shape::Divide { signed: false, rest: false, size: Size::$size }
    };
    (@Remainder Signed $size:ident) => {
        Shape::Divide { signed: true, rest: true, size: Size::$size }
    };
    (@Remainder Unsigned $size:ident) => {
        Shape::Divide { signed: false, rest: true, size: Size::$size }
    };
    ($one:expr) => {
        by_row!(@rows ($one)
            I32Eqz IsZero Long,
            I32Eq Compare Equal Long,
            I32Ne Compare NotEqual Long,
            I32LtS Compare Less Long,
            I32LtU Compare Below Long,
            I32GtS Compare Greater Long,
            I32GtU Compare Above Long,
            I32LeS Compare LessOrEqual Long,
            I32LeU Compare BelowOrEqual Long,
            I32GeS Compare GreaterOrEqual Long,
            I32GeU Compare AboveOrEqual Long,
            I64Eqz IsZero Quad,
            I64Eq Compare Equal Quad,
            I64Ne Compare NotEqual Quad,
            I64LtS Compare Less Quad,
            I64LtU Compare Below Quad,
            I64GtS Compare Greater Quad,
            I64GtU Compare Above Quad,
            I64LeS Compare LessOrEqual Quad,
            I64LeU Compare BelowOrEqual Quad,
            I64GeS Compare GreaterOrEqual Quad,
            I64GeU Compare AboveOrEqual Quad,
            I32Clz Count Lzcnt Long,
            I32Ctz Count Tzcnt Long,
            I32Popcnt Count Popcnt Long,
            I32Add Alu Add Long,
            I32Sub Alu Sub Long,
            I32Mul Multiply Long,
            I32DivS Quotient Signed Long,
            I32DivU Quotient Unsigned Long,
            I32RemS Remainder Signed Long,
            I32RemU Remainder Unsigned Long,
            I32And Alu And Long,
            I32Or Alu Or Long,
            I32Xor Alu Xor Long,
            I32Shl Rotate Shl Long,
            I32ShrS Rotate Sar Long,
            I32ShrU Rotate Shr Long,
            I32Rotl Rotate Rol Long,
            I32Rotr Rotate Ror Long,
            I64Clz Count Lzcnt Quad,
            I64Ctz Count Tzcnt Quad,
            I64Popcnt Count Popcnt Quad,
            I64Add Alu Add Quad,
            I64Sub Alu Sub Quad,
            I64Mul Multiply Quad,
            I64DivS Quotient Signed Quad,
            I64DivU Quotient Unsigned Quad,
            I64RemS Remainder Signed Quad,
            I64RemU Remainder Unsigned Quad,
            I64And Alu And Quad,
            I64Or Alu Or Quad,
            I64Xor Alu Xor Quad,
            I64Shl Rotate Shl Quad,
            I64ShrS Rotate Sar Quad,
            I64ShrU Rotate Shr Quad,
            I64Rotl Rotate Rol Quad,
            I64Rotr Rotate Ror Quad,
            I32WrapI64 Same Long,
            I64ExtendI32S Extend Sign32 Quad,
            I64ExtendI32U Same Long,
            I32Extend8S Extend Sign8 Long,
            I32Extend16S Extend Sign16 Long,
            I64Extend8S Extend Sign8 Quad,
            I64Extend16S Extend Sign16 Quad,
            I64Extend32S Extend Sign32 Quad,
            Move Same Quad,
        )
    };
}

/// The shape of an operator.
pub fn shape_of(op: Op) -> Shape
    ensures { result ≡ shape_of_op op }
{
    by_row!(op)
}
