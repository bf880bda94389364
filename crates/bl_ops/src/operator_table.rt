//! The table of the operators, and the calls that it makes.
ghost use Rattle.std.specs.Prelude.{◌≡◌, IfSome};
ghost use Rattle.bl_ops.specs.Numerics.{meaning, outside, select, traps};
ghost use Rattle.bl_ops.specs.OperatorTable.{is_division, operator_code, image_code_of, row_of, row_operands, rows};
ghost use Rattle.bl_ops.specs.declared.op.Op.{Op};

use crate::group::{
    Arithmetic, Bitwise, Comparison, Conversion, Division, Extension, Shift, Unary, low,
};
use crate::op::{Op, OpRow, OpTable};
use bl_base::{Trap, ValueType};

/// What a call makes of the table of operators, a row each: the operator, its code, the number of its operands, their
/// type, the type of its result, and the group and the kind there that give its meaning.
macro_rules! by_row {
    ($call:ident($($argument:expr),*)) => {
        by_row!(@$call ($($argument),*)
            I32Eqz 0x45 1 I32 I32 Unary Eqz,
            I32Eq 0x46 2 I32 I32 Comparison Eq,
            I32Ne 0x47 2 I32 I32 Comparison Ne,
            I32LtS 0x48 2 I32 I32 Comparison LtS,
            I32LtU 0x49 2 I32 I32 Comparison LtU,
            I32GtS 0x4A 2 I32 I32 Comparison GtS,
            I32GtU 0x4B 2 I32 I32 Comparison GtU,
            I32LeS 0x4C 2 I32 I32 Comparison LeS,
            I32LeU 0x4D 2 I32 I32 Comparison LeU,
            I32GeS 0x4E 2 I32 I32 Comparison GeS,
            I32GeU 0x4F 2 I32 I32 Comparison GeU,
            I64Eqz 0x50 1 I64 I32 Unary Eqz,
            I64Eq 0x51 2 I64 I32 Comparison Eq,
            I64Ne 0x52 2 I64 I32 Comparison Ne,
            I64LtS 0x53 2 I64 I32 Comparison LtS,
            I64LtU 0x54 2 I64 I32 Comparison LtU,
            I64GtS 0x55 2 I64 I32 Comparison GtS,
            I64GtU 0x56 2 I64 I32 Comparison GtU,
            I64LeS 0x57 2 I64 I32 Comparison LeS,
            I64LeU 0x58 2 I64 I32 Comparison LeU,
            I64GeS 0x59 2 I64 I32 Comparison GeS,
            I64GeU 0x5A 2 I64 I32 Comparison GeU,
            I32Clz 0x67 1 I32 I32 Unary Clz,
            I32Ctz 0x68 1 I32 I32 Unary Ctz,
            I32Popcnt 0x69 1 I32 I32 Unary Popcnt,
            I32Add 0x6A 2 I32 I32 Arithmetic Add,
            I32Sub 0x6B 2 I32 I32 Arithmetic Sub,
            I32Mul 0x6C 2 I32 I32 Arithmetic Mul,
            I32DivS 0x6D 2 I32 I32 Division DivS,
            I32DivU 0x6E 2 I32 I32 Division DivU,
            I32RemS 0x6F 2 I32 I32 Division RemS,
            I32RemU 0x70 2 I32 I32 Division RemU,
            I32And 0x71 2 I32 I32 Bitwise And,
            I32Or 0x72 2 I32 I32 Bitwise Or,
            I32Xor 0x73 2 I32 I32 Bitwise Xor,
            I32Shl 0x74 2 I32 I32 Shift Shl,
            I32ShrS 0x75 2 I32 I32 Shift ShrS,
            I32ShrU 0x76 2 I32 I32 Shift ShrU,
            I32Rotl 0x77 2 I32 I32 Shift Rotl,
            I32Rotr 0x78 2 I32 I32 Shift Rotr,
            I64Clz 0x79 1 I64 I64 Unary Clz,
            I64Ctz 0x7A 1 I64 I64 Unary Ctz,
            I64Popcnt 0x7B 1 I64 I64 Unary Popcnt,
            I64Add 0x7C 2 I64 I64 Arithmetic Add,
            I64Sub 0x7D 2 I64 I64 Arithmetic Sub,
            I64Mul 0x7E 2 I64 I64 Arithmetic Mul,
            I64DivS 0x7F 2 I64 I64 Division DivS,
            I64DivU 0x80 2 I64 I64 Division DivU,
            I64RemS 0x81 2 I64 I64 Division RemS,
            I64RemU 0x82 2 I64 I64 Division RemU,
            I64And 0x83 2 I64 I64 Bitwise And,
            I64Or 0x84 2 I64 I64 Bitwise Or,
            I64Xor 0x85 2 I64 I64 Bitwise Xor,
            I64Shl 0x86 2 I64 I64 Shift Shl,
            I64ShrS 0x87 2 I64 I64 Shift ShrS,
            I64ShrU 0x88 2 I64 I64 Shift ShrU,
            I64Rotl 0x89 2 I64 I64 Shift Rotl,
            I64Rotr 0x8A 2 I64 I64 Shift Rotr,
            I32WrapI64 0xA7 1 I64 I32 Conversion Wrap,
            I64ExtendI32S 0xAC 1 I32 I64 Conversion ExtendS,
            I64ExtendI32U 0xAD 1 I32 I64 Conversion ExtendU,
            I32Extend8S 0xC0 1 I32 I32 Extension Low8,
            I32Extend16S 0xC1 1 I32 I32 Extension Low16,
            I64Extend8S 0xC2 1 I64 I64 Extension Low8,
            I64Extend16S 0xC3 1 I64 I64 Extension Low16,
            I64Extend32S 0xC4 1 I64 I64 Extension Low32,
        )
    };
    (@table ()
        $($op:ident $code:literal $operands:tt $from:ident $to:ident $group:ident $kind:ident,)*
    ) => {
        OpTable::new([$(by_row!(@record $code $operands $from $to),)*])
    };
    (@by_code ($byte:expr)
        $($op:ident $code:literal $operands:tt $from:ident $to:ident $group:ident $kind:ident,)*
    ) => {
        match $byte {
            $($code => Some(Op::$op),)*
            _ => None,
        }
    };
    (@by_image_code ($byte:expr)
        $($op:ident $code:literal $operands:tt $from:ident $to:ident $group:ident $kind:ident,)*
    ) => {
        match $byte {
            0x00 => Some(Op::Move),
            0x01 => Some(Op::Outside),
            0x1B => Some(Op::Select),
            $($code => Some(Op::$op),)*
            _ => None,
        }
    };
    (@image_code ($one:expr)
        $($op:ident $code:literal $operands:tt $from:ident $to:ident $group:ident $kind:ident,)*
    ) => {
        match $one {
            Op::Move => 0x00,
            Op::Outside => 0x01,
            Op::Select => 0x1B,
            $(Op::$op => $code,)*
        }
    };
    (@row ($one:expr)
        $($op:ident $code:literal $operands:tt $from:ident $to:ident $group:ident $kind:ident,)*
    ) => {
        match $one {
            $(Op::$op => Some(by_row!(@record $code $operands $from $to)),)*
            Op::Move | Op::Select | Op::Outside => None,
        }
    };
    (@eval ($one:expr, $a:expr, $b:expr, $c:expr)
        $($op:ident $code:literal $operands:tt $from:ident $to:ident $group:ident $kind:ident,)*
    ) => {
        match $one {
            $(Op::$op => by_row!(@value $operands $from $group $kind, $a, $b),)*
            Op::Move => $a,
            Op::Select => chosen($a, $b, $c),
            Op::Outside => beyond($a, $b, $c),
        }
    };
    (@trap_of ($one:expr, $a:expr, $b:expr)
        $($op:ident $code:literal $operands:tt $from:ident $to:ident $group:ident $kind:ident,)*
    ) => {
        match $one {
            $(Op::$op => by_row!(@trap $from $group $kind, $a, $b),)*
            Op::Move | Op::Select | Op::Outside => None,
        }
    };
    (@is_division ($one:expr)
        $($op:ident $code:literal $operands:tt $from:ident $to:ident $group:ident $kind:ident,)*
    ) => {
        match $one {
            $(Op::$op => by_row!(@divides $group),)*
            Op::Move | Op::Select | Op::Outside => false,
        }
    };
    (@record $code:literal $operands:tt $from:ident $to:ident) => {
        OpRow {
            code: $code,
            operands: $operands,
            from: ValueType::$from,
            to: ValueType::$to,
        }
    };
    (@value 1 $from:ident Conversion $kind:ident, $a:expr, $b:expr) => { Conversion::$kind.apply($a) };
    (@value 1 I32 $group:ident $kind:ident, $a:expr, $b:expr) => { $group::$kind.on_32($a) };
    (@value 1 I64 $group:ident $kind:ident, $a:expr, $b:expr) => { $group::$kind.on_64($a) };
    (@value 2 I32 $group:ident $kind:ident, $a:expr, $b:expr) => { $group::$kind.on_32($a, $b) };
    (@value 2 I64 $group:ident $kind:ident, $a:expr, $b:expr) => { $group::$kind.on_64($a, $b) };
    (@trap I32 Division $kind:ident, $a:expr, $b:expr) => { Division::$kind.trap_32($a, $b) };
    (@trap I64 Division $kind:ident, $a:expr, $b:expr) => { Division::$kind.trap_64($a, $b) };
    (@trap $from:ident $group:ident $kind:ident, $a:expr, $b:expr) => { None };
    (@divides Division) => { true };
    (@divides $group:ident) => { false };
}

impl Op {
    /// Whether it gives a quotient or a remainder.
    pub fn is_division(self) -> bool
        ensures { result ≡ is_division self }
    {
        by_row!(is_division(self))
    }
}

/// The rows of the 66 integer operators.
pub fn table() -> OpTable<66>
    ensures { result ≡ rows }
{
    by_row!(table())
}

/// The integer operator of that code; None where the byte is the code of none.
pub fn by_code(code: u8) -> Option<Op>
    ensures found { IfSome result (λ op. operator_code op ≡ Some code) }
    ensures only { (op : Op) → operator_code op ≡ Some code → result ≡ Some op }
{
    by_row!(by_code(code))
}

/// The byte of an operator in an image: the code of an integer operator, 00 for Move, 01 for Outside, 1B for Select.
pub fn image_code(op: Op) -> u8
    ensures { result ≡ image_code_of op }
{
    by_row!(image_code(op))
}

/// The operator of that byte in an image; None where the byte is that of none.
pub fn by_image_code(code: u8) -> Option<Op>
    ensures found { IfSome result (λ op. image_code_of op ≡ code) }
    ensures only { (op : Op) → image_code_of op ≡ code → result ≡ Some op }
{
    by_row!(by_image_code(code))
}

/// The row of an integer operator; None for Move, Select and Outside.
pub fn row(op: Op) -> Option<OpRow>
    ensures { result ≡ row_of op }
{
    by_row!(row(op))
}

/// The number of operands that an operator's row tells; 0 for Move, Select and Outside, which have no row.
pub fn row_operands(op: Op) -> u8
    ensures { result ≡ row_operands (row_of op) }
{
    match row(op) {
        Some(row) => row.operands,
        None => 0,
    }
}

/// The number that an operator gives of its operands (WebAssembly 1.0, section 4.3.2). An i32 is a number below 2^32, an
/// i64 one below 2^64; an operand of type i32 is taken modulo 2^32. An operator of one operand takes `a`, one of two
/// takes `a` and `b`. Where the standard's operator traps, a quotient or remainder by zero is 0, and the quotient that
/// overflows is the least number. Outside reads its address and pages modulo 2^32 and its reach modulo 2^34.
#[tactic(auto, unfolding(crate::specs::Numerics::meaning))]
pub fn eval(op: Op, a: u64, b: u64, c: u64) -> u64
    ensures { result ≡ meaning op a b c }
{
    by_row!(eval(op, a, b, c))
}

/// The trap of an operator at its operands: DivideByZero for a quotient or remainder by zero, Overflow for the signed
/// quotient of the least number by -1, and None elsewhere (WebAssembly 1.0, section 4.3.2).
#[tactic(auto, unfolding(crate::specs::Numerics::traps))]
pub fn trap_of(op: Op, a: u64, b: u64) -> Option<Trap>
    ensures { result ≡ traps op a b }
{
    by_row!(trap_of(op, a, b))
}

/// `a` where `c` isn't 0 as an i32, else `b`.
fn chosen(a: u64, b: u64, c: u64) -> u64
    ensures { result ≡ select a b c }
{
    if low(c) != 0 { a } else { b }
}

/// 1 where an access that reaches so far from the address ends beyond so many pages of 65,536 bytes, else 0.
fn beyond(address: u64, pages: u64, reach: u64) -> u64
    ensures { result ≡ outside address pages reach }
{
    let end = u64::from(low(address)) + reach % 0x4_0000_0000;
    u64::from(end > u64::from(low(pages)) * 65_536)
}
