//! Operators, their rows and the table of rows.
ghost use Rattle.std.specs.Prelude.{◌≡◌, IsTrue, map};
ghost use Rattle.bl_ops.specs.OperatorTable.{rise};

use bl_base::ValueType;
use std::marker::Model;

/// An operator: the integer operators of WebAssembly 1.0 (section 2.4.1) and the extensions by sign that came after it
/// (version 2.0), in the order of their codes (section 5.4.5), and three of an image.
#[derive(Clone, Copy, Debug, PartialEq, Eq)]
pub enum Op {
    /// `i32.eqz`
    I32Eqz,
    /// `i32.eq`
    I32Eq,
    /// `i32.ne`
    I32Ne,
    /// `i32.lt_s`
    I32LtS,
    /// `i32.lt_u`
    I32LtU,
    /// `i32.gt_s`
    I32GtS,
    /// `i32.gt_u`
    I32GtU,
    /// `i32.le_s`
    I32LeS,
    /// `i32.le_u`
    I32LeU,
    /// `i32.ge_s`
    I32GeS,
    /// `i32.ge_u`
    I32GeU,
    /// `i64.eqz`
    I64Eqz,
    /// `i64.eq`
    I64Eq,
    /// `i64.ne`
    I64Ne,
    /// `i64.lt_s`
    I64LtS,
    /// `i64.lt_u`
    I64LtU,
    /// `i64.gt_s`
    I64GtS,
    /// `i64.gt_u`
    I64GtU,
    /// `i64.le_s`
    I64LeS,
    /// `i64.le_u`
    I64LeU,
    /// `i64.ge_s`
    I64GeS,
    /// `i64.ge_u`
    I64GeU,
    /// `i32.clz`
    I32Clz,
    /// `i32.ctz`
    I32Ctz,
    /// `i32.popcnt`
    I32Popcnt,
    /// `i32.add`
    I32Add,
    /// `i32.sub`
    I32Sub,
    /// `i32.mul`
    I32Mul,
    /// `i32.div_s`
    I32DivS,
    /// `i32.div_u`
    I32DivU,
    /// `i32.rem_s`
    I32RemS,
    /// `i32.rem_u`
    I32RemU,
    /// `i32.and`
    I32And,
    /// `i32.or`
    I32Or,
    /// `i32.xor`
    I32Xor,
    /// `i32.shl`
    I32Shl,
    /// `i32.shr_s`
    I32ShrS,
    /// `i32.shr_u`
    I32ShrU,
    /// `i32.rotl`
    I32Rotl,
    /// `i32.rotr`
    I32Rotr,
    /// `i64.clz`
    I64Clz,
    /// `i64.ctz`
    I64Ctz,
    /// `i64.popcnt`
    I64Popcnt,
    /// `i64.add`
    I64Add,
    /// `i64.sub`
    I64Sub,
    /// `i64.mul`
    I64Mul,
    /// `i64.div_s`
    I64DivS,
    /// `i64.div_u`
    I64DivU,
    /// `i64.rem_s`
    I64RemS,
    /// `i64.rem_u`
    I64RemU,
    /// `i64.and`
    I64And,
    /// `i64.or`
    I64Or,
    /// `i64.xor`
    I64Xor,
    /// `i64.shl`
    I64Shl,
    /// `i64.shr_s`
    I64ShrS,
    /// `i64.shr_u`
    I64ShrU,
    /// `i64.rotl`
    I64Rotl,
    /// `i64.rotr`
    I64Rotr,
    /// `i32.wrap_i64`
    I32WrapI64,
    /// `i64.extend_i32_s`
    I64ExtendI32S,
    /// `i64.extend_i32_u`
    I64ExtendI32U,
    /// `i32.extend8_s` (version 2.0)
    I32Extend8S,
    /// `i32.extend16_s` (version 2.0)
    I32Extend16S,
    /// `i64.extend8_s` (version 2.0)
    I64Extend8S,
    /// `i64.extend16_s` (version 2.0)
    I64Extend16S,
    /// `i64.extend32_s` (version 2.0)
    I64Extend32S,
    /// The first operand itself.
    Move,
    /// The first operand where the third, an i32, isn't 0, and else the second (`select`, section 4.4.2).
    Select,
    /// 1 where an access ends beyond its memory, and else 0. The operands are the address, the pages of the memory, and
    /// the sum of the access's offset and width.
    Outside,
}

/// The row of an integer operator.
#[derive(Clone, Copy, Debug, PartialEq, Eq)]
pub struct OpRow {
    /// The byte of the operator in the binary format.
    pub code: u8,
    /// How many operands it takes: 1 or 2.
    pub operands: u8,
    /// The type of its operands.
    pub from: ValueType,
    /// The type of its result.
    pub to: ValueType,
}

/// Rows in rising order of their codes. Contracts see the list of rows.
#[derive(Clone, Copy, Debug)]
pub struct OpTable<const N: usize> {
    rows: [OpRow; N],
}

impl<const N: usize> Model for OpTable<N> {
    ghost use Rattle.std.specs.Prelude.{IsTrue, List, map};
    ghost use Rattle.bl_ops.specs.OperatorTable.{rise};
    ghost use Rattle.bl_ops.specs.declared.op.OpRow.{OpRow};

    ghost Value = { List OpRow };

    ghost view = { λ table. table.rows };

    ghost inverse = { λ rows. record { rows = rows } };

    ghost invariant = { λ table. IsTrue (rise (map (λ row. row.code) table.rows)) };
}

impl<const N: usize> OpTable<N> {
    /// The table of these rows, whose codes rise.
    pub(crate) fn new(rows: [OpRow; N]) -> OpTable<N>
        requires { IsTrue (rise (map (λ row. row.code) rows)) }
        ensures { result ≡ rows.entry }
    {
        OpTable { rows }
    }

    /// The rows.
    pub fn rows(&self) -> &[OpRow]
        ensures equal { result.now ≡ self.now }
        ensures rise { IsTrue (rise (map (λ row. row.code) result.now)) }
    {
        &self.rows
    }
}
