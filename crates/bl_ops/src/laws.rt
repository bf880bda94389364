//! Laws of the operators. Each is the contract of a function that does nothing.
ghost use Rattle.std.specs.Prelude.{◌≡◌, ℕ, ◌*◌, ◌^◌, ◌<◌, IfSome, IsTrue, map};
ghost use Rattle.bl_base.specs.Fits.{ArgumentFits};
ghost use Rattle.bl_ops.specs.Access.{access_code as access_code_of, extended, access_kind, narrowed, access_type, width_of};
ghost use Rattle.bl_ops.specs.Numerics.{meaning};
ghost use Rattle.bl_ops.specs.OperatorTable.{operator_code, image_code_of, image_operator_of, operator_of, rise, row_of, rows};

use crate::access::AccessKind;
use crate::op::Op;

/// The codes of the table rise.
pub fn codes_rise()
    ensures { IsTrue (rise (map (λ row. row.code) rows)) }
{}

/// An operator that is taken to its code and back is the same operator: the code of its row is that of no other row, and
/// its code in an image is that of no other operator.
pub fn operators_return(op: Op)
    ensures row { IfSome (row_of op) (λ row. operator_of row.code ≡ Some op) }
    ensures image { image_operator_of (image_code_of op) ≡ Some op }
{}

/// A code that is taken to its operator and back is the same code, in the binary format and in an image.
pub fn codes_return(op: Op)
    ensures row { (code : ℕ) → operator_of code ≡ Some op → operator_code op ≡ Some code }
    ensures image { (code : ℕ) → image_operator_of code ≡ Some op → image_code_of op ≡ code }
{}

/// The number that an operator gives is a value of its row's type.
#[tactic(auto, using(crate::proofs::Fits::meaning_fits))]
pub fn values_fit(op: Op, a: u64, b: u64, c: u64)
    ensures { IfSome (row_of op) (λ row. ArgumentFits row.to (meaning op a b c)) }
{}

/// An access that is taken to its code and back is the same access, and so is a code.
pub fn access_codes_return(kind: AccessKind)
    ensures kind { access_kind (access_code_of kind) ≡ Some kind }
    ensures code { (code : ℕ) → access_kind code ≡ Some kind → access_code_of kind ≡ code }
{}

/// What a load makes of its bytes is a value of its type, and what a store makes of a value are bytes of its width.
#[tactic(auto, using(crate::proofs::Fits::load_fits, crate::proofs::Fits::store_fits))]
pub fn accesses_fit(kind: AccessKind, number: u64)
    ensures load { number < 2 ^ (8 * width_of kind)
        → ArgumentFits (access_type kind) (extended kind number) }
    ensures store { narrowed kind number < 2 ^ (8 * width_of kind) }
{}
