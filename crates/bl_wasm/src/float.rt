//! Instructions on floats, which the tree holds and nothing runs.
ghost use Rattle.std.specs.Prelude.{◌≡◌, ℕ, IfSome, IfNone};
ghost use Rattle.bl_wasm.specs.Codes.{IsFloatCode};

use std::marker::Model;

/// A numeric operator with a float among its operands or its result (WebAssembly 1.0, section 2.4.1). Contracts see
/// its code: one from 45 to BF that is the code of no integer operator.
#[derive(Clone, Copy, Debug)]
pub struct FloatOp {
    code: u8,
}

impl Model for FloatOp {
    ghost Value = { ℕ };

    ghost view = { λ op. op.code };

    ghost inverse = { λ code. record { code = code } };

    ghost invariant = { λ op. IsFloatCode op.code };
}

impl FloatOp {
    /// The operator of that code; None where the byte is the code of none.
    pub fn by_code(code: u8) -> Option<FloatOp>
        ensures found { IfSome result (λ op. op ≡ code) }
        ensures none { IfNone result (IsFloatCode code → ⊥) }
    {
        if matches!(code, 0x45..=0xBF) && bl_ops::by_code(code).is_none() {
            Some(FloatOp { code })
        } else {
            None
        }
    }

    /// The byte of the operator in the binary format (section 5.4.5).
    pub fn code(self) -> u8
        ensures { result ≡ self }
    {
        self.code
    }
}

/// A load or a store of a float (section 2.4.4).
#[derive(Clone, Copy, Debug, PartialEq, Eq)]
pub enum FloatAccess {
    /// `f32.load`
    F32Load,
    /// `f64.load`
    F64Load,
    /// `f32.store`
    F32Store,
    /// `f64.store`
    F64Store,
}
