//! Why nothing was read.
ghost use Rattle.std.specs.Prelude.{◌≡◌};
ghost use Rattle.bl_code.specs.declared.error.CodeError.TheVariants.{Malformed as IsMalformed, Memory};

use bl_base::NoMemory;
use std::alloc::AllocFailed;
use thiserror::Error;

/// Why a reader gives nothing.
#[derive(Clone, Copy, Debug, PartialEq, Eq, Error)]
pub enum CodeError {
    /// The bytes from the place on begin with no spelling.
    #[error("malformed")]
    Malformed,
    /// Memory ran out.
    #[error("out of memory")]
    Memory,
}

/// The bytes from the place on begin with no spelling: why a reader that takes no memory gives nothing.
#[derive(Clone, Copy, Debug, PartialEq, Eq, Error)]
#[error("malformed")]
pub struct Malformed;

impl From<Malformed> for CodeError {
    ghost from_gives = { λ _ e. e ≡ IsMalformed };

    fn from(_e: Malformed) -> CodeError {
        CodeError::Malformed
    }
}

impl From<NoMemory> for CodeError {
    ghost from_gives = { λ _ e. e ≡ Memory };

    fn from(_e: NoMemory) -> CodeError {
        CodeError::Memory
    }
}

impl<T: Drop> From<AllocFailed<T>> for CodeError {
    ghost from_gives = { λ _ e. e ≡ Memory };

    fn from(_e: AllocFailed<T>) -> CodeError {
        CodeError::Memory
    }
}
