//! Why a linked tree isn't lowered.
ghost use Rattle.std.specs.Prelude.{◌≡◌};
ghost use Rattle.bl_lower.specs.declared.error.LowerError.TheVariants.{Memory};

use bl_base::NoMemory;
use thiserror::Error;

/// Why a linked tree isn't lowered.
#[derive(Clone, Copy, Debug, PartialEq, Eq, Error)]
pub enum LowerError {
    /// Its program would have too many commands: so many, the seven traps among them; 2^64 - 1 stands for every greater
    /// number.
    #[error("{0} commands")]
    Limit(u64),
    /// Memory ran out.
    #[error("out of memory")]
    Memory,
}

impl From<NoMemory> for LowerError {
    ghost from_gives = { λ _ e. e ≡ Memory };

    fn from(_e: NoMemory) -> LowerError {
        LowerError::Memory
    }
}
