//! Why counts don't weigh a program, and why a count file isn't read.
ghost use Rattle.std.specs.Prelude.{◌≡◌};
ghost use Rattle.bl_counts.specs.declared.error.CountFileError.TheVariants as file;

use bl_base::{NoMemory, Pos};
use thiserror::Error;

/// Why counts don't weigh a program. A position is told before the sum.
#[derive(Clone, Copy, Debug, Error)]
pub enum CountError {
    /// The first position that isn't a site or doesn't rise.
    #[error("no site {0:?}")]
    Site(Pos),
    /// The sum of the counts, where it is above 4,294,967,295.
    #[error("counts add up to {0}")]
    Total(u64),
    /// Memory ran out.
    #[error("out of memory")]
    Memory,
}

/// Why a count file isn't read.
#[derive(Clone, Copy, Debug, Error)]
pub enum CountFileError {
    /// The number of the first bad line, from 1.
    #[error("line {0} is bad")]
    Line(u64),
    /// Memory ran out.
    #[error("out of memory")]
    Memory,
}

impl From<NoMemory> for CountFileError {
    ghost from_gives = { λ _ e. e ≡ file.Memory };

    fn from(_e: NoMemory) -> CountFileError {
        CountFileError::Memory
    }
}
