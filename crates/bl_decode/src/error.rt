//! Why bytes aren't decoded.
ghost use Rattle.std.specs.Prelude.{◌≡◌};
ghost use Rattle.bl_decode.specs.declared.error.DecodeError.TheVariants.{Malformed, Memory};

use bl_base::Quantity;
use bl_code::CodeError;
use thiserror::Error;

/// Why bytes aren't decoded. Where several causes stand together, the first in this order is the one that is given.
#[derive(Clone, Copy, Debug, PartialEq, Eq, Error)]
pub enum DecodeError {
    /// The bytes spell no module.
    #[error("malformed")]
    Malformed,
    /// The module has floats or a start function.
    #[error("unsupported")]
    Unsupported,
    /// The module is too large.
    #[error("too much of a quantity")]
    Limit {
        /// The first quantity that is above its number.
        which: Quantity,
        /// Its value.
        value: u64,
    },
    /// Memory ran out.
    #[error("out of memory")]
    Memory,
}
