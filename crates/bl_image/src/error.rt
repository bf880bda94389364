//! Why nothing was read.
ghost use Rattle.std.specs.Prelude.{◌≡◌};
ghost use Rattle.bl_image.specs.declared.error.ReadError.TheVariants.{Memory, NotAnImage};

use bl_base::{NoMemory, Pos};
use std::alloc::AllocFailed;
use thiserror::Error;

/// Why bytes give no well-formed program.
#[derive(Clone, Copy, Debug, PartialEq, Eq, Error)]
pub enum ImageError {
    /// The bytes are the image of no program.
    #[error("not an image")]
    NotAnImage,
    /// The bytes are the image of a program that isn't well-formed.
    #[error("rule {rule} is broken at {}", position.0)]
    IllFormed {
        /// The number of the first rule that is broken, from 1 to 9.
        rule: u8,
        /// The position where it is broken; 0 for rules 1 to 3 and 9, which speak of the whole program.
        position: Pos,
    },
    /// Memory ran out.
    #[error("out of memory")]
    Memory,
}

/// Why a reader of a part gives nothing.
#[derive(Clone, Copy, Debug, PartialEq, Eq, Error)]
pub enum ReadError {
    /// The bytes from the place on begin with no spelling of the part.
    #[error("not an image")]
    NotAnImage,
    /// Memory ran out.
    #[error("out of memory")]
    Memory,
}

/// The bytes from the place on begin with no spelling of the part: why a reader that takes no memory gives nothing.
#[derive(Clone, Copy, Debug, PartialEq, Eq, Error)]
#[error("malformed")]
pub struct Malformed;

impl From<Malformed> for ReadError {
    ghost from_gives = { λ _ e. e ≡ NotAnImage };

    fn from(_e: Malformed) -> ReadError {
        ReadError::NotAnImage
    }
}

impl From<NoMemory> for ReadError {
    ghost from_gives = { λ _ e. e ≡ Memory };

    fn from(_e: NoMemory) -> ReadError {
        ReadError::Memory
    }
}

impl<T: Drop> From<AllocFailed<T>> for ReadError {
    ghost from_gives = { λ _ e. e ≡ Memory };

    fn from(_e: AllocFailed<T>) -> ReadError {
        ReadError::Memory
    }
}
