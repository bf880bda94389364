//! Why a file is no interface, and why two programs aren't joined.
ghost use Rattle.std.specs.Prelude.{◌≡◌};
ghost use Rattle.bl_iface.specs.declared.error.IfaceError.TheVariants as iface;
ghost use Rattle.bl_iface.specs.declared.error.JoinError.TheVariants as join;
ghost use Rattle.bl_iface.specs.declared.error.TargetsError.TheVariants as targets;

use bl_base::{NoMemory, Quantity};
use std::alloc::AllocFailed;
use thiserror::Error;

/// Why a file is no interface.
#[derive(Clone, Copy, Debug, PartialEq, Eq, Error)]
pub enum IfaceError {
    /// The first line that is bad, counted from 1: it has another form, or the name of a line before it.
    #[error("bad line {0}")]
    Line(u64),
    /// Memory ran out.
    #[error("out of memory")]
    Memory,
}

impl From<NoMemory> for IfaceError {
    ghost from_gives = { λ _ e. e ≡ iface.Memory };

    fn from(_e: NoMemory) -> IfaceError {
        IfaceError::Memory
    }
}

impl<T: Drop> From<AllocFailed<T>> for IfaceError {
    ghost from_gives = { λ _ e. e ≡ iface.Memory };

    fn from(_e: AllocFailed<T>) -> IfaceError {
        IfaceError::Memory
    }
}

/// Why the functions of an interface aren't found in a program.
#[derive(Clone, Copy, Debug, PartialEq, Eq, Error)]
pub enum TargetsError {
    /// The first function of the interface that is no export of the program with as many parameters and results: its index, from 0.
    #[error("function {0} of the interface isn't there")]
    Unmatched(u64),
    /// Memory ran out.
    #[error("out of memory")]
    Memory,
}

impl From<NoMemory> for TargetsError {
    ghost from_gives = { λ _ e. e ≡ targets.Memory };

    fn from(_e: NoMemory) -> TargetsError {
        TargetsError::Memory
    }
}

/// Why two programs aren't joined. What stands first here is told first.
#[derive(Clone, Copy, Debug, PartialEq, Eq, Error)]
pub enum JoinError {
    /// The first function of the interface, by its index from 0, that has other types in the client than in the library.
    #[error("function {0} of the interface has two types")]
    Types(u64),
    /// The first export of the library, by its index from 0, that has the name of one of the client's that is kept.
    #[error("the name of export {0} is taken")]
    Export(u64),
    /// A number of both programs together is past its limit: the first of functions, reserve, variables, commands and weight that is.
    #[error("too large: {value}")]
    Limit {
        /// What is counted.
        which: Quantity,
        /// The number.
        value: u64,
    },
    /// Memory ran out.
    #[error("out of memory")]
    Memory,
}

impl From<NoMemory> for JoinError {
    ghost from_gives = { λ _ e. e ≡ join.Memory };

    fn from(_e: NoMemory) -> JoinError {
        JoinError::Memory
    }
}
