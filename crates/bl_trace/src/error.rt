//! Why a file gives no start, or no directives.
ghost use Rattle.std.specs.Prelude.{◌≡◌};
ghost use Rattle.bl_trace.specs.declared.error.StartError.TheVariants as start;
ghost use Rattle.bl_trace.specs.declared.error.TraceError.TheVariants as trace;

use bl_base::NoMemory;
use thiserror::Error;

/// Why a start file gives no start. A bad line is told before a want of arguments.
#[derive(Clone, Copy, Debug, PartialEq, Eq, Error)]
pub enum StartError {
    /// The first line that says nothing, counted from 1: it has another form, its argument is beyond the
    /// parameters or not of its parameter's type, or its patch lies outside its memory's first pages.
    #[error("bad line {0}")]
    Line(u64),
    /// No line is bad, and there are fewer arguments than parameters: so many.
    #[error("only {0} arguments")]
    Count(u64),
    /// Memory ran out.
    #[error("out of memory")]
    Memory,
}

impl From<NoMemory> for StartError {
    ghost from_gives = { λ _ e. e ≡ start.Memory };

    fn from(_e: NoMemory) -> StartError {
        StartError::Memory
    }
}

/// Why a trace file gives no directives.
#[derive(Clone, Copy, Debug, PartialEq, Eq, Error)]
pub enum TraceError {
    /// The first line that is no directive, counted from 1.
    #[error("bad line {0}")]
    Line(u64),
    /// Memory ran out.
    #[error("out of memory")]
    Memory,
}

impl From<NoMemory> for TraceError {
    ghost from_gives = { λ _ e. e ≡ trace.Memory };

    fn from(_e: NoMemory) -> TraceError {
        TraceError::Memory
    }
}
