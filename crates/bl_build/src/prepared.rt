//! From the bytes of an image to an exported function of its program, with the start that a start file asks for.
ghost use Rattle.std.specs.Prelude.{◌≡◌, ◌<◌, IfOk, length};
ghost use Rattle.bl_build.specs.EntryStages.{entering, starting};
ghost use Rattle.bl_job.specs.WorkAnswers.{IsStaged};
ghost use Rattle.bl_build.specs.StageAnswers.{IsPrepared, found_in, prepared_in};

use crate::entry::{Found, definition, find_export, read_entry_start};
use bl_base::Start;
use bl_job::WorkError;
use bl_program::{FunctionDef, WellFormed};
use std::alloc::Global;

/// The program of an image, a function of it, and a start of the function.
#[derive(Drop)]
pub struct Prepared {
    /// The program.
    pub program: WellFormed,
    /// The function's number.
    pub function: u32,
    /// The start; it fits the function.
    pub start: Start,
}

impl Prepared {
    /// What the program says of the function.
    pub fn defined(&self) -> &FunctionDef
        requires { IsPrepared self.now }
        ensures { result.now ≡ (prepared_in self.now).entry.defined }
    {
        definition(&self.program, self.function)
    }
}

/// The function of an image's program that is exported under a name, with the start of it that a start file asks for; Refused exactly where
/// one of them is, with the first in this order. Linear in the exports, the function's parameters, the memories and the bytes, but for what
/// the check of a program takes.
pub fn prepare(
    alloc: Global,
    image: &[u8],
    export: &str,
    start: &[u8],
) -> Result<Prepared, WorkError>
    ensures staged { IsStaged (entering export.now start.now) prepared_in image.now result }
    ensures fits { IfOk result IsPrepared }
{
    match find_export(alloc, image, export) {
        Ok(found) => start_found(alloc, found, start),
        Err(error) => Err(error),
    }
}

/// A function that was found, with the start of it that a start file asks for.
pub(crate) fn start_found(alloc: Global, found: Found, bytes: &[u8]) -> Result<Prepared, WorkError>
    requires { found.function < length found.program.functions }
    ensures staged { IsStaged (starting bytes.now) prepared_in (found_in found) result }
    ensures fits { IfOk result IsPrepared }
{
    match read_entry_start(alloc, &found.program, found.function, bytes) {
        Ok(start) => Ok(Prepared {
            program: found.program,
            function: found.function,
            start,
        }),
        Err(error) => Err(error),
    }
}
