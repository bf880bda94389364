//! From the bytes of an image to an exported function of its program, with the directives of a trace file and two starts.
ghost use Rattle.std.specs.Prelude.{IfOk};
ghost use Rattle.bl_build.specs.TraceStages.{twinning};
ghost use Rattle.bl_job.specs.WorkAnswers.{IsStaged};
ghost use Rattle.bl_build.specs.StageAnswers.{HasOther, IsPrepared, twinned_in};

use crate::entry::read_entry_start;
use crate::speculation::{Speculation, prepare_speculation};
use bl_base::Start;
use bl_job::WorkError;
use std::alloc::Global;

/// A function of an image's program with a start of it, and directives; and another start.
#[derive(Drop)]
pub struct Twins {
    /// The function, its first start and the directives.
    pub speculation: Speculation,
    /// The other start; it fits the function too.
    pub other: Start,
}

/// The function of an image's program that is exported under a name, the directives of a trace file, and the two starts of the function that two
/// start files ask for; Refused exactly where one of them is, with the first in this order. Linear in the exports, the function's parameters,
/// the memories and the bytes, but for what the check of a program takes.
pub fn prepare_twins(
    alloc: Global,
    image: &[u8],
    export: &str,
    trace: &[u8],
    start: &[u8],
    other: &[u8],
) -> Result<Twins, WorkError>
    ensures staged { IsStaged (twinning export.now trace.now start.now other.now) twinned_in image.now result }
    ensures fits { IfOk result (λ twins. IsPrepared twins.speculation.prepared) }
    ensures other { IfOk result HasOther }
{
    let speculation = match prepare_speculation(alloc, image, export, trace, start) {
        Ok(speculation) => speculation,
        Err(error) => return Err(error),
    };
    let prepared = &speculation.prepared;
    match read_entry_start(alloc, &prepared.program, prepared.function, other) {
        Ok(other) => Ok(Twins { speculation, other }),
        Err(error) => Err(error),
    }
}
