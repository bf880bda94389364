//! From the bytes of an image to an exported function of its program, with the directives of a trace file and a start.
ghost use Rattle.std.specs.Prelude.{IfOk};
ghost use Rattle.bl_build.specs.{TraceStages.speculating, StageAnswers.IsPrepared, StageAnswers.speculated_in};
ghost use Rattle.bl_job.specs.WorkAnswers.{IsStaged};

use crate::directives::read_directives;
use crate::entry::find_export;
use crate::prepared::{Prepared, start_found};
use bl_base::List;
use bl_job::WorkError;
use bl_rob::Directive;
use std::alloc::Global;

/// A function of an image's program with a start of it, and directives.
#[derive(Drop)]
pub struct Speculation {
    /// The function and its start.
    pub prepared: Prepared,
    /// The directives, in order.
    pub directives: List<Directive>,
}

/// The function of an image's program that is exported under a name, the directives of a trace file, and the start of the function that a start
/// file asks for; Refused exactly where one of them is, with the first in this order. Linear in the exports, the function's parameters, the
/// memories and the bytes, but for what the check of a program takes.
pub fn prepare_speculation(
    alloc: Global,
    image: &[u8],
    export: &str,
    trace: &[u8],
    start: &[u8],
) -> Result<Speculation, WorkError>
    ensures staged { IsStaged (speculating export.now trace.now start.now) speculated_in image.now result }
    ensures fits { IfOk result (λ speculation. IsPrepared speculation.prepared) }
{
    let found = match find_export(alloc, image, export) {
        Ok(found) => found,
        Err(error) => return Err(error),
    };
    let directives = match read_directives(alloc, trace) {
        Ok(directives) => directives,
        Err(error) => return Err(error),
    };
    match start_found(alloc, found, start) {
        Ok(prepared) => Ok(Speculation {
            prepared,
            directives,
        }),
        Err(error) => Err(error),
    }
}
