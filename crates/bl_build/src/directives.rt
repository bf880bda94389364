//! From the bytes of a trace file to its directives.
ghost use Rattle.bl_job.specs.WorkAnswers.{IsTold};
ghost use Rattle.bl_build.specs.StageAnswers.{IsTraced, refusal_of_trace};

use bl_base::{List, Quantity};
use bl_job::{Reason, WorkError, limit, refused_at};
use bl_rob::Directive;
use bl_trace::{TraceError, count_lines, read_trace};
use std::alloc::Global;

/// The directives of a trace file; Refused exactly where it has too many lines, or a line is no directive.
pub(crate) fn read_directives(alloc: Global, bytes: &[u8]) -> Result<List<Directive>, WorkError>
    ensures { IsTraced bytes.now result }
{
    let count = count_lines(bytes);
    if count > Quantity::Directives.limit() {
        return Err(limit(alloc, Quantity::Directives, count));
    }
    match read_trace(alloc, bytes) {
        Ok(directives) => Ok(directives),
        Err(error) => Err(of_trace(alloc, error)),
    }
}

/// Why there are no directives.
fn of_trace(alloc: Global, error: TraceError) -> WorkError
    ensures { IsTold (refusal_of_trace error) result }
{
    match error {
        TraceError::Line(number) => refused_at(alloc, Reason::Trace, "trace: line ", "", number),
        TraceError::Memory => WorkError::Memory,
    }
}
