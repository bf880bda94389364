//! Exports that are absent, and start files that give no start.
ghost use Rattle.std.specs.Prelude.{Some};
ghost use Rattle.bl_build.specs.{EntryStages.no_export, StageAnswers.refusal_of_start};
ghost use Rattle.bl_job.specs.WorkAnswers.{IsTold};

use bl_job::{Reason, WorkError, refused, refused_at};
use bl_trace::StartError;
use std::alloc::Global;

/// Why a function isn't run whose start file gives no start.
pub(crate) fn of_start(alloc: Global, error: StartError) -> WorkError
    ensures { IsTold (refusal_of_start error) result }
{
    match error {
        StartError::Line(number) => refused_at(alloc, Reason::Start, "start: line ", "", number),
        StartError::Count(count) => refused_at(
            alloc,
            Reason::Start,
            "start: arguments ",
            "",
            count,
        ),
        StartError::Memory => WorkError::Memory,
    }
}

/// No function is exported under a name.
pub(crate) fn no_export(alloc: Global) -> WorkError
    ensures { IsTold (Some no_export) result }
{
    refused(alloc, Reason::Start, "start: export", "", "")
}
