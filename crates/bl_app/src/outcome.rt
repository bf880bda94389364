//! The status and the text of a run's end.
ghost use Rattle.std.specs.Prelude.{◌≡◌, IfOk};
ghost use Rattle.bl_base.specs.Runs.{outcome_of};
ghost use Rattle.bl_app.specs.{RunJob.plain_text, Outcomes.outcome_status};
ghost use Rattle.bl_build.specs.StageAnswers.{IsPrepared, prepared_in};

use bl_base::{NoMemory, Run};
use bl_build::Prepared;
use bl_job::Status;
use bl_outcome::outcome_text;
use bl_seq::first_memories;
use std::alloc::Global;

/// The exit status of a run's end.
pub fn outcome_status(run: &Run) -> Status
    ensures { result ≡ outcome_status (outcome_of run.now) }
{
    match run {
        Run::Returned { .. } => Status::Done,
        Run::Trapped { .. } => Status::Trapped,
        Run::Spent => Status::Spent,
    }
}

/// The text of the end of a function's run from a start, within so many steps. Linear in the bytes of the program's memories.
pub fn plain_text(
    alloc: Global,
    prepared: &Prepared,
    steps: u64,
    run: &Run,
) -> Result<Vec<u8>, NoMemory>
    requires { IsPrepared prepared.now }
    ensures { IfOk result (λ text. text.items ≡ plain_text (prepared_in prepared.now) steps (outcome_of run.now)) }
{
    let memories = first_memories(alloc, &prepared.program, &prepared.start)?;
    outcome_text(
        alloc,
        prepared.defined().results.as_slice(),
        memories.as_slice(),
        steps,
        run,
    )
}
