//! Carrying out what is to be done.
ghost use Rattle.bl_job.specs.{Ends.Delivers, Texts.write_fault_text, WorkAnswers.NotKept, WorkAnswers.plan_in};
ghost use Rattle.bl_job.specs.Worlds.{stream, world};

use crate::job::Plan;
use crate::output::{say, say_line};
use crate::status::Status;
use bl_outside::{Shelf, ShelfError, Sink};

/// Keeps the files of a plan, in order, and prints its text; the status is that of the plan, or that of the first fault.
pub fn deliver<F: Shelf, O: Sink>(plan: &Plan<'_>, files: &mut F, out: &mut O) -> Status
    ensures { Delivers (plan_in plan.now)
        (world F.files F.faults O.taken O.faults files.old out.old) (world F.files F.faults O.taken O.faults files.new out.new) result }
{
    for keep in &plan.keeps {
        if let Err(error) = files.keep(keep.name, &keep.bytes) {
            return not_kept(out, keep.name, error);
        }
    }
    say(out, &plan.text, plan.status)
}

/// What follows where a file could not be kept.
fn not_kept<O: Sink>(out: &mut O, name: &str, error: ShelfError) -> Status
    ensures { NotKept error (write_fault_text name.now) (stream O.taken O.faults out.old) (stream O.taken O.faults out.new) result }
{
    match error {
        ShelfError::Failed => say_line(out, "write fault: ", name.as_bytes(), Status::WriteFault),
        ShelfError::Memory => Status::Memory,
    }
}
