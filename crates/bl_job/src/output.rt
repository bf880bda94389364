//! Text to the sink.
ghost use Rattle.std.specs.Prelude.{◌++◌, [], ◌∷◌};
ghost use Rattle.bl_job.specs.WorkAnswers.{IsSaid};
ghost use Rattle.bl_job.specs.Worlds.{Pushes, Said, stream};

use crate::refusal::WorkError;
use crate::status::Status;
use bl_outside::{Sink, SinkFault};

/// Pushes all of a text, piece by piece; each turn takes at least one byte or ends. After a fault a
/// prefix of the text was taken.
pub fn push_all<O: Sink>(out: &mut O, text: &[u8]) -> Result<(), SinkFault>
    ensures { Pushes result text.now (stream O.taken O.faults out.old) (stream O.taken O.faults out.new) }
{
    let mut done = 0;
    while done < text.len() {
        done += out.push(&text[done..])?;
    }
    Ok(())
}

/// Prints a text; the status is the one that is meant, or that of a write fault where the sink fails.
pub fn say<O: Sink>(out: &mut O, text: &[u8], meant: Status) -> Status
    ensures { Said text.now meant (stream O.taken O.faults out.old) (stream O.taken O.faults out.new) result }
{
    match push_all(out, text) {
        Ok(()) => meant,
        Err(SinkFault) => Status::WriteFault,
    }
}

/// Prints a line of two parts; the status is as for `say`.
pub fn say_line<O: Sink>(out: &mut O, head: &str, tail: &[u8], meant: Status) -> Status
    ensures { Said (head.now ++ tail.now ++ 10 ∷ []) meant (stream O.taken O.faults out.old) (stream O.taken O.faults out.new) result }
{
    match push_line(out, head, tail) {
        Ok(()) => meant,
        Err(SinkFault) => Status::WriteFault,
    }
}

/// Pushes a line of two parts.
fn push_line<O: Sink>(out: &mut O, head: &str, tail: &[u8]) -> Result<(), SinkFault>
    ensures { Pushes result (head.now ++ tail.now ++ 10 ∷ []) (stream O.taken O.faults out.old) (stream O.taken O.faults out.new) }
{
    push_all(out, head.as_bytes())?;
    push_all(out, tail)?;
    push_all(out, b"\n")
}

/// Prints why a request is refused; nothing where memory ran out.
pub fn refuse<O: Sink>(error: WorkError, out: &mut O) -> Status
    ensures { IsSaid error (stream O.taken O.faults out.old) (stream O.taken O.faults out.new) result }
{
    match error {
        WorkError::Refused(refusal) => say(out, &refusal.line, Status::Refused(refusal.reason)),
        WorkError::Memory => Status::Memory,
    }
}
