//! The files that a request reads.
ghost use Rattle.std.specs.Prelude.{◌+◌, ◌≤◌, All, map};
ghost use Rattle.bl_base.specs.Quantity.{limit_of};
ghost use Rattle.bl_outside.specs.Shelf.{most_asked};
ghost use Rattle.bl_job.specs.{Refusals.limit, Texts.refusal_text, declared.status.Status.TheVariants.Refused};
ghost use Rattle.bl_job.specs.WorkAnswers.{AllFetched, Fetched, read_in};
ghost use Rattle.bl_job.specs.Worlds.{SaidIfRoom, stream, world};
ghost use Rattle.bl_job.specs.declared.status.Reason.TheVariants as reason;

use crate::content::Content;
use crate::job::Read;
use crate::output::{refuse, say_line};
use crate::reading::read_file;
use crate::refusal::limit;
use crate::status::Status;
use bl_base::Quantity;
use bl_outside::{Shelf, ShelfError, Sink};
use std::alloc::Global;

/// Fetches the files in order, each of which is to be short enough before the next one is fetched; else the status, after a line
/// that says why.
pub fn fetch_all<F: Shelf, O: Sink>(
    alloc: Global,
    reads: &[Read<'_>],
    files: &mut F,
    out: &mut O,
) -> Result<Vec<Content>, Status>
    requires { All (λ read. limit_of read.quantity ≤ most_asked) reads.now }
    ensures { AllFetched (map read_in reads.now)
        (world F.files F.faults O.taken O.faults files.old out.old) (world F.files F.faults O.taken O.faults files.new out.new) result }
{
    let mut contents = Vec::new(alloc);
    for read in reads {
        match fetch(alloc, read, files, out) {
            Ok(content) => {
                if contents.push(content).is_err() {
                    return Err(Status::Memory);
                }
            }
            Err(status) => return Err(status),
        }
    }
    Ok(contents)
}

/// The contents of a file; else the status, after a line that says why.
fn fetch<F: Shelf, O: Sink>(
    alloc: Global,
    read: &Read<'_>,
    files: &mut F,
    out: &mut O,
) -> Result<Content, Status>
    requires { limit_of read.now.quantity ≤ most_asked }
    ensures { Fetched (read_in read.now)
        (world F.files F.faults O.taken O.faults files.old out.old) (world F.files F.faults O.taken O.faults files.new out.new) result }
{
    match read_file(alloc, read, files) {
        Ok(Some(content)) => Ok(content),
        Ok(None) => Err(too_long(alloc, read.quantity, out)),
        Err(ShelfError::Failed) => {
            let name = read.name.as_bytes();
            Err(say_line(out, "read fault: ", name, Status::ReadFault))
        }
        Err(ShelfError::Memory) => Err(Status::Memory),
    }
}

/// Says that a file is too long: the line has the least length that is.
fn too_long<O: Sink>(alloc: Global, which: Quantity, out: &mut O) -> Status
    requires { limit_of which ≤ most_asked }
    ensures { SaidIfRoom (refusal_text (limit which (limit_of which + 1))) (Refused reason.Limit) (stream O.taken O.faults out.old) (stream O.taken O.faults out.new) result }
{
    let value = which.limit() + 1;
    refuse(limit(alloc, which, value), out)
}
