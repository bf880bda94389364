//! The top call.
ghost use Rattle.std.specs.Prelude.{◌≤◌, Some, length, map, string_bytes};
ghost use Rattle.bl_base.specs.Quantity.{limit_of};
ghost use Rattle.bl_base.specs.declared.quantity.Quantity.TheVariants as quantity;
ghost use Rattle.bl_app.specs.{Commands.IsSized, Commands.job_of, Promises.Promises};
ghost use Rattle.bl_job.specs.{Ends.Ends, Worlds.world};
ghost use Rattle.bl_text.specs.Names.{AreNamedApart};
ghost use Rattle.bl_words.specs.{Requests.modules_in, Requests.request_of, Words.request_in};

use crate::command::Command;
use bl_base::{NoMemory, Quantity};
use bl_job::{Status, deliver, fetch_all, limit, refuse, say_line};
use bl_outside::{Shelf, Sink};
use bl_words::{Request, modules_in, read_words};
use std::alloc::Global;

/// Runs the program on its words, the program's own name first, and answers its exit status: 0 done; 1 the rules of a certificate or the
/// transient rules are broken, also under an interface, or two runs are observed differently; 2 no request; 3 a file could not be read; 4 a file or the sink
/// could not be written; 5 a module's bytes spell none; 6 a module has no typing; 7 it has something that isn't supported; 8 a quantity
/// exceeds its number; 9 an import of a module has no match or a segment is out of range; 10 the labels of a module break a rule; 11
/// memory ran out; 12 the bytes are no image or the image isn't well-formed; 13 the bytes are no certificate; 14 a line of the trace file
/// is no directive; 15 the export is absent, a line of the start file is bad, or there are too few arguments; 16 the run trapped; 17 its
/// steps were spent; 18 a directive isn't enabled; 19 a count file has a bad line or doesn't fit the program; 20 an interface file has a bad line
/// or doesn't fit a program, or two programs don't fit each other by it. All text goes to the sink. What it promises of each call is the record
/// `Promises`, by the words, by what the shelf and the sink were before and are behind it, and by the status.
pub fn blade<F: Shelf, O: Sink>(alloc: Global, words: &[String], files: &mut F, out: &mut O) -> u8
    ensures { Promises (request_of (map string_bytes words.now))
        (world F.files F.faults O.taken O.faults files.old out.old) (world F.files F.faults O.taken O.faults files.new out.new) result }
{
    run(alloc, words, files, out).code()
}

/// Does what the words ask for.
fn run<F: Shelf, O: Sink>(alloc: Global, words: &[String], files: &mut F, out: &mut O) -> Status
    ensures { Ends job_of (request_of (map string_bytes words.now))
        (world F.files F.faults O.taken O.faults files.old out.old) (world F.files F.faults O.taken O.faults files.new out.new) result }
{
    match read_words(alloc, words) {
        Ok(Some(request)) => carry_out(alloc, &request, files, out),
        Ok(None) => say_line(out, "usage: blade COMMAND ARGUMENTS", b"", Status::Usage),
        Err(NoMemory) => Status::Memory,
    }
}

/// Tests the number of a request's modules, and then does its job.
fn carry_out<F: Shelf, O: Sink>(
    alloc: Global,
    request: &Request<'_>,
    files: &mut F,
    out: &mut O,
) -> Status
    requires apart { AreNamedApart (modules_in (request_in request.now)) }
    requires sized { IsSized (request_in request.now) }
    ensures { Ends job_of (Some (request_in request.now))
        (world F.files F.faults O.taken O.faults files.old out.old) (world F.files F.faults O.taken O.faults files.new out.new) result }
{
    let count = modules_in(request).len() as u64;
    if count > Quantity::Modules.limit() {
        return refuse(limit(alloc, Quantity::Modules, count), out);
    }
    do_job(alloc, request, files, out)
}

/// Reads the files of a request, does its work on their contents, and delivers what is to be done.
fn do_job<F: Shelf, O: Sink>(
    alloc: Global,
    request: &Request<'_>,
    files: &mut F,
    out: &mut O,
) -> Status
    requires few { length (modules_in (request_in request.now)) ≤ limit_of quantity.Modules }
    requires apart { AreNamedApart (modules_in (request_in request.now)) }
    requires sized { IsSized (request_in request.now) }
    ensures { Ends job_of (Some (request_in request.now))
        (world F.files F.faults O.taken O.faults files.old out.old) (world F.files F.faults O.taken O.faults files.new out.new) result }
{
    let Ok(reads) = request.reads(alloc) else {
        return Status::Memory;
    };
    let contents = match fetch_all(alloc, reads.as_slice(), files, out) {
        Ok(contents) => contents,
        Err(status) => return status,
    };
    match request.work(alloc, contents) {
        Ok(plan) => deliver(&plan, files, out),
        Err(error) => refuse(error, out),
    }
}
