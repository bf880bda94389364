//! What a command is: the files that it reads, and its work on their contents.
ghost use Rattle.std.specs.Prelude.{◌≡◌, ◌≤◌, IfOk, None, length, map};
ghost use Rattle.bl_base.specs.Quantity.{limit_of};
ghost use Rattle.bl_base.specs.declared.quantity.Quantity.TheVariants as quantity;
ghost use Rattle.bl_app.specs.Commands.{IsSized, work_of};
ghost use Rattle.bl_job.specs.Jobs.{AreRead};
ghost use Rattle.bl_job.specs.WorkAnswers.{IsWork, contents_in, read_in};
ghost use Rattle.bl_text.specs.Names.{AreNamedApart};
ghost use Rattle.bl_words.specs.{Requests.Request as Requested, Requests.modules_in, Words.request_in};

use crate::forward::Forwarding;
use bl_base::NoMemory;
use bl_job::{Content, Plan, Read, WorkError};
use bl_words::Request;
use std::alloc::Global;

/// A command, by the words of a request for it.
pub trait Command<'a> {
    /// The request.
    ghost request: { Self → Requested };

    /// The files that it reads, in the order of its words.
    fn reads(&self, alloc: Global) -> Result<Vec<Read<'a>>, NoMemory>
        ensures { IfOk result (λ reads. map read_in reads.items ≡ (work_of (request self.now)).reads) };

    /// What it does, by the contents of all files that it reads; Refused exactly where these are refused.
    fn work(&self, alloc: Global, contents: Vec<Content>) -> Result<Plan<'a>, WorkError>
        requires few { length (modules_in (request self.now)) ≤ limit_of quantity.Modules }
        requires apart { AreNamedApart (modules_in (request self.now)) }
        requires sized { IsSized (request self.now) }
        requires read { AreRead None (work_of (request self.now)).reads (contents_in contents.items) }
        ensures { IsWork (work_of (request self.now)) (contents_in contents.items) result };
}

impl<'a> Command<'a> for Request<'a> {
    ghost request = { request_in };

    fn reads(&self, alloc: Global) -> Result<Vec<Read<'a>>, NoMemory> {
        match self {
            Request::Harden(words) => words.reads(alloc),
            Request::Lower(words) => words.reads(alloc),
            Request::Interp(words) => words.reads(alloc),
            Request::Run(words) => words.reads(alloc),
            Request::Spec(words) => words.reads(alloc),
            Request::Twin(words) => words.reads(alloc),
            Request::Forward(words) => Forwarding(words).reads(alloc),
            Request::Verify(words) => words.reads(alloc),
            Request::Predict(words) => words.reads(alloc),
            Request::Part(words) => words.reads(alloc),
            Request::Join(words) => words.reads(alloc),
            Request::Gen(words) => words.reads(alloc),
        }
    }

    fn work(&self, alloc: Global, contents: Vec<Content>) -> Result<Plan<'a>, WorkError> {
        match self {
            Request::Harden(words) => words.work(alloc, contents),
            Request::Lower(words) => words.work(alloc, contents),
            Request::Interp(words) => words.work(alloc, contents),
            Request::Run(words) => words.work(alloc, contents),
            Request::Spec(words) => words.work(alloc, contents),
            Request::Twin(words) => words.work(alloc, contents),
            Request::Forward(words) => Forwarding(words).work(alloc, contents),
            Request::Verify(words) => words.work(alloc, contents),
            Request::Predict(words) => words.work(alloc, contents),
            Request::Part(words) => words.work(alloc, contents),
            Request::Join(words) => words.work(alloc, contents),
            Request::Gen(words) => words.work(alloc, contents),
        }
    }
}
