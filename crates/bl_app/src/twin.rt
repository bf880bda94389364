//! `twin`: from the bytes of an image, a trace file and two start files to how the two runs are observed, side by side.
ghost use Rattle.std.specs.Prelude.{◌≡◌, None, IfOk};
ghost use Rattle.bl_job.specs.{Jobs.AreRead, StagedJobs.contents_stage};
ghost use Rattle.bl_app.specs.TwinJob.{TwinPlans, twin_staged, twin_status};
ghost use Rattle.bl_job.specs.WorkAnswers.{IsStaged, plan_in, contents_in};
ghost use Rattle.bl_build.specs.StageAnswers.{HasOther, IsPrepared, twinned_in};
ghost use Rattle.bl_words.specs.{Requests.twin, Words.twin_in};

use crate::command::Command;
use bl_base::NoMemory;
use bl_base::Quantity::{Image, Start, Trace};
use bl_build::{Twins, prepare_twins};
use bl_job::{Content, Plan, Read, Status, WorkError, four_files, list_reads};
use bl_twin::{Comparison, compare_runs};
use bl_words::TwinWords;
use std::alloc::Global;

/// Printing how two runs of an exported function of an image's program are observed, side by side, from the bytes of a trace file and two
/// start files; Refused exactly where these are refused. Linear in the bytes, those of the memories and in the directives, but for what the
/// check of a program takes.
impl<'a> Command<'a> for TwinWords<'a> {
    ghost request = { λ words. twin (twin_in words) };

    fn reads(&self, alloc: Global) -> Result<Vec<Read<'a>>, NoMemory> {
        list_reads(
            alloc,
            &[
                (self.image, Image),
                (self.trace, Trace),
                (self.start, Start),
                (self.other_start, Start),
            ],
        )
    }

    fn work(&self, alloc: Global, contents: Vec<Content>) -> Result<Plan<'a>, WorkError> {
        let twins = twins_of(alloc, self, contents.as_slice())?;
        Ok(tell(alloc, &twins)?)
    }
}

/// The function, the directives and the two starts that the contents of the files of `twin` ask for.
pub fn twins_of(
    alloc: Global,
    words: &TwinWords<'_>,
    contents: &[Content],
) -> Result<Twins, WorkError>
    requires { AreRead None (twin_staged (twin_in words.now)).reads (contents_in contents.now) }
    ensures staged { IsStaged (contents_stage (twin_staged (twin_in words.now)).reading) twinned_in (contents_in contents.now) result }
    ensures fits { IfOk result (λ twins. IsPrepared twins.speculation.prepared) }
    ensures other { IfOk result HasOther }
{
    let (image, trace, start, other) = four_files(contents);
    prepare_twins(alloc, image, words.export, trace, start, other)
}

/// Takes directives on a function from each of two starts: printing how the runs compare.
fn tell<'a>(alloc: Global, twins: &Twins) -> Result<Plan<'a>, NoMemory>
    requires start { IsPrepared twins.now.speculation.prepared }
    requires other { HasOther twins.now }
    ensures { IfOk result (λ plan. TwinPlans (twinned_in twins.now) (plan_in plan)) }
{
    let prepared = &twins.speculation.prepared;
    let compared = compare_runs(
        alloc,
        &prepared.program,
        prepared.function,
        &prepared.start,
        &twins.other,
        twins.speculation.directives.as_slice(),
    )?;
    Ok(Plan {
        status: twin_status(compared.comparison),
        keeps: Vec::new(alloc),
        text: compared.text.into_vec(),
    })
}

/// The exit status, by how two runs compare.
pub fn twin_status(comparison: Comparison) -> Status
    ensures { result ≡ twin_status comparison }
{
    match comparison {
        Comparison::Equal => Status::Done,
        Comparison::Stuck => Status::Stuck,
        Comparison::Differ => Status::No,
    }
}
