//! `spec`: from the bytes of an image, a trace file and a start file to the lines of what is observed of the buffer machine.
ghost use Rattle.std.specs.Prelude.{◌≡◌, ◌++◌, IfOk, codes};
ghost use Rattle.std.specs.{Fmt.decimal, List.flat_map};
ghost use Rattle.bl_outcome.specs.Lines.{line};
ghost use Rattle.bl_rob.specs.{CallResults.outcome_in, CallResults.shown, Machines.opening};
ghost use Rattle.bl_trace.specs.Observations.{observation_text};
ghost use Rattle.bl_app.specs.SpecJob.{SpecPlans, last_text, spec_status};
ghost use Rattle.bl_words.specs.{Requests.spec, Words.spec_in};
ghost use Rattle.bl_job.specs.WorkAnswers.{plan_in};
ghost use Rattle.bl_build.specs.StageAnswers.{IsPrepared, prepared_in, speculated_in};

use crate::command::Command;
use crate::outcome::plain_text;
use bl_base::NoMemory;
use bl_base::Quantity::{Image, Start, Trace};
use bl_build::{Prepared, Speculation, prepare_speculation};
use bl_job::{Content, Plan, Read, Status, WorkError, list_reads, three_files};
use bl_rob::{Observation, Observed, Rob};
use bl_trace::print_observation;
use bl_words::SpecWords;
use std::alloc::Global;

/// Printing what is observed of a trace file's directives on an exported function of an image's program, from a start file's bytes;
/// Refused exactly where these are refused. Linear in the bytes, those of the memories and in the directives, but for what the
/// check of a program takes.
impl<'a> Command<'a> for SpecWords<'a> {
    ghost request = { λ words. spec (spec_in words) };

    fn reads(&self, alloc: Global) -> Result<Vec<Read<'a>>, NoMemory> {
        list_reads(
            alloc,
            &[
                (self.image, Image),
                (self.trace, Trace),
                (self.start, Start),
            ],
        )
    }

    fn work(&self, alloc: Global, contents: Vec<Content>) -> Result<Plan<'a>, WorkError> {
        let (image, trace, start) = three_files(contents.as_slice());
        let speculation = prepare_speculation(alloc, image, self.export, trace, start)?;
        Ok(observe(alloc, &speculation)?)
    }
}

/// Takes directives on a function from its start: printing what is observed of them.
fn observe<'a>(alloc: Global, speculation: &Speculation) -> Result<Plan<'a>, NoMemory>
    requires { IsPrepared speculation.now.prepared }
    ensures { IfOk result (λ plan. SpecPlans (speculated_in speculation.now) (plan_in plan)) }
{
    let prepared = &speculation.prepared;
    let mut rob: Rob<'_, 64> = Rob::begin(
        alloc,
        &prepared.program,
        prepared.function,
        &prepared.start,
    )?;
    observe_on(alloc, &mut rob, speculation)
}

/// The same, on a machine before its first directive.
fn observe_on<'a>(
    alloc: Global,
    rob: &mut Rob<'_, 64>,
    speculation: &Speculation,
) -> Result<Plan<'a>, NoMemory>
    requires start { IsPrepared speculation.now.prepared }
    requires program { rob.old.program ≡ speculation.now.prepared.program }
    requires opening { shown rob.old.machine
        ≡ opening speculation.now.prepared.program speculation.now.prepared.function speculation.now.prepared.start }
    ensures { IfOk result (λ plan. SpecPlans (speculated_in speculation.now) (plan_in plan)) }
{
    let seen = rob.observe(alloc, speculation.directives.as_slice())?;
    let text = seen_text(alloc, &speculation.prepared, rob, &seen)?;
    Ok(Plan {
        status: spec_status(seen.refused),
        keeps: Vec::new(alloc),
        text,
    })
}

/// The lines of what was observed, and what is said last of the machine behind it.
fn seen_text(
    alloc: Global,
    prepared: &Prepared,
    rob: &Rob<'_, 64>,
    seen: &Observed<Observation>,
) -> Result<Vec<u8>, NoMemory>
    requires { IsPrepared prepared.now }
    ensures { IfOk result (λ text. text.items ≡ flat_map observation_text seen.now.made
        ++ last_text (prepared_in prepared.now) (outcome_in rob.now.program (shown rob.now.machine)) seen.now.refused) }
{
    let mut text = observed_text(alloc, seen.made.as_slice())?;
    let last = last_text(alloc, prepared, rob, seen.refused)?;
    text.extend_from_slice(&last)?;
    Ok(text)
}

/// The exit status, by the place of the first directive that isn't enabled.
fn spec_status(refused: Option<u64>) -> Status
    ensures { result ≡ spec_status refused }
{
    match refused {
        Some(_) => Status::Stuck,
        None => Status::Done,
    }
}

/// The lines of observations.
fn observed_text(alloc: Global, made: &[Observation]) -> Result<Vec<u8>, NoMemory>
    ensures { IfOk result (λ text. text.items ≡ flat_map observation_text made.now) }
{
    let mut text = Vec::new(alloc);
    for observation in made {
        print_observation(alloc, &mut text, observation)?;
    }
    Ok(text)
}

/// What is said last: the place of the first directive that isn't enabled, or else what is said of the machine.
fn last_text(
    alloc: Global,
    prepared: &Prepared,
    rob: &Rob<'_, 64>,
    refused: Option<u64>,
) -> Result<Vec<u8>, NoMemory>
    requires { IsPrepared prepared.now }
    ensures { IfOk result (λ text. text.items ≡ last_text (prepared_in prepared.now) (outcome_in rob.now.program (shown rob.now.machine)) refused) }
{
    if let Some(place) = refused {
        return stuck_line(alloc, place);
    }
    match rob.outcome(alloc)? {
        Some(run) => plain_text(alloc, prepared, 0, &run),
        None => Ok(b"pending\n".to_vec(alloc)?),
    }
}

/// The line of the first directive that isn't enabled.
fn stuck_line(alloc: Global, place: u64) -> Result<Vec<u8>, NoMemory>
    ensures { IfOk result (λ text. text.items ≡ line (codes "stuck " ++ decimal place)) }
{
    let text = format!(in alloc; "stuck {place}\n")?;
    Ok(text.into_bytes())
}
