//! `predict`: from an image's bytes and a start file's to the trace file of the directives that a predictor chooses, what it met, and the
//! outcome.
ghost use Rattle.std.specs.Prelude.{◌≡◌, ◌++◌, IfOk, OnOk};
ghost use Rattle.std.specs.Fmt.{decimal};
ghost use Rattle.bl_predict.specs.Drives.{IsDriven};
ghost use Rattle.bl_app.specs.PredictJob.{PredictPlans, alike_text, driven_of, met_by};
ghost use Rattle.bl_words.specs.{Requests.predict, Words.predict_in};
ghost use Rattle.bl_job.specs.WorkAnswers.{plan_in};
ghost use Rattle.bl_build.specs.StageAnswers.{IsPrepared, prepared_in};

use crate::command::Command;
use crate::forward::is_safe;
use crate::outcome::{outcome_status, plain_text};
use bl_base::NoMemory;
use bl_base::Quantity::{Image, Start};
use bl_build::{Prepared, prepare};
use bl_job::{Content, Plan, Read, WorkError, list_reads, one_kept, two_files};
use bl_predict::{Driven, drive};
use bl_trace::trace_text;
use bl_words::PredictWords;
use std::alloc::Global;

/// Keeping the trace file of the directives that are chosen on an exported function of an image's program, from a start file's bytes, and
/// printing what was met, whether the program is safe, so that other secrets give the same, and the outcome; Refused exactly where these are
/// refused. Linear in the bytes, those of the memories and in the steps, but for what the check of a program takes.
impl<'a> Command<'a> for PredictWords<'a> {
    ghost request = { λ words. predict (predict_in words) };

    fn reads(&self, alloc: Global) -> Result<Vec<Read<'a>>, NoMemory> {
        list_reads(alloc, &[(self.image, Image), (self.start, Start)])
    }

    fn work(&self, alloc: Global, contents: Vec<Content>) -> Result<Plan<'a>, WorkError> {
        let (image, start) = two_files(contents.as_slice());
        let prepared = prepare(alloc, image, self.export, start)?;
        Ok(tell(alloc, self, &prepared)?)
    }
}

/// Drives a function from its start. Linear in the program and in the steps.
fn tell<'a>(
    alloc: Global,
    words: &PredictWords<'a>,
    prepared: &Prepared,
) -> Result<Plan<'a>, NoMemory>
    requires { IsPrepared prepared.now }
    ensures { IfOk result (λ plan. PredictPlans words.now.steps words.now.trace.now (prepared_in prepared.now) (plan_in plan)) }
{
    let driven = drive(
        alloc,
        &prepared.program,
        prepared.function,
        &prepared.start,
        words.steps,
    )?;
    tell_driven(alloc, words, prepared, &driven)
}

/// The same, by what the drive has come to.
fn tell_driven<'a>(
    alloc: Global,
    words: &PredictWords<'a>,
    prepared: &Prepared,
    driven: &Driven,
) -> Result<Plan<'a>, NoMemory>
    requires start { IsPrepared prepared.now }
    requires driven { IsDriven prepared.now.program (driven_of words.now.steps (prepared_in prepared.now)) driven.now }
    ensures { IfOk result (λ plan. PredictPlans words.now.steps words.now.trace.now (prepared_in prepared.now) (plan_in plan)) }
{
    let safe = is_safe(alloc, &prepared.program)?;
    let mut text = met_line(alloc, driven)?;
    text.extend_from_slice(safe_line(safe))?;
    let outcome = plain_text(alloc, prepared, words.steps, &driven.run)?;
    text.extend_from_slice(&outcome)?;
    let trace = trace_text(alloc, driven.trace.as_slice())?;
    let status = outcome_status(&driven.run);
    let keeps = one_kept(alloc, words.trace, trace)?;
    Ok(Plan {
        status,
        keeps,
        text,
    })
}

/// The line on whether a program is safe: with a yes other secrets give the same trace and counts; with a no nothing is said of them.
fn safe_line(safe: bool) -> &'static [u8]
    ensures { result.now ≡ alike_text safe }
{
    if safe {
        b"alike yes\n".as_slice()
    } else {
        b"alike no\n".as_slice()
    }
}

/// The line of how many directives were chosen, and of what was met on the way.
fn met_line(alloc: Global, driven: &Driven) -> Result<Vec<u8>, NoMemory>
    ensures { IfOk result (λ line. line.items ≡ met_by driven.now) }
{
    let mut text = Vec::new(alloc);
    push_count(alloc, &mut text, "directives ", driven.trace.len() as u64)?;
    push_count(alloc, &mut text, " rollbacks ", driven.rollbacks)?;
    push_count(alloc, &mut text, " hits ", driven.hits)?;
    push_count(alloc, &mut text, " misses ", driven.misses)?;
    text.push(b'\n')?;
    Ok(text)
}

/// Puts a word and a count behind a text.
fn push_count(alloc: Global, text: &mut Vec<u8>, word: &str, count: u64) -> Result<(), NoMemory>
    ensures { OnOk result (text.new.items ≡ text.old.items ++ (word.now ++ decimal count)) }
{
    text.extend_from_slice(word.as_bytes())?;
    let digits = format!(in alloc; "{count}")?.into_bytes();
    text.extend_from_slice(&digits)?;
    Ok(())
}
