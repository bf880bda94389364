//! `run`: from an image's bytes and a start file's to the text of the outcome of a plain run.
ghost use Rattle.std.specs.Prelude.{None, Some, IfOk};
ghost use Rattle.bl_app.specs.RunJob.{RunPlans};
ghost use Rattle.bl_words.specs.{Requests.AreInRange, Requests.run, Words.run_in, Words.text_in};
ghost use Rattle.bl_job.specs.WorkAnswers.{plan_in};
ghost use Rattle.bl_build.specs.StageAnswers.{IsPrepared, prepared_in};

use crate::command::Command;
use crate::outcome::{outcome_status, plain_text};
use bl_base::NoMemory;
use bl_base::Quantity::{Image, Start};
use bl_build::{Prepared, prepare};
use bl_counts::{count_run, counts_text};
use bl_job::{Content, Plan, Read, WorkError, list_reads, one_kept, two_files};
use bl_seq::run;
use bl_words::RunWords;
use std::alloc::Global;

/// Keeping the count file, if one is asked for, and printing the outcome of an exported function of an image's program from a start file's
/// bytes; Refused exactly where these are refused. Linear in the bytes, those of the memories and in the steps, but for what the check of a program takes.
impl<'a> Command<'a> for RunWords<'a> {
    ghost request = { λ words. run (run_in words) };

    fn reads(&self, alloc: Global) -> Result<Vec<Read<'a>>, NoMemory> {
        list_reads(alloc, &[(self.image, Image), (self.start, Start)])
    }

    fn work(&self, alloc: Global, contents: Vec<Content>) -> Result<Plan<'a>, WorkError> {
        let (image, start) = two_files(contents.as_slice());
        let prepared = prepare(alloc, image, self.export, start)?;
        Ok(tell(alloc, self, &prepared)?)
    }
}

/// Runs a function from its start within the request's steps. Linear in the program and in the steps.
fn tell<'a>(alloc: Global, words: &RunWords<'a>, prepared: &Prepared) -> Result<Plan<'a>, NoMemory>
    requires start { IsPrepared prepared.now }
    requires steps { AreInRange words.now.steps }
    ensures { IfOk result (λ plan. RunPlans words.now.steps (text_in words.now.counts) (prepared_in prepared.now) (plan_in plan)) }
{
    match words.counts {
        None => tell_outcome(alloc, prepared, words.steps),
        Some(file) => tell_counted(alloc, prepared, words.steps, file),
    }
}

/// Printing the outcome of a function's run from its start within so many steps.
fn tell_outcome<'a>(alloc: Global, prepared: &Prepared, steps: u64) -> Result<Plan<'a>, NoMemory>
    requires { IsPrepared prepared.now }
    ensures { IfOk result (λ plan. RunPlans steps None (prepared_in prepared.now) (plan_in plan)) }
{
    let run = run(
        alloc,
        &prepared.program,
        prepared.function,
        &prepared.start,
        steps,
    )?;
    let text = plain_text(alloc, prepared, steps, &run)?;
    let status = outcome_status(&run);
    Ok(Plan {
        status,
        keeps: Vec::new(alloc),
        text,
    })
}

/// The same, and keeping the count file of the run, whatever its outcome is.
fn tell_counted<'a>(
    alloc: Global,
    prepared: &Prepared,
    steps: u64,
    file: &'a str,
) -> Result<Plan<'a>, NoMemory>
    requires start { IsPrepared prepared.now }
    requires steps { AreInRange steps }
    ensures { IfOk result (λ plan. RunPlans steps (Some file.now) (prepared_in prepared.now) (plan_in plan)) }
{
    let program = &prepared.program;
    let counted = count_run(alloc, program, prepared.function, &prepared.start, steps)?;
    let text = plain_text(alloc, prepared, steps, &counted.run)?;
    let status = outcome_status(&counted.run);
    let commands = program.program().parts().commands.len() as u64;
    let counts = counts_text(alloc, commands, counted.counts.as_slice())?;
    let keeps = one_kept(alloc, file, counts)?;
    Ok(Plan {
        status,
        keeps,
        text,
    })
}
