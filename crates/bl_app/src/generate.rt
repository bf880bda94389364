//! `gen`: from a number and a size to the summary of a large module that is made of them.
ghost use Rattle.std.specs.Prelude.{◌≡◌, ◌≤◌, [], ◌∷◌, IfOk, codes, length};
ghost use Rattle.bl_base.specs.Quantity.{limit_of};
ghost use Rattle.bl_base.specs.declared.quantity.Quantity.TheVariants as quantity;
ghost use Rattle.bl_app.specs.GenJob.{gen_staged, summary_of};
ghost use Rattle.bl_job.specs.{StagedJobs.staged_job, Jobs.saying, declared.status.Status.TheVariants.Done};
ghost use Rattle.bl_job.specs.WorkAnswers.{plan_in, IsStaged, IsWork};
ghost use Rattle.bl_build.specs.{HardenStage.hardening, LoadStages.parts_of, StageAnswers.hardened_in};
ghost use Rattle.bl_graph.specs.Certificates.{Certifies};
ghost use Rattle.bl_ct.specs.Verdicts.{Judges};
ghost use Rattle.bl_words.specs.{Requests.gen, Words.gen_in};

use crate::command::Command;
use bl_base::NoMemory;
use bl_build::{Hardened, compile_hardened};
use bl_gen::make;
use bl_job::{Content, Plan, Read, Status, WorkError};
use bl_report::summary;
use bl_words::GenWords;
use std::alloc::Global;

/// Printing the summary of a module that is made of a number and a size, compiled and hardened. Costs a maximum flow in a network that
/// is linear in the program.
impl<'a> Command<'a> for GenWords {
    ghost request = { λ words. gen (gen_in words) };

    fn reads(&self, alloc: Global) -> Result<Vec<Read<'a>>, NoMemory> {
        Ok(Vec::new(alloc))
    }

    fn work(&self, alloc: Global, _contents: Vec<Content>) -> Result<Plan<'a>, WorkError> {
        generate(alloc, self)
    }
}

/// The same, which reads no file.
fn generate<'a>(alloc: Global, words: &GenWords) -> Result<Plan<'a>, WorkError>
    requires { (1 ≤ words.now.size) × (words.now.size ≤ limit_of quantity.Functions) }
    ensures { IsWork (staged_job (gen_staged (gen_in words.now))) [] result }
{
    let bytes = make(alloc, words.seed, words.size)?;
    let length = bytes.len();
    match hardened_of(alloc, bytes) {
        Ok(hardened) => Ok(plan_of(alloc, length, &hardened)?),
        Err(error) => Err(error),
    }
}

/// A module compiled and hardened by itself.
fn hardened_of(alloc: Global, bytes: Vec<u8>) -> Result<Hardened, WorkError>
    requires { length bytes.items ≤ limit_of quantity.Module }
    ensures { IsStaged hardening hardened_in (parts_of (codes "gen" ∷ []) (bytes.items ∷ [])) result }
{
    let content = Content::of_module(alloc, &bytes)?;
    drop(bytes);
    let mut contents = Vec::new(alloc);
    contents.push(content)?;
    let names: [&'static str; 1] = ["gen"];
    compile_hardened(alloc, &names, contents)
}

/// The plan of a program with its protects, which is that of a module of so many bytes.
fn plan_of<'a>(alloc: Global, length: usize, hardened: &Hardened) -> Result<Plan<'a>, NoMemory>
    requires certified { Certifies hardened.now.program hardened.now.certificate }
    requires judged { Judges hardened.now.program hardened.now.verdict }
    ensures { IfOk result (λ plan. plan_in plan ≡ saying Done (summary_of length (hardened_in hardened.now))) }
{
    let mut text = format!(in alloc; "module {length}\n")?.into_bytes();
    let rest = summary(
        alloc,
        &hardened.program,
        &hardened.certificate,
        &hardened.verdict,
    )?;
    text.extend_from_slice(rest.as_slice())?;
    Ok(Plan {
        status: Status::Done,
        keeps: Vec::new(alloc),
        text,
    })
}
