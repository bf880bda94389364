//! `harden`: from modules' bytes to an image, a certificate and a report.
ghost use Rattle.std.specs.Prelude.{◌≡◌, ◌≤◌, ◌∷◌, [], None, IfOk, length, map};
ghost use Rattle.bl_base.specs.Quantity.{limit_of};
ghost use Rattle.bl_base.specs.declared.quantity.Quantity.TheVariants as quantity;
ghost use Rattle.bl_graph.specs.Certificates.{Certifies};
ghost use Rattle.bl_report.specs.Reports.{report_text};
ghost use Rattle.bl_witness.specs.Texts.{certificate_text};
ghost use Rattle.bl_ct.specs.Verdicts.{Judges};
ghost use Rattle.bl_app.specs.HardenJob.{harden_job, harden_plan, sources_in};
ghost use Rattle.bl_build.specs.{WeightStages.hardening_by, StageAnswers.hardened_in};
ghost use Rattle.bl_job.specs.Jobs.{AreRead};
ghost use Rattle.bl_text.specs.Names.{AreNamedApart};
ghost use Rattle.bl_words.specs.{Requests.harden, Words.harden_in};
ghost use Rattle.bl_job.specs.WorkAnswers.{IsStaged, keep_in, plan_in, contents_in};

use crate::command::Command;
use crate::module::module_reads;
use bl_base::{NoMemory, Quantity, Text};
use bl_build::{Hardened, compile_hardened, compile_hardened_by};
use bl_graph::Certificate;
use bl_job::{Content, Keep, Plan, Read, Status, WorkError, last_file, one_kept};
use bl_report::report;
use bl_witness::to_json;
use bl_words::HardenWords;
use std::alloc::Global;

/// Keeping a certificate and then the image of the modules' program with the least protects, by the counts of the count file where one is
/// named, and printing the report; Refused exactly where the bytes are refused. Costs a maximum flow in a network that is linear in the program, also where the image is too
/// long.
impl<'a> Command<'a> for HardenWords<'a> {
    ghost request = { λ words. harden (harden_in words) };

    fn reads(&self, alloc: Global) -> Result<Vec<Read<'a>>, NoMemory> {
        let mut reads = module_reads(alloc, &[], self.modules.as_slice())?;
        if let Some(name) = self.counts {
            reads.push(Read {
                name,
                quantity: Quantity::Counts,
            })?;
        }
        Ok(reads)
    }

    fn work(&self, alloc: Global, contents: Vec<Content>) -> Result<Plan<'a>, WorkError> {
        let hardened = hardened_of(alloc, self, contents)?;
        Ok(plan_of(alloc, self, hardened)?)
    }
}

/// The modules' program with the least protects, by the counts of the count file where one is named.
fn hardened_of<'a>(
    alloc: Global,
    words: &HardenWords<'a>,
    contents: Vec<Content>,
) -> Result<Hardened, WorkError>
    requires few { length words.now.modules ≤ limit_of quantity.Modules }
    requires apart { AreNamedApart (harden_in words.now).modules }
    requires read { AreRead None (harden_job (harden_in words.now)).reads (contents_in contents.items) }
    ensures { IsStaged hardening_by hardened_in (sources_in (harden_in words.now) (contents_in contents.items)) result }
{
    let modules = words.modules.as_slice();
    match words.counts {
        None => compile_hardened(alloc, modules, contents),
        Some(_) => {
            let (contents, counts) = last_file(contents);
            compile_hardened_by(alloc, modules, contents, counts.bytes())
        }
    }
}

/// The plan of a program with its protects.
fn plan_of<'a>(
    alloc: Global,
    words: &HardenWords<'a>,
    hardened: Hardened,
) -> Result<Plan<'a>, NoMemory>
    requires certified { Certifies hardened.program hardened.certificate }
    requires judged { Judges hardened.program hardened.verdict }
    ensures { IfOk result (λ plan. plan_in plan ≡ harden_plan (harden_in words.now) (hardened_in hardened)) }
{
    let text = report_of(alloc, &hardened);
    let keeps = keeps_of(alloc, words, hardened)?;
    Ok(Plan {
        status: Status::Done,
        keeps,
        text: text?.into_vec(),
    })
}

/// The report, which is printed.
fn report_of(alloc: Global, hardened: &Hardened) -> Result<Text, NoMemory>
    requires certified { Certifies hardened.now.program hardened.now.certificate }
    requires judged { Judges hardened.now.program hardened.now.verdict }
    ensures { IfOk result (λ text. text ≡ report_text hardened.now.program hardened.now.certificate hardened.now.verdict) }
{
    report(
        alloc,
        &hardened.program,
        &hardened.certificate,
        &hardened.verdict,
    )
}

/// The certificate and then the image, which are kept.
fn keeps_of<'a>(
    alloc: Global,
    words: &HardenWords<'a>,
    hardened: Hardened,
) -> Result<Vec<Keep<'a>>, NoMemory>
    ensures { IfOk result (λ keeps. map keep_in keeps.items ≡ (harden_plan (harden_in words.now) (hardened_in hardened)).keeps) }
{
    let certificate = certificate_kept(alloc, words, &hardened.certificate);
    let bytes = hardened.into_image();
    let mut keeps = certificate?;
    keeps.push(Keep {
        name: words.image,
        bytes,
    })?;
    Ok(keeps)
}

/// The certificate, which is kept.
fn certificate_kept<'a>(
    alloc: Global,
    words: &HardenWords<'a>,
    certificate: &Certificate,
) -> Result<Vec<Keep<'a>>, NoMemory>
    ensures { IfOk result (λ keeps. map keep_in keeps.items ≡ ((harden_in words.now).certificate, certificate_text certificate.now) ∷ []) }
{
    let text = to_json(alloc, certificate)?;
    one_kept(alloc, words.certificate, text.into_vec())
}
