//! `forward`: from the bytes of an image, a trace file and two start files to whether the program is safe where stores are forwarded, and
//! how the two runs are observed there, side by side.
ghost use Rattle.std.specs.Prelude.{◌≡◌, ◌↔◌, IfOk, IsTrue};
ghost use Rattle.bl_app.specs.ForwardJob.{ForwardPlans, IsSafe, is_verdict_safe, safe_text};
ghost use Rattle.bl_job.specs.WorkAnswers.{plan_in};
ghost use Rattle.bl_build.specs.StageAnswers.{HasOther, IsPrepared, twinned_in};
ghost use Rattle.bl_words.specs.{Requests.forward, Words.twin_in};

use crate::command::Command;
use crate::twin::{twin_status, twins_of};
use bl_base::NoMemory;
use bl_build::Twins;
use bl_forward::{ForwardVerdict, compare_forwarding, forward_safe};
use bl_job::{Content, Plan, Read, WorkError};
use bl_program::WellFormed;
use bl_words::TwinWords;
use std::alloc::Global;

/// The words of `forward`, which are those of `twin`.
#[derive(Drop)]
pub struct Forwarding<'w, 'a>(pub &'w TwinWords<'a>);

/// Printing whether an image's program is safe where stores are forwarded, and how two runs of an exported function are observed there, side
/// by side, from the bytes of a trace file and two start files; Refused exactly where these are refused. The files are those of `twin`.
/// Linear in the bytes, those of the memories and in the directives, but for what the check of a program takes.
impl<'a> Command<'a> for Forwarding<'_, 'a> {
    ghost request = { λ words. forward (twin_in words.0.now) };

    fn reads(&self, alloc: Global) -> Result<Vec<Read<'a>>, NoMemory> {
        self.0.reads(alloc)
    }

    fn work(&self, alloc: Global, contents: Vec<Content>) -> Result<Plan<'a>, WorkError> {
        let twins = twins_of(alloc, self.0, contents.as_slice())?;
        Ok(tell(alloc, &twins)?)
    }
}

/// Judges a program, and takes directives on a function from each of two starts: printing the verdict, and how the runs compare.
fn tell<'a>(alloc: Global, twins: &Twins) -> Result<Plan<'a>, NoMemory>
    requires start { IsPrepared twins.now.speculation.prepared }
    requires other { HasOther twins.now }
    ensures { IfOk result (λ plan. ForwardPlans (twinned_in twins.now) (plan_in plan)) }
{
    let prepared = &twins.speculation.prepared;
    let safe = is_safe(alloc, &prepared.program)?;
    let compared = compare_forwarding(
        alloc,
        &prepared.program,
        prepared.function,
        &prepared.start,
        &twins.other,
        twins.speculation.directives.as_slice(),
    )?;
    let mut text = safe_line(alloc, safe)?;
    text.extend_from_slice(compared.text.as_slice())?;
    Ok(Plan {
        status: twin_status(compared.comparison),
        keeps: Vec::new(alloc),
        text,
    })
}

/// Whether a program is safe, also where stores are forwarded.
pub fn is_safe(alloc: Global, program: &WellFormed) -> Result<bool, NoMemory>
    ensures { IfOk result (λ safe. IsTrue safe ↔ IsSafe program.now) }
{
    let verdict = forward_safe(alloc, program)?;
    Ok(is_verdict_safe(&verdict))
}

/// Whether a verdict is that a program is safe.
fn is_verdict_safe(verdict: &ForwardVerdict) -> bool
    ensures { result ≡ is_verdict_safe verdict.now }
{
    matches!(verdict, ForwardVerdict::Safe)
}

/// The line on whether a program is safe.
fn safe_line(alloc: Global, safe: bool) -> Result<Vec<u8>, NoMemory>
    ensures { IfOk result (λ line. line.items ≡ safe_text safe) }
{
    if safe {
        return Ok(b"safe yes\n".to_vec(alloc)?);
    }
    Ok(b"safe no\n".to_vec(alloc)?)
}
