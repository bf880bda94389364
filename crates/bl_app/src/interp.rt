//! `interp`: from a start file's bytes and modules' to the text of the run's outcome.
ghost use Rattle.std.specs.Prelude.{IfOk};
ghost use Rattle.bl_reduce.specs.Outcomes.{IsStart};
ghost use Rattle.bl_app.specs.InterpJob.{InterpPlans};
ghost use Rattle.bl_words.specs.{Requests.interp, Words.interp_in};
ghost use Rattle.bl_job.specs.WorkAnswers.{plan_in};
ghost use Rattle.bl_build.specs.StageAnswers.{invoked_in};

use crate::command::Command;
use crate::module::module_reads;
use crate::outcome::outcome_status;
use bl_base::NoMemory;
use bl_base::Quantity::Start;
use bl_build::{Invocation, load, prepare_invocation};
use bl_job::{Content, Plan, Read, WorkError, first_file};
use bl_machine::{first_memories, interp};
use bl_outcome::outcome_text;
use bl_wasm::Linked;
use bl_words::InterpWords;
use std::alloc::Global;

/// Printing the outcome of an exported function of modules' bytes from a start file's; Refused exactly where these are
/// refused. Linear in the bytes, those of the memories and in the steps.
impl<'a> Command<'a> for InterpWords<'a> {
    ghost request = { λ words. interp (interp_in words) };

    fn reads(&self, alloc: Global) -> Result<Vec<Read<'a>>, NoMemory> {
        module_reads(alloc, &[(self.start, Start)], self.modules.as_slice())
    }

    fn work(&self, alloc: Global, contents: Vec<Content>) -> Result<Plan<'a>, WorkError> {
        let (start, modules) = first_file(contents);
        let linked = load(alloc, self.modules.as_slice(), modules)?;
        let invocation = prepare_invocation(alloc, linked.tree(), self.export, start.bytes())?;
        Ok(tell(alloc, &linked, &invocation, self.steps)?)
    }
}

/// Runs a function from its start: printing the outcome within so many steps. Linear in the tree, the bytes of its memories and in
/// the steps.
fn tell<'a>(
    alloc: Global,
    linked: &Linked,
    invocation: &Invocation<'_>,
    steps: u64,
) -> Result<Plan<'a>, NoMemory>
    requires start { IsStart linked.now invocation.now.function invocation.now.start }
    ensures { IfOk result (λ plan. InterpPlans steps (invoked_in linked.now invocation.now) (plan_in plan)) }
{
    let run = interp(alloc, linked, invocation.function, &invocation.start, steps)?;
    let memories = first_memories(alloc, linked, &invocation.start)?;
    let kinds = invocation.kind.results.as_slice();
    let text = outcome_text(alloc, kinds, memories.as_slice(), steps, &run)?;
    let status = outcome_status(&run);
    Ok(Plan {
        status,
        keeps: Vec::new(alloc),
        text,
    })
}
