//! `part`: from an interface file's bytes and modules' to the image of their program with the least protects on one side of the interface.
ghost use Rattle.std.specs.Prelude.{◌≡◌, ◌≤◌, None, IfOk, length};
ghost use Rattle.bl_base.specs.Quantity.{limit_of};
ghost use Rattle.bl_base.specs.declared.quantity.Quantity.TheVariants as quantity;
ghost use Rattle.bl_app.specs.PartJob.{part_job, part_plan, part_staged};
ghost use Rattle.bl_build.specs.StageAnswers.{parted_in};
ghost use Rattle.bl_program.specs.Sites.{is_protected, weight_of};
ghost use Rattle.bl_job.specs.{Jobs.AreRead, StagedJobs.contents_stage};
ghost use Rattle.bl_job.specs.WorkAnswers.{IsStaged, contents_in, plan_in};
ghost use Rattle.bl_text.specs.Names.{AreNamedApart};
ghost use Rattle.bl_words.specs.{Words.part_in, Requests.part};

use crate::command::Command;
use crate::module::module_reads;
use bl_base::NoMemory;
use bl_base::Quantity::Interface;
use bl_build::{Parted, compile_part};
use bl_job::{Content, Plan, Read, Status, WorkError, first_file, one_kept};
use bl_report::protects_report;
use bl_words::PartWords;
use std::alloc::Global;

/// Keeping the image of the modules' program with the least protects on one side of an interface file's interface, and printing its counts and
/// its protects; Refused exactly where the bytes are refused. Costs a maximum flow in a network that is linear in the program.
impl<'a> Command<'a> for PartWords<'a> {
    ghost request = { λ words. part (part_in words) };

    fn reads(&self, alloc: Global) -> Result<Vec<Read<'a>>, NoMemory> {
        module_reads(alloc, &[(self.iface, Interface)], self.modules.as_slice())
    }

    fn work(&self, alloc: Global, contents: Vec<Content>) -> Result<Plan<'a>, WorkError> {
        let parted = parted_of(alloc, self, contents)?;
        Ok(plan_of(alloc, self, parted)?)
    }
}

/// The modules' program with the least protects on one side of an interface file's interface.
fn parted_of<'a>(
    alloc: Global,
    words: &PartWords<'a>,
    contents: Vec<Content>,
) -> Result<Parted, WorkError>
    requires few { length words.now.modules ≤ limit_of quantity.Modules }
    requires apart { AreNamedApart (part_in words.now).modules }
    requires read { AreRead None (part_job (part_in words.now)).reads (contents_in contents.items) }
    ensures staged { IsStaged (contents_stage (part_staged (part_in words.now)).reading) parted_in (contents_in contents.items) result }
    ensures weight { IfOk result (λ parted. parted.weight ≡ weight_of parted.program (is_protected parted.program)) }
{
    let (iface, modules) = first_file(contents);
    compile_part(
        alloc,
        words.role,
        iface.bytes(),
        words.modules.as_slice(),
        modules,
    )
}

/// The plan of a program with its protects.
fn plan_of<'a>(alloc: Global, words: &PartWords<'a>, parted: Parted) -> Result<Plan<'a>, NoMemory>
    requires { parted.weight ≡ weight_of parted.program (is_protected parted.program) }
    ensures { IfOk result (λ plan. plan_in plan ≡ part_plan (part_in words.now) (parted_in parted)) }
{
    let text = protects_report(alloc, &parted.program, parted.weight)?;
    let keeps = one_kept(alloc, words.image, parted.into_image())?;
    Ok(Plan {
        status: Status::Done,
        keeps,
        text: text.into_vec(),
    })
}
