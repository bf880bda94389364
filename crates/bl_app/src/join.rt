//! `join`: from the bytes of an interface file and of a client's and a library's image to the image of the program that they are joined to.
ghost use Rattle.std.specs.Prelude.{◌≡◌, IfOk, string_bytes};
ghost use Rattle.bl_app.specs.JoinJob.{fails_text, join_plan, joined_text, role_text};
ghost use Rattle.bl_build.specs.{JoinStages.whole, StageAnswers.built_in, StageAnswers.union_in};
ghost use Rattle.bl_job.specs.{Jobs.saying, WorkAnswers.plan_in, declared.status.Status.TheVariants.No};
ghost use Rattle.bl_words.specs.{Requests.join, Words.join_in};

use crate::command::Command;
use bl_base::Quantity::{Image, Interface};
use bl_base::{NoMemory, Pos, Role};
use bl_build::{Built, Union, join_images};
use bl_job::{Content, Plan, Read, Status, WorkError, list_reads, one_kept, three_files};
use bl_program::WellFormed;
use bl_words::JoinWords;
use std::alloc::Global;

/// Keeping the image of the program that a client and a library are joined to, by the bytes of an interface file and of their images, and printing
/// its size; or printing which one doesn't pass on its side of the interface. Refused exactly where the bytes are refused. Linear in the
/// bytes, but for logarithms of how many names there are.
impl<'a> Command<'a> for JoinWords<'a> {
    ghost request = { λ words. join (join_in words) };

    fn reads(&self, alloc: Global) -> Result<Vec<Read<'a>>, NoMemory> {
        list_reads(
            alloc,
            &[
                (self.iface, Interface),
                (self.client, Image),
                (self.library, Image),
            ],
        )
    }

    fn work(&self, alloc: Global, contents: Vec<Content>) -> Result<Plan<'a>, WorkError> {
        let (iface, client, library) = three_files(contents.as_slice());
        let union = join_images(alloc, iface, client, library)?;
        Ok(plan_of(alloc, self, union)?)
    }
}

/// The plan for what comes of a client and a library.
fn plan_of<'a>(alloc: Global, words: &JoinWords<'a>, union: Union) -> Result<Plan<'a>, NoMemory>
    ensures { IfOk result (λ plan. plan_in plan ≡ join_plan (join_in words.now) (union_in union)) }
{
    match union {
        Union::Fails(role, position) => tell_failing(alloc, role, position),
        Union::Whole(built) => keep_joined(alloc, words, built),
    }
}

/// Printing which one doesn't pass, and the position that tells why.
fn tell_failing<'a>(alloc: Global, role: Role, position: Pos) -> Result<Plan<'a>, NoMemory>
    ensures { IfOk result (λ plan. plan_in plan ≡ saying No (fails_text role position.0)) }
{
    let word = role_word(role);
    let at = position.0;
    let text = format!(in alloc; "{word} no {at}\n")?;
    Ok(Plan {
        status: Status::No,
        keeps: Vec::new(alloc),
        text: text.into_bytes(),
    })
}

/// The word of a side.
fn role_word(role: Role) -> &'static str
    ensures { result.now ≡ role_text role }
{
    match role {
        Role::Client => "client",
        Role::Library => "library",
    }
}

/// Keeping the image of a joined program, and printing its size.
fn keep_joined<'a>(alloc: Global, words: &JoinWords<'a>, built: Built) -> Result<Plan<'a>, NoMemory>
    ensures { IfOk result (λ plan. plan_in plan ≡ join_plan (join_in words.now) (whole (built_in built))) }
{
    let text = joined_line(alloc, &built.program)?;
    let keeps = one_kept(alloc, words.image, built.into_image())?;
    Ok(Plan {
        status: Status::Done,
        keeps,
        text: text.into_bytes(),
    })
}

/// The line of how many functions and commands a joined program has.
fn joined_line(alloc: Global, program: &WellFormed) -> Result<String, NoMemory>
    ensures { IfOk result (λ text. string_bytes text ≡ joined_text program.now) }
{
    let parts = program.program().parts();
    let functions = parts.functions.len();
    let commands = parts.commands.len();
    let text = format!(in alloc; "joined functions {functions} commands {commands}\n")?;
    Ok(text)
}
