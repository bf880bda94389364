//! Programs with the least protects on one side of an interface.
ghost use Rattle.std.specs.Prelude.{◌≡◌, ◌≤◌, IfOk, length, map};
ghost use Rattle.bl_base.specs.Quantity.{limit_of};
ghost use Rattle.bl_base.specs.declared.quantity.Quantity.TheVariants as quantity;
ghost use Rattle.std.specs.FinSet as fin;
ghost use Rattle.bl_program.specs.Sites.{is_protected, weight_of};
ghost use Rattle.bl_cut.specs.Marks.{protected};
ghost use Rattle.bl_format.specs.Image.{Image};
ghost use Rattle.bl_build.specs.{StageAnswers.parted_in, StageAnswers.refusal_of_choice, LoadStages.AreShort, LoadStages.parts_of};
ghost use Rattle.bl_build.specs.InterfaceStages.{choosing, parting, side_of, siding};
ghost use Rattle.bl_iface.specs.InterfaceFunctions.{Matches};
ghost use Rattle.bl_job.specs.WorkAnswers.{IsStaged, IsTold, contents_in};
ghost use Rattle.bl_text.specs.Names.{AreNamedApart};

use crate::build::compile_program;
use crate::interface::{match_all, read_interface};
use bl_base::{NoMemory, Role, Text};
use bl_cut::protect;
use bl_graph::ranges;
use bl_iface::{Iface, UnderChoice, UnderError, least_under};
use bl_image::encode;
use bl_job::{Content, Reason, WorkError, refused_at};
use bl_program::WellFormed;
use std::alloc::Global;

/// A program with its protects on one side of an interface.
#[derive(Drop)]
pub struct Parted {
    /// The program.
    pub program: WellFormed,
    /// The weight of its protects.
    pub weight: u64,
    /// The image's bytes.
    pub image: Text,
}

impl Parted {
    /// The image's bytes.
    pub fn into_image(self) -> Vec<u8>
        ensures { result.items ≡ self.image }
    {
        self.image.into_vec()
    }
}

/// The program of the modules in files with these contents, with exactly the least protects on that side of the interface of a file's bytes,
/// and the image; Refused exactly where `compile` refuses the modules, or else the file has a bad line, or the program lacks a function of the
/// interface, or a sink of it reads directly what the interface makes transient, in this order. Costs what `compile` does and a maximum flow
/// in a network that is linear in the program.
pub fn compile_part(
    alloc: Global,
    role: Role,
    iface: &[u8],
    words: &[&str],
    contents: Vec<Content>,
) -> Result<Parted, WorkError>
    requires few { length words.now ≤ limit_of quantity.Modules }
    requires apart { AreNamedApart (map (λ word. word.now) words.now) }
    requires short { AreShort (map (λ word. word.now) words.now) (contents_in contents.items) }
    ensures staged { IsStaged (parting role iface.now) parted_in (parts_of (map (λ word. word.now) words.now) (contents_in contents.items)) result }
    ensures weight { IfOk result (λ parted. parted.weight ≡ weight_of parted.program (is_protected parted.program)) }
{
    match compile_program(alloc, words, contents) {
        Ok(program) => part_program(alloc, role, iface, program),
        Err(error) => Err(error),
    }
}

/// The same of a program.
fn part_program(
    alloc: Global,
    role: Role,
    iface: &[u8],
    program: WellFormed,
) -> Result<Parted, WorkError>
    ensures staged { IsStaged (siding role iface.now) parted_in program result }
    ensures weight { IfOk result (λ parted. parted.weight ≡ weight_of parted.program (is_protected parted.program)) }
{
    let iface = match read_interface(alloc, iface) {
        Ok(iface) => iface,
        Err(error) => return Err(error),
    };
    match match_all(alloc, &program, &iface) {
        Ok(()) => choose(alloc, role, &iface, program),
        Err(error) => Err(error),
    }
}

/// A program that has all functions of an interface, with exactly the least protects on that side of it; Refused exactly where a sink reads
/// directly what the interface makes transient.
fn choose(
    alloc: Global,
    role: Role,
    iface: &Iface,
    program: WellFormed,
) -> Result<Parted, WorkError>
    requires { Matches program iface.now }
    ensures staged { IsStaged (choosing role) parted_in (side_of program iface.now) result }
    ensures weight { IfOk result (λ parted. parted.weight ≡ weight_of parted.program (is_protected parted.program)) }
{
    ranges(&program);
    match least_under(alloc, &program, role, iface) {
        Ok(choice) => Ok(protected(alloc, program, choice)?),
        Err(error) => Err(of_choice(alloc, error)),
    }
}

/// A program with the protects of a choice, and its image.
fn protected(alloc: Global, bare: WellFormed, choice: UnderChoice) -> Result<Parted, NoMemory>
    ensures program { IfOk result (λ parted. parted.program ≡ protected (fin.contains choice.protects) bare) }
    ensures weight { IfOk result (λ parted. parted.weight ≡ choice.weight) }
    ensures image { IfOk result (λ parted. Image parted.program parted.image) }
{
    let program = protect(bare, &choice.protects);
    let image = encode(alloc, &program)?;
    Ok(Parted {
        program,
        weight: choice.weight,
        image: Text::of(image),
    })
}

/// Why nothing is chosen.
fn of_choice(alloc: Global, error: UnderError) -> WorkError
    ensures { IsTold (refusal_of_choice error) result }
{
    match error {
        UnderError::Sink(at) => refused_at(
            alloc,
            Reason::Interface,
            "interface: sink ",
            "",
            u64::from(at.0),
        ),
        UnderError::Memory => WorkError::Memory,
    }
}
