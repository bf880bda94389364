//! From modules' bytes to their program and the program's image.
ghost use Rattle.std.specs.Prelude.{◌≡◌, ◌≤◌, IfOk, Some, length, map};
ghost use Rattle.bl_base.specs.Quantity.{limit_of};
ghost use Rattle.bl_base.specs.declared.quantity.Quantity.TheVariants as quantity;
ghost use Rattle.bl_build.specs.BuildStages.{building, compiling, lowering, sizing, without_image};
ghost use Rattle.bl_format.specs.Image.{Image};
ghost use Rattle.bl_build.specs.{LoadStages.AreShort, LoadStages.parts_of, StageAnswers.built_in};
ghost use Rattle.bl_text.specs.Names.{AreNamedApart};
ghost use Rattle.bl_build.specs.WeightStages.{building_by, compiling_by, counted_sources, weighing};
ghost use Rattle.bl_job.specs.{Stages.chain, WorkAnswers.IsStaged, WorkAnswers.contents_in};

use crate::counts::weighed;
use crate::loading::load;
use bl_base::{NoMemory, Quantity, Text};
use bl_image::{encode, image_length};
use bl_job::{Content, WorkError, limit};
use bl_lower::{LowerError, lower};
use bl_program::WellFormed;
use bl_wasm::Linked;
use std::alloc::Global;

/// A program, and its image.
#[derive(Drop)]
pub struct Built {
    /// The program.
    pub program: WellFormed,
    /// The image's bytes, within their limit.
    pub image: Text,
}

impl Built {
    /// The image's bytes.
    pub fn into_image(self) -> Vec<u8>
        ensures { result.items ≡ self.image }
    {
        self.image.into_vec()
    }
}

/// The program of the modules in files with these contents, and its image; Refused exactly where the modules are refused (`load`), or
/// the commands of the program or the bytes of its image are above their limit. The image is made where it is short enough alone. Linear in
/// the bytes, those of the memories and in the image.
pub fn compile(alloc: Global, words: &[&str], contents: Vec<Content>) -> Result<Built, WorkError>
    requires few { length words.now ≤ limit_of quantity.Modules }
    requires apart { AreNamedApart (map (λ word. word.now) words.now) }
    requires short { AreShort (map (λ word. word.now) words.now) (contents_in contents.items) }
    ensures { IsStaged compiling built_in (parts_of (map (λ word. word.now) words.now) (contents_in contents.items)) result }
{
    match compile_program(alloc, words, contents) {
        Ok(program) => Ok(with_image(alloc, program)?),
        Err(error) => Err(error),
    }
}

/// That program without its image, whose length is judged; Refused exactly where `compile` refuses the modules.
pub(crate) fn compile_program(
    alloc: Global,
    words: &[&str],
    contents: Vec<Content>,
) -> Result<WellFormed, WorkError>
    requires few { length words.now ≤ limit_of quantity.Modules }
    requires apart { AreNamedApart (map (λ word. word.now) words.now) }
    requires short { AreShort (map (λ word. word.now) words.now) (contents_in contents.items) }
    ensures { IsStaged (without_image compiling) (λ program. program) (parts_of (map (λ word. word.now) words.now) (contents_in contents.items)) result }
{
    match load(alloc, words, contents) {
        Ok(linked) => build(alloc, linked),
        Err(error) => Err(error),
    }
}

/// The program of a linked tree, whose image is short enough.
fn build(alloc: Global, linked: Linked) -> Result<WellFormed, WorkError>
    ensures { IsStaged (without_image building) (λ program. program) linked result }
{
    match lowered(alloc, linked) {
        Ok(program) => judged(alloc, program),
        Err(error) => Err(error),
    }
}

/// That program with the weights by the counts of a file's bytes, without its image, whose length is judged with them; Refused exactly where
/// the modules are refused, the program has too many commands, the counts are refused, or the image has too many bytes. Linear in the bytes
/// and those of the memories.
pub(crate) fn compile_program_by(
    alloc: Global,
    words: &[&str],
    contents: Vec<Content>,
    counts: &[u8],
) -> Result<WellFormed, WorkError>
    requires few { length words.now ≤ limit_of quantity.Modules }
    requires apart { AreNamedApart (map (λ word. word.now) words.now) }
    requires short { AreShort (map (λ word. word.now) words.now) (contents_in contents.items) }
    ensures { IsStaged (without_image compiling_by) (λ program. program) (counted_sources (map (λ word. word.now) words.now) (contents_in contents.items) counts.now) result }
{
    match load(alloc, words, contents) {
        Ok(linked) => build_by(alloc, linked, counts),
        Err(error) => Err(error),
    }
}

/// The program of a linked tree with these weights, whose image is short enough.
fn build_by(alloc: Global, linked: Linked, counts: &[u8]) -> Result<WellFormed, WorkError>
    ensures { IsStaged (without_image (building_by (Some counts.now))) (λ program. program) linked result }
{
    match lowered(alloc, linked) {
        Ok(program) => weighed_judged(alloc, program, counts),
        Err(error) => Err(error),
    }
}

/// A program with these weights, whose image is short enough.
fn weighed_judged(
    alloc: Global,
    program: WellFormed,
    counts: &[u8],
) -> Result<WellFormed, WorkError>
    ensures { IsStaged (without_image (chain (weighing counts.now) sizing)) (λ program. program) program result }
{
    match weighed(alloc, program, counts) {
        Ok(program) => judged(alloc, program),
        Err(error) => Err(error),
    }
}

/// The program of a linked tree; Refused exactly where it has too many commands.
fn lowered(alloc: Global, linked: Linked) -> Result<WellFormed, WorkError>
    ensures { IsStaged lowering (λ program. program) linked result }
{
    match lower(alloc, linked) {
        Ok(program) => {
            // Its commands are within their limit by its rules.
            let _rules = program.program();
            Ok(program)
        }
        Err(LowerError::Limit(value)) => Err(limit(alloc, Quantity::Commands, value)),
        Err(LowerError::Memory) => Err(WorkError::Memory),
    }
}

/// A program with its image; Refused exactly where the image has too many bytes, before it is made.
pub(crate) fn sized(alloc: Global, program: WellFormed) -> Result<Built, WorkError>
    ensures { IsStaged sizing built_in program result }
{
    match judged(alloc, program) {
        Ok(program) => Ok(with_image(alloc, program)?),
        Err(error) => Err(error),
    }
}

/// A program whose image is short enough; Refused exactly where the image has too many bytes. The image isn't made.
fn judged(alloc: Global, program: WellFormed) -> Result<WellFormed, WorkError>
    ensures { IsStaged (without_image sizing) (λ program. program) program result }
{
    let length = image_length(&program);
    if length == u64::MAX {
        // An image of as many bytes has no place in memory, and no number of 64 bits tells its length.
        return Err(WorkError::Memory);
    }
    if length > Quantity::Image.limit() {
        return Err(limit(alloc, Quantity::Image, length));
    }
    Ok(program)
}

/// A program with its image.
fn with_image(alloc: Global, program: WellFormed) -> Result<Built, NoMemory>
    ensures { IfOk result (λ built. (built.program ≡ program) × Image program built.image) }
{
    let image = encode(alloc, &program)?;
    Ok(Built {
        program,
        image: Text::of(image),
    })
}
