//! Programs with exactly the least protects.
ghost use Rattle.std.specs.Prelude.{◌≡◌, ◌≤◌, IfOk, length, map};
ghost use Rattle.bl_base.specs.Quantity.{limit_of};
ghost use Rattle.bl_base.specs.declared.quantity.Quantity.TheVariants as quantity;
ghost use Rattle.bl_build.specs.{HardenStage.IsHardened, HardenStage.hardening, LoadStages.AreShort, LoadStages.parts_of};
ghost use Rattle.bl_text.specs.Names.{AreNamedApart};
ghost use Rattle.bl_build.specs.{WeightStages.counted_sources, WeightStages.hardening_by, StageAnswers.hardened_in};
ghost use Rattle.bl_job.specs.WorkAnswers.{IsStaged, contents_in};

use crate::build::{compile_program, compile_program_by};
use bl_base::{NoMemory, Text};
use bl_ct::{CtVerdict, constant_time};
use bl_cut::{least_protects_of, protect};
use bl_graph::{Certificate, graph};
use bl_image::encode;
use bl_job::{Content, WorkError};
use bl_program::WellFormed;
use std::alloc::Global;

/// A program with its protects.
#[derive(Drop)]
pub struct Hardened {
    /// The program.
    pub program: WellFormed,
    /// A flow that shows that no lighter protects do.
    pub certificate: Certificate,
    /// Whether it is constant-time.
    pub verdict: CtVerdict,
    /// The image's bytes.
    pub image: Text,
}

impl Hardened {
    /// The image's bytes.
    pub fn into_image(self) -> Vec<u8>
        ensures { result.items ≡ self.image }
    {
        self.image.into_vec()
    }
}

/// The program of the modules in files with these contents, with exactly the least protects, a certificate of that, the verdict on
/// constant time, and the image; Refused exactly where `compile` refuses the modules. The length of the program's own image is judged,
/// which isn't made: the one that is made has as many bytes. Costs what `compile` does and a maximum flow in a network that is linear in
/// the program.
pub fn compile_hardened(
    alloc: Global,
    words: &[&str],
    contents: Vec<Content>,
) -> Result<Hardened, WorkError>
    requires few { length words.now ≤ limit_of quantity.Modules }
    requires apart { AreNamedApart (map (λ word. word.now) words.now) }
    requires short { AreShort (map (λ word. word.now) words.now) (contents_in contents.items) }
    ensures { IsStaged hardening hardened_in (parts_of (map (λ word. word.now) words.now) (contents_in contents.items)) result }
{
    match compile_program(alloc, words, contents) {
        Ok(program) => Ok(protect_least(alloc, program)?),
        Err(error) => Err(error),
    }
}

/// The same of the program with the weights by the counts of a file's bytes; Refused exactly where the modules, the program, the counts or the
/// image with these weights are refused.
pub fn compile_hardened_by(
    alloc: Global,
    words: &[&str],
    contents: Vec<Content>,
    counts: &[u8],
) -> Result<Hardened, WorkError>
    requires few { length words.now ≤ limit_of quantity.Modules }
    requires apart { AreNamedApart (map (λ word. word.now) words.now) }
    requires short { AreShort (map (λ word. word.now) words.now) (contents_in contents.items) }
    ensures { IsStaged hardening_by hardened_in (counted_sources (map (λ word. word.now) words.now) (contents_in contents.items) counts.now) result }
{
    match compile_program_by(alloc, words, contents, counts) {
        Ok(program) => Ok(protect_least(alloc, program)?),
        Err(error) => Err(error),
    }
}

/// A program with exactly the least protects, a certificate of that, the verdict on constant time, and the image. Protects change
/// nothing of the verdict, so one graph serves both; it is given back before the search for the least ones.
#[tactic(auto, using(crate::proofs::MarkedVerdicts::judged_on))]
fn protect_least(alloc: Global, bare: WellFormed) -> Result<Hardened, NoMemory>
    ensures { IfOk result (λ hardened. IsHardened bare (hardened_in hardened)) }
{
    let facts = graph(alloc, &bare)?;
    let verdict = constant_time(alloc, &bare, &facts)?;
    let choice = least_protects_of(alloc, &bare, facts)?;
    let program = protect(bare, &choice.protects);
    let certificate = choice.certificate;
    drop(choice.protects);
    let image = encode(alloc, &program)?;
    Ok(Hardened {
        program,
        certificate,
        verdict,
        image: Text::of(image),
    })
}
