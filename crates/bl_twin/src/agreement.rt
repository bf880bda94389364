//! Whether two starts agree in public.
ghost use Rattle.std.specs.Prelude.{◌≡◌, ◌↔◌, IfOk, IsTrue, length, map};
ghost use Rattle.bl_base.specs.{Runs.memory_of, declared.names.Label.TheVariants.Public};
ghost use Rattle.bl_program.specs.Outcomes.{Agree, IsStart};
ghost use Rattle.bl_twin.specs.PublicAgreement.{AgreeWherePublic};

use bl_base::{Label, NoMemory, Pages, Start};
use bl_program::{MemoryDef, ParamDef, WellFormed};
use bl_seq::first_memories;
use std::alloc::Global;

/// Whether two starts of a function agree in public: their arguments are equal at its parameters that aren't declared secret, and,
/// after the patches, so are the first contents of the memories that aren't. Linear in the parameters, the first memories and
/// the patches.
pub fn agree(
    alloc: Global,
    program: &WellFormed,
    function: u32,
    one: &Start,
    other: &Start,
) -> Result<bool, NoMemory>
    requires one { IsStart program.now function one.now }
    requires other { IsStart program.now function other.now }
    ensures { IfOk result (λ agree. IsTrue agree ↔ Agree program.now function one.now other.now) }
{
    let parts = program.program().parts();
    let defined = &parts.functions.as_slice()[function as usize];
    let params = defined.params.as_slice();
    let arguments = one.args.as_slice();
    let others = other.args.as_slice();
    if !arguments_agree(params, arguments, others) {
        return Ok(false);
    }
    let first = first_memories(alloc, program, one)?;
    let second = first_memories(alloc, program, other)?;
    let memories = parts.memories.as_slice();
    Ok(memories_agree(memories, first.as_slice(), second.as_slice()))
}

/// Whether arguments are equal at the parameters that aren't declared secret.
fn arguments_agree(params: &[ParamDef], one: &[u64], other: &[u64]) -> bool
    requires one { length one.now ≡ length params.now }
    requires other { length other.now ≡ length params.now }
    ensures { IsTrue result ↔ AgreeWherePublic (λ param. param.label) params.now one.now other.now }
{
    for i in 0..params.len() {
        if !argument_agrees(params[i].label, one[i], other[i]) {
            return false;
        }
    }
    true
}

/// Whether two arguments are equal, where their parameter isn't declared secret.
fn argument_agrees(label: Label, one: u64, other: u64) -> bool
    ensures { IsTrue result ↔ (label ≡ Public → one ≡ other) }
{
    match label {
        Label::Public => one == other,
        Label::Secret => true,
    }
}

/// Whether contents are equal at the memories that aren't declared secret.
fn memories_agree(memories: &[MemoryDef], one: &[Pages], other: &[Pages]) -> bool
    requires one { length one.now ≡ length memories.now }
    requires other { length other.now ≡ length memories.now }
    ensures { IsTrue result ↔ AgreeWherePublic (λ memory. memory.label) memories.now (map memory_of one.now) (map memory_of other.now) }
{
    for i in 0..memories.len() {
        if !contents_agree(memories[i].label, &one[i], &other[i]) {
            return false;
        }
    }
    true
}

/// Whether two contents are equal, where their memory isn't declared secret.
fn contents_agree(label: Label, one: &Pages, other: &Pages) -> bool
    ensures { IsTrue result ↔ (label ≡ Public → memory_of one.now ≡ memory_of other.now) }
{
    match label {
        Label::Public => are_equal(one, other),
        Label::Secret => true,
    }
}

/// Whether contents are equal.
fn are_equal(one: &Pages, other: &Pages) -> bool
    ensures { IsTrue result ↔ (memory_of one.now ≡ memory_of other.now) }
{
    one.pages == other.pages && one.bytes.as_slice() == other.bytes.as_slice()
}
