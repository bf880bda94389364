//! An exported function of a linked tree, with the start that a start file asks for.
ghost use Rattle.std.specs.Prelude.{◌≡◌, ◌<◌, IfOk, Some, length};
ghost use Rattle.bl_wasm.specs.Linked.{IsLinked, type_of};
ghost use Rattle.bl_reduce.specs.Outcomes.{IsStart};
ghost use Rattle.bl_build.specs.{InvocationStages.invoking, InvocationStages.sizes_of, StageAnswers.invoked_in};
ghost use Rattle.bl_job.specs.WorkAnswers.{IsStaged};

use crate::start::{no_export, of_start};
use bl_base::{NoMemory, Start};
use bl_job::WorkError;
use bl_trace::read_start;
use bl_wasm::{Signature, Tree};
use std::alloc::Global;

/// A function that was found, its type, and the start of it.
#[derive(Drop)]
pub struct Invocation<'a> {
    /// The function's number.
    pub function: u32,
    /// Its type.
    pub kind: &'a Signature,
    /// The start; it fits the function.
    pub start: Start,
}

/// The function exported under a name, and the start of it that a start file asks for.
pub fn prepare_invocation<'a>(
    alloc: Global,
    tree: &'a Tree,
    export: &str,
    bytes: &[u8],
) -> Result<Invocation<'a>, WorkError>
    requires { IsLinked tree.now }
    ensures invoked { IsStaged (invoking export.now bytes.now) (invoked_in tree.now) tree.now result }
    ensures fits { IfOk result (λ invocation. IsStart tree.now invocation.function invocation.start) }
{
    let Some(function) = tree.exports.find(export) else {
        return Err(no_export(alloc));
    };
    let kind = signature(tree, function);
    let sizes = sizes_of(alloc, tree)?;
    match read_start(alloc, bytes, kind.params.as_slice(), sizes.as_slice()) {
        Ok(start) => Ok(Invocation {
            function,
            kind,
            start,
        }),
        Err(error) => Err(of_start(alloc, error)),
    }
}

/// The first pages of a tree's memories.
fn sizes_of(alloc: Global, tree: &Tree) -> Result<Vec<u32>, NoMemory>
    ensures { IfOk result (λ pages. pages.items ≡ sizes_of tree.now) }
{
    let mut pages = Vec::new(alloc);
    for memory in tree.memories.as_slice() {
        pages.push(memory.pages)?;
    }
    Ok(pages)
}

/// The type of a function of a tree.
fn signature(tree: &Tree, function: u32) -> &Signature
    requires linked { IsLinked tree.now }
    requires exists { function < length tree.now.functions }
    ensures { type_of tree.now function ≡ Some result.now }
{
    let function = &tree.functions.as_slice()[function as usize];
    &tree.types.as_slice()[function.type_index as usize]
}
