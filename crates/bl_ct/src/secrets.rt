//! Whether a program declares anything secret.
ghost use Rattle.std.specs.Prelude.{◌≡◌, ◌↔◌, All, IsTrue};
ghost use Rattle.bl_base.specs.declared.names.Label.TheVariants as label;
ghost use Rattle.bl_ct.specs.Facts.{HasNoSecrets, HasPublicParams};

use bl_base::Label;
use bl_program::{FunctionDef, GlobalDef, MemoryDef, ParamDef, ProgramParts};

/// Whether no global, no parameter and no memory is declared secret. Linear in the definitions; takes no memory.
pub(crate) fn has_no_secrets(parts: &ProgramParts) -> bool
    ensures { IsTrue result ↔ HasNoSecrets parts.now }
{
    are_public_globals(parts.globals.as_slice())
        && have_public_params(parts.functions.as_slice())
        && are_public_memories(parts.memories.as_slice())
}

/// Whether the globals are public.
fn are_public_globals(globals: &[GlobalDef]) -> bool
    ensures { IsTrue result ↔ All (λ global. global.label ≡ label.Public) globals.now }
{
    globals.iter().all(|global| global.label == Label::Public)
}

/// Whether the parameters of the functions are public.
fn have_public_params(functions: &[FunctionDef]) -> bool
    ensures { IsTrue result ↔ All HasPublicParams functions.now }
{
    functions.iter().all(|function| has_public_params(function))
}

/// Whether a function's parameters are public.
#[tactic(auto, unfolding(crate::specs::Facts::HasPublicParams))]
fn has_public_params(function: &FunctionDef) -> bool
    ensures { IsTrue result ↔ HasPublicParams function.now }
{
    are_public_params(function.params.as_slice())
}

/// Whether the parameters are public.
fn are_public_params(params: &[ParamDef]) -> bool
    ensures { IsTrue result ↔ All (λ param. param.label ≡ label.Public) params.now }
{
    params.iter().all(|param| param.label == Label::Public)
}

/// Whether the memories are public.
fn are_public_memories(memories: &[MemoryDef]) -> bool
    ensures { IsTrue result ↔ All (λ memory. memory.label ≡ label.Public) memories.now }
{
    memories.iter().all(|memory| memory.label == Label::Public)
}
