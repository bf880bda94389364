//! Whether a module is valid, and why it isn't.
ghost use Rattle.std.specs.Prelude.{◌≡◌, ◌≢◌, ◌↔◌, ◌⊎◌, ◌<◌, ℕ, IsTrue, IfOk, IfErr, MatchOption, length, ◌^◌, slice_get, Some};
ghost use Rattle.bl_wasm.specs.Validity.{functions_of, HasTyping, Typed};
ghost use Rattle.bl_validate.specs.{Scopes.IsScope, Verdicts.IsLeast, Verdicts.IsReason};

use crate::body::has_typing;
use crate::rules::is_valid;
use crate::scope::Scope;
use crate::valid::ValidModule;
use bl_base::NoMemory;
use bl_wasm::Module;
use std::alloc::Global;
use thiserror::Error;

/// Why a module isn't valid, or that this isn't known.
#[derive(Clone, Copy, Debug, PartialEq, Eq, Error)]
pub enum Invalid {
    /// A function that the module defines has no typing: the least one's index, imports first (section 3.3).
    #[error("function {0} has no typing")]
    Function(u32),
    /// Every function has a typing, and another rule is broken (section 3.4).
    #[error("the module breaks a rule")]
    Module,
    /// There was no memory for the test.
    #[error("out of memory")]
    Memory,
}

/// The module as one that is valid, where each function that it defines has a typing and its other rules hold
/// (WebAssembly 1.0, sections 3.3 and 3.4). Else it comes back unchanged, with the reason.
#[tactic(auto, using(crate::proofs::Reasons::one_reason, crate::proofs::Reasons::no_reason))]
pub fn validate(alloc: Global, wasm: Module) -> Result<ValidModule, (Module, Invalid)>
    requires { length (functions_of wasm) < 2 ^ 32 }
    ensures valid { IfOk result (λ valid. (valid ≡ wasm) × Typed wasm) }
    ensures unchanged { IfErr result (λ refusal. refusal.0 ≡ wasm) }
    ensures reason { IfErr result (λ refusal. IsReason wasm refusal.1) }
    ensures only { Typed wasm → IfErr result (λ refusal. refusal.1 ≡ Invalid.Memory) }
    ensures because { (reason : Invalid) → reason ≢ Invalid.Memory → IsReason wasm reason
        → IfOk result (λ _. ⊥) × IfErr result (λ refusal. (refusal.1 ≡ reason) ⊎ (refusal.1 ≡ Invalid.Memory)) }
{
    match refusal(alloc, &wasm) {
        Ok(None) => Ok(ValidModule::of(wasm)),
        Ok(Some(reason)) => Err((wasm, reason)),
        Err(NoMemory) => Err((wasm, Invalid::Memory)),
    }
}

/// Why the module isn't valid; None where it is.
fn refusal(alloc: Global, tree: &Module) -> Result<Option<Invalid>, NoMemory>
    requires { length (functions_of tree.now) < 2 ^ 32 }
    ensures { IfOk result (λ reason. MatchOption reason (Typed tree.now) (IsReason tree.now)) }
{
    let scope = Scope::of(alloc, tree)?;
    if let Some(number) = first_without_typing(alloc, tree, &scope)? {
        let imported = scope.functions.len() - tree.functions.len();
        return Ok(Some(Invalid::Function((imported + number) as u32)));
    }
    if is_valid(alloc, tree, &scope)? {
        Ok(None)
    } else {
        Ok(Some(Invalid::Module))
    }
}

/// The first of the functions that the module defines which has no typing, by its number among them; None where each
/// has one.
fn first_without_typing(
    alloc: Global,
    tree: &Module,
    scope: &Scope,
) -> Result<Option<usize>, NoMemory>
    requires { IsScope tree.now scope.now }
    ensures { IfOk result (λ first. MatchOption first ((number : ℕ) → number < length tree.now.functions → HasTyping tree.now number) (IsLeast tree.now)) }
{
    for (number, index) in tree.functions.as_slice().iter().enumerate() {
        if !is_typed(alloc, tree, scope, number, *index)? {
            return Ok(Some(number));
        }
    }
    Ok(None)
}

/// Whether the function of that number among those that the module defines, of the type of that index, has a typing.
fn is_typed(
    alloc: Global,
    tree: &Module,
    scope: &Scope,
    number: usize,
    index: u32,
) -> Result<bool, NoMemory>
    requires scope { IsScope tree.now scope.now }
    requires named { slice_get tree.now.functions number ≡ Some index }
    ensures { IfOk result (λ ok. IsTrue ok ↔ HasTyping tree.now number) }
{
    match (
        scope.types.get(index as usize),
        tree.bodies.as_slice().get(number),
    ) {
        (Some(kind), Some(code)) => has_typing(alloc, scope, kind, code),
        _ => Ok(false),
    }
}
