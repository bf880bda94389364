//! What stands against joining two programs.
ghost use Rattle.std.specs.Prelude.{◌≡◌, ◌↔◌, IfOk, IsTrue, MatchOption};
ghost use Rattle.std.specs.List.{All};
ghost use Rattle.bl_iface.specs.{Answers.IsFirstWithout, InterfaceFunctions.AreTargets};
ghost use Rattle.bl_iface.specs.JoinedProgram.{HasSameTypes, IsNew, kinds};

use crate::iface::Iface;
use crate::names::numbers_of;
use bl_base::{NoMemory, ValueType};
use bl_program::{ExportDef, FunctionDef, ParamDef, ProgramParts};
use std::alloc::Global;

/// The first function of the interface, by its index, that has other types in the client than in the library.
pub(crate) fn first_unlike(
    client: &ProgramParts,
    library: &ProgramParts,
    iface: &Iface,
    ours: &[u32],
    theirs: &[u32],
) -> Option<u64>
    requires ours { AreTargets client.now iface.now ours.now }
    requires theirs { AreTargets library.now iface.now theirs.now }
    ensures { MatchOption result (All (HasSameTypes client.now library.now) iface.now.functions) (IsFirstWithout (HasSameTypes client.now library.now) iface.now.functions) }
{
    for index in 0..ours.len() {
        let one = &client.functions.as_slice()[ours[index] as usize];
        let other = &library.functions.as_slice()[theirs[index] as usize];
        if !have_same_types(one, other) {
            return Some(index as u64);
        }
    }
    None
}

/// Whether the types of parameters and results are the same.
fn have_same_types(one: &FunctionDef, other: &FunctionDef) -> bool
    ensures { IsTrue result ↔ (kinds one.now.params ≡ kinds other.now.params) × (one.now.results ≡ other.now.results) }
{
    have_same_kinds(one.params.as_slice(), other.params.as_slice())
        && are_same(one.results.as_slice(), other.results.as_slice())
}

/// Whether the types of the parameters are the same.
fn have_same_kinds(ours: &[ParamDef], theirs: &[ParamDef]) -> bool
    ensures { IsTrue result ↔ (kinds ours.now ≡ kinds theirs.now) }
{
    if ours.len() != theirs.len() {
        return false;
    }
    for index in 0..ours.len() {
        if !is_same(ours[index].kind, theirs[index].kind) {
            return false;
        }
    }
    true
}

/// Whether the types are the same.
fn are_same(ours: &[ValueType], theirs: &[ValueType]) -> bool
    ensures { IsTrue result ↔ (ours.now ≡ theirs.now) }
{
    if ours.len() != theirs.len() {
        return false;
    }
    for index in 0..ours.len() {
        if !is_same(ours[index], theirs[index]) {
            return false;
        }
    }
    true
}

/// Whether the two types are one.
fn is_same(one: ValueType, other: ValueType) -> bool
    ensures { IsTrue result ↔ (one ≡ other) }
{
    one == other
}

/// The first of the library's exports, by its index, that has the name of one of the client's that are kept.
pub(crate) fn first_taken(
    alloc: Global,
    kept: &[ExportDef],
    exports: &[ExportDef],
) -> Result<Option<u64>, NoMemory>
    ensures { IfOk result (λ found. MatchOption found (All (IsNew kept.now) exports.now) (IsFirstWithout (IsNew kept.now) exports.now)) }
{
    let numbers = numbers_of(alloc, kept)?;
    for (index, export) in exports.iter().enumerate() {
        if numbers.contains_key(&export.name.as_slice()) {
            return Ok(Some(index as u64));
        }
    }
    Ok(None)
}
