//! The functions of an interface in a program.
ghost use Rattle.std.specs.Prelude.{◌≡◌, ◌↔◌, ◌<◌, IfOk, IfErr, IfSome, IsSomeAnd, IsTrue, MatchOption, Some, length};
ghost use Rattle.bl_iface.specs.{Answers.IsFirstWithout, JoinedProgram.exported};
ghost use Rattle.bl_iface.specs.InterfaceFunctions.{AreTargets, Fits, IsMatched, IsTargetsError, Matches};

use crate::error::TargetsError;
use crate::iface::{FnIface, Iface};
use crate::names::numbers_of;
use bl_base::{List, NoMemory};
use bl_program::{ExportDef, ProgramParts, WellFormed};
use std::alloc::Global;

/// The functions of an interface in a program, by their numbers in the interface's order. Unmatched exactly where one isn't an export of the
/// program with as many parameters and results: the first such one's index. Costs the interface and the exports, each times the logarithm of
/// how many exports there are.
pub fn targets(
    alloc: Global,
    program: &WellFormed,
    iface: &Iface,
) -> Result<List<u32>, TargetsError>
    ensures found { IfOk result (AreTargets program.now iface.now) }
    ensures matched { IfOk result (λ _. Matches program.now iface.now) }
    ensures refused { IfErr result (IsTargetsError program.now iface.now) }
{
    let parts = program.program().parts();
    let numbers = numbers_of(alloc, parts.exports.as_slice())?;
    let mut targets = List::new(alloc);
    for (index, one) in iface.functions.as_slice().iter().enumerate() {
        let found = numbers.get(&one.name.as_slice()).copied();
        let Some(target) = fitting(parts, found, one) else {
            return Err(TargetsError::Unmatched(index as u64));
        };
        targets.push(target)?;
    }
    Ok(targets)
}

/// The functions of an interface in a program that has them.
pub(crate) fn matched(
    alloc: Global,
    program: &WellFormed,
    iface: &Iface,
) -> Result<List<u32>, NoMemory>
    requires { Matches program.now iface.now }
    ensures { IfOk result (AreTargets program.now iface.now) }
{
    match targets(alloc, program, iface) {
        Ok(targets) => Ok(targets),
        Err(TargetsError::Unmatched(_)) => unreachable!(),
        Err(TargetsError::Memory) => Err(NoMemory),
    }
}

/// The first function of the interface, by its index from 0, that isn't an export of the program with as many parameters and results; None
/// exactly where each is. Looks each name up among all exports; takes no memory.
pub fn unmatched(program: &WellFormed, iface: &Iface) -> Option<u64>
    ensures { MatchOption result (Matches program.now iface.now) (IsFirstWithout (IsMatched program.now) iface.now.functions) }
{
    let parts = program.program().parts();
    for (index, one) in iface.functions.as_slice().iter().enumerate() {
        let found = function_named(parts.exports.as_slice(), one.name.as_slice());
        let Some(_target) = fitting(parts, found, one) else {
            return Some(index as u64);
        };
    }
    None
}

/// The function that is exported under a name.
fn function_named(exports: &[ExportDef], name: &[u8]) -> Option<u32>
    ensures { result ≡ exported exports.now name.now }
{
    for export in exports {
        if export.name.as_slice() == name {
            return Some(export.function);
        }
    }
    None
}

/// The function, if there is one and it has as many parameters and results as are agreed.
fn fitting(parts: &ProgramParts, found: Option<u32>, one: &FnIface) -> Option<u32>
    requires { IfSome found (λ target. target < length parts.now.functions) }
    ensures { MatchOption result (IsSomeAnd found (Fits parts.now one.now) → ⊥) (λ target. (found ≡ Some target) × Fits parts.now one.now target) }
{
    let target = found?;
    if fits(parts, target, one) {
        Some(target)
    } else {
        None
    }
}

/// Whether the function has as many parameters and results as are agreed.
fn fits(parts: &ProgramParts, target: u32, one: &FnIface) -> bool
    requires { target < length parts.now.functions }
    ensures { IsTrue result ↔ Fits parts.now one.now target }
{
    let function = &parts.functions.as_slice()[target as usize];
    function.params.len() == one.params.len() && function.results.len() == one.results.len()
}
