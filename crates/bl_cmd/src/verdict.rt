//! Whether a program is well-formed, and which rule it breaks first.
ghost use Rattle.std.specs.Prelude.{◌≡◌, ◌≤◌, ◌<◌, ℕ, IfOk, IfErr, MatchOption, length};
ghost use Rattle.bl_program.specs.{Programs.IsProgram, Rules.IsWellFormed};
ghost use Rattle.bl_cmd.specs.Tables.{AreTables};
ghost use Rattle.bl_cmd.specs.Verdicts.{IsFault, IsFaultIn, IsReason, IsVerdict, KeepsBelow, KeepsParts};

use crate::parts::broken_part;
use crate::place::Place;
use crate::rules::broken_rule;
use crate::tables::Tables;
use bl_base::{NoMemory, Pos};
use bl_program::{Program, ProgramParts, WellFormed};
use std::alloc::Global;
use thiserror::Error;

/// Why a program isn't well-formed, or that this isn't known.
#[derive(Clone, Copy, Debug, PartialEq, Eq, Error)]
pub enum CheckError {
    /// A rule is broken: the one at the least position, and at it the one with the least number.
    #[error("rule {rule} is broken at {}", position.0)]
    Fault {
        /// The number of the rule, from 1 to 9.
        rule: u8,
        /// The position where it is broken; 0 for rules 1 to 3 and 9, which speak of the whole program.
        position: Pos,
    },
    /// There was no memory for the check.
    #[error("out of memory")]
    Memory,
}

/// A rule that is broken, and where.
#[derive(Clone, Copy, Debug)]
pub(crate) struct Fault {
    /// The number of the rule.
    rule: u8,
    /// The position.
    position: Pos,
}

/// The program as one that keeps the nine rules. Else it comes back unchanged, with the first rule that it breaks: at the
/// least position, and at it the least rule. Linear in the program but for a logarithm of its functions and names.
pub fn check(alloc: Global, program: Program) -> Result<WellFormed, (Program, CheckError)>
    ensures valid { IfOk result (λ well. (well ≡ program) × IsWellFormed program) }
    ensures unchanged { IfErr result (λ refusal. refusal.0 ≡ program) }
    ensures reason { IfErr result (λ refusal. IsReason program refusal.1) }
    ensures only { IsWellFormed program → IfErr result (λ refusal. refusal.1 ≡ CheckError.Memory) }
{
    match first_fault(alloc, program.parts()) {
        Ok(None) => Ok(WellFormed::of(program)),
        Ok(Some(fault)) => Err((
            program,
            CheckError::Fault {
                rule: fault.rule,
                position: fault.position,
            },
        )),
        Err(NoMemory) => Err((program, CheckError::Memory)),
    }
}

/// The first rule that the program breaks, and where; None where it keeps all.
fn first_fault(alloc: Global, parts: &ProgramParts) -> Result<Option<Fault>, NoMemory>
    requires { IsProgram parts.now }
    ensures { IfOk result (IsVerdict parts.now) }
{
    if let Some(rule) = broken_part(alloc, parts)? {
        return Ok(Some(Fault {
            rule,
            position: Pos(0),
        }));
    }
    let tables = Tables::of(alloc, parts)?;
    Ok(fault_among(parts, &tables))
}

/// The first fault among the commands of all functions; None where there is none.
fn fault_among(parts: &ProgramParts, tables: &Tables) -> Option<Fault>
    requires { AreTables parts.now tables.now }
    ensures { MatchOption result ((function : ℕ) → function < length parts.now.functions → KeepsBelow parts.now function (length parts.now.commands))
        (λ fault. IsFault parts.now fault.rule fault.position.0) }
{
    for function in 0..parts.functions.len() {
        if let Some(fault) = fault_in(parts, tables, function) {
            return Some(fault);
        }
    }
    None
}

/// The first fault among the commands of a function; None where there is none.
fn fault_in(parts: &ProgramParts, tables: &Tables, function: usize) -> Option<Fault>
    requires tables { AreTables parts.now tables.now }
    requires exists { function < length parts.now.functions }
    ensures { MatchOption result (KeepsBelow parts.now function (length parts.now.commands)) (λ fault. IsFaultIn parts.now function fault.rule fault.position.0) }
{
    let entry = tables.entries.as_slice()[function] as usize;
    let end = tables.entries.as_slice()[function + 1] as usize;
    for position in entry..end {
        let place = Place {
            parts,
            tables,
            function,
            position,
        };
        if let Some(rule) = broken_rule(&place, parts.commands.as_slice()[position]) {
            return Some(Fault {
                rule,
                position: Pos(position as u32),
            });
        }
    }
    None
}
