//! Whether a program is definite, and where a command lacks a fact first.
ghost use Rattle.std.specs.Prelude.{◌≡◌, IfErr, IfOk, MatchOption, None, replicate};
ghost use Rattle.bl_program.specs.{Programs.IsProgram, Rules.IsWellFormed};
ghost use Rattle.bl_definite.specs.Facts.{IsDefinite, IsFirstLacking};
ghost use Rattle.bl_definite.specs.Search.{AreUnset, Finds, IsClean, IsPlace};
ghost use Rattle.bl_definite.specs.Tables.{AreTables};
ghost use Rattle.bl_definite.specs.Verdicts.{IsReason};

use crate::early::{no_flags, note_straight};
use crate::facts::Fact;
use crate::needs::needs_lacking;
use crate::place::Place;
use crate::search::Search;
use crate::tables::Tables;
use bl_base::{NoMemory, Pos};
use bl_program::{ProgramParts, WellFormed};
use std::alloc::Global;
use thiserror::Error;

/// Why a program isn't definite, or that this isn't known.
#[derive(Clone, Copy, Debug, PartialEq, Eq, Error)]
pub enum DefiniteError {
    /// A command needs a fact that is lacking on some way to it; none at a lesser position does.
    #[error("what is needed at {} isn't always written before", position.0)]
    Lacking {
        /// The position of the command.
        position: Pos,
    },
    /// There was no memory for the check.
    #[error("out of memory")]
    Memory,
}

/// Whether the program is definite. Time and memory are linear in the program and in the stretches of control from where a
/// variable is written to where it is read; the variables that a function writes before its first branch cost nothing.
pub fn check_definite(alloc: Global, program: &WellFormed) -> Result<(), DefiniteError>
    ensures definite { IfOk result (λ _. IsDefinite program.now) }
    ensures reason { IfErr result (λ error. IsReason program.now error) }
{
    match first_lacking(alloc, program.program().parts()) {
        Ok(None) => Ok(()),
        Ok(Some(position)) => Err(DefiniteError::Lacking {
            position: Pos(position as u32),
        }),
        Err(NoMemory) => Err(DefiniteError::Memory),
    }
}

/// The first position whose command lacks a fact that it needs; None where there is none.
fn first_lacking(alloc: Global, parts: &ProgramParts) -> Result<Option<usize>, NoMemory>
    requires facts { IsProgram parts.now }
    requires rules { IsWellFormed parts.now }
    ensures { IfOk result (λ found. MatchOption found (IsDefinite parts.now) (IsFirstLacking parts.now)) }
{
    let tables = Tables::of(alloc, parts)?;
    let mut search = Search {
        stamps: no_stamps(alloc, parts.commands.len())?,
        waiting: Vec::new(alloc),
    };
    lacking_among(alloc, parts, &tables, &mut search)
}

/// No position was seen.
fn no_stamps(alloc: Global, count: usize) -> Result<Vec<Option<Fact>>, NoMemory>
    ensures { IfOk result (λ stamps. stamps.items ≡ replicate count None) }
{
    let mut stamps = Vec::new(alloc);
    for done in 0..count {
        stamps.push(None)?;
    }
    Ok(stamps)
}

/// The same, with the tables.
fn lacking_among(
    alloc: Global,
    parts: &ProgramParts,
    tables: &Tables,
    search: &mut Search,
) -> Result<Option<usize>, NoMemory>
    requires rules { IsWellFormed parts.now }
    requires tables { AreTables parts.now tables.now }
    requires clean { IsClean parts.now search.old }
    ensures { IfOk result (λ found. MatchOption found (IsDefinite parts.now) (IsFirstLacking parts.now)) }
{
    for function in 0..parts.functions.len() {
        let place = Place {
            parts,
            tables,
            function,
        };
        if let Some(position) = lacking_in(alloc, &place, search)? {
            return Ok(Some(position));
        }
    }
    Ok(None)
}

/// The first position of a function whose command lacks a fact that it needs; None where there is none.
fn lacking_in(alloc: Global, place: &Place, search: &mut Search) -> Result<Option<usize>, NoMemory>
    requires place { IsPlace place.now }
    requires clean { IsClean place.now.parts.now search.old }
    ensures { IfOk result (λ found. Finds place.now.parts.now place.now.function found search.new) }
{
    let mut early = no_flags(alloc, place.end() - place.entry())?;
    let found = lacking_from(place, search, &mut early)?;
    Ok(found)
}

/// The same, with the flags of the variables that were written before the function's first branch.
fn lacking_from(
    place: &Place,
    search: &mut Search,
    early: &mut [bool],
) -> Result<Option<usize>, NoMemory>
    requires place { IsPlace place.now }
    requires clean { IsClean place.now.parts.now search.old }
    requires none { AreUnset early.old }
    ensures { IfOk result (λ found. Finds place.now.parts.now place.now.function found search.new) }
{
    let mut straight = true;
    for position in place.entry()..place.end() {
        let command = place.command_at(position);
        if needs_lacking(place, search, early, command, position)? {
            return Ok(Some(position));
        }
        straight = note_straight(place, early, command, straight);
    }
    Ok(None)
}
