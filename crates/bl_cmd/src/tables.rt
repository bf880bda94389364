//! The tables with which a program's commands are checked.
ghost use Rattle.std.specs.Prelude.{◌≡◌, ◌<◌, ◌^◌, IfOk, None, length, replicate};
ghost use Rattle.bl_program.specs.{Layout.AreValues, Layout.entry_of, Programs.IsProgram, Rules.Rule2};
ghost use Rattle.bl_cmd.specs.Tables.{AreTables};
ghost use Rattle.bl_cmd.specs.Entrants.{AreEntrants, joined, with_entrant, with_entrants};

use bl_base::{List, NoMemory, Pos};
use bl_program::{Command, FIRST_ENTRY, ProgramParts, firsts_of};
use std::alloc::Global;

/// Those commands that go to a position that they name: of their positions the least and the greatest.
#[derive(Clone, Copy, Debug, PartialEq, Eq)]
pub(crate) struct Entrants {
    /// The least one.
    pub(crate) least: u32,
    /// The greatest one.
    pub(crate) greatest: u32,
}

/// Where the variables and the commands of each function begin, and who goes to a position.
#[derive(Debug, Drop)]
pub(crate) struct Tables {
    /// The first variable of each function, and the number of all variables.
    pub(crate) firsts: List<u32>,
    /// The entry of each function, and the number of all commands.
    pub(crate) entries: List<u32>,
    /// Who goes to each position; None where nobody does.
    pub(crate) entrants: List<Option<Entrants>>,
}

impl Tables {
    /// The tables of a program.
    pub(crate) fn of(alloc: Global, parts: &ProgramParts) -> Result<Tables, NoMemory>
        requires facts { IsProgram parts.now }
        requires rule { Rule2 parts.now }
        ensures { IfOk result (λ tables. AreTables parts.now tables) }
    {
        let firsts = firsts_of(alloc, parts)?;
        let entries = entries_of(alloc, parts)?;
        let entrants = entrants_of(alloc, parts.commands.as_slice())?;
        Ok(Tables {
            firsts,
            entries,
            entrants,
        })
    }
}

/// The entry of each function, and the number of all commands.
fn entries_of(alloc: Global, parts: &ProgramParts) -> Result<List<u32>, NoMemory>
    requires facts { IsProgram parts.now }
    requires rule { Rule2 parts.now }
    ensures { IfOk result (λ entries. AreValues (entry_of parts.now) (length parts.now.functions) entries) }
{
    let mut entries = List::new(alloc);
    let mut entry = FIRST_ENTRY;
    entries.push(entry)?;
    for function in parts.functions.as_slice() {
        entry += function.length;
        entries.push(entry)?;
    }
    Ok(entries)
}

/// Who goes to each position.
fn entrants_of(alloc: Global, commands: &[Command]) -> Result<List<Option<Entrants>>, NoMemory>
    requires { length commands.now < 2 ^ 32 }
    ensures { IfOk result (λ entrants. AreEntrants commands.now entrants) }
{
    let mut entrants = no_entrants(alloc, commands.len())?;
    for (from, command) in commands.iter().enumerate() {
        note_command(&mut entrants, from as u32, *command);
    }
    Ok(List::of(entrants))
}

/// Nobody for so many positions.
fn no_entrants(alloc: Global, count: usize) -> Result<Vec<Option<Entrants>>, NoMemory>
    ensures { IfOk result (λ entrants. entrants.items ≡ replicate count None) }
{
    let mut entrants = Vec::new(alloc);
    for done in 0..count {
        entrants.push(None)?;
    }
    Ok(entrants)
}

/// Notes the command at a position with those that it names.
fn note_command(entrants: &mut Vec<Option<Entrants>>, from: u32, command: Command)
    ensures { entrants.new.items ≡ with_entrants command entrants.old.items from }
{
    match command {
        Command::Test { yes, no, .. } => {
            note(entrants, from, yes);
            note(entrants, from, no);
        }
        Command::Jump { to } => note(entrants, from, to),
        _ => {}
    }
}

/// Notes the command at a position, behind all that stand before it, with one that it names.
fn note(entrants: &mut Vec<Option<Entrants>>, from: u32, to: Pos)
    ensures { entrants.new.items ≡ with_entrant entrants.old.items from to.0 }
{
    let to = to.0 as usize;
    if to < entrants.len() {
        entrants[to] = Some(entered(entrants[to], from));
    }
}

/// Those that go to a position, and one behind them.
fn entered(entry: Option<Entrants>, from: u32) -> Entrants
    ensures { result ≡ joined entry from }
{
    let least = match entry {
        Some(entrants) => entrants.least,
        None => from,
    };
    Entrants {
        least,
        greatest: from,
    }
}
