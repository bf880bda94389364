//! The tables with which a program is checked.
ghost use Rattle.std.specs.Prelude.{◌≡◌, IfOk, OnOk, length, replicate};
ghost use Rattle.bl_program.specs.{Layout.AreValues, Layout.entry_of, Layout.first_of, Programs.IsProgram, Rules.Rule2};
ghost use Rattle.bl_definite.specs.Tables.{AreEntrants, AreNoted, AreTables, Noted};

use bl_base::{List, NoMemory, Pos};
use bl_program::{Command, FIRST_ENTRY, ProgramParts, firsts_of};
use std::alloc::Global;

/// One command that goes to a position by naming it, and where the others are found.
#[derive(Clone, Copy, Debug)]
pub(crate) struct Link {
    /// The position of the command.
    pub(crate) from: usize,
    /// The next link is the one before this number; 0 where there is none.
    pub(crate) next: usize,
}

/// The commands that go to each position by naming it.
#[derive(Debug, Drop)]
pub(crate) struct Entrants {
    /// For each position: the first link is the one before this number; 0 where there is none.
    pub(crate) heads: Vec<usize>,
    /// The links.
    pub(crate) links: Vec<Link>,
}

/// Where the variables and the commands of each function begin, and who goes to a position.
#[derive(Debug, Drop)]
pub(crate) struct Tables {
    /// The first variable of each function, and the number of all variables.
    pub(crate) firsts: List<u32>,
    /// The entry of each function, and the number of all commands.
    pub(crate) entries: List<u32>,
    /// Who goes to each position.
    pub(crate) entrants: Entrants,
}

impl Tables {
    /// The tables of a program.
    pub(crate) fn of(alloc: Global, parts: &ProgramParts) -> Result<Tables, NoMemory>
        requires facts { IsProgram parts.now }
        requires rule { Rule2 parts.now }
        ensures { IfOk result (λ tables. AreTables parts.now tables) }
    {
        let firsts = firsts_of(alloc, parts)?;
        let entries = entries_of(alloc, parts)?;
        let entrants = entrants_of(alloc, parts.commands.as_slice())?;
        Ok(Tables {
            firsts,
            entries,
            entrants,
        })
    }
}

/// The entry of each function, and the number of all commands.
fn entries_of(alloc: Global, parts: &ProgramParts) -> Result<List<u32>, NoMemory>
    requires facts { IsProgram parts.now }
    requires rule { Rule2 parts.now }
    ensures { IfOk result (λ entries. AreValues (entry_of parts.now) (length parts.now.functions) entries) }
{
    let mut entries = List::new(alloc);
    let mut entry = FIRST_ENTRY;
    entries.push(entry)?;
    for function in parts.functions.as_slice() {
        entry += function.length;
        entries.push(entry)?;
    }
    Ok(entries)
}

/// Who goes to each position.
fn entrants_of(alloc: Global, commands: &[Command]) -> Result<Entrants, NoMemory>
    ensures { IfOk result (λ entrants. AreEntrants commands.now entrants) }
{
    let heads = no_heads(alloc, commands.len())?;
    let mut entrants = Entrants {
        heads,
        links: Vec::new(alloc),
    };
    for (from, command) in commands.iter().enumerate() {
        note_command(&mut entrants, from, *command)?;
    }
    Ok(entrants)
}

/// No links for so many positions.
fn no_heads(alloc: Global, count: usize) -> Result<Vec<usize>, NoMemory>
    ensures { IfOk result (λ heads. heads.items ≡ replicate count 0) }
{
    let mut heads = Vec::new(alloc);
    for done in 0..count {
        heads.push(0)?;
    }
    Ok(heads)
}

/// Notes the command at a position with those that it names.
fn note_command(entrants: &mut Entrants, from: usize, command: Command) -> Result<(), NoMemory>
    ensures { OnOk result (AreNoted command from entrants.old entrants.new) }
{
    match command {
        Command::Test { yes, no, .. } => {
            note(entrants, from, yes)?;
            note(entrants, from, no)?;
            Ok(())
        }
        Command::Jump { to } => note(entrants, from, to),
        _ => Ok(()),
    }
}

/// Notes the command at a position with one that it names.
fn note(entrants: &mut Entrants, from: usize, to: Pos) -> Result<(), NoMemory>
    ensures { OnOk result (Noted from to.0 entrants.old entrants.new) }
{
    let to = to.0 as usize;
    if to < entrants.heads.len() {
        let next = entrants.heads[to];
        entrants.links.push(Link { from, next })?;
        entrants.heads[to] = entrants.links.len();
    }
    Ok(())
}
