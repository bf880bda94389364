//! What sites write.
ghost use Rattle.std.specs.Prelude.{◌≡◌, IfOk, OnOk, Some, option_map, suc};
ghost use Rattle.bl_program.specs.Layout.{command_at, entry_of, Holds};
ghost use Rattle.bl_program.specs.Sites.{Writes, written_by};
ghost use Rattle.bl_graph.specs.{Graphs.AreUses, Ranges.AreInRange, Ranges.variables};
ghost use Rattle.bl_graph.specs.{FirstVariables.IsRunning, UseLists.AddsRow, UseLists.AreBelow};

use crate::facts::Use;
use bl_base::{List, NoMemory, Pos, Var};
use bl_program::{Command, FIRST_ENTRY, ProgramParts, WellFormed, firsts_of};
use std::alloc::Global;

/// The number of a program's variables. Linear in its functions; takes no memory.
pub fn variables(program: &WellFormed) -> u32
    ensures { result ≡ variables program.now }
{
    let parts = program.program().parts();
    let mut count = (parts.globals.len() + parts.memories.len()) as u32;
    for function in parts.functions.as_slice() {
        count += function.vars;
    }
    count
}

/// Makes known that positions, variables and weights of the program lie in their ranges; does nothing else.
pub fn ranges(program: &WellFormed)
    ensures { AreInRange program.now }
{
    let _parts = program.program().parts();
}

/// A function of a program.
#[derive(Clone, Copy)]
pub(crate) struct Running<'p> {
    /// The program.
    parts: &'p ProgramParts,
    /// The first variable of each function, and the number of all variables.
    firsts: &'p [u32],
    /// The number of the function.
    number: usize,
    /// The variable of its first result.
    results: u32,
}

/// What each site writes.
pub(crate) fn writes_of(alloc: Global, program: &WellFormed) -> Result<List<Use>, NoMemory>
    ensures { IfOk result (λ writes. AreUses (Writes program.now) writes) }
{
    let parts = program.program().parts();
    let table = firsts_of(alloc, parts)?;
    let firsts = table.as_slice();
    let mut writes = List::new(alloc);
    let mut entry = FIRST_ENTRY;
    for (number, function) in parts.functions.as_slice().iter().enumerate() {
        let running = Running {
            parts,
            firsts,
            number,
            results: firsts[number] + function.params.len() as u32,
        };
        let end = entry + function.length;
        push_writes(&mut writes, &running, entry, end)?;
        entry = end;
    }
    Ok(writes)
}

/// Appends what the sites of a function write, from its entry to its end.
fn push_writes(
    writes: &mut List<Use>,
    running: &Running,
    entry: u32,
    end: u32,
) -> Result<(), NoMemory>
    requires running { IsRunning running.now }
    requires entry { entry ≡ entry_of running.now.parts.now running.now.number }
    requires end { end ≡ entry_of running.now.parts.now (suc running.now.number) }
    requires below { AreBelow (Writes running.now.parts.now) entry writes.old }
    ensures { OnOk result (AreBelow (Writes running.now.parts.now) end writes.new) }
{
    for at in entry..end {
        let command = running.parts.commands.as_slice()[at as usize];
        push_write(writes, at, written(running, at, command))?;
    }
    Ok(())
}

/// Appends the position with the variable, where there is one.
fn push_write(writes: &mut List<Use>, at: u32, var: Option<Var>) -> Result<(), NoMemory>
    ensures { OnOk result (AddsRow (λ x. option_map (λ var. var.0) var ≡ Some x) at writes.old writes.new) }
{
    if let Some(var) = var {
        writes.push(Use { at: Pos(at), var })?;
    }
    Ok(())
}

/// The variable that a command of the function writes, where it writes one.
fn written(running: &Running, at: u32, command: Command) -> Option<Var>
    requires running { IsRunning running.now }
    requires holds { Holds running.now.parts.now running.now.number at }
    requires stands { command_at running.now.parts.now at ≡ Some command }
    ensures { option_map (λ var. var.0) result ≡ written_by running.now.parts.now at command }
{
    match command {
        Command::Set { to, .. } | Command::Load { to, .. } => Some(to),
        Command::Arg {
            function,
            index,
            ..
        } => Some(Var(running.firsts[function as usize] + index)),
        Command::Out { index, .. } => Some(Var(running.results + index)),
        _ => None,
    }
}
