//! What commands read.
ghost use Rattle.std.specs.Prelude.{◌≡◌, ◌<◌, ◌^◌, [], ◌∷◌, IfOk, OnOk, length, option_map};
ghost use Rattle.bl_program.specs.Sites.{Among, Loads, Names, moved_by, sunk_by};
ghost use Rattle.bl_graph.specs.Graphs.{AreUses};
ghost use Rattle.bl_graph.specs.UseLists.{AddsPlace, AddsRow, ArePlacesBelow, IsLeastFrom, LoadAt, OperandAt, lower_of};

use crate::facts::Use;
use bl_base::{List, NoMemory, Pos, Var};
use bl_program::{Command, Operand};
use std::alloc::Global;

/// What a program's commands read. Loads rise in position, the other lists in position and then in variable.
#[derive(Drop)]
pub(crate) struct Uses {
    /// The positions of the Loads.
    pub(crate) loads: List<Pos>,
    /// What each Set, Arg and Out reads.
    pub(crate) reads: List<Use>,
    /// What sinks read.
    pub(crate) sinks: List<Use>,
}

/// What the commands read, in one pass over them.
pub(crate) fn uses_of(alloc: Global, commands: &[Command]) -> Result<Uses, NoMemory>
    requires { length commands.now < 2 ^ 32 }
    ensures loads { IfOk result (λ uses. ArePlacesBelow (LoadAt commands.now) (length commands.now) uses.loads) }
    ensures reads { IfOk result (λ uses. AreUses (OperandAt moved_by commands.now) uses.reads) }
    ensures sinks { IfOk result (λ uses. AreUses (OperandAt sunk_by commands.now) uses.sinks) }
{
    let mut loads = List::new(alloc);
    let mut reads = List::new(alloc);
    let mut sinks = List::new(alloc);
    for (at, command) in commands.iter().enumerate() {
        push_load(&mut loads, at as u32, *command)?;
        push_reads(&mut reads, at as u32, *command)?;
        push_sinks(&mut sinks, at as u32, *command)?;
    }
    Ok(Uses {
        loads,
        reads,
        sinks,
    })
}

/// Appends the position of the command if it is a Load.
fn push_load(loads: &mut List<Pos>, at: u32, command: Command) -> Result<(), NoMemory>
    ensures { OnOk result (AddsPlace (Loads command) at loads.old loads.new) }
{
    if matches!(command, Command::Load { .. }) {
        loads.push(Pos(at))?;
    }
    Ok(())
}

/// Appends what a Set, an Arg or an Out reads.
#[tactic(auto, using(crate::proofs::UseRows::row_none_among))]
fn push_reads(reads: &mut List<Use>, at: u32, command: Command) -> Result<(), NoMemory>
    ensures { OnOk result (AddsRow (Among (moved_by command)) at reads.old reads.new) }
{
    match command {
        Command::Set { a, b, c, .. } => push_row(reads, at, &[a, b, c]),
        Command::Arg { value, .. } | Command::Out { value, .. } => push_operand(reads, at, value),
        _ => Ok(()),
    }
}

/// Appends what a sink of the command reads.
#[tactic(auto, using(crate::proofs::UseRows::row_none_among))]
fn push_sinks(sinks: &mut List<Use>, at: u32, command: Command) -> Result<(), NoMemory>
    ensures { OnOk result (AddsRow (Among (sunk_by command)) at sinks.old sinks.new) }
{
    match command {
        Command::Set { op, a, b, .. } if op.is_division() => push_row(sinks, at, &[a, b]),
        Command::Load { address, .. } | Command::Store { address, .. } => {
            push_operand(sinks, at, address)
        }
        Command::Test { cond, .. } => push_operand(sinks, at, cond),
        _ => Ok(()),
    }
}

/// Appends the position with the operand where that is a variable.
fn push_operand(uses: &mut List<Use>, at: u32, operand: Operand) -> Result<(), NoMemory>
    ensures { OnOk result (AddsRow (Among (operand ∷ [])) at uses.old uses.new) }
{
    match operand {
        Operand::Var(var) => {
            uses.push(Use { at: Pos(at), var })?;
            Ok(())
        }
        Operand::Const(_) => Ok(()),
    }
}

/// Appends the position with each variable among the operands, by rising variables.
fn push_row(uses: &mut List<Use>, at: u32, operands: &[Operand]) -> Result<(), NoMemory>
    ensures { OnOk result (AddsRow (Among operands.now) at uses.old uses.new) }
{
    let mut bound = 0;
    while let Some(var) = least_from(operands, bound) {
        uses.push(Use { at: Pos(at), var })?;
        bound = u64::from(var.0) + 1;
    }
    Ok(())
}

/// The least variable among the operands whose number is at least that bound.
fn least_from(operands: &[Operand], bound: u64) -> Option<Var>
    ensures { IsLeastFrom (Among operands.now) bound (option_map (λ var. var.0) result) }
{
    let mut least = None;
    for operand in operands {
        least = lower(least, variable_from(*operand, bound));
    }
    least
}

/// The variable that the operand is, where its number is at least that bound.
fn variable_from(operand: Operand, bound: u64) -> Option<Var>
    ensures { IsLeastFrom (Names operand) bound (option_map (λ var. var.0) result) }
{
    match operand {
        Operand::Var(var) if u64::from(var.0) >= bound => Some(var),
        Operand::Var(_) => None,
        Operand::Const(_) => None,
    }
}

/// The lesser of two variables, where there are some.
fn lower(one: Option<Var>, other: Option<Var>) -> Option<Var>
    ensures { option_map (λ var. var.0) result ≡ lower_of (option_map (λ var. var.0) one) (option_map (λ var. var.0) other) }
{
    match (one, other) {
        (Some(x), Some(y)) => Some(Var(x.0.min(y.0))),
        (Some(x), None) => Some(x),
        (None, other) => other,
    }
}
