//! What a program declares secret, and where it has to be public.
ghost use Rattle.std.specs.Prelude.{◌≡◌, ◌↔◌, ◌+◌, ◌++◌, ◌<◌, ◌^◌, ℕ, IfOk, IsSomeAnd, IsTrue, OnOk, Some, [], length, map, option_map, slice_get};
ghost use Rattle.bl_base.specs.declared.names.Label.TheVariants as label_is;
ghost use Rattle.bl_program.specs.{Layout.AreValues, Layout.first_of, Layout.params_of, Programs.IsProgram, Rules.IsDemand, Rules.IsWellFormed, Sites.Names};
ghost use Rattle.bl_graph.specs.Ranges.{commands};
ghost use Rattle.bl_graph.specs.Secrets.{GivesPublic, TakesSecret, demanded_by};
ghost use Rattle.bl_ct.specs.Facts.{AreFacts, DeclaresOne, Gathers, GlobalFits, LoadFits, ParamFits, SomeAt, StoreFits, vars_of};

use bl_base::{Label, List, NoMemory, Pos, Var};
use bl_graph::{Graph, Origin, Use};
use bl_program::{
    Command, Demand, GlobalDef, MemoryDef, Operand, ParamDef, ProgramParts, WellFormed, firsts_of,
};
use std::alloc::Global;

/// A variable that is declared secret.
#[derive(Clone, Copy, Debug, PartialEq, Eq)]
pub(crate) struct Declared {
    /// The variable.
    pub(crate) var: u32,
    /// The parameter or global that it is.
    pub(crate) origin: Origin,
}

/// A Load of a memory that is declared secret.
#[derive(Clone, Copy, Debug, PartialEq, Eq)]
pub(crate) struct SecretLoad {
    /// The position of the Load.
    pub(crate) at: u32,
    /// The number of the memory.
    pub(crate) memory: u32,
}

/// What a program declares secret, and where it has to be public.
#[derive(Debug, Drop)]
pub(crate) struct Facts {
    /// The variables that are declared secret.
    pub(crate) declared: List<Declared>,
    /// The Loads of memories that are declared secret.
    pub(crate) loads: List<SecretLoad>,
    /// What Stores give to public memories.
    pub(crate) stores: List<Use>,
    /// The variables that are demanded to be public.
    pub(crate) demanded: List<u32>,
}

/// The Loads and Stores that tell what is secret and what has to be public.
#[derive(Debug, Drop)]
pub(crate) struct Accesses {
    /// The Loads of memories that are declared secret.
    pub(crate) loads: List<SecretLoad>,
    /// What Stores give to public memories.
    pub(crate) stores: List<Use>,
}

/// A program with its graph and what it declares.
#[derive(Clone, Copy)]
pub(crate) struct Known<'p> {
    /// The program.
    pub(crate) program: &'p WellFormed,
    /// Its graph.
    pub(crate) graph: &'p Graph,
    /// What it declares.
    pub(crate) facts: &'p Facts,
    /// The variables that its commands and the facts name.
    pub(crate) names: &'p bl_graph::Names,
}

/// What the program declares secret, and where it has to be public. Linear in the program.
pub(crate) fn facts_of(alloc: Global, parts: &ProgramParts) -> Result<Facts, NoMemory>
    requires program { IsProgram parts.now }
    requires rules { IsWellFormed parts.now }
    ensures { IfOk result (λ facts. AreFacts parts.now facts) }
{
    let firsts = firsts_of(alloc, parts)?;
    let declared = declared_of(alloc, parts, firsts.as_slice())?;
    let accesses = accesses_of(alloc, parts)?;
    let demanded = demanded_of(alloc, parts, firsts.as_slice())?;
    Ok(Facts {
        declared,
        loads: accesses.loads,
        stores: accesses.stores,
        demanded,
    })
}

/// The variables that the facts name.
pub(crate) fn vars_of(alloc: Global, facts: &Facts) -> Result<Vec<u32>, NoMemory>
    ensures { IfOk result (λ vars. vars.items ≡ vars_of facts.now) }
{
    let mut vars = Vec::new(alloc);
    push_declared(&mut vars, facts.declared.as_slice())?;
    push_used(&mut vars, facts.stores.as_slice())?;
    vars.extend_from_slice(facts.demanded.as_slice())?;
    Ok(vars)
}

/// Appends the variables that are declared secret.
fn push_declared(vars: &mut Vec<u32>, declared: &[Declared]) -> Result<(), NoMemory>
    ensures { OnOk result (vars.new.items ≡ vars.old.items ++ map (λ one. one.var) declared.now) }
{
    for one in declared {
        vars.push(one.var)?;
    }
    Ok(())
}

/// Appends the variables of uses.
fn push_used(vars: &mut Vec<u32>, uses: &[Use]) -> Result<(), NoMemory>
    ensures { OnOk result (vars.new.items ≡ vars.old.items ++ map (λ one. one.var.0) uses.now) }
{
    for one in uses {
        vars.push(one.var.0)?;
    }
    Ok(())
}

/// The number of a program's commands.
pub(crate) fn command_count(program: &WellFormed) -> u32
    ensures { result ≡ commands program.now }
{
    program.program().parts().commands.len() as u32
}

/// The variables that are declared secret: globals, then the parameters of each function.
fn declared_of(
    alloc: Global,
    parts: &ProgramParts,
    firsts: &[u32],
) -> Result<List<Declared>, NoMemory>
    requires program { IsProgram parts.now }
    requires rules { IsWellFormed parts.now }
    requires firsts { AreValues (first_of parts.now) (length parts.now.functions) firsts.now }
    ensures { IfOk result (Gathers (DeclaresOne parts.now) []) }
{
    let mut all = List::new(alloc);
    push_globals(&mut all, parts.globals.as_slice())?;
    for (number, function) in parts.functions.as_slice().iter().enumerate() {
        let params = function.params.as_slice();
        push_params(&mut all, number as u32, firsts[number], params)?;
    }
    Ok(all)
}

/// Appends the globals that are declared secret.
fn push_globals(all: &mut List<Declared>, globals: &[GlobalDef]) -> Result<(), NoMemory>
    requires { length globals.now < 2 ^ 32 }
    ensures { OnOk result (Gathers (SomeAt globals.now GlobalFits) all.old all.new) }
{
    for (number, global) in globals.iter().enumerate() {
        let declared = Declared {
            var: number as u32,
            origin: Origin::Global(number as u32),
        };
        push_secret(all, global.label, declared)?;
    }
    Ok(())
}

/// Appends the parameters of a function that are declared secret, where its variables begin with that one.
fn push_params(
    all: &mut List<Declared>,
    function: u32,
    first: u32,
    params: &[ParamDef],
) -> Result<(), NoMemory>
    requires { first + length params.now < 2 ^ 32 }
    ensures { OnOk result (Gathers (SomeAt params.now (ParamFits function first)) all.old all.new) }
{
    for (place, param) in params.iter().enumerate() {
        let index = place as u32;
        let declared = Declared {
            var: first + index,
            origin: Origin::Parameter { function, index },
        };
        push_secret(all, param.label, declared)?;
    }
    Ok(())
}

/// Appends the variable if its label is Secret.
fn push_secret(all: &mut List<Declared>, label: Label, declared: Declared) -> Result<(), NoMemory>
    ensures { OnOk result (Gathers (λ one. (label ≡ label_is.Secret) × (one ≡ declared)) all.old all.new) }
{
    match label {
        Label::Secret => all.push(declared),
        Label::Public => Ok(()),
    }
}

/// The Loads of secret memories and what Stores give to public ones, in one pass over the commands.
fn accesses_of(alloc: Global, parts: &ProgramParts) -> Result<Accesses, NoMemory>
    requires { length parts.now.commands < 2 ^ 32 }
    ensures loads { IfOk result (λ found. Gathers (SomeAt parts.now.commands (LoadFits parts.now)) [] found.loads) }
    ensures stores { IfOk result (λ found. Gathers (SomeAt parts.now.commands (StoreFits parts.now)) [] found.stores) }
{
    let mut loads = List::new(alloc);
    let mut stores = List::new(alloc);
    for (at, command) in parts.commands.as_slice().iter().enumerate() {
        push_load(&mut loads, at as u32, taken(parts, *command))?;
        push_store(&mut stores, at as u32, given(parts, *command))?;
    }
    Ok(Accesses { loads, stores })
}

/// Appends the position with the memory, where there is one.
fn push_load(loads: &mut List<SecretLoad>, at: u32, memory: Option<u32>) -> Result<(), NoMemory>
    ensures { OnOk result (Gathers (λ load. (load.at ≡ at) × (memory ≡ Some load.memory)) loads.old loads.new) }
{
    if let Some(memory) = memory {
        loads.push(SecretLoad { at, memory })?;
    }
    Ok(())
}

/// The memory that the command loads from, if that is declared secret.
fn taken(parts: &ProgramParts, command: Command) -> Option<u32>
    ensures { (number : ℕ) → (result ≡ Some number) ↔ TakesSecret parts.now command number }
{
    match command {
        Command::Load { memory, .. } if is_labelled(parts, memory, Label::Secret) => Some(memory),
        _ => None,
    }
}

/// Appends the position with the variable, where there is one.
fn push_store(stores: &mut List<Use>, at: u32, var: Option<Var>) -> Result<(), NoMemory>
    ensures { OnOk result (Gathers (λ store. (store.at.0 ≡ at) × (option_map (λ var. var.0) var ≡ Some store.var.0)) stores.old stores.new) }
{
    if let Some(var) = var {
        stores.push(Use { at: Pos(at), var })?;
    }
    Ok(())
}

/// The variable that the command stores to a public memory.
fn given(parts: &ProgramParts, command: Command) -> Option<Var>
    ensures { (x : ℕ) → (option_map (λ var. var.0) result ≡ Some x) ↔ GivesPublic parts.now command x }
{
    match command {
        Command::Store {
            memory,
            value: Operand::Var(var),
            ..
        } if is_labelled(parts, memory, Label::Public) => Some(var),
        _ => None,
    }
}

/// Whether there is a memory of that number with that label.
fn is_labelled(parts: &ProgramParts, number: u32, label: Label) -> bool
    ensures { IsTrue result ↔ IsSomeAnd (slice_get parts.now.memories number) (λ memory. memory.label ≡ label) }
{
    match parts.memories.as_slice().get(number as usize) {
        Some(memory) => memory.label == label,
        None => false,
    }
}

/// The variables that are demanded to be public.
fn demanded_of(alloc: Global, parts: &ProgramParts, firsts: &[u32]) -> Result<List<u32>, NoMemory>
    requires program { IsProgram parts.now }
    requires rules { IsWellFormed parts.now }
    requires firsts { AreValues (first_of parts.now) (length parts.now.functions) firsts.now }
    ensures { IfOk result (λ demanded. demanded ≡ map (demanded_by parts.now) parts.now.demands) }
{
    let mut demanded = List::new(alloc);
    for demand in parts.demands.as_slice() {
        demanded.push(demanded_by(parts, firsts, *demand))?;
    }
    Ok(demanded)
}

/// The variable of what is demanded to be public.
fn demanded_by(parts: &ProgramParts, firsts: &[u32], demand: Demand) -> u32
    requires program { IsProgram parts.now }
    requires rules { IsWellFormed parts.now }
    requires firsts { AreValues (first_of parts.now) (length parts.now.functions) firsts.now }
    requires named { IsDemand parts.now demand }
    ensures { result ≡ demanded_by parts.now demand }
{
    match demand {
        Demand::Result { function, index } => {
            firsts[function as usize] + params_of(parts, function) + index
        }
        Demand::Global(number) => number,
    }
}

/// The number of a function's parameters.
fn params_of(parts: &ProgramParts, function: u32) -> u32
    requires rules { IsWellFormed parts.now }
    requires exists { function < length parts.now.functions }
    ensures { result ≡ params_of parts.now function }
{
    parts.functions.as_slice()[function as usize].params.len() as u32
}
