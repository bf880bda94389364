//! Where a set of protected sites fails what is asked of variables.
ghost use Rattle.std.specs.Prelude.{◌≡◌, ◌++◌, ◌<◌, ◌↔◌, ℕ, All, Contains, IfOk, OnOk, length};
ghost use Rattle.std.specs.FinSet as fin;
ghost use Rattle.bl_graph.specs.{Graphs.IsGraph, Names.AreNames, Ranges.variables};
ghost use Rattle.bl_transient.specs.Reachability.{stable_loads, stable_noted, stable_reads, noted_load, noted_read};
ghost use Rattle.bl_transient.specs.Verdicts.{AreBars, JudgesUnder, asked_of};

use crate::asked::{AskedOf, marked, names_under, numbers_of};
use crate::moves::written_named;
use crate::transient::{first_sink, named_transients};
use bl_base::{NoMemory, Pos, SiteSet, Var};
use bl_graph::{Graph, Names, Read, Use, noted_at, ranges};
use bl_program::WellFormed;
use std::alloc::Global;

/// None where the set passes under what is asked. Else the least position of a sink that reads a transient variable, or of a site
/// that isn't protected, reads a transient variable or is a Load, and writes one that is asked to be stable; transient are here
/// the variables that are asked to be and what follows. Linear in the program and in what is asked, but for a sort where the
/// commands name few of its variables. Want of memory is the only error.
pub fn first_bad_of(
    alloc: Global,
    program: &WellFormed,
    graph: &Graph,
    asked: &AskedOf,
    protects: &SiteSet,
) -> Result<Option<Pos>, NoMemory>
    requires graph { IsGraph program.now graph.now }
    requires transient { All (λ x. x < variables program.now) asked.now.transient }
    requires stable { All (λ x. x < variables program.now) asked.now.stable }
    requires apart { (x : ℕ) → Contains asked.now.transient x → Contains asked.now.stable x → ⊥ }
    ensures { IfOk result (λ bad. JudgesUnder (asked_of asked.now) program.now (fin.contains protects.now) bad) }
{
    let names = names_under(alloc, program, graph, asked)?;
    let marks = named_transients(alloc, program, graph, &names, asked, protects)?;
    let uses = barred_uses(alloc, program, graph, &names, asked, protects)?;
    match first_sink(&marks, &uses) {
        Some(position) => Ok(Some(Pos(position))),
        None => Ok(None),
    }
}

/// By the numbers of variables: what sinks read; what the sites that aren't protected and write a variable that is asked to be
/// stable read; and what the Loads among these write.
fn barred_uses(
    alloc: Global,
    program: &WellFormed,
    graph: &Graph,
    names: &Names,
    asked: &AskedOf,
    protects: &SiteSet,
) -> Result<Vec<Use>, NoMemory>
    requires graph { IsGraph program.now graph.now }
    requires names { AreNames program.now names.now }
    requires stable { All (λ x. Contains names.now x) asked.now.stable }
    ensures { IfOk result (λ uses. AreBars (asked_of asked.now) program.now (fin.contains protects.now) names.now uses.items) }
{
    ranges(program);
    let written = written_named(alloc, program, graph, names, protects)?;
    let reads = names.numbered(alloc, graph.reads.as_slice())?;
    let sinks = names.numbered(alloc, graph.sinks.as_slice())?;
    let numbers = numbers_of(alloc, names, asked.stable.as_slice())?;
    let stable = marked(alloc, names.len(), &numbers)?;
    let mut uses = Vec::new(alloc);
    uses.extend_from_slice(&sinks)?;
    push_reads(&mut uses, &reads, &written, &stable)?;
    push_loads(&mut uses, graph.loads.as_slice(), &written, &stable)?;
    Ok(uses)
}

/// The marked variable that is noted for a position, if there is one.
fn stable_at(written: &[Option<u32>], stable: &[bool], at: Pos) -> Option<u32>
    ensures { result ≡ stable_noted written.now stable.now at.0 }
{
    match noted_at(written, at) {
        Some(x) => match stable.get(x as usize) {
            Some(true) => Some(x),
            _ => None,
        },
        None => None,
    }
}

/// Appends the reads of the sites that write a marked variable.
fn push_reads(
    uses: &mut Vec<Use>,
    reads: &[Read],
    written: &[Option<u32>],
    stable: &[bool],
) -> Result<(), NoMemory>
    ensures { OnOk result (uses.new.items ≡ uses.old.items ++ stable_reads written.now stable.now reads.now) }
{
    for read in reads {
        push_read(uses, *read, stable_at(written, stable, read.at))?;
    }
    Ok(())
}

/// Appends the read, where its site writes such a variable.
fn push_read(uses: &mut Vec<Use>, read: Read, var: Option<u32>) -> Result<(), NoMemory>
    ensures { OnOk result (uses.new.items ≡ uses.old.items ++ noted_read read var) }
{
    if var.is_some() {
        uses.push(read)?;
    }
    Ok(())
}

/// Appends the loads that write a marked variable, each with that variable.
fn push_loads(
    uses: &mut Vec<Use>,
    loads: &[Pos],
    written: &[Option<u32>],
    stable: &[bool],
) -> Result<(), NoMemory>
    ensures { OnOk result (uses.new.items ≡ uses.old.items ++ stable_loads written.now stable.now loads.now) }
{
    for load in loads {
        push_load(uses, *load, stable_at(written, stable, *load))?;
    }
    Ok(())
}

/// Appends the load, where it writes such a variable.
fn push_load(uses: &mut Vec<Use>, load: Pos, var: Option<u32>) -> Result<(), NoMemory>
    ensures { OnOk result (uses.new.items ≡ uses.old.items ++ noted_load load.0 var) }
{
    if let Some(x) = var {
        uses.push(Use {
            at: load,
            var: Var(x),
        })?;
    }
    Ok(())
}
