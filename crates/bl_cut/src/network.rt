//! The network of a program.
ghost use Rattle.std.specs.Prelude.{◌≡◌, ◌+◌, ◌++◌, ◌<◌, ◌^◌, ◌↔◌, ℕ, All, AllPairs, Contains, IfOk, None, OnOk, length, map, replicate};
ghost use Rattle.bl_program.specs.Sites.{IsSite, site_weight};
ghost use Rattle.bl_graph.specs.{Graphs.IsGraph, Graphs.use_of, Names.AreNames, Names.place_of};
ghost use Rattle.bl_transient.specs.Verdicts.{asked_of};
ghost use Rattle.bl_cut.specs.Network.{AreReaders, Begins, IsNetworkUnder, noted, read_arc, sink_node, var_node, write_arc};

use bl_base::{List, NoMemory};
use bl_flow::{Arc, Network};
use bl_graph::{Graph, Names, Read, SinkUse, Write, ranges};
use bl_program::{WellFormed, site_weight};
use bl_transient::{marked, numbers_of};
use std::alloc::Global;

/// A node for each position, with the weight of its site, and behind them one without weight for each name, by its number. An
/// arc leads from a site to what it writes, and from a variable to each site that reads it. Walks begin at the loads, at what
/// is asked to be transient and at the sites that read it, and end at the variables that sinks read and at what is asked to be
/// stable. A search that begins at the readers of one variable, in the order of their positions, stays in one part of memory at a
/// time; one that begins at the variable alone goes through all of them side by side.
pub(crate) fn network(
    alloc: Global,
    program: &WellFormed,
    graph: &Graph,
    names: &Names,
    transient: &[u32],
    stable: &[u32],
) -> Result<Network, NoMemory>
    requires graph { IsGraph program.now graph.now }
    requires names { AreNames program.now names.now }
    requires transient { All (λ x. Contains names.now x) transient.now }
    requires stable { All (λ x. Contains names.now x) stable.now }
    ensures { IfOk result (λ network. IsNetworkUnder (asked_of (record { transient = transient.now; stable = stable.now })) program.now names.now network) }
{
    ranges(program);
    let commands = program.program().parts().commands.len() as u32;
    let nodes = commands + names.len();
    let count = graph.writes.len().saturating_add(graph.reads.len());
    let mut arcs = Vec::with_capacity(alloc, count)?;
    push_writes(&mut arcs, commands, names, graph.writes.as_slice())?;
    push_reads(&mut arcs, commands, names, graph.reads.as_slice())?;
    let weights = node_weights(alloc, program, graph.writes.as_slice(), nodes)?;
    let starts = start_nodes(alloc, commands, names, graph, transient)?;
    let ends = end_nodes(alloc, commands, names, graph.sinks.as_slice(), stable)?;
    Ok(Network {
        weights: List::of(weights),
        arcs: List::of(arcs),
        starts: List::of(starts),
        ends: List::of(ends),
    })
}

/// For each node the weight of the site, where it is one.
fn node_weights(
    alloc: Global,
    program: &WellFormed,
    writes: &[Write],
    nodes: u32,
) -> Result<Vec<Option<u64>>, NoMemory>
    requires sites { All (λ w. IsSite program.now w.at.0) writes.now }
    requires within { All (λ w. w.at.0 < nodes) writes.now }
    requires all { (s : ℕ) → IsSite program.now s → (x : ℕ) × Contains writes.now (use_of s x) }
    ensures places { IfOk result (λ weights. length weights.items ≡ nodes) }
    ensures weights { IfOk result (λ weights. (v : ℕ) → noted weights.items v ≡ site_weight program.now v) }
{
    let mut weights = no_weights(alloc, nodes)?;
    for write in writes {
        weights[write.at.0 as usize] = Some(site_weight(program, write.at));
    }
    Ok(weights)
}

/// No weight for so many nodes.
fn no_weights(alloc: Global, count: u32) -> Result<Vec<Option<u64>>, NoMemory>
    ensures { IfOk result (λ weights. weights.items ≡ replicate count None) }
{
    let mut weights = Vec::with_capacity(alloc, count as usize)?;
    for _ in 0..count {
        weights.push(None)?;
    }
    Ok(weights)
}

/// Appends an arc from each site to what it writes.
fn push_writes(
    arcs: &mut Vec<Arc>,
    commands: u32,
    names: &Names,
    writes: &[Write],
) -> Result<(), NoMemory>
    requires rise { AllPairs (λ x y. x < y) names.now }
    requires has { All (λ w. Contains names.now w.var.0 × (commands + place_of names.now w.var.0 < 2 ^ 32)) writes.now }
    ensures { OnOk result (arcs.new.items ≡ arcs.old.items ++ map (write_arc names.now commands) writes.now) }
{
    for write in writes {
        arcs.push(Arc {
            from: write.at.0,
            to: commands + names.number_of(write.var.0),
        })?;
    }
    Ok(())
}

/// Appends an arc to each site from what it reads.
fn push_reads(
    arcs: &mut Vec<Arc>,
    commands: u32,
    names: &Names,
    reads: &[Read],
) -> Result<(), NoMemory>
    requires rise { AllPairs (λ x y. x < y) names.now }
    requires has { All (λ r. Contains names.now r.var.0 × (commands + place_of names.now r.var.0 < 2 ^ 32)) reads.now }
    ensures { OnOk result (arcs.new.items ≡ arcs.old.items ++ map (read_arc names.now commands) reads.now) }
{
    for read in reads {
        arcs.push(Arc {
            from: commands + names.number_of(read.var.0),
            to: read.at.0,
        })?;
    }
    Ok(())
}

/// The nodes of the loads, those of the sites that read one of these variables, and those of the variables.
fn start_nodes(
    alloc: Global,
    commands: u32,
    names: &Names,
    graph: &Graph,
    vars: &[u32],
) -> Result<Vec<u32>, NoMemory>
    requires rise { AllPairs (λ x y. x < y) names.now }
    requires reads { All (λ r. Contains names.now r.var.0) graph.now.reads }
    requires has { All (λ x. Contains names.now x × (commands + place_of names.now x < 2 ^ 32)) vars.now }
    requires named { All (λ x. Contains names.now x) vars.now }
    requires few { length names.now < 2 ^ 32 }
    ensures { IfOk result (λ nodes. (s : ℕ) → Contains nodes.items s ↔ Begins names.now commands graph.now vars.now s) }
{
    let loads = graph.loads.as_slice();
    let mut nodes = Vec::with_capacity(alloc, loads.len().saturating_add(vars.len()))?;
    for load in loads {
        nodes.push(load.0)?;
    }
    push_readers(alloc, &mut nodes, names, graph.reads.as_slice(), vars)?;
    push_vars(&mut nodes, commands, names, vars)?;
    Ok(nodes)
}

/// Appends the sites that read one of these variables.
fn push_readers(
    alloc: Global,
    nodes: &mut Vec<u32>,
    names: &Names,
    reads: &[Read],
    vars: &[u32],
) -> Result<(), NoMemory>
    requires rise { AllPairs (λ x y. x < y) names.now }
    requires reads { All (λ r. Contains names.now r.var.0) reads.now }
    requires named { All (λ x. Contains names.now x) vars.now }
    requires few { length names.now < 2 ^ 32 }
    ensures { OnOk result (AreReaders nodes.old.items reads.now vars.now nodes.new.items) }
{
    if vars.is_empty() {
        return Ok(());
    }
    let numbers = numbers_of(alloc, names, vars)?;
    let marks = marked(alloc, names.len(), &numbers)?;
    for read in reads {
        if marks[names.number_of(read.var.0) as usize] {
            nodes.push(read.at.0)?;
        }
    }
    Ok(())
}

/// The nodes of the variables that sinks read, and those of further ones.
fn end_nodes(
    alloc: Global,
    commands: u32,
    names: &Names,
    sinks: &[SinkUse],
    vars: &[u32],
) -> Result<Vec<u32>, NoMemory>
    requires rise { AllPairs (λ x y. x < y) names.now }
    requires has { All (λ s. Contains names.now s.var.0 × (commands + place_of names.now s.var.0 < 2 ^ 32)) sinks.now }
    requires more { All (λ x. Contains names.now x × (commands + place_of names.now x < 2 ^ 32)) vars.now }
    ensures { IfOk result (λ nodes. nodes.items ≡ map (sink_node names.now commands) sinks.now ++ map (var_node names.now commands) vars.now) }
{
    let mut nodes = Vec::with_capacity(alloc, sinks.len().saturating_add(vars.len()))?;
    for sink in sinks {
        nodes.push(commands + names.number_of(sink.var.0))?;
    }
    push_vars(&mut nodes, commands, names, vars)?;
    Ok(nodes)
}

/// Appends the nodes of variables.
fn push_vars(
    nodes: &mut Vec<u32>,
    commands: u32,
    names: &Names,
    vars: &[u32],
) -> Result<(), NoMemory>
    requires rise { AllPairs (λ x y. x < y) names.now }
    requires has { All (λ x. Contains names.now x × (commands + place_of names.now x < 2 ^ 32)) vars.now }
    ensures { OnOk result (nodes.new.items ≡ nodes.old.items ++ map (var_node names.now commands) vars.now) }
{
    for x in vars {
        nodes.push(commands + names.number_of(*x))?;
    }
    Ok(())
}
