//! Walks in the network, read back as chains of sites.
ghost use Rattle.std.specs.Prelude.{◌≡◌, ◌<◌, ◌^◌, All, AllPairs, Contains, IfOk, length, map};
ghost use Rattle.bl_cut.specs.Choices.{EndsAtVar, KnowsIn, path_of, positions, sites_in};

use bl_base::{List, NoMemory, Pos};
use bl_flow::NodePath;
use bl_graph::{FlowPath, Names, SinkUse};
use std::alloc::Global;

/// For each name, by its number, the position of a sink that reads it; 0 where none does.
pub(crate) fn sinks_by_variable(
    alloc: Global,
    names: &Names,
    sinks: &[SinkUse],
) -> Result<Vec<u32>, NoMemory>
    requires few { length names.now < 2 ^ 32 }
    requires rise { AllPairs (λ x y. x < y) names.now }
    requires has { All (λ s. Contains names.now s.var.0) sinks.now }
    ensures places { IfOk result (λ found. length found.items ≡ length names.now) }
    ensures some { IfOk result (λ found. KnowsIn names.now sinks.now found.items) }
{
    let mut found = vec![in alloc; 0u32; names.len() as usize]?;
    for sink in sinks {
        found[names.number_of(sink.var.0) as usize] = sink.at.0;
    }
    Ok(found)
}

/// The walks of a flow as chains of sites.
pub(crate) fn read_back(
    alloc: Global,
    commands: u32,
    sink_of: &[u32],
    paths: &[NodePath],
) -> Result<Vec<FlowPath>, NoMemory>
    requires { All (λ path. EndsAtVar commands (length sink_of.now) path.nodes) paths.now }
    ensures { IfOk result (λ all. all.items ≡ map (path_of commands sink_of.now) paths.now) }
{
    let mut all = Vec::with_capacity(alloc, paths.len())?;
    for path in paths {
        all.push(chain_of(alloc, commands, sink_of, path)?)?;
    }
    Ok(all)
}

/// A walk as a chain of sites.
fn chain_of(
    alloc: Global,
    commands: u32,
    sink_of: &[u32],
    path: &NodePath,
) -> Result<FlowPath, NoMemory>
    requires { EndsAtVar commands (length sink_of.now) path.now.nodes }
    ensures { IfOk result (λ chain. chain ≡ path_of commands sink_of.now path.now) }
{
    let nodes = path.nodes.as_slice();
    let variable = nodes[nodes.len() - 1] - commands;
    let sites = sites_among(alloc, commands, nodes)?;
    Ok(FlowPath {
        sites: List::of(sites),
        sink: Pos(sink_of[variable as usize]),
        amount: path.amount,
    })
}

/// The sites among a walk's nodes.
fn sites_among(alloc: Global, commands: u32, nodes: &[u32]) -> Result<Vec<Pos>, NoMemory>
    ensures { IfOk result (λ sites. sites.items ≡ positions (sites_in commands nodes.now)) }
{
    let mut sites = Vec::with_capacity(alloc, nodes.len() / 2)?;
    for node in nodes {
        if *node < commands {
            sites.push(Pos(*node))?;
        }
    }
    Ok(sites)
}
