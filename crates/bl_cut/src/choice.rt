//! The least choice of protects.
ghost use Rattle.std.specs.Prelude.{◌≡◌, ◌≤◌, ◌&&◌, ℕ, IfOk, length, nat_lt};
ghost use Rattle.std.specs.FinSet as fin;
ghost use Rattle.bl_program.specs.Sites.{weight_of};
ghost use Rattle.bl_flow.specs.Cuts.{cut_of};
ghost use Rattle.bl_graph.specs.{Certificates.Certifies, Graphs.IsGraph};
ghost use Rattle.bl_cut.specs.{Choices.IsFlowOf, Choices.KnowsSinks, Least.Least, Marks.protected, Network.IsNetwork};

use crate::network::network;
use crate::walks::{read_back, sinks_by_variable};
use bl_base::{List, NoMemory, Pos, SiteSet};
use bl_flow::{FlowResult, LeastCut, Network, max_flow_of};
use bl_graph::{Certificate, Graph, Names, graph, names_of, ranges};
use bl_program::WellFormed;
use std::alloc::Global;

/// A set of sites to protect, its weight, and a flow that shows that no set of less weight passes.
#[derive(Drop)]
pub struct Choice {
    /// The sites.
    pub protects: SiteSet,
    /// Their weights together.
    pub weight: u64,
    /// The flow.
    pub certificate: Certificate,
}

/// The passing set of least weight whose transient variables are contained in those of every other one of that weight. Marks
/// that stand in the program are ignored. Costs a maximum flow in a network that is linear in the program's commands; where these
/// name few of its variables, a sort of what they write and read too. The certificate takes memory for each site on each of its paths.
/// Want of memory is the only error.
pub fn least_protects(alloc: Global, program: &WellFormed) -> Result<Choice, NoMemory>
    ensures least { IfOk result (λ choice. Least program.now (fin.contains choice.protects)) }
    ensures weight { IfOk result (λ choice. choice.weight ≡ weight_of program.now (fin.contains choice.protects)) }
    ensures certificate { IfOk result (λ choice. Certifies (protected (fin.contains choice.protects) program.now) choice.certificate) }
{
    let graph = graph(alloc, program)?;
    least_protects_of(alloc, program, graph)
}

/// The same from the program's graph, which is given back before the search.
pub fn least_protects_of(
    alloc: Global,
    program: &WellFormed,
    graph: Graph,
) -> Result<Choice, NoMemory>
    requires { IsGraph program.now graph }
    ensures least { IfOk result (λ choice. Least program.now (fin.contains choice.protects)) }
    ensures weight { IfOk result (λ choice. choice.weight ≡ weight_of program.now (fin.contains choice.protects)) }
    ensures certificate { IfOk result (λ choice. Certifies (protected (fin.contains choice.protects) program.now) choice.certificate) }
{
    let laid = lay_out(alloc, program, &graph)?;
    // The search can take the graph's memory.
    drop(graph);
    choose(alloc, program, laid)
}

/// A program's network, and what is known of its graph beside it.
#[derive(Drop)]
struct ProgramNetwork {
    /// The variables that its commands name.
    names: Names,
    /// The network over them.
    network: Network,
    /// For each name, by its number, the position of a sink that reads it; 0 where none does.
    sink_of: Vec<u32>,
}

/// The network of a program.
fn lay_out(alloc: Global, program: &WellFormed, graph: &Graph) -> Result<ProgramNetwork, NoMemory>
    requires { IsGraph program.now graph.now }
    ensures network { IfOk result (λ laid. IsNetwork program.now laid.names laid.network) }
    ensures places { IfOk result (λ laid. length laid.sink_of.items ≡ length laid.names) }
    ensures knows { IfOk result (λ laid. KnowsSinks program.now laid.names laid.sink_of.items) }
{
    ranges(program);
    let names = names_of(alloc, program, graph, &[])?;
    let network = network(alloc, program, graph, &names, &[], &[])?;
    let sink_of = sinks_by_variable(alloc, &names, graph.sinks.as_slice())?;
    Ok(ProgramNetwork {
        names,
        network,
        sink_of,
    })
}

/// The choice that the program's network shows.
fn choose(alloc: Global, program: &WellFormed, laid: ProgramNetwork) -> Result<Choice, NoMemory>
    requires network { IsNetwork program.now laid.names laid.network }
    requires places { length laid.sink_of.items ≡ length laid.names }
    requires knows { KnowsSinks program.now laid.names laid.sink_of.items }
    ensures least { IfOk result (λ choice. Least program.now (fin.contains choice.protects)) }
    ensures weight { IfOk result (λ choice. choice.weight ≡ weight_of program.now (fin.contains choice.protects)) }
    ensures certificate { IfOk result (λ choice. Certifies (protected (fin.contains choice.protects) program.now) choice.certificate) }
{
    ranges(program);
    let ProgramNetwork {
        names,
        network,
        sink_of,
    } = laid;
    let flow = max_flow_of(alloc, network)?;
    choice_of(alloc, program, &names, &sink_of, &flow)
}

/// The choice that a maximum flow in the program's network shows.
fn choice_of(
    alloc: Global,
    program: &WellFormed,
    names: &Names,
    sink_of: &[u32],
    flow: &FlowResult,
) -> Result<Choice, NoMemory>
    requires places { length sink_of.now ≡ length names.now }
    requires knows { KnowsSinks program.now names.now sink_of.now }
    requires flow { IsFlowOf program.now names.now flow.now }
    ensures least { IfOk result (λ choice. Least program.now (fin.contains choice.protects)) }
    ensures weight { IfOk result (λ choice. choice.weight ≡ weight_of program.now (fin.contains choice.protects)) }
    ensures certificate { IfOk result (λ choice. Certifies (protected (fin.contains choice.protects) program.now) choice.certificate) }
{
    ranges(program);
    let commands = program.program().parts().commands.len() as u32;
    let paths = read_back(alloc, commands, sink_of, flow.paths.as_slice())?;
    let weight = flow.cut.weight;
    let protects = cut_sites(alloc, commands, &flow.cut)?;
    Ok(Choice {
        protects,
        weight,
        certificate: Certificate {
            paths: List::of(paths),
            weight,
        },
    })
}

/// The sites whose in part is near and whose out part isn't.
pub(crate) fn cut_sites(alloc: Global, commands: u32, cut: &LeastCut) -> Result<SiteSet, NoMemory>
    requires ins { commands ≤ length cut.now.near_in }
    requires outs { commands ≤ length cut.now.near_out }
    ensures { IfOk result (λ set. (s : ℕ) → fin.contains set s ≡ (nat_lt s commands && cut_of cut.now s)) }
{
    let near_in = cut.near_in.as_slice();
    let near_out = cut.near_out.as_slice();
    let mut set = SiteSet::new(alloc);
    for s in 0..commands {
        if near_in[s as usize] && !near_out[s as usize] {
            set.insert(Pos(s))?;
        }
    }
    Ok(set)
}
