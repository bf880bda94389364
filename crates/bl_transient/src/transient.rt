//! Which variables are transient, where a set of sites is protected.
ghost use Rattle.std.specs.Prelude.{◌≡◌, ◌<◌, ◌↔◌, ℕ, All, Contains, IsTrue, IfOk, Some, length, map, slice_get};
ghost use Rattle.std.specs.FinSet as fin;
ghost use Rattle.bl_graph.specs.{Graphs.IsGraph, Names.AreNames, Ranges.variables, Arcs.is_in};
ghost use Rattle.bl_transient.specs.Reachability.{FirstSink, IsLower, flow_type};
ghost use Rattle.bl_transient.specs.Transient.{Trans, TransUnder};
ghost use Rattle.bl_transient.specs.Verdicts.{IsFirstLeak, Judges, asked_of};

use crate::asked::{AskedOf, numbers_of};
use crate::moves::{spread, written_named};
use bl_base::{Flow, List, NoMemory, Pos, SiteSet};
use bl_graph::{Graph, Names, SinkUse, graph, names_of, ranges, variables, written_free};
use bl_program::WellFormed;
use std::alloc::Global;

/// Whether a set of protected sites keeps transient values from every sink.
#[derive(Debug, Drop)]
pub enum FlowVerdict {
    /// For each variable its flow type; no sink reads a transient one.
    Yes(List<Flow>),
    /// The least position of a sink that reads a transient variable.
    No(Pos),
}

/// The least flow typing where the sites of the set are protected; where a sink reads a variable that is transient in it, so
/// that no typing keeps the rules, the least position of such a sink. Linear in the program and in the number of its declared
/// variables, but for the logarithm of how many positions from 1,048,576 on the set has. Want of memory is the only error.
pub fn flows(
    alloc: Global,
    program: &WellFormed,
    protects: &SiteSet,
) -> Result<FlowVerdict, NoMemory>
    ensures { IfOk result (λ verdict. Judges program.now (fin.contains protects.now) verdict) }
{
    let graph = graph(alloc, program)?;
    flows_of(alloc, program, &graph, protects)
}

/// The same by the program's graph, for callers that need the graph as well.
pub fn flows_of(
    alloc: Global,
    program: &WellFormed,
    graph: &Graph,
    protects: &SiteSet,
) -> Result<FlowVerdict, NoMemory>
    requires { IsGraph program.now graph.now }
    ensures { IfOk result (λ verdict. Judges program.now (fin.contains protects.now) verdict) }
{
    ranges(program);
    let marks = transients(alloc, program, graph, protects)?;
    if let Some(position) = first_sink(&marks, graph.sinks.as_slice()) {
        return Ok(FlowVerdict::No(Pos(position)));
    }
    let flows = flow_types(alloc, &marks)?;
    Ok(FlowVerdict::Yes(flows))
}

/// The least position of a sink that reads a variable which is transient where the sites of the set are protected, if there is
/// one. Linear in the program; where its commands name few of its variables it costs a sort of the graph's lists instead of what
/// is linear in the variables. Want of memory is the only error.
pub fn first_leak_of(
    alloc: Global,
    program: &WellFormed,
    graph: &Graph,
    protects: &SiteSet,
) -> Result<Option<Pos>, NoMemory>
    requires { IsGraph program.now graph.now }
    ensures { IfOk result (λ leak. IsFirstLeak program.now (fin.contains protects.now) leak) }
{
    let names = names_of(alloc, program, graph, &[])?;
    let sinks = names.numbered(alloc, graph.sinks.as_slice())?;
    let asked = AskedOf::nothing(alloc);
    let marks = named_transients(alloc, program, graph, &names, &asked, protects)?;
    match first_sink(&marks, &sinks) {
        Some(position) => Ok(Some(Pos(position))),
        None => Ok(None),
    }
}

/// For each name, by its number, whether it is that of a transient variable.
pub(crate) fn named_transients(
    alloc: Global,
    program: &WellFormed,
    graph: &Graph,
    names: &Names,
    asked: &AskedOf,
    protects: &SiteSet,
) -> Result<Vec<bool>, NoMemory>
    requires graph { IsGraph program.now graph.now }
    requires names { AreNames program.now names.now }
    requires transient { All (λ x. Contains names.now x) asked.now.transient }
    ensures places { IfOk result (λ marks. length marks.items ≡ length names.now) }
    ensures exact { IfOk result (λ marks. (i x : ℕ) → slice_get names.now i ≡ Some x → IsTrue (is_in marks.items i) ↔ TransUnder (asked_of asked.now) program.now (fin.contains protects.now) x) }
{
    ranges(program);
    let written = written_named(alloc, program, graph, names, protects)?;
    let reads = names.numbered(alloc, graph.reads.as_slice())?;
    let transient = numbers_of(alloc, names, asked.transient.as_slice())?;
    let loads = graph.loads.as_slice();
    let marks = spread(alloc, names.len(), &transient, loads, &reads, &written)?;
    Ok(marks)
}

/// For each variable whether it is transient.
fn transients(
    alloc: Global,
    program: &WellFormed,
    graph: &Graph,
    protects: &SiteSet,
) -> Result<Vec<bool>, NoMemory>
    requires { IsGraph program.now graph.now }
    ensures places { IfOk result (λ marks. length marks.items ≡ variables program.now) }
    ensures exact { IfOk result (λ marks. (x : ℕ) → IsTrue (is_in marks.items x) ↔ Trans program.now (fin.contains protects.now) x) }
{
    ranges(program);
    let count = program.program().parts().commands.len();
    let written = written_free(alloc, count, graph.writes.as_slice(), protects)?;
    let loads = graph.loads.as_slice();
    let reads = graph.reads.as_slice();
    let marks = spread(alloc, variables(program), &[], loads, reads, &written)?;
    Ok(marks)
}

/// The flow types of marks.
fn flow_types(alloc: Global, marks: &[bool]) -> Result<List<Flow>, NoMemory>
    ensures { IfOk result (λ flows. flows ≡ map flow_type marks.now) }
{
    let mut flows = List::new(alloc);
    for mark in marks {
        flows.push(if *mark { Flow::Transient } else { Flow::Stable })?;
    }
    Ok(flows)
}

/// The least position of a sink that reads a marked variable.
pub(crate) fn first_sink(marks: &[bool], sinks: &[SinkUse]) -> Option<u32>
    requires { All (λ s. s.var.0 < length marks.now) sinks.now }
    ensures { FirstSink marks.now sinks.now result }
{
    let mut first = None;
    for sink in sinks {
        if marks[sink.var.0 as usize] {
            first = Some(lower(first, sink.at.0));
        }
    }
    first
}

/// The lower of two positions, where there is a first one.
fn lower(first: Option<u32>, at: u32) -> u32
    ensures { IsLower first at result }
{
    match first {
        None => at,
        Some(position) => position.min(at),
    }
}
