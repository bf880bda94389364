//! The least choice of protects where something is asked of variables.
ghost use Rattle.std.specs.Prelude.{◌≡◌, ◌<◌, ℕ, All, Contains, IfOk};
ghost use Rattle.std.specs.FinSet as fin;
ghost use Rattle.bl_program.specs.Sites.{SinkReads, weight_of};
ghost use Rattle.bl_cut.specs.Least.{LeastUnder};
ghost use Rattle.bl_graph.specs.{Graphs.IsGraph, Ranges.variables};
ghost use Rattle.bl_transient.specs.Verdicts.{asked_of};

use crate::choice::cut_sites;
use crate::network::network;
use bl_base::{NoMemory, SiteSet};
use bl_flow::least_cut_of;
use bl_graph::{Graph, ranges};
use bl_program::WellFormed;
use bl_transient::{AskedOf, names_under};
use std::alloc::Global;

/// A set of sites to protect where something is asked of variables, and its weight.
#[derive(Drop)]
pub struct ChoiceUnder {
    /// The sites.
    pub protects: SiteSet,
    /// Their weights together.
    pub weight: u64,
}

/// The set of least weight that passes under what is asked, whose transient variables are contained in those of every other one
/// of that weight. Marks that stand in the program are ignored. Costs the time of a maximum flow in a network that is linear in the
/// program's commands and in what is asked; where these name few of its variables, a sort of what they write and read too. Its memory
/// is linear in the same: no path is kept. Want of memory is the only error.
pub fn least_under_of(
    alloc: Global,
    program: &WellFormed,
    graph: &Graph,
    asked: &AskedOf,
) -> Result<ChoiceUnder, NoMemory>
    requires graph { IsGraph program.now graph.now }
    requires transient { All (λ x. x < variables program.now) asked.now.transient }
    requires stable { All (λ x. x < variables program.now) asked.now.stable }
    requires apart { (x : ℕ) → Contains asked.now.transient x → Contains asked.now.stable x → ⊥ }
    requires sinks { (position x : ℕ) → SinkReads program.now position x → Contains asked.now.transient x → ⊥ }
    ensures least { IfOk result (λ choice. LeastUnder (asked_of asked.now) program.now (fin.contains choice.protects)) }
    ensures weight { IfOk result (λ choice. choice.weight ≡ weight_of program.now (fin.contains choice.protects)) }
{
    ranges(program);
    let transient = asked.transient.as_slice();
    let stable = asked.stable.as_slice();
    let names = names_under(alloc, program, graph, asked)?;
    let network = network(alloc, program, graph, &names, transient, stable)?;
    let cut = least_cut_of(alloc, network)?;
    let commands = program.program().parts().commands.len() as u32;
    let protects = cut_sites(alloc, commands, &cut)?;
    Ok(ChoiceUnder {
        protects,
        weight: cut.weight,
    })
}
