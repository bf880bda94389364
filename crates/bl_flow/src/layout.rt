//! What a search for a flow needs of a network.
ghost use Rattle.std.specs.Prelude.{◌<◌, ◌+◌, ◌*◌, ◌^◌, ℕ, length, IsSome, IfOk};
ghost use Rattle.bl_flow.specs.Networks.{InRange, weight_at, total_weight};
ghost use Rattle.bl_flow.specs.{Cuts.Meets, Split.link_at};
ghost use Rattle.bl_flow.specs.MaxFlow.{IsSplit, IsSorted, IsLaidOut};

use crate::capacities::Capacities;
use crate::network::Network;
use crate::rows::rows_of;
use crate::split::{Links, links_both_ways};
use crate::split_network::SplitNetwork;
use bl_base::NoMemory;
use std::alloc::Global;

/// The links of a network's split network. The network itself can go.
#[derive(Debug, Drop)]
pub struct Split {
    /// The number of the network's nodes.
    pub nodes: usize,
    pub links: Links,
    /// What each link can take.
    pub capacities: Capacities,
}

/// All that a search needs of a network.
#[derive(Debug, Drop)]
pub struct Layout {
    /// Its split network.
    pub split: SplitNetwork,
    /// What each link can take.
    pub capacities: Capacities,
}

/// A network's links, their rows, and what each link can take before anything flows.
pub fn lay_out(alloc: Global, n: &Network) -> Result<Layout, NoMemory>
    requires in_range { InRange n.now }
    requires bounded { Meets n.now (λ v. IsSome (weight_at n.now v)) }
    requires total { total_weight n.now < 2 ^ 63 }
    ensures { IfOk result (IsLaidOut n.now) }
{
    let split = split_of(alloc, n)?;
    let layout = with_rows(alloc, split)?;
    Ok(layout)
}

/// The same of a network that the caller has no more use for: its memory is given back before the links are
/// sorted.
pub fn lay_out_of(alloc: Global, n: Network) -> Result<Layout, NoMemory>
    requires in_range { InRange n }
    requires bounded { Meets n (λ v. IsSome (weight_at n v)) }
    requires total { total_weight n < 2 ^ 63 }
    ensures { IfOk result (IsLaidOut n) }
{
    let split = split_of(alloc, &n);
    drop(n);
    let layout = with_rows(alloc, split?)?;
    Ok(layout)
}

/// A network's links, and what each can take before anything flows.
pub fn split_of(alloc: Global, n: &Network) -> Result<Split, NoMemory>
    requires { InRange n.now }
    ensures { IfOk result (IsSplit n.now) }
{
    let nodes = n.weights.as_slice().len();
    let links = links_both_ways(alloc, n)?;
    let capacities = Capacities::of(alloc, n, links.half())?;
    Ok(Split {
        nodes,
        links,
        capacities,
    })
}

/// The same with the links sorted by rows.
pub fn with_rows(alloc: Global, split: Split) -> Result<Layout, NoMemory>
    requires small { 2 * split.nodes + 2 < 2 ^ 64 }
    requires inside { (k : ℕ) → k < length split.links → (link_at split.links k).from < 2 * split.nodes + 2 }
    ensures { IfOk result (IsSorted split) }
{
    let Split {
        nodes,
        links,
        capacities,
    } = split;
    let rows = rows_of(alloc, &links, 2 * nodes + 2)?;
    let split = SplitNetwork { nodes, links, rows };
    Ok(Layout { split, capacities })
}
