//! Residual networks: where more can flow beside what flows.
ghost use Rattle.std.specs.Prelude.{◌≡◌, ◌↔◌, ◌<◌, ◌≤◌, ◌+◌, ◌*◌, ◌^◌, ℕ, Any, IsSome, IsTrue, length, replicate, IfOk, IfErr, OnErr};
ghost use Rattle.bl_flow.specs.Networks.{InRange, weight_at, total_weight, size};
ghost use Rattle.bl_flow.specs.{Cuts.Meets, declared.network.Network.Network, Levels.level_at};
ghost use Rattle.bl_flow.specs.PackedNetworks.{lowered, IsPacked, IsAdvanced};
ghost use Rattle.bl_flow.specs.Residuals.{IsLawful, amount_of, AreLevelsOf, ReachesAnEnd, EndsHaveRisen};

use crate::capacities::Capacities;
use crate::layout::lay_out;
use crate::level_graph::block_graph;
use crate::network::Network;
use crate::optional::OptionalNumber;
use crate::search::part_levels;
use crate::split_network::SplitNetwork;
use bl_base::{List, NoMemory};
use std::alloc::Global;
use std::marker::Model;

/// The residual network of a lawful flow. Contracts see it as its network, the list of what each arc carries and the
/// list of what each node is loaded with. Each node has an in place, twice its number, and an out place behind that.
#[derive(Debug, Drop)]
pub struct Residual {
    network: Network,
    split: SplitNetwork,
    /// What each link can still take.
    capacities: Capacities,
    /// How much flows.
    amount: u64,
}

impl Model for Residual {
    ghost use Rattle.bl_flow.specs.Residuals.{Loaded, loaded_by};
    ghost use Rattle.bl_flow.specs.PackedNetworks.{IsPacked};

    ghost Value = { Loaded };

    ghost view = { λ r. loaded_by r.network r.capacities };

    ghost invariant = { λ r. IsPacked r.network r.split r.capacities r.amount };
}

impl Residual {
    /// How much flows: the sum over all nodes of the load less what their arcs bring. Each flow is lawful: no node is
    /// loaded over its weight, and its load is what its arcs bring, but at the starts, and what they take away, but at
    /// the ends.
    pub fn amount(&self) -> u64
        ensures lawful { IsLawful self.now }
        ensures amount { result ≡ amount_of self.now }
    {
        self.amount
    }
}

/// The residual network in which nothing flows. The conditions are those of `max_flow`, and so is the size of a network.
pub fn pack(alloc: Global, n: &Network) -> Result<Residual, NoMemory>
    requires in_range { InRange n.now }
    requires bounded { Meets n.now (λ v. IsSome (weight_at n.now v)) }
    requires total { total_weight n.now < 2 ^ 63 }
    ensures network { IfOk result (λ r. r.network ≡ n.now) }
    ensures carried { IfOk result (λ r. r.carried ≡ replicate (length n.now.arcs) 0) }
    ensures loads { IfOk result (λ r. r.loads ≡ replicate (size n.now) 0) }
{
    let layout = lay_out(alloc, n)?;
    let network = copy_of(alloc, n)?;
    Ok(Residual {
        network,
        split: layout.split,
        capacities: layout.capacities,
        amount: 0,
    })
}

/// The same network.
fn copy_of(alloc: Global, n: &Network) -> Result<Network, NoMemory>
    ensures { IfOk result (λ m. m ≡ n.now) }
{
    let weights = copied(alloc, n.weights.as_slice())?;
    let arcs = copied(alloc, n.arcs.as_slice())?;
    let starts = copied(alloc, n.starts.as_slice())?;
    let ends = copied(alloc, n.ends.as_slice())?;
    Ok(Network {
        weights,
        arcs,
        starts,
        ends,
    })
}

/// The same values in the same order.
fn copied<T: Copy + Drop>(alloc: Global, from: &[T]) -> Result<List<T>, NoMemory>
    ensures { IfOk result (λ list. list ≡ from.now) }
{
    let mut list = List::new(alloc);
    for x in from {
        list.push(*x)?;
    }
    Ok(list)
}

/// For each place the least number of residual arcs from the in place of a start; None exactly where there is no walk.
pub fn levels(alloc: Global, r: &Residual) -> Result<List<Option<u64>>, NoMemory>
    ensures { IfOk result (λ levels. AreLevelsOf r.now levels) }
{
    let source = 2 * r.split.nodes;
    let found = part_levels(alloc, &r.split, &r.capacities, source, source + 1, false)?;
    let list = place_levels(alloc, &found, source)?;
    Ok(list)
}

/// The levels of the first so many parts, counted from the starts' in places.
fn place_levels(
    alloc: Global,
    levels: &[OptionalNumber],
    places: usize,
) -> Result<List<Option<u64>>, NoMemory>
    requires { places ≤ length levels.now }
    ensures places { IfOk result (λ list. length list ≡ places) }
    ensures each { IfOk result (λ list. (p : ℕ) → p < places → level_at list p ≡ lowered (level_at levels.now p)) }
{
    let mut list = Vec::new(alloc);
    for p in 0..places {
        list.push(lower(levels[p].get()))?;
    }
    Ok(List::of(list))
}

/// A level less by one.
fn lower(level: Option<u32>) -> Option<u64>
    ensures { result ≡ lowered level }
{
    match level {
        Some(level) => Some(u64::from(level.saturating_sub(1))),
        None => None,
    }
}

/// Lets more flow, by a blocking flow on the level graph; gives how much more, which is above 0 exactly where some end's
/// out place has a level. The least level of such a place is greater afterwards, or there is none. The condition is that
/// the levels are those of the residual network. Want of memory is the only error, and gives the network back as it was.
pub fn advance(
    alloc: Global,
    mut r: Residual,
    levels: &[Option<u64>],
) -> Result<(Residual, u64), (Residual, NoMemory)>
    requires { AreLevelsOf r levels.now }
    ensures network { IfOk result (λ a. a.0.network ≡ r.network) }
    ensures lawful { IfOk result (λ a. IsLawful a.0) }
    ensures amount { IfOk result (λ a. amount_of a.0 ≡ amount_of r + a.1) }
    ensures some { IfOk result (λ a. 0 < a.1 ↔ ReachesAnEnd r.network levels.now) }
    ensures risen { IfOk result (λ a. EndsHaveRisen a.0 levels.now) }
    ensures unchanged { IfErr result (λ e. e.0 ≡ r) }
{
    if !reaches_an_end(&r.network, levels) {
        return Ok((r, 0));
    }
    match flow_on(alloc, &r.split, &mut r.capacities, r.amount) {
        Ok(now) => {
            let more = now - r.amount;
            r.amount = now;
            Ok((r, more))
        }
        Err(error) => Err((r, error)),
    }
}

/// Whether the out place of an end has a level.
fn reaches_an_end(n: &Network, levels: &[Option<u64>]) -> bool
    ensures { IsTrue result ↔ Any (λ e. IsSome (level_at levels.now (2 * e + 1))) n.now.ends }
{
    n.ends.as_slice().iter().any(|e| has_level(levels, *e))
}

/// Whether the out place of a node has a level.
fn has_level(levels: &[Option<u64>], v: u32) -> bool
    ensures { IsTrue result ↔ IsSome (level_at levels.now (2 * v + 1)) }
{
    match levels.get(2 * v as usize + 1) {
        Some(Some(_)) => true,
        _ => false,
    }
}

/// Lets more flow until each walk from the part before all starts to the part behind all ends is longer than before;
/// gives how much flows then.
fn flow_on(
    alloc: Global,
    split: &SplitNetwork,
    capacities: &mut Capacities,
    amount: u64,
) -> Result<u64, NoMemory>
    ghost n: { Network }
    requires { IsPacked n split.now capacities.old amount }
    ensures advanced { IfOk result (IsAdvanced n capacities.old capacities.new amount) }
    ensures unchanged { OnErr result (capacities.new ≡ capacities.old) }
{
    let source = 2 * split.nodes;
    let levels = part_levels(alloc, split, capacities, source, source + 1, false)?;
    block_graph(alloc, split, capacities, &levels, amount)
}
