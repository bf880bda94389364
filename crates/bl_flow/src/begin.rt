//! The flow that `fill` begins with. What finds it is not trusted: a trail is tested before more flows along it, and so is
//! the flow that comes of a preflow.
ghost use Rattle.std.specs.Prelude.{◌≡◌, ◌<◌, ◌+◌, ◌*◌, ◌^◌, ℕ, true, length, slice_index, IfOk};
ghost use Rattle.bl_flow.specs.{declared.network.Network.Network, Flows.IsFlow, Flows.LeadsBack};
ghost use Rattle.bl_flow.specs.{Split.link_at, PackedNetworks.IsPacked};

use crate::balance::is_balanced;
use crate::capacities::Capacities;
use crate::flow::push;
use crate::level_graph::least_capacity;
use crate::path_search::{PathSearch, SearchEnd};
use crate::preflow::{Candidate, saturate};
use crate::split::Links;
use crate::split_network::SplitNetwork;
use bl_base::NoMemory;
use std::alloc::Global;

/// A flow to begin with, along paths from one start after the other, each found breadth first; gives how much flows.
/// Parts from which a search found no path are not visited again, and a path found earlier is taken again as far as it
/// still leads to the end. The flows of most programs are maximal then, after following each link once or twice. The
/// searches end after a fixed number of times all links, and a preflow finds the rest.
/// The source: Edmonds and Karp, Theoretical improvements in algorithmic efficiency for network flow problems, 1972, for
/// paths found breadth first; dead ends are left as in depth-first search.
pub fn begin(
    alloc: Global,
    split: &SplitNetwork,
    capacities: &mut Capacities,
) -> Result<u64, NoMemory>
    ghost n: { Network }
    requires { IsPacked n split.now capacities.old 0 }
    ensures { IfOk result (IsFlow n capacities.new) }
{
    let mut search = PathSearch::new(alloc, split)?;
    let mut places = vec![in alloc; 0u32; split.rows.len()]?;
    let mut amount = 0;
    let source = 2 * split.nodes;
    for link in split.rows.row(source) {
        amount = exhaust(split, capacities, &mut search, &mut places, *link, amount)?;
    }
    let is_spent = search.is_spent();
    drop(search);
    drop(places);
    if is_spent {
        amount = complete(alloc, split, capacities, amount)?;
    }
    Ok(amount)
}

/// Lets more flow, as a preflow finds it; gives how much flows then. A preflow may send flow round in circles, so that a
/// link carries more than comes to the end, which is no flow here. How much can flow is known then, and in the second
/// preflow no link carries more than that.
fn complete(
    alloc: Global,
    split: &SplitNetwork,
    capacities: &mut Capacities,
    amount: u64,
) -> Result<u64, NoMemory>
    ghost n: { Network }
    requires { IsPacked n split.now capacities.old amount }
    ensures { IfOk result (IsFlow n capacities.new) }
{
    let first = saturate(alloc, split, capacities, amount, capacities.total_weight())?;
    let bound = first.amount;
    let total = adopt(alloc, split, capacities, amount, first)?;
    if total >= bound {
        return Ok(total);
    }
    let second = saturate(alloc, split, capacities, total, bound)?;
    adopt(alloc, split, capacities, total, second)
}

/// Lets links carry what a candidate says, if that is a flow; gives how much flows then.
fn adopt(
    alloc: Global,
    split: &SplitNetwork,
    capacities: &mut Capacities,
    amount: u64,
    candidate: Candidate,
) -> Result<u64, NoMemory>
    ghost n: { Network }
    requires { IsPacked n split.now capacities.old amount }
    ensures { IfOk result (IsFlow n capacities.new) }
{
    let Candidate {
        carried,
        amount: total,
    } = candidate;
    let source = 2 * split.nodes;
    let parts = source + 2;
    if carried.len() > split.links.half()
        || !is_balanced(
            alloc,
            &split.links,
            &carried,
            parts,
            source,
            source + 1,
            total,
        )?
    {
        return Ok(amount);
    }
    match capacities.carrying(alloc, carried, total)? {
        Some(after) => {
            *capacities = after;
            Ok(total)
        }
        None => Ok(amount),
    }
}

/// Lets more flow along paths that begin with a link, until none is left or the searches are spent; gives how much flows
/// then. `places` has room for each part.
fn exhaust(
    split: &SplitNetwork,
    capacities: &mut Capacities,
    search: &mut PathSearch,
    places: &mut [u32],
    first: u32,
    amount: u64,
) -> Result<u64, NoMemory>
    ghost n: { Network }
    requires { IsPacked n split.now capacities.old amount }
    ensures { IfOk result (IsFlow n capacities.new) }
{
    let mut total = amount;
    for _ in 0..u32::MAX {
        match search.find(split, capacities, first)? {
            SearchEnd::Path => {}
            SearchEnd::NoPath | SearchEnd::Spent => return Ok(total),
        }
        let more = push_along(split, capacities, &search.trail, places, total);
        if more == total {
            return Ok(total);
        }
        total = more;
    }
    Ok(total)
}

/// Lets as much more flow along a trail back from the end as its links can take, if the trail is a path from the source
/// that comes to no part twice; gives how much flows then.
fn push_along(
    split: &SplitNetwork,
    capacities: &mut Capacities,
    trail: &[usize],
    places: &mut [u32],
    amount: u64,
) -> u64
    ghost n: { Network }
    requires { IsPacked n split.now capacities.old amount }
    ensures { IsFlow n capacities.new result }
{
    if !leads_back(split, trail) || !is_simple(&split.links, trail, places) {
        return amount;
    }
    let more = least_capacity(capacities, trail);
    if more == 0 {
        return amount;
    }
    push(capacities, trail, more);
    amount + more
}

/// Whether the links lead back from the part behind all ends to the part before all starts.
fn leads_back(split: &SplitNetwork, trail: &[usize]) -> bool
    requires { split.now.nodes < 2 ^ 60 }
    ensures within { result ≡ true → (place : ℕ) → place < length trail.now → slice_index trail.now place < length split.now.links }
    ensures back { result ≡ true → LeadsBack split.now.links trail.now (2 * split.now.nodes) (2 * split.now.nodes + 1) }
{
    let source = 2 * split.nodes;
    let count = 2 * split.links.half();
    let mut at = source + 1;
    for link in trail {
        if *link >= count {
            return false;
        }
        let ends = split.links.link(*link);
        if ends.to as usize != at {
            return false;
        }
        at = ends.from as usize;
    }
    at == source
}

/// Whether no two links lead to the same part. `places` may hold anything before.
fn is_simple(links: &Links, trail: &[usize], places: &mut [u32]) -> bool
    requires within { (place : ℕ) → place < length trail.now → slice_index trail.now place < length links.now }
    ensures apart { result ≡ true → (p q : ℕ) → p < q → q < length trail.now → slice_index trail.now p ≡ slice_index trail.now q → ⊥ }
{
    let Ok(count) = u32::try_from(trail.len()) else {
        return false;
    };
    for place in 0..count {
        let to = links.link(trail[place as usize]).to as usize;
        if let Some(room) = places.get_mut(to) {
            *room = place;
        }
    }
    are_placed(links, trail, places, count)
}

/// Whether each part to which a link of the trail leads has that link's place.
fn are_placed(links: &Links, trail: &[usize], places: &[u32], count: u32) -> bool
    requires within { (place : ℕ) → place < length trail.now → slice_index trail.now place < length links.now }
    requires count { count ≡ length trail.now }
    ensures { result ≡ true → (place : ℕ) → place < length trail.now
        → slice_index places.now (link_at links.now (slice_index trail.now place)).to ≡ place }
{
    for place in 0..count {
        let to = links.link(trail[place as usize]).to as usize;
        if to >= places.len() || places[to] != place {
            return false;
        }
    }
    true
}
