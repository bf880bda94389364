//! Networks for tests, and what is asked of them.
ghost use Rattle.std.specs.Prelude.{◌↔◌, ◌<◌, ◌≤◌, ◌^◌, ℕ, All, IsTrue, IsSome, None, length, slice_get, unwrap_or};
ghost use Rattle.bl_flow.specs.Networks.{InRange, size, weight_at, total_weight};
ghost use Rattle.bl_flow.specs.Cuts.{Meets};

use bl_base::{List, NoMemory};
use bl_flow::{Arc, Network};
use std::alloc::Global;

pub fn network(
    alloc: Global,
    weights: &[Option<u64>],
    arcs: &[(u32, u32)],
    starts: &[u32],
    ends: &[u32],
) -> Result<Network, NoMemory> {
    let mut list = List::new(alloc);
    for (from, to) in arcs {
        list.push(Arc {
            from: *from,
            to: *to,
        })?;
    }
    Ok(Network {
        weights: List::of(weights.to_vec(alloc)?),
        arcs: list,
        starts: List::of(starts.to_vec(alloc)?),
        ends: List::of(ends.to_vec(alloc)?),
    })
}

fn is_in_range(n: &Network) -> bool
    ensures { IsTrue result → InRange n.now }
{
    let size = n.weights.len();
    n.arcs.as_slice().iter().all(|arc| (arc.from as usize) < size && (arc.to as usize) < size)
        && n.starts.as_slice().iter().all(|v| (*v as usize) < size)
        && n.ends.as_slice().iter().all(|v| (*v as usize) < size)
}

fn has_weight(weights: &[Option<u64>], v: u32) -> bool
    ensures { IsTrue result → IsSome (unwrap_or (slice_get weights.now v) None) }
{
    match weights.get(v as usize) {
        Some(Some(_)) => true,
        _ => false,
    }
}

fn has_weighted_ends(n: &Network) -> bool
    ensures { IsTrue result → Meets n.now (λ v. IsSome (weight_at n.now v)) }
{
    for end in n.ends.as_slice() {
        if !has_weight(n.weights.as_slice(), *end) {
            return false;
        }
    }
    true
}

fn is_small(n: &Network) -> bool
    ensures { IsTrue result → total_weight n.now < 2 ^ 63 }
{
    let weights = n.weights.as_slice();
    for weight in weights {
        if weight.unwrap_or(0) >= 1 << 40 {
            return false;
        }
    }
    weights.len() < 1 << 20
}

/// Whether a flow may be asked for: numbers are in range, the ends have weights, and these are small.
pub fn is_fit(n: &Network) -> bool
    ensures in_range { IsTrue result → InRange n.now }
    ensures bounded { IsTrue result → Meets n.now (λ v. IsSome (weight_at n.now v)) }
    ensures total { IsTrue result → total_weight n.now < 2 ^ 63 }
{
    is_in_range(n) && has_weighted_ends(n) && is_small(n)
}

/// From node 0 to node 3 the shortest way is by nodes 1 and 2, which can take 1 each; the other ways lead by node 1 and
/// not by node 2, or by node 2 and not by node 1.
pub fn crossing(alloc: Global) -> Result<Network, NoMemory> {
    network(
        alloc,
        &[Some(3), Some(1), Some(1), Some(3), None, None, None, None],
        &[
            (0, 1),
            (1, 2),
            (2, 3),
            (1, 4),
            (4, 5),
            (5, 3),
            (0, 6),
            (6, 7),
            (7, 2),
        ],
        &[0],
        &[3],
    )
}

/// A node more; gives its number.
fn add_node(n: &mut Network, weight: Option<u64>) -> Result<u32, NoMemory> {
    let number = n.weights.len() as u64 % 0x1_0000_0000;
    n.weights.push(weight)?;
    Ok(number as u32)
}

/// Arcs from one node to another by so many new nodes without weights.
fn add_way(n: &mut Network, from: u32, nodes: u32, to: u32) -> Result<(), NoMemory> {
    let mut at = from;
    for _ in 0..nodes {
        let between = add_node(n, None)?;
        n.arcs.push(Arc {
            from: at,
            to: between,
        })?;
        at = between;
    }
    n.arcs.push(Arc { from: at, to })
}

/// A rung of a ladder, between nodes of its rails.
#[derive(Clone, Copy, Drop)]
struct Rung {
    above: u32,
    first: u32,
    second: u32,
    below: u32,
}

/// A rung more; the rails lead to it and back by so many nodes each.
fn add_rung(n: &mut Network, last: Option<Rung>, gap: u32) -> Result<Rung, NoMemory> {
    let bound = if last.is_none() { Some(1000) } else { None };
    let above = add_node(n, bound)?;
    let first = add_node(n, Some(1))?;
    let second = add_node(n, Some(1))?;
    let below = add_node(n, bound)?;
    add_way(n, above, 0, first)?;
    add_way(n, second, 0, below)?;
    match last {
        None => add_way(n, first, 0, second)?,
        Some(last) => {
            add_way(n, last.above, gap, above)?;
            add_way(n, below, gap, last.below)?;
            add_way(n, last.first, 0, second)?;
            add_way(n, first, 0, last.second)?;
        }
    }
    Ok(Rung {
        above,
        first,
        second,
        below,
    })
}

/// Each level graph of this ladder carries one path, and the path by a rung takes back all that the paths before it put
/// on arcs between rungs.
pub fn ladder(alloc: Global, rungs: u32) -> Result<Network, NoMemory> {
    let mut n = network(alloc, &[], &[], &[0], &[3])?;
    let mut last = None;
    for rung in 0..rungs {
        let gap = rung.wrapping_mul(2);
        last = Some(add_rung(&mut n, last, gap)?);
    }
    Ok(n)
}

/// Arcs from one node to another by a new node of this weight.
fn add_site(n: &mut Network, from: u32, weight: u64, to: u32) -> Result<(), NoMemory> {
    let between = add_node(n, Some(weight))?;
    n.arcs.push(Arc { from, to: between })?;
    n.arcs.push(Arc { from: between, to })
}

/// A round more, behind the last nodes of the rails there and back, from the one hub to the other; gives the rails' last
/// nodes.
fn add_round(
    n: &mut Network,
    rails: (u32, u32),
    hubs: (u32, u32),
    places: u64,
) -> Result<(u32, u32), NoMemory> {
    let there = add_node(n, None)?;
    let back = add_node(n, None)?;
    add_site(n, rails.0, 1000, there)?;
    add_site(n, back, 1000, rails.1)?;
    add_site(n, there, places, hubs.0)?;
    add_site(n, hubs.1, places, back)?;
    Ok((there, back))
}

/// Rails to and from rounds, and places of weight 1 between two hubs. Each round's paths are longer, and take back what the
/// paths of the round before put on the places.
pub fn bundle(alloc: Global, places: u32, rounds: u32) -> Result<Network, NoMemory> {
    let ends = Some(1_000_000);
    let weights = [ends, ends, None, None, None, None];
    let mut n = network(alloc, &weights, &[(0, 2), (3, 1)], &[0], &[1])?;
    let mut rails = (2, 3);
    for round in 0..rounds {
        let hubs = if round % 2 == 0 { (4, 5) } else { (5, 4) };
        rails = add_round(&mut n, rails, hubs, u64::from(places))?;
    }
    for _ in 0..places {
        add_site(&mut n, 4, 1, 5)?;
    }
    Ok(n)
}

/// Four nodes in a circle, which a start of weight 1000 leads into; gives the start. What leaves it comes to node 1, 3 by a
/// short way and 1 by a long one.
fn add_circle(n: &mut Network) -> Result<u32, NoMemory> {
    let start = add_node(n, Some(1000))?;
    let first = add_node(n, None)?;
    let second = add_node(n, None)?;
    let third = add_node(n, None)?;
    let fourth = add_node(n, None)?;
    add_way(n, start, 0, first)?;
    add_way(n, first, 0, second)?;
    add_way(n, second, 0, third)?;
    add_way(n, third, 0, fourth)?;
    add_way(n, fourth, 0, first)?;
    add_site(n, third, 3, 1)?;
    let far = add_node(n, Some(1))?;
    add_way(n, fourth, 20, far)?;
    add_way(n, far, 0, 1)?;
    Ok(start)
}

/// The same beside a circle, round which a preflow sends more than comes to the end.
pub fn circled(alloc: Global, places: u32, rounds: u32) -> Result<Network, NoMemory> {
    let mut n = bundle(alloc, places, rounds)?;
    let start = add_circle(&mut n)?;
    let starts = [start, 0];
    n.starts = List::of(starts.to_vec(alloc)?);
    Ok(n)
}
