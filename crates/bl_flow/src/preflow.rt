//! Preflows: more may come into a part than leaves it. They have no contract: whoever takes the flow that comes of one
//! tests the flow.

use crate::capacities::Capacities;
use crate::path_search::{link_in, row_of};
use crate::split_network::SplitNetwork;
use bl_base::NoMemory;
use std::alloc::Global;

/// A part's number where there is none, and the height of a part that the last search did not see.
const NONE: u32 = u32::MAX;

/// A flow that is to be tested.
#[derive(Drop)]
pub struct Candidate {
    /// What each link carries.
    pub carried: Vec<u64>,
    /// How much flows.
    pub amount: u64,
}

/// A preflow, and what pushes it on.
#[derive(Drop)]
struct Preflow {
    /// The number of links one way.
    half: u32,
    /// What each link carries.
    carried: Vec<u64>,
    /// What the links through the nodes can still take.
    through: Vec<u64>,
    /// The most that any link may carry.
    bound: u64,
    /// How much more comes into each part than leaves it.
    excess: Vec<u64>,
    /// For each part a lower bound of the number of links with capacity to the target, or that the last search did not see
    /// the part; the number of parts if the target can't be reached.
    heights: Vec<u32>,
    /// The least height of a part that the last search did not see.
    horizon: u32,
    /// How many links of each part's row lead nowhere, as long as the part's height stays.
    passed: Vec<u32>,
    /// For each height the first part of that height with an excess.
    tops: Vec<u32>,
    /// For each part the next one of its height with an excess.
    below: Vec<u32>,
    /// No part with an excess is higher.
    highest: u32,
    /// How many links were followed since the heights were exact.
    followed: usize,
}

/// A flow to which no path adds, made from one that flows already. No link carries more than `bound`.
/// Each part with an excess pushes it on to lower parts, the highest part first. If no lower part can take more, the part
/// rises. After following an eighth of all links both ways, a search from the target makes heights exact. An excess that
/// can't come to the end is pushed back to the source in the same way.
/// The cost: O(V^2 E^(1/2)) for V nodes and E arcs. On a fan, whose paths share a long chain, the cost is in proportion to
/// the network; on a ladder, to the network times the rungs.
/// The source: Goldberg and Tarjan, A new approach to the maximum-flow problem, 1988; Cheriyan and Maheshwari, Analysis of
/// preflow push algorithms for maximum network flow, 1989, for the highest part; Cherkassky and Goldberg, On implementing
/// the push-relabel method for the maximum flow problem, 1997, for exact heights.
pub fn saturate(
    alloc: Global,
    split: &SplitNetwork,
    capacities: &Capacities,
    amount: u64,
    bound: u64,
) -> Result<Candidate, NoMemory> {
    let mut preflow = Preflow::new(alloc, split, capacities, bound)?;
    let source = number_of_part(split, 0);
    let sink = number_of_part(split, 1);
    preflow.make_exact(alloc, split, sink, source)?;
    preflow.leave_source(split, source);
    preflow.drain(alloc, split, sink, source)?;
    preflow.forget_heights();
    preflow.make_exact(alloc, split, source, sink)?;
    preflow.drain(alloc, split, source, sink)?;
    let more = read(&preflow.excess, sink as usize);
    Ok(Candidate {
        carried: preflow.carried,
        amount: amount.saturating_add(more),
    })
}

/// The part behind those of the nodes by so many.
fn number_of_part(split: &SplitNetwork, place: usize) -> u32 {
    u32::try_from(split.nodes.saturating_mul(2).saturating_add(place)).unwrap_or(NONE)
}

/// A number of a list; 0 behind it.
#[inline(always)]
fn read(numbers: &[u64], place: usize) -> u64 {
    match numbers.get(place) {
        Some(number) => *number,
        None => 0,
    }
}

/// A number of a list; the greatest behind it.
#[inline(always)]
fn read_short(numbers: &[u32], place: usize) -> u32 {
    match numbers.get(place) {
        Some(number) => *number,
        None => NONE,
    }
}

/// Sets a number of a list.
#[inline(always)]
fn write_short(numbers: &mut [u32], place: usize, number: u32) {
    if let Some(old) = numbers.get_mut(place) {
        *old = number;
    }
}

/// Adds to a number of a list.
#[inline(always)]
fn add(numbers: &mut [u64], place: usize, amount: u64) {
    if let Some(number) = numbers.get_mut(place) {
        *number = number.saturating_add(amount);
    }
}

/// Takes from a number of a list.
#[inline(always)]
fn take(numbers: &mut [u64], place: usize, amount: u64) {
    if let Some(number) = numbers.get_mut(place) {
        *number = number.saturating_sub(amount);
    }
}

impl Preflow {
    /// What flows already.
    fn new(
        alloc: Global,
        split: &SplitNetwork,
        capacities: &Capacities,
        bound: u64,
    ) -> Result<Preflow, NoMemory> {
        let parts = split.rows.len();
        let carried = capacities.all_carried(alloc)?;
        let mut through = capacities.all_through(alloc)?;
        for v in 0..through.len() {
            if let Some(left) = through.get_mut(v) {
                *left = (*left).min(bound.saturating_sub(read(&carried, v)));
            }
        }
        Ok(Preflow {
            half: u32::try_from(split.links.half()).unwrap_or(NONE),
            carried,
            through,
            bound,
            excess: vec![in alloc; 0u64; parts]?,
            heights: vec![in alloc; NONE; parts]?,
            horizon: 0,
            passed: vec![in alloc; 0u32; parts]?,
            tops: vec![in alloc; NONE; parts]?,
            below: vec![in alloc; NONE; parts]?,
            highest: 0,
            followed: 0,
        })
    }

    /// How much more a link can take.
    #[inline(always)]
    fn capacity(&self, link: u32) -> u64 {
        if link >= self.half {
            return read(&self.carried, (link - self.half) as usize);
        }
        match self.through.get(link as usize) {
            Some(left) => *left,
            None => self
                .bound
                .saturating_sub(read(&self.carried, link as usize)),
        }
    }

    /// How much more the reverse of a link can take.
    #[inline(always)]
    fn capacity_back(&self, link: u32) -> u64 {
        if link >= self.half {
            self.capacity(link - self.half)
        } else {
            read(&self.carried, link as usize)
        }
    }

    /// Lets so much more flow over a link.
    #[inline(always)]
    fn let_flow(&mut self, link: u32, amount: u64) {
        if link >= self.half {
            let forth = (link - self.half) as usize;
            take(&mut self.carried, forth, amount);
            add(&mut self.through, forth, amount);
        } else {
            add(&mut self.carried, link as usize, amount);
            take(&mut self.through, link as usize, amount);
        }
    }

    /// A part's height.
    #[inline(always)]
    fn height(&self, part: u32) -> u32 {
        let height = read_short(&self.heights, part as usize);
        if height == NONE { self.horizon } else { height }
    }

    /// The height of parts from which the target can't be reached.
    fn unreachable(&self) -> u32 {
        u32::try_from(self.heights.len()).unwrap_or(NONE)
    }

    /// Forgets all heights: any part may reach the next target.
    fn forget_heights(&mut self) {
        for place in 0..self.heights.len() {
            write_short(&mut self.heights, place, NONE);
        }
        self.horizon = 0;
    }

    /// Makes heights exact by a search back from the target, until it has seen all parts with an excess from which the
    /// target can be reached. `other` is the part that is no target, and has no height.
    fn make_exact(
        &mut self,
        alloc: Global,
        split: &SplitNetwork,
        target: u32,
        other: u32,
    ) -> Result<(), NoMemory> {
        let mut waiting = self.begin_search(target, other);
        let mut queue = Vec::new(alloc);
        queue.push(target)?;
        for place in 0..split.rows.len() {
            let Some(part) = queue.get(place) else {
                return Ok(());
            };
            let part = *part;
            if part != target && read(&self.excess, part as usize) > 0 {
                self.queue_excess(part);
                waiting = waiting.saturating_sub(1);
                if waiting == 0 {
                    self.horizon = self.height(part).saturating_add(1);
                    return Ok(());
                }
            }
            self.reach_back(split, part, &mut queue)?;
        }
        Ok(())
    }

    /// Clears what a search finds. Parts from which the target could not be reached stay so. Gives the number of the other
    /// parts that have an excess.
    fn begin_search(&mut self, target: u32, other: u32) -> usize {
        let unreachable = self.unreachable();
        let mut waiting = 0usize;
        for part in 0..unreachable {
            let may_reach = self.height(part) < unreachable;
            let height = if may_reach { NONE } else { unreachable };
            write_short(&mut self.heights, part as usize, height);
            if may_reach && part != target && read(&self.excess, part as usize) > 0 {
                waiting = waiting.saturating_add(1);
            }
            write_short(&mut self.passed, part as usize, 0);
            write_short(&mut self.tops, part as usize, NONE);
        }
        self.highest = 0;
        self.followed = 0;
        self.horizon = unreachable;
        write_short(&mut self.heights, target as usize, 0);
        write_short(&mut self.heights, other as usize, unreachable);
        waiting
    }

    /// Gives heights to the parts from which links with capacity lead to a part, if the search has not seen them yet, and
    /// queues them.
    fn reach_back(
        &mut self,
        split: &SplitNetwork,
        part: u32,
        queue: &mut Vec<u32>,
    ) -> Result<(), NoMemory> {
        let above = self.height(part).saturating_add(1);
        for link in row_of(split, part) {
            if let Some(ends) = link_in(&split.links, *link) {
                let is_new = read_short(&self.heights, ends.to as usize) == NONE;
                if is_new && self.capacity_back(*link) > 0 {
                    write_short(&mut self.heights, ends.to as usize, above);
                    queue.push(ends.to)?;
                }
            }
        }
        Ok(())
    }

    /// Puts a part among those of its height that push, if it has an excess.
    #[inline(always)]
    fn queue_excess(&mut self, part: u32) {
        let height = self.height(part);
        if read(&self.excess, part as usize) > 0 && height < self.unreachable() {
            let top = read_short(&self.tops, height as usize);
            write_short(&mut self.below, part as usize, top);
            write_short(&mut self.tops, height as usize, part);
            self.highest = self.highest.max(height);
        }
    }

    /// Takes out the part that is to push next, one of the highest.
    fn take_highest(&mut self) -> Option<u32> {
        for _ in 0..self.tops.len() {
            let part = read_short(&self.tops, self.highest as usize);
            if part != NONE {
                let below = read_short(&self.below, part as usize);
                write_short(&mut self.tops, self.highest as usize, below);
                return Some(part);
            }
            if self.highest == 0 {
                return None;
            }
            self.highest -= 1;
        }
        None
    }

    /// Fills the links from the source to the starts from which the end can be reached.
    fn leave_source(&mut self, split: &SplitNetwork, source: u32) {
        for link in row_of(split, source) {
            if let Some(ends) = link_in(&split.links, *link) {
                let through = read(&self.through, (ends.to / 2) as usize);
                let amount = self.capacity(*link).min(through);
                if self.height(ends.to) < self.unreachable() && amount > 0 {
                    self.move_on(*link, source, ends.to, amount);
                }
            }
        }
    }

    /// Moves so much over a link. The part to which it leads pushes from now on.
    #[inline(always)]
    fn move_on(&mut self, link: u32, from: u32, to: u32, amount: u64) {
        self.let_flow(link, amount);
        take(&mut self.excess, from as usize, amount);
        let is_first = read(&self.excess, to as usize) == 0;
        add(&mut self.excess, to as usize, amount);
        if is_first {
            self.queue_excess(to);
        }
    }

    /// Lets parts push until no excess is left from which the target can be reached.
    fn drain(
        &mut self,
        alloc: Global,
        split: &SplitNetwork,
        target: u32,
        other: u32,
    ) -> Result<(), NoMemory> {
        for _ in 0..usize::MAX {
            if self.followed > self.half as usize / 4 {
                self.make_exact(alloc, split, target, other)?;
            }
            let Some(part) = self.take_highest() else {
                return Ok(());
            };
            if part != target {
                self.push_from(split, part);
            }
        }
        Ok(())
    }

    /// Pushes a part's excess on to lower parts. If some is left the part rises.
    fn push_from(&mut self, split: &SplitNetwork, part: u32) {
        let row = row_of(split, part);
        let height = self.height(part);
        let first = read_short(&self.passed, part as usize);
        for (place, link) in row.iter().enumerate().skip(first as usize) {
            self.followed = self.followed.saturating_add(1);
            let left = read(&self.excess, part as usize);
            if left == 0 {
                let passed = u32::try_from(place).unwrap_or(0);
                write_short(&mut self.passed, part as usize, passed);
                return;
            }
            if let Some(ends) = link_in(&split.links, *link) {
                let amount = self.capacity(*link).min(left);
                if amount > 0 && self.height(ends.to).saturating_add(1) == height {
                    self.move_on(*link, part, ends.to, amount);
                }
            }
        }
        self.rise(split, part);
    }

    /// Makes a part one link higher than the lowest part to which a link with capacity leads.
    fn rise(&mut self, split: &SplitNetwork, part: u32) {
        if read(&self.excess, part as usize) == 0 {
            return;
        }
        let row = row_of(split, part);
        let mut lowest = self.unreachable();
        for link in row {
            if let Some(ends) = link_in(&split.links, *link) {
                if self.capacity(*link) > 0 {
                    lowest = lowest.min(self.height(ends.to));
                }
            }
        }
        self.followed = self.followed.saturating_add(row.len());
        let height = lowest.saturating_add(1).min(self.unreachable());
        write_short(&mut self.heights, part as usize, height);
        write_short(&mut self.passed, part as usize, 0);
        self.queue_excess(part);
    }
}
