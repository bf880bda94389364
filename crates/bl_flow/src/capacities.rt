//! What links can take.
ghost use Rattle.std.specs.Prelude.{◌≡◌, ◌<◌, ◌≤◌, ◌+◌, ◌^◌, ◌/◌, ℕ, true, None, length, slice_get, slice_index, unwrap_or, IfOk, IfSome};
ghost use Rattle.bl_flow.specs.{Networks.size, Flows.AreReverse, Flows.HasCapacities, Capacities.IsMoved, Capacities.AreCarrying, Capacities.AreLeft};

use crate::network::Network;
use bl_base::NoMemory;
use std::alloc::Global;
use std::marker::Model;

/// The capacity of a link through which any amount fits, above each sum of weights.
const UNBOUNDED: u64 = 1 << 63;

/// How much each link can still take, and then how much the reverse of each can: what the link carries. Behind the links
/// through the nodes no link has a bound, so that the one follows from the other and takes no memory. Contracts see one
/// list.
#[derive(Debug, Drop)]
pub struct Capacities {
    /// What the links through the nodes can still take; they come first.
    through: Vec<u64>,
    /// What each link carries.
    carried: Vec<u64>,
}

impl Model for Capacities {
    ghost use Rattle.std.specs.Prelude.{List, ℕ, length};
    ghost use Rattle.bl_flow.specs.Capacities.{AreCarried, both_capacities};

    ghost Value = { List ℕ };

    ghost view = { λ c. both_capacities c.through.items c.carried.items };

    ghost invariant = { λ c. AreCarried (length c.through.items) c.carried.items };
}

impl Capacities {
    /// What so many links can take before anything flows.
    pub fn of(alloc: Global, n: &Network, links: usize) -> Result<Capacities, NoMemory>
        requires { size n.now ≤ links }
        ensures { IfOk result (HasCapacities n.now links) }
    {
        let weights = n.weights.as_slice();
        let mut through = Vec::with_capacity(alloc, weights.len())?;
        for v in 0..weights.len() {
            through.push(capacity_of(weights, v))?;
        }
        let carried = vec![in alloc; 0u64; links]?;
        Ok(Capacities { through, carried })
    }

    /// How much a link can still take.
    pub fn at(&self, link: usize) -> u64
        requires { link < length self.now }
        ensures { result ≡ slice_index self.now link }
    {
        let half = self.carried.len();
        if link >= half {
            self.carried[link - half]
        } else if link < self.through.len() {
            self.through[link]
        } else {
            UNBOUNDED - self.carried[link]
        }
    }

    /// Lets so much more flow over a link.
    pub fn let_flow(&mut self, link: usize, amount: u64)
        requires within { link < length self.old }
        requires enough { amount ≤ slice_index self.old link }
        requires fits { (half t : ℕ) → half + half ≡ length self.old → AreReverse half link t
            → slice_index self.old t + amount < 2 ^ 64 }
        ensures { IsMoved self.old self.new link amount }
    {
        let half = self.carried.len();
        if link < half {
            self.carried[link] += amount;
            if link < self.through.len() {
                self.through[link] -= amount;
            }
        } else {
            let forth = link - half;
            self.carried[forth] -= amount;
            if forth < self.through.len() {
                self.through[forth] += amount;
            }
        }
    }

    /// Whether a link may take more: for a search, which tests what it finds. Links without a bound always may.
    pub fn may_take(&self, link: usize) -> bool {
        let half = self.carried.len();
        if link >= half {
            self.carries(link - half)
        } else {
            match self.through.get(link) {
                Some(left) => *left > 0,
                None => true,
            }
        }
    }

    /// Whether a link carries something, the first links those through the nodes.
    pub fn carries(&self, link: usize) -> bool {
        match self.carried.get(link) {
            Some(amount) => *amount > 0,
            None => false,
        }
    }

    /// A copy of what each link carries.
    pub fn all_carried(&self, alloc: Global) -> Result<Vec<u64>, NoMemory> {
        Ok(self.carried.to_vec(alloc)?)
    }

    /// A copy of what the links through the nodes can still take.
    pub fn all_through(&self, alloc: Global) -> Result<Vec<u64>, NoMemory> {
        Ok(self.through.to_vec(alloc)?)
    }

    /// The weights of all nodes together.
    pub fn total_weight(&self) -> u64 {
        let mut total = 0u64;
        for (left, carried) in self.through.iter().zip(self.carried.iter()) {
            let weight = left.saturating_add(*carried);
            if weight < UNBOUNDED {
                total = total.saturating_add(weight);
            }
        }
        total
    }

    /// What links can take that carry these amounts, of those that can take what these can; none if a node's weight or
    /// `most` doesn't allow that.
    pub fn carrying(
        &self,
        alloc: Global,
        carried: Vec<u64>,
        most: u64,
    ) -> Result<Option<Capacities>, NoMemory>
        ensures { IfOk result (λ found. IfSome found (λ after. AreCarrying self.now after carried.items most)) }
    {
        if carried.len() != self.carried.len() || most > UNBOUNDED {
            return Ok(None);
        }
        if !are_at_most(&carried, most) {
            return Ok(None);
        }
        match left_through(alloc, &self.through, &self.carried, &carried)? {
            Some(through) => Ok(Some(Capacities { through, carried })),
            None => Ok(None),
        }
    }

    /// What each link carries.
    pub fn into_carried(self) -> Vec<u64>
        ensures places { (half : ℕ) → half + half ≡ length self → length result.items ≡ half }
        ensures amounts { (half k : ℕ) → half + half ≡ length self → k < half
            → slice_index result.items k ≡ slice_index self (k + half) }
    {
        self.carried
    }
}

/// How much a link can take: what its node's weight allows, where it leads through a node that has one.
fn capacity_of(weights: &[Option<u64>], link: usize) -> u64
    ensures { result ≡ unwrap_or (unwrap_or (slice_get weights.now link) None) (2 ^ 63) }
{
    match weights.get(link) {
        Some(Some(weight)) => *weight,
        _ => UNBOUNDED,
    }
}

/// Whether no number is greater than this one.
fn are_at_most(numbers: &[u64], most: u64) -> bool
    ensures { result ≡ true → (k : ℕ) → k < length numbers.now → slice_index numbers.now k ≤ most }
{
    for k in 0..numbers.len() {
        if numbers[k] > most {
            return false;
        }
    }
    true
}

/// What links can still take that carry `now`, if they can take these amounts while they carry `before`; none if they
/// can't carry that.
fn left_through(
    alloc: Global,
    through: &[u64],
    before: &[u64],
    now: &[u64],
) -> Result<Option<Vec<u64>>, NoMemory>
    requires before { length through.now ≤ length before.now }
    requires now_ { length through.now ≤ length now.now }
    ensures { IfOk result (λ found. IfSome found (λ left. AreLeft through.now before.now now.now left.items)) }
{
    let mut left = Vec::with_capacity(alloc, through.len())?;
    for v in 0..through.len() {
        match rest_of(through[v], before[v], now[v]) {
            Some(rest) => left.push(rest)?,
            None => return Ok(None),
        }
    }
    Ok(Some(left))
}

/// What a link can still take that carries `now`, if it can take `left` while it carries `before`.
fn rest_of(left: u64, before: u64, now: u64) -> Option<u64>
    ensures { IfSome result (λ rest. rest + now ≡ left + before) }
{
    left.checked_add(before)?.checked_sub(now)
}
