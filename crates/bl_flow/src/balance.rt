//! Tests whether amounts that links carry are a flow.
ghost use Rattle.std.specs.Prelude.{◌≡◌, ◌<◌, ◌≤◌, ◌+◌, Bool, ℕ, true, length, slice_index, IfOk, IfSome};
ghost use Rattle.bl_flow.specs.{Flows.Carries, Flows.leaves, Flows.enters, Flows.amount_if, Balances.IsAdded, Balances.worth};

use crate::split::Links;
use bl_base::NoMemory;
use std::alloc::Global;

/// Whether the amounts that links carry are a flow of so much from one part to another: what leaves a part is what enters
/// it, except for those two. The cost is in proportion to the links and parts.
pub fn is_balanced(
    alloc: Global,
    links: &Links,
    carried: &[u64],
    parts: usize,
    from: usize,
    to: usize,
    amount: u64,
) -> Result<bool, NoMemory>
    requires { length carried.now ≤ length links.now }
    ensures { IfOk result (λ yes. yes ≡ true → Carries links.now (length carried.now) (slice_index carried.now) from to amount) }
{
    let Some(leaving) = leaving_of(alloc, links, carried, parts, to, amount)? else {
        return Ok(false);
    };
    let Some(entering) = entering_of(alloc, links, carried, parts, from, amount)? else {
        return Ok(false);
    };
    let are_same = leaving.as_slice() == entering.as_slice();
    drop(leaving);
    drop(entering);
    Ok(are_same)
}

/// For each part what leaves it over links, and so much more at one part; none if a sum is too great.
fn leaving_of(
    alloc: Global,
    links: &Links,
    carried: &[u64],
    parts: usize,
    to: usize,
    amount: u64,
) -> Result<Option<Vec<u64>>, NoMemory>
    requires { length carried.now ≤ length links.now }
    ensures { IfOk result (λ found. IfSome found (λ numbers. (set : ℕ → Bool) → worth numbers.items set
        ≡ leaves links.now (length carried.now) (slice_index carried.now) set + amount_if (set to) amount)) }
{
    let mut numbers = vec![in alloc; 0u64; parts]?;
    if add_leaving(links, carried, to, amount, &mut numbers) {
        Ok(Some(numbers))
    } else {
        Ok(None)
    }
}

/// Adds to each part's number what leaves the part over links, and to one number more; gives false if a sum is too great.
fn add_leaving(links: &Links, carried: &[u64], to: usize, amount: u64, numbers: &mut [u64]) -> bool
    requires { length carried.now ≤ length links.now }
    ensures places { length numbers.new ≡ length numbers.old }
    ensures sums { result ≡ true → (set : ℕ → Bool) → worth numbers.new set
        ≡ worth numbers.old set + leaves links.now (length carried.now) (slice_index carried.now) set + amount_if (set to) amount }
{
    for k in 0..carried.len() {
        if !add(numbers, links.link(k).from as usize, carried[k]) {
            return false;
        }
    }
    add(numbers, to, amount)
}

/// For each part what enters it over links, and so much more at one part; none if a sum is too great.
fn entering_of(
    alloc: Global,
    links: &Links,
    carried: &[u64],
    parts: usize,
    from: usize,
    amount: u64,
) -> Result<Option<Vec<u64>>, NoMemory>
    requires { length carried.now ≤ length links.now }
    ensures { IfOk result (λ found. IfSome found (λ numbers. (set : ℕ → Bool) → worth numbers.items set
        ≡ enters links.now (length carried.now) (slice_index carried.now) set + amount_if (set from) amount)) }
{
    let mut numbers = vec![in alloc; 0u64; parts]?;
    if add_entering(links, carried, from, amount, &mut numbers) {
        Ok(Some(numbers))
    } else {
        Ok(None)
    }
}

/// Adds to each part's number what enters the part over links, and to one number more; gives false if a sum is too great.
fn add_entering(
    links: &Links,
    carried: &[u64],
    from: usize,
    amount: u64,
    numbers: &mut [u64],
) -> bool
    requires { length carried.now ≤ length links.now }
    ensures places { length numbers.new ≡ length numbers.old }
    ensures sums { result ≡ true → (set : ℕ → Bool) → worth numbers.new set
        ≡ worth numbers.old set + enters links.now (length carried.now) (slice_index carried.now) set + amount_if (set from) amount }
{
    for k in 0..carried.len() {
        if !add(numbers, links.link(k).to as usize, carried[k]) {
            return false;
        }
    }
    add(numbers, from, amount)
}

/// Adds to the number at a place; gives false, and changes nothing, if there is none or the sum is too great.
fn add(numbers: &mut [u64], place: usize, amount: u64) -> bool
    ensures sum { result ≡ true → IsAdded numbers.old numbers.new place amount }
    ensures places { length numbers.new ≡ length numbers.old }
{
    if place >= numbers.len() {
        return false;
    }
    match numbers[place].checked_add(amount) {
        Some(sum) => {
            numbers[place] = sum;
            true
        }
        None => false,
    }
}
