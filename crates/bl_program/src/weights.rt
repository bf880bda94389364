//! What a protect at a site costs.
ghost use Rattle.std.specs.Prelude.{◌≡◌, ◌≤◌, ◌<◌, ◌^◌, ◌↔◌, IsTrue, Some, if◌then◌else◌, min, true, unwrap_or};
ghost use Rattle.std.specs.List.{AllPairs};
ghost use Rattle.std.specs.FinSet as fin;
ghost use Rattle.bl_program.specs.Sites.{IsSite, listed, mark_at, mark_of, site_weight, weight_of};

use crate::command::{Command, Mark};
use crate::definitions::{ProgramParts, SiteWeight};
use crate::wellformed::WellFormed;
use bl_base::{Pos, SiteSet};

/// What no sum of weights reaches: 2^63.
const LIMIT: u64 = 0x8000_0000_0000_0000;

/// The mark of a site's command; None where the command is none of a site.
fn mark_of(command: Command) -> Option<Mark>
    ensures { result ≡ mark_of command }
{
    match command {
        Command::Set { mark, .. } | Command::Load { mark, .. } => Some(mark),
        Command::Arg { mark, .. } | Command::Out { mark, .. } => Some(mark),
        _ => None,
    }
}

/// The mark of the site at a position; None where no site stands there. Takes no memory.
pub fn mark_at(parts: &ProgramParts, at: usize) -> Option<Mark>
    ensures { result ≡ mark_at parts.now at }
{
    match parts.commands.as_slice().get(at) {
        Some(command) => mark_of(*command),
        None => None,
    }
}

/// The weight that is listed for a position; None where none is. A binary search.
fn listed(weights: &[SiteWeight], at: usize) -> Option<u64>
    requires { AllPairs (λ entry next. entry.at.0 < next.at.0) weights.now }
    ensures { result ≡ listed weights.now at }
{
    let mut low = 0;
    let mut high = weights.len();
    while low < high {
        let middle = low + (high - low) / 2;
        let entry = weights[middle];
        let found = entry.at.0 as usize;
        if found == at {
            return Some(entry.weight);
        }
        if found < at {
            low = middle + 1;
        } else {
            high = middle;
        }
    }
    None
}

/// 10 to that power, or 2^63 where it is greater.
fn power(depth: u8) -> u64
    ensures { result ≡ min (10 ^ depth) (2 ^ 63) }
{
    match 10u64.checked_pow(u32::from(depth)) {
        Some(weight) => weight.min(LIMIT),
        None => LIMIT,
    }
}

/// The weight of the site at a position, or 2^63 where it is greater; 0 where no site stands there.
fn weight_at(parts: &ProgramParts, at: usize) -> u64
    requires { AllPairs (λ entry next. entry.at.0 < next.at.0) parts.now.weights }
    ensures { result ≡ min (unwrap_or (site_weight parts.now at) 0) (2 ^ 63) }
{
    match mark_at(parts, at) {
        Some(mark) => match listed(parts.weights.as_slice(), at) {
            Some(weight) => weight.min(LIMIT),
            None => power(mark.depth),
        },
        None => 0,
    }
}

/// Whether the weights of all sites add up to less than 2^63. Linear in the commands but for the logarithm of the listed weights; takes no memory.
pub fn is_total_small(parts: &ProgramParts) -> bool
    requires { AllPairs (λ entry next. entry.at.0 < next.at.0) parts.now.weights }
    ensures { IsTrue result ↔ (weight_of parts.now (λ _. true) < 2 ^ 63) }
{
    let mut total: u64 = 0;
    for at in 0..parts.commands.len() {
        total += weight_at(parts, at);
        if total >= LIMIT {
            return false;
        }
    }
    true
}

/// The weight of the site at that position: the one that is listed for it, else 10 to the depth of its mark. It is at least
/// 1, and those of all sites add up to less than 2^63. Costs the logarithm of the number of listed weights; takes no memory.
pub fn site_weight(program: &WellFormed, at: Pos) -> u64
    requires { IsSite program.now at.0 }
    ensures weight { site_weight program.now at.0 ≡ Some result }
    ensures positive { 1 ≤ result }
    ensures total { weight_of program.now (λ _. true) < 2 ^ 63 }
{
    weight_at(program.program().parts(), at.0 as usize)
}

/// The sum of the weights of the program's sites in the set. Takes no memory.
pub fn weight(program: &WellFormed, protects: &SiteSet) -> u64
    ensures { result ≡ weight_of program.now (λ at. fin.contains protects.now at) }
{
    let parts = program.program().parts();
    let mut total: u64 = 0;
    for at in 0..parts.commands.len() {
        total += weight_within(parts, protects, at);
    }
    total
}

/// The weight of the site at a position, or 2^63 where it is greater; 0 where no site of the set stands there.
fn weight_within(parts: &ProgramParts, protects: &SiteSet, at: usize) -> u64
    requires rise { AllPairs (λ entry next. entry.at.0 < next.at.0) parts.now.weights }
    requires few { at < 2 ^ 32 }
    ensures { result ≡ min (if fin.contains protects.now at then unwrap_or (site_weight parts.now at) 0 else 0) (2 ^ 63) }
{
    if protects.contains(Pos(at as u32)) {
        weight_at(parts, at)
    } else {
        0
    }
}
