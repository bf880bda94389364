//! Where the variables of each function begin, and which function's a number is.
ghost use Rattle.std.specs.Prelude.{◌≤◌, ◌<◌, ◌+◌, ◌-◌, ◌⊎◌, IfOk, MatchOption, length, slice_index};
ghost use Rattle.bl_program.specs.{Layout.AreValues, Layout.first_of, Rules.Rule2};

use crate::definitions::ProgramParts;
use bl_base::{List, NoMemory};
use std::alloc::Global;

/// The first variable of each function, and the number of all variables. Linear in the functions; want of memory is the only error.
pub fn firsts_of(alloc: Global, parts: &ProgramParts) -> Result<List<u32>, NoMemory>
    requires { Rule2 parts.now }
    ensures { IfOk result (λ firsts. AreValues (first_of parts.now) (length parts.now.functions) firsts) }
{
    let mut firsts = List::new(alloc);
    let mut first = (parts.globals.len() + parts.memories.len()) as u32;
    firsts.push(first)?;
    for function in parts.functions.as_slice() {
        first += function.vars;
        firsts.push(first)?;
    }
    Ok(firsts)
}

/// Of numbers that begin ranges, where the last one ends the last range: the number of a range that holds x; None where none
/// does. A binary search.
pub fn owner_among(firsts: &[u32], x: u32) -> Option<usize>
    requires { 0 < length firsts.now }
    ensures { MatchOption result ((x < slice_index firsts.now 0) ⊎ (slice_index firsts.now (length firsts.now - 1) ≤ x))
        (λ owner. (owner + 1 < length firsts.now) × (slice_index firsts.now owner ≤ x) × (x < slice_index firsts.now (owner + 1))) }
{
    let mut low = 0;
    let mut high = firsts.len() - 1;
    if x < firsts[low] || firsts[high] <= x {
        return None;
    }
    while high - low > 1 {
        let middle = low + (high - low) / 2;
        if firsts[middle] <= x {
            low = middle;
        } else {
            high = middle;
        }
    }
    Some(low)
}
