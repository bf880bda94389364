//! What is asked of variables beside the rules, by lists.
ghost use Rattle.std.specs.Prelude.{◌≡◌, ◌<◌, ◌↔◌, ℕ, [], All, AllPairs, Contains, IfOk, IsTrue, length, map};
ghost use Rattle.bl_graph.specs.{Arcs.is_in, Graphs.IsGraph, Names.AreNames, Names.place_of, Ranges.variables};

use bl_base::{List, NoMemory};
use bl_graph::{Graph, Names, names_of};
use bl_program::WellFormed;
use std::alloc::Global;

/// Variables of which something is asked beside the rules.
#[derive(Debug, Drop)]
pub struct AskedOf {
    /// These are to be transient.
    pub transient: List<u32>,
    /// These are to be stable.
    pub stable: List<u32>,
}

impl AskedOf {
    /// Nothing is asked. Takes no memory.
    pub fn nothing(alloc: Global) -> AskedOf
        ensures { result ≡ record { transient = []; stable = [] } }
    {
        AskedOf {
            transient: List::new(alloc),
            stable: List::new(alloc),
        }
    }
}

/// The variables that a program's commands name, and those of which something is asked. Costs what `names_of` costs with these
/// as further ones, and memory for them. Want of memory is the only error.
pub fn names_under(
    alloc: Global,
    program: &WellFormed,
    graph: &Graph,
    asked: &AskedOf,
) -> Result<Names, NoMemory>
    requires graph { IsGraph program.now graph.now }
    requires transient { All (λ x. x < variables program.now) asked.now.transient }
    requires stable { All (λ x. x < variables program.now) asked.now.stable }
    ensures names { IfOk result (λ names. AreNames program.now names) }
    ensures transient { IfOk result (λ names. All (λ x. Contains names x) asked.now.transient) }
    ensures stable { IfOk result (λ names. All (λ x. Contains names x) asked.now.stable) }
{
    let mut more = Vec::new(alloc);
    more.extend_from_slice(asked.transient.as_slice())?;
    more.extend_from_slice(asked.stable.as_slice())?;
    let names = names_of(alloc, program, graph, &more)?;
    Ok(names)
}

/// The numbers of variables.
pub fn numbers_of(alloc: Global, names: &Names, vars: &[u32]) -> Result<Vec<u32>, NoMemory>
    requires rise { AllPairs (λ x y. x < y) names.now }
    requires has { All (λ x. Contains names.now x) vars.now }
    ensures { IfOk result (λ numbers. numbers.items ≡ map (place_of names.now) vars.now) }
{
    let mut numbers = Vec::with_capacity(alloc, vars.len())?;
    for x in vars {
        numbers.push(names.number_of(*x))?;
    }
    Ok(numbers)
}

/// For each of so many numbers whether it is one of these.
pub fn marked(alloc: Global, count: u32, numbers: &[u32]) -> Result<Vec<bool>, NoMemory>
    requires { All (λ i. i < count) numbers.now }
    ensures places { IfOk result (λ marks. length marks.items ≡ count) }
    ensures exact { IfOk result (λ marks. (i : ℕ) → IsTrue (is_in marks.items i) ↔ Contains numbers.now i) }
{
    let mut marks = vec![in alloc; false; count as usize]?;
    for number in numbers {
        marks[*number as usize] = true;
    }
    Ok(marks)
}
