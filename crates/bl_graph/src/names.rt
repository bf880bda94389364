//! The variables that a program's commands name, and a number without gaps for each of them.
ghost use Rattle.std.specs.Prelude.{◌≡◌, ◌+◌, ◌*◌, ◌-◌, ◌^◌, ◌++◌, ◌<◌, ◌≤◌, ◌↔◌, ℕ, All, AllPairs, Contains, IfOk, OnOk, Some, length, map, min, slice_get};
ghost use Rattle.std.specs.{Cow.cow_slice_items, List.range_with_len};
ghost use Rattle.bl_graph.specs.{Graphs.IsGraph, Ranges.variables};
ghost use Rattle.bl_graph.specs.Names.{AreNames, IsNamed, numbered, place_of, var_of};

use crate::facts::{Graph, Use};
use crate::writes::{ranges, variables};
use bl_base::{NoMemory, Var};
use bl_program::WellFormed;
use std::alloc::Global;
use std::borrow::CowSlice;
use std::marker::Model;

/// Variables, each with a number: these are 0, 1 and so on, by rising variables. Contracts see the rising list of the variables,
/// in which each stands at the place of its number.
#[derive(Debug, Drop)]
pub struct Names {
    kept: Kept,
}

/// How variables are kept.
#[derive(Debug, Drop)]
enum Kept {
    /// All variables below this one, each by itself.
    All(u32),
    /// These, rising.
    Listed(Vec<u32>),
}

impl Model for Names {
    ghost use Rattle.std.specs.Prelude.{ℕ, List};
    ghost use Rattle.bl_graph.specs.Names.{kept_in};

    ghost Value = { List ℕ };

    ghost view = { λ names. kept_in names.kept };
}

/// How many variables a program may have for each use by a command so that all of them are numbered, named or not.
const SPARE: usize = 4;

/// The variables that the commands of a program name, and further ones. A program with at most four times as many variables as
/// its graph's writes, reads and sinks and the further ones have entries has all its variables there: that takes no memory, and
/// time for a look at each function. Any other costs a sort of these entries and memory for them, none for a variable that is
/// declared alone. Want of memory is the only error.
pub fn names_of(
    alloc: Global,
    program: &WellFormed,
    graph: &Graph,
    more: &[u32],
) -> Result<Names, NoMemory>
    requires graph { IsGraph program.now graph.now }
    requires more { All (λ x. x < variables program.now) more.now }
    ensures names { IfOk result (λ names. AreNames program.now names) }
    ensures more { IfOk result (λ names. All (λ x. Contains names x) more.now) }
    ensures few { IfOk result (λ names. length names ≤ 4 * (length graph.now.writes + length graph.now.reads + length graph.now.sinks + length more.now)) }
{
    ranges(program);
    let count = variables(program);
    if count as usize <= entries(graph, more).saturating_mul(SPARE) {
        return Ok(Names {
            kept: Kept::All(count),
        });
    }
    let named = rising(alloc, graph, more)?;
    Ok(Names {
        kept: Kept::Listed(named),
    })
}

/// How many entries the graph's uses and further variables have together, at most 2^64 - 1.
fn entries(graph: &Graph, more: &[u32]) -> usize
    ensures { result ≡ min (length graph.now.writes + length graph.now.reads + length graph.now.sinks + length more.now) (2 ^ 64 - 1) }
{
    let moves = graph.writes.len().saturating_add(graph.reads.len());
    moves
        .saturating_add(graph.sinks.len())
        .saturating_add(more.len())
}

/// The variables that the commands of a graph name, and further ones, each once, rising.
fn rising(alloc: Global, graph: &Graph, more: &[u32]) -> Result<Vec<u32>, NoMemory>
    ensures rise { IfOk result (λ names. AllPairs (λ x y. x < y) names.items) }
    ensures has { IfOk result (λ names. (x : ℕ) → Contains names.items x ↔ IsNamed graph.now more.now x) }
    ensures few { IfOk result (λ names. length names.items ≤ length graph.now.writes + length graph.now.reads + length graph.now.sinks + length more.now) }
{
    let mut names = Vec::new(alloc);
    push_vars(&mut names, graph.writes.as_slice())?;
    push_vars(&mut names, graph.reads.as_slice())?;
    push_vars(&mut names, graph.sinks.as_slice())?;
    names.extend_from_slice(more)?;
    names.sort_unstable();
    names.dedup();
    Ok(names)
}

/// Appends the variables of uses.
fn push_vars(names: &mut Vec<u32>, uses: &[Use]) -> Result<(), NoMemory>
    ensures { OnOk result (names.new.items ≡ names.old.items ++ map var_of uses.now) }
{
    for item in uses {
        names.push(item.var.0)?;
    }
    Ok(())
}

impl Names {
    /// How many there are.
    pub fn len(&self) -> u32
        requires { length self.now < 2 ^ 32 }
        ensures { result ≡ length self.now }
    {
        match &self.kept {
            Kept::All(count) => *count,
            Kept::Listed(names) => names.len() as u32,
        }
    }

    /// The number of a variable. Costs nothing where all variables are kept, else the logarithm of how many there are.
    pub fn number_of(&self, x: u32) -> u32
        requires rise { AllPairs (λ x y. x < y) self.now }
        requires has { Contains self.now x }
        ensures is { result ≡ place_of self.now x }
        ensures at { slice_get self.now result ≡ Some x }
    {
        match &self.kept {
            Kept::All(_) => x,
            Kept::Listed(names) => place_among(names, x),
        }
    }

    /// The variable of a number.
    pub fn variable(&self, number: u32) -> u32
        requires { number < length self.now }
        ensures { slice_get self.now number ≡ Some result }
    {
        match &self.kept {
            Kept::All(_) => number,
            Kept::Listed(names) => names[number as usize],
        }
    }

    /// The uses with the numbers of their variables in place of these. Takes no memory where all variables are kept, else a list
    /// of that length. Want of memory is the only error.
    pub fn numbered<'u>(
        &self,
        alloc: Global,
        uses: &'u [Use],
    ) -> Result<CowSlice<'u, Use>, NoMemory>
        requires rise { AllPairs (λ x y. x < y) self.now }
        requires has { All (λ u. Contains self.now u.var.0) uses.now }
        ensures { IfOk result (λ all. cow_slice_items all ≡ map (numbered self.now) uses.now) }
    {
        match &self.kept {
            Kept::All(_) => Ok(CowSlice::Borrowed(uses)),
            Kept::Listed(names) => Ok(CowSlice::Owned(numbered_among(alloc, names, uses)?)),
        }
    }
}

/// The place of a variable in a rising list.
fn place_among(names: &[u32], x: u32) -> u32
    requires rise { AllPairs (λ x y. x < y) names.now }
    requires has { Contains names.now x }
    ensures is { result ≡ place_of names.now x }
    ensures at { slice_get names.now result ≡ Some x }
{
    match names.binary_search(&x) {
        Ok(place) => place as u32,
        Err(_) => unreachable!(),
    }
}

/// The uses with the places of their variables in a rising list.
fn numbered_among(alloc: Global, names: &[u32], uses: &[Use]) -> Result<Vec<Use>, NoMemory>
    requires rise { AllPairs (λ x y. x < y) names.now }
    requires has { All (λ u. Contains names.now u.var.0) uses.now }
    ensures { IfOk result (λ all. all.items ≡ map (numbered names.now) uses.now) }
{
    let mut all = Vec::with_capacity(alloc, uses.len())?;
    for item in uses {
        all.push(Use {
            at: item.at,
            var: Var(place_among(names, item.var.0)),
        })?;
    }
    Ok(all)
}
