//! Rule 1 of certificates: each path is a chain of sites from a load to a sink.
ghost use Rattle.std.specs.Prelude.{◌≡◌, ◌↔◌, ◌≤◌, ℕ, AllPairs, Contains, IsSomeAnd, IsTrue, length, map, slice_get};
ghost use Rattle.bl_program.specs.Sites.{Loads};
ghost use Rattle.bl_graph.specs.Chains.{IsChain};
ghost use Rattle.bl_graph.specs.Graphs.{IsGraph, Precedes, use_of};
ghost use Rattle.bl_witness.specs.LookupAnswers.{IsLinked, IsOrdered, IsPlaceOf, IsWritten, LeadsToSink};

use bl_base::{List, Pos, Var};
use bl_graph::{Graph, Use};
use bl_program::{Command, ProgramParts};

/// Whether the sites begin at a load, each next one reads what the former wrote, and a sink reads what the last wrote. A
/// binary search in the graph for each site.
pub(crate) fn is_chain(parts: &ProgramParts, graph: &Graph, sites: &[Pos], sink: Pos) -> bool
    requires { IsGraph parts.now graph.now }
    ensures { IsTrue result ↔ IsChain parts.now (map (λ s. s.0) sites.now) sink.0 }
{
    let Some((first, rest)) = sites.split_first() else {
        return false;
    };
    is_load(parts.commands.as_slice(), *first) && leads(graph, *first, rest, sink)
}

/// Whether a Load stands there.
fn is_load(commands: &[Command], at: Pos) -> bool
    ensures { IsTrue result ↔ IsSomeAnd (slice_get commands.now at.0) Loads }
{
    matches!(commands.get(at.0 as usize), Some(Command::Load { .. }))
}

/// Whether each site reads what the former wrote, and a sink what the last wrote.
fn leads(graph: &Graph, first: Pos, rest: &[Pos], sink: Pos) -> bool
    requires { IsOrdered graph.now }
    ensures { IsTrue result ↔ LeadsToSink graph.now first.0 (map (λ s. s.0) rest.now) sink.0 }
{
    let mut former = first;
    for site in rest {
        if !is_linked(&graph.writes, &graph.reads, former, *site) {
            return false;
        }
        former = *site;
    }
    is_linked(&graph.writes, &graph.sinks, former, sink)
}

/// Whether one position writes what is used at another.
fn is_linked(writes: &List<Use>, uses: &List<Use>, former: Pos, at: Pos) -> bool
    requires writes { AllPairs Precedes writes.now }
    requires uses { AllPairs Precedes uses.now }
    requires one { (s x y : ℕ) → Contains writes.now (use_of s x) → Contains writes.now (use_of s y) → x ≡ y }
    ensures { IsTrue result ↔ IsLinked writes.now uses.now former.0 at.0 }
{
    match written_at(writes, former) {
        Some(var) => is_listed(uses, Use { at, var }),
        None => false,
    }
}

/// The least variable that is written at a position.
fn written_at(writes: &List<Use>, at: Pos) -> Option<Var>
    requires { AllPairs Precedes writes.now }
    ensures { IsWritten writes.now at.0 result }
{
    let place = place_of(writes, Use { at, var: Var(0) });
    match use_at(writes, place) {
        Some(found) if found.at.0 == at.0 => Some(found.var),
        Some(_) => None,
        None => None,
    }
}

/// Whether the use stands in a list.
fn is_listed(uses: &List<Use>, one: Use) -> bool
    requires { AllPairs Precedes uses.now }
    ensures { IsTrue result ↔ Contains uses.now one }
{
    match use_at(uses, place_of(uses, one)) {
        Some(found) => is_same(found, one),
        None => false,
    }
}

/// The use at a place of a list.
fn use_at(uses: &List<Use>, place: usize) -> Option<Use>
    ensures { result ≡ slice_get uses.now place }
{
    match uses.as_slice().get(place) {
        Some(found) => Some(*found),
        None => None,
    }
}

/// Whether two uses are the same.
fn is_same(one: Use, other: Use) -> bool
    ensures { IsTrue result ↔ (one ≡ other) }
{
    one.at.0 == other.at.0 && one.var.0 == other.var.0
}

/// How many uses of a list stand before that one. A binary search.
fn place_of(uses: &List<Use>, one: Use) -> usize
    requires { AllPairs Precedes uses.now }
    ensures within { result ≤ length uses.now }
    ensures place { IsPlaceOf uses.now one result }
{
    let items = uses.as_slice();
    let mut low = 0;
    let mut high = items.len();
    while low < high {
        let middle = low + (high - low) / 2;
        if precedes(items[middle], one) {
            low = middle + 1;
        } else {
            high = middle;
        }
    }
    low
}

/// Whether one use stands before another.
fn precedes(one: Use, other: Use) -> bool
    ensures { IsTrue result ↔ Precedes one other }
{
    one.at.0 < other.at.0 || (one.at.0 == other.at.0 && one.var.0 < other.var.0)
}
