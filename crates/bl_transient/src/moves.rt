//! From a graph's lists to roots and moves of transient values, and where these lead.
ghost use Rattle.std.specs.Prelude.{◌≡◌, ◌++◌, ◌<◌, ◌↔◌, ℕ, All, IfOk, IsTrue, OnOk, Some, length, map};
ghost use Rattle.std.specs.FinSet as fin;
ghost use Rattle.bl_graph.specs.{Arcs.is_in, Graphs.IsGraph, Names.AreNames, Names.numbered};
ghost use Rattle.bl_graph.specs.WrittenVariables.{AreUnprotected, noted};
ghost use Rattle.bl_transient.specs.Reachability.{Spread, listed, moved_to, moves_from, roots_from};

use crate::search::reached;
use bl_base::{NoMemory, Pos, SiteSet, Var};
use bl_graph::{Arc, Graph, Names, Read, noted_at, ranges, rows_of, written_free};
use bl_program::WellFormed;
use std::alloc::Global;

/// For each position the number of the variable that the site there writes, where it isn't protected.
pub(crate) fn written_named(
    alloc: Global,
    program: &WellFormed,
    graph: &Graph,
    names: &Names,
    protects: &SiteSet,
) -> Result<Vec<Option<u32>>, NoMemory>
    requires graph { IsGraph program.now graph.now }
    requires names { AreNames program.now names.now }
    ensures { IfOk result (λ written. AreUnprotected (map (numbered names.now) graph.now.writes) (fin.contains protects.now) written.items) }
{
    ranges(program);
    let count = program.program().parts().commands.len();
    let writes = names.numbered(alloc, graph.writes.as_slice())?;
    let written = written_free(alloc, count, &writes, protects)?;
    Ok(written)
}

/// For each of so many variables whether it is one of these, or a load that isn't protected writes it, or sites that aren't
/// protected write it and read such a one.
pub(crate) fn spread(
    alloc: Global,
    count: u32,
    transient: &[u32],
    loads: &[Pos],
    reads: &[Read],
    written: &[Option<u32>],
) -> Result<Vec<bool>, NoMemory>
    requires transient { All (λ x. x < count) transient.now }
    requires reads { All (λ r. r.var.0 < count) reads.now }
    requires written { (s x : ℕ) → noted written.now s ≡ Some x → x < count }
    ensures places { IfOk result (λ marks. length marks.items ≡ count) }
    ensures exact { IfOk result (λ marks. (x : ℕ) → IsTrue (is_in marks.items x) ↔ Spread written.now transient.now loads.now reads.now x) }
{
    let roots = roots_of(alloc, transient, loads, written)?;
    let moves = moves_of(alloc, reads, written)?;
    let rows = rows_of(alloc, &moves, count)?;
    let marks = reached(alloc, &rows, &roots)?;
    Ok(marks)
}

/// These variables, and what the loads that aren't protected write.
pub(crate) fn roots_of(
    alloc: Global,
    transient: &[u32],
    loads: &[Pos],
    written: &[Option<u32>],
) -> Result<Vec<u32>, NoMemory>
    ensures { IfOk result (λ roots. roots.items ≡ transient.now ++ roots_from written.now loads.now) }
{
    let mut roots = Vec::new(alloc);
    roots.extend_from_slice(transient)?;
    for load in loads {
        push_root(&mut roots, noted_at(written, *load))?;
    }
    Ok(roots)
}

/// Appends the variable, where there is one.
fn push_root(roots: &mut Vec<u32>, var: Option<u32>) -> Result<(), NoMemory>
    ensures { OnOk result (roots.new.items ≡ roots.old.items ++ listed var) }
{
    if let Some(x) = var {
        roots.push(x)?;
    }
    Ok(())
}

/// From what the sites that aren't protected read to what they write.
pub(crate) fn moves_of(
    alloc: Global,
    reads: &[Read],
    written: &[Option<u32>],
) -> Result<Vec<Arc>, NoMemory>
    ensures { IfOk result (λ moves. moves.items ≡ moves_from written.now reads.now) }
{
    let mut moves = Vec::new(alloc);
    for read in reads {
        push_move(&mut moves, read.var, noted_at(written, read.at))?;
    }
    Ok(moves)
}

/// Appends the move from a variable to another, where there is one.
fn push_move(moves: &mut Vec<Arc>, from: Var, to: Option<u32>) -> Result<(), NoMemory>
    ensures { OnOk result (moves.new.items ≡ moves.old.items ++ moved_to from.0 to) }
{
    if let Some(to) = to {
        moves.push(Arc { from: from.0, to })?;
    }
    Ok(())
}
