//! A search from roots along moves.
ghost use Rattle.std.specs.Prelude.{◌≡◌, ◌<◌, ◌↔◌, ℕ, [], All, Contains, IsTrue, IfOk, OnOk, length, map};
ghost use Rattle.bl_graph.specs.Arcs.{is_in, row_at};
ghost use Rattle.bl_transient.specs.Reachability.{IsVisited, Reached};

use bl_base::NoMemory;
use std::alloc::Global;

/// For each variable whether the roots reach it by rows. Each row is visited once.
pub(crate) fn reached(
    alloc: Global,
    rows: &[Vec<u32>],
    roots: &[u32],
) -> Result<Vec<bool>, NoMemory>
    requires within { (u v : ℕ) → Contains (row_at (map (λ row. row.items) rows.now) u) v → v < length rows.now }
    requires roots_in { All (λ v. v < length rows.now) roots.now }
    ensures places { IfOk result (λ marks. length marks.items ≡ length rows.now) }
    ensures exact { IfOk result (λ marks. (v : ℕ) → IsTrue (is_in marks.items v) ↔ Reached (map (λ row. row.items) rows.now) roots.now v) }
{
    let mut marks = vec![in alloc; false; rows.len()]?;
    let mut queue = Vec::new(alloc);
    visit(roots, &mut marks, &mut queue)?;
    let mut next = 0;
    while next < queue.len() {
        let node = queue[next] as usize;
        next += 1;
        visit(&rows[node], &mut marks, &mut queue)?;
    }
    Ok(marks)
}

/// Marks and queues what a row has that isn't marked.
fn visit(row: &[u32], marks: &mut [bool], queue: &mut Vec<u32>) -> Result<(), NoMemory>
    requires { All (λ v. v < length marks.old) row.now }
    ensures { OnOk result (IsVisited row.now marks.old marks.new queue.old.items queue.new.items) }
{
    for node in row {
        if !marks[*node as usize] {
            marks[*node as usize] = true;
            queue.push(*node)?;
        }
    }
    Ok(())
}
