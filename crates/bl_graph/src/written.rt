//! For each position what the site there writes, as a table.
ghost use Rattle.std.specs.Prelude.{◌≡◌, ◌<◌, ℕ, All, Contains, IfOk, None, replicate};
ghost use Rattle.std.specs.FinSet as fin;
ghost use Rattle.bl_graph.specs.{Graphs.use_of, WrittenVariables.AreUnprotected, WrittenVariables.noted};

use crate::facts::Write;
use bl_base::{NoMemory, Pos, SiteSet};
use std::alloc::Global;

/// For each position below a count the variable that the site there writes, where it isn't protected. Linear in the count and the
/// writes.
pub fn written_free(
    alloc: Global,
    count: usize,
    writes: &[Write],
    protects: &SiteSet,
) -> Result<Vec<Option<u32>>, NoMemory>
    requires within { All (λ w. w.at.0 < count) writes.now }
    requires one { (s x y : ℕ) → Contains writes.now (use_of s x) → Contains writes.now (use_of s y) → x ≡ y }
    ensures { IfOk result (λ written. AreUnprotected writes.now (fin.contains protects.now) written.items) }
{
    let mut written = no_entries(alloc, count)?;
    for write in writes {
        if !protects.contains(write.at) {
            written[write.at.0 as usize] = Some(write.var.0);
        }
    }
    Ok(written)
}

/// A table of so many places without an entry.
pub fn no_entries(alloc: Global, count: usize) -> Result<Vec<Option<u32>>, NoMemory>
    ensures { IfOk result (λ entries. entries.items ≡ replicate count None) }
{
    let mut entries = Vec::new(alloc);
    for done in 0..count {
        entries.push(None)?;
    }
    Ok(entries)
}

/// What is noted for a position.
pub fn noted_at(written: &[Option<u32>], at: Pos) -> Option<u32>
    ensures { result ≡ noted written.now at.0 }
{
    match written.get(at.0 as usize) {
        Some(var) => *var,
        None => None,
    }
}
