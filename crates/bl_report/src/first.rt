//! The first paths that take each site.
ghost use Rattle.std.specs.Prelude.{◌≡◌, ◌<◌, ℕ, [], ◌∷◌, IfOk, None, length, map, replicate};
ghost use Rattle.bl_report.specs.SiteTables.{IsFirst, also_noted, noted};

use bl_base::{NoMemory, Pos};
use bl_graph::FlowPath;
use std::alloc::Global;

/// For each position below a count the index of the first path that takes it. Linear in the paths.
pub(crate) fn first_paths(
    alloc: Global,
    count: usize,
    paths: &[FlowPath],
) -> Result<Vec<Option<usize>>, NoMemory>
    ensures places { IfOk result (λ firsts. length firsts.items ≡ count) }
    ensures first { IfOk result (λ firsts. (s : ℕ) → s < count → IsFirst paths.now paths.now s (noted firsts.items s)) }
{
    let mut firsts = no_paths(alloc, count)?;
    note_paths(&mut firsts, paths);
    Ok(firsts)
}

/// Notes the index of the first path that takes each position, where none is noted before.
fn note_paths(firsts: &mut [Option<usize>], paths: &[FlowPath])
    requires { (s : ℕ) → noted firsts.old s ≡ None }
    ensures places { length firsts.new ≡ length firsts.old }
    ensures first { (s : ℕ) → s < length firsts.old → IsFirst paths.now paths.now s (noted firsts.new s) }
{
    for index in 0..paths.len() {
        note_path(firsts, index, paths[index].sites.as_slice());
    }
}

/// No path for so many positions.
fn no_paths(alloc: Global, count: usize) -> Result<Vec<Option<usize>>, NoMemory>
    ensures { IfOk result (λ firsts. firsts.items ≡ replicate count None) }
{
    let mut firsts = Vec::with_capacity(alloc, count)?;
    for _ in 0..count {
        firsts.push(None)?;
    }
    Ok(firsts)
}

/// Notes the path of an index at each of its sites where none is noted.
fn note_path(firsts: &mut [Option<usize>], index: usize, sites: &[Pos])
    ensures places { length firsts.new ≡ length firsts.old }
    ensures noted { (s : ℕ) → s < length firsts.old
        → noted firsts.new s ≡ also_noted index s (map (λ t. t.0) sites.now) (noted firsts.old s) }
{
    for site in sites {
        note(firsts, index, site.0 as usize);
    }
}

/// Notes the path of an index at a site where none is noted.
fn note(firsts: &mut [Option<usize>], index: usize, at: usize)
    ensures places { length firsts.new ≡ length firsts.old }
    ensures noted { (s : ℕ) → s < length firsts.old → noted firsts.new s ≡ also_noted index s (at ∷ []) (noted firsts.old s) }
{
    if at < firsts.len() && firsts[at].is_none() {
        firsts[at] = Some(index);
    }
}
