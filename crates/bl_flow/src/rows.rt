//! Compressed rows: for each part the links from it, one row behind the other.
ghost use Rattle.std.specs.Prelude.{◌≡◌, ◌<◌, ◌+◌, ◌^◌, ℕ, suc, length, slice_get, slice_index, IfOk};
ghost use Rattle.bl_base.specs.Sums.{sum_below};
ghost use Rattle.bl_flow.specs.{Split.link_at, Searches.AreRows, Searches.part_row};
ghost use Rattle.bl_flow.specs.AdjacencyLists.{reversed, AreCounts, AreRowEnds};

use crate::split::{Link, Links, number_of, reverse_of};
use bl_base::NoMemory;
use std::alloc::Global;
use std::marker::Model;

/// For each part the links from it.
#[derive(Debug, Drop)]
pub struct Rows {
    /// For each part where its row begins, and then where the last row ends.
    offsets: Vec<u32>,
    /// The links, row by row.
    entries: Vec<u32>,
}

impl Model for Rows {
    ghost use Rattle.std.specs.Prelude.{List, ℕ, length};
    ghost use Rattle.bl_flow.specs.AdjacencyLists.{AreOffsets, rows_from};

    ghost Value = { List (List ℕ) };

    ghost view = { λ rows. rows_from rows.offsets.items rows.entries.items };

    ghost invariant = { λ rows. AreOffsets rows.offsets.items (length rows.entries.items) };
}

impl Rows {
    /// The number of parts.
    pub fn len(&self) -> usize
        ensures { result ≡ length self.now }
    {
        self.offsets.len() - 1
    }

    /// The links from a part.
    pub fn row(&self, part: usize) -> &[u32]
        requires { part < length self.now }
        ensures row { result.now ≡ part_row self.now part }
        ensures small { (p : ℕ) → length (part_row self.now p) < 2 ^ 32 }
    {
        let start = self.offsets[part];
        let end = self.offsets[part + 1];
        &self.entries[start as usize..end as usize]
    }

    /// The links from a part; none from the end, behind which no walk goes on.
    pub fn row_before(&self, part: usize, end: usize) -> &[u32]
        requires { part < length self.now }
        ensures last { part ≡ end → length result.now ≡ 0 }
        ensures before { (part ≡ end → ⊥) → result.now ≡ part_row self.now part }
    {
        if part == end { &[] } else { self.row(part) }
    }

    /// The link at a place of a part's row.
    pub fn link_from(&self, part: usize, place: usize) -> Option<usize>
        requires { part < length self.now }
        ensures link { result ≡ slice_get (part_row self.now part) place }
        ensures small { (p : ℕ) → length (part_row self.now p) < 2 ^ 32 }
    {
        let link = self.row(part).get(place)?;
        Some(*link as usize)
    }

    /// The link to a part that is the reverse of the one at a place of its row; the reverse of each of the
    /// first half of the links lies in the second one.
    pub fn link_to(&self, half: usize, part: usize, place: usize) -> Option<usize>
        requires part { part < length self.now }
        requires half { half < 2 ^ 63 }
        ensures link { result ≡ slice_get (part_row (reversed half self.now) part) place }
        ensures small { (p : ℕ) → length (part_row (reversed half self.now) p) < 2 ^ 32 }
    {
        let link = self.link_from(part, place)?;
        Some(reverse_of(half, link))
    }
}

/// For each part the links from it. More links than have numbers of 32 bits are too many for memory.
pub fn rows_of(alloc: Global, links: &Links, parts: usize) -> Result<Rows, NoMemory>
    requires { (k : ℕ) → k < length links.now → (link_at links.now k).from < parts }
    ensures places { IfOk result (λ rows. length rows ≡ parts) }
    ensures rows { IfOk result (λ rows. AreRows links.now rows) }
{
    let count = number_of(2 * links.half())?;
    let counts = counts_of(alloc, links, count, parts)?;
    filled_rows(alloc, links, count, sums_of(counts))
}

/// For each part how many links are from it, and a 0 behind that.
fn counts_of(alloc: Global, links: &Links, count: u32, parts: usize) -> Result<Vec<u32>, NoMemory>
    requires count { count ≡ length links.now }
    requires inside { (k : ℕ) → k < length links.now → (link_at links.now k).from < parts }
    ensures { IfOk result (λ counts. AreCounts links.now parts (length links.now) counts.items) }
{
    let mut counts = vec![in alloc; 0u32; parts.saturating_add(1)]?;
    for k in 0..count {
        let from = links.link(k as usize).from as usize;
        counts[from] += 1;
    }
    Ok(counts)
}

/// For each place the sum of the numbers up to it.
fn sums_of(numbers: Vec<u32>) -> Vec<u32>
    requires { sum_below (length numbers.items) (slice_index numbers.items) < 2 ^ 32 }
    ensures places { length result.items ≡ length numbers.items }
    ensures sums { (p : ℕ) → p < length numbers.items → slice_index result.items p ≡ sum_below (suc p) (slice_index numbers.items) }
{
    let mut sums = numbers;
    let mut sum = 0;
    for place in 0..sums.len() {
        sum += sums[place];
        sums[place] = sum;
    }
    sums
}

/// The rows that end where each part's row is to end. Each link goes before those of its row that are there already,
/// and so an end becomes where its row begins.
fn filled_rows(alloc: Global, links: &Links, count: u32, ends: Vec<u32>) -> Result<Rows, NoMemory>
    requires count { count ≡ length links.now }
    requires inside { (k : ℕ) → k < length links.now → (link_at links.now k).from + 1 < length ends.items }
    requires ends { AreRowEnds links.now ends.items }
    ensures places { IfOk result (λ rows. length rows + 1 ≡ length ends.items) }
    ensures rows { IfOk result (λ rows. AreRows links.now rows) }
{
    let mut offsets = ends;
    let mut entries = vec![in alloc; 0u32; count as usize]?;
    for k in 0..count {
        let from = links.link(k as usize).from as usize;
        let place = offsets[from] - 1;
        entries[place as usize] = k;
        offsets[from] = place;
    }
    Ok(Rows { offsets, entries })
}
