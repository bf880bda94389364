//! Sets of sites.
ghost use Rattle.std.specs.Prelude.{◌≡◌, ◌||◌, ◌==◌, ℕ, get_or, false, not, OnOk, OnErr, IfOk};
ghost use Rattle.std.specs.FinSet as fin;

use crate::memory::NoMemory;
use crate::number::Pos;
use std::alloc::Global;
use std::collections::BTreeSet;
use std::marker::Model;

/// A finite set of positions. A call on a position below 1,048,576, as all of a program are, takes the same time at every size of the
/// set: each position up to the greatest of those has a mark, one byte. Any other costs the logarithm of the set's size.
#[derive(Drop)]
pub struct SiteSet {
    near: Vec<bool>,
    far: BTreeSet<u32>,
}

impl Model for SiteSet {
    ghost use Rattle.std.specs.FinSet as fin;
    ghost use Rattle.std.specs.Ordering.{nat_cmp};
    ghost use Rattle.std.specs.Coded.{coded_ℕ};
    ghost use Rattle.bl_base.specs.Sites.{places};

    ghost Value = { fin.FinSet nat_cmp };

    ghost coded = { fin.code coded_ℕ };

    ghost view = { λ s. fin.union (places s.near.items) (fin.from_list s.far.keys) };
}

/// The positions below it have marks.
const NEAR: u32 = 0x10_0000;

impl SiteSet {
    /// The empty set; takes no memory.
    pub fn new(alloc: Global) -> SiteSet
        ensures { result ≡ fin.empty }
    {
        SiteSet {
            near: Vec::new(alloc),
            far: BTreeSet::new(alloc),
        }
    }

    /// Adds a position, and answers whether it was absent. A refusal changes nothing.
    pub fn insert(&mut self, p: Pos) -> Result<bool, NoMemory>
        ensures absent { IfOk result (λ added. added ≡ not (fin.contains self.old p.0)) }
        ensures added { OnOk result (self.new ≡ fin.insert self.old p.0) }
        ensures err { OnErr result (self.new ≡ self.old) }
    {
        let absent = !self.contains(p);
        if p.0 < NEAR {
            mark(&mut self.near, p.0)?;
        } else {
            self.far.insert(p.0)?;
        }
        Ok(absent)
    }

    /// Whether the position is in the set; takes no memory.
    pub fn contains(&self, p: Pos) -> bool
        ensures { result ≡ fin.contains self.now p.0 }
    {
        is_marked(&self.near, p.0 as usize) || self.far.contains(&p.0)
    }
}

/// Whether the place is marked.
fn is_marked(marks: &[bool], at: usize) -> bool
    ensures { result ≡ get_or marks.now at false }
{
    at < marks.len() && marks[at]
}

/// Marks a place. A refusal changes nothing.
fn mark(marks: &mut Vec<bool>, at: u32) -> Result<(), NoMemory>
    ensures marked { OnOk result ((q : ℕ) → get_or marks.new.items q false ≡ ((q == at) || get_or marks.old.items q false)) }
    ensures err { OnErr result (marks.new.items ≡ marks.old.items) }
{
    let at = at as usize;
    if at >= marks.len() {
        marks.resize(at + 1, false)?;
    }
    marks[at] = true;
    Ok(())
}
