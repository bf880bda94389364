//! Sets of numbers.
ghost use Rattle.std.specs.Prelude.{◌≡◌, not, OnOk, OnErr, IfOk};
ghost use Rattle.std.specs.FinSet as fin;

use bl_base::NoMemory;
use std::alloc::Global;
use std::collections::BTreeSet;
use std::marker::Model;

/// A finite set of numbers. A call costs the logarithm of the set's size.
#[derive(Drop)]
pub(crate) struct NumberSet {
    numbers: BTreeSet<u64>,
}

impl Model for NumberSet {
    ghost use Rattle.std.specs.FinSet as fin;
    ghost use Rattle.std.specs.Ordering.{nat_cmp};
    ghost use Rattle.std.specs.Coded.{coded_ℕ};

    ghost Value = { fin.FinSet nat_cmp };

    ghost coded = { fin.code coded_ℕ };

    ghost view = { λ s. fin.from_list s.numbers.keys };
}

impl NumberSet {
    /// The empty set; takes no memory.
    pub(crate) fn new(alloc: Global) -> NumberSet
        ensures { result ≡ fin.empty }
    {
        NumberSet {
            numbers: BTreeSet::new(alloc),
        }
    }

    /// Adds a number, and answers whether it was absent. A refusal changes nothing.
    pub(crate) fn insert(&mut self, number: u64) -> Result<bool, NoMemory>
        ensures absent { IfOk result (λ added. added ≡ not (fin.contains self.old number)) }
        ensures added { OnOk result (self.new ≡ fin.insert self.old number) }
        ensures err { OnErr result (self.new ≡ self.old) }
    {
        let added = self.numbers.insert(number)?;
        Ok(added)
    }

    /// Whether the number is in the set; takes no memory.
    pub(crate) fn contains(&self, number: u64) -> bool
        ensures { result ≡ fin.contains self.now number }
    {
        self.numbers.contains(&number)
    }
}
