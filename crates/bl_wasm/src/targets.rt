//! The labels of a `br_table`.
ghost use Rattle.std.specs.Prelude.{◌≡◌, length, IfOk};

use bl_base::{List, NoMemory};
use std::alloc::Global;
use std::marker::Model;

/// The labels of a `br_table` by index, which contracts see as their list. They stand behind one pointer: a body is a
/// long list of items, and so a seldom item with a list in it doesn't make each of the others larger.
#[derive(Debug, Drop)]
pub struct Targets {
    labels: Box<List<u32>>,
}

impl Model for Targets {
    ghost use Rattle.std.specs.Prelude.{ℕ, List as Listed};

    ghost Value = { Listed ℕ };

    ghost view = { λ t. t.labels.value };
}

impl Targets {
    /// The targets of those labels.
    ///
    /// # Errors
    ///
    /// `NoMemory` where there is no memory for the pointer's place.
    pub fn of(alloc: Global, labels: List<u32>) -> Result<Targets, NoMemory>
        ensures { IfOk result (λ targets. targets ≡ labels) }
    {
        let labels = Box::new(alloc, labels)?;
        Ok(Targets { labels })
    }

    /// The labels as a slice.
    pub fn as_slice(&self) -> &[u32]
        ensures { result.now ≡ self.now }
    {
        self.labels.as_slice()
    }

    /// The number of labels.
    pub fn len(&self) -> usize
        ensures { result ≡ length self.now }
    {
        self.labels.len()
    }
}
