//! A list that contracts see as a list.
ghost use Rattle.std.specs.Prelude.{◌≡◌, ◌↔◌, [], ◌∷◌, ◌++◌, length, IsTrue, OnOk, OnErr};

use crate::memory::NoMemory;
use std::alloc::Global;
use std::marker::Model;

/// Values in order. Contracts see the list of them; reserved room is not part of it.
#[derive(Debug, Drop)]
pub struct List<T> {
    cells: Vec<T>,
}

impl<T> Model for List<T> {
    ghost use Rattle.std.specs.Prelude.{List as Listed};

    ghost Value = { Listed T };

    ghost view = { λ l. l.cells.items };
}

impl<T> List<T> {
    /// The list without elements; takes no memory.
    pub fn new(alloc: Global) -> List<T>
        ensures { result ≡ [] }
    {
        List {
            cells: Vec::new(alloc),
        }
    }

    /// The list of a vector's elements; takes no memory.
    pub fn of(cells: Vec<T>) -> List<T>
        ensures { result ≡ cells.items }
    {
        List { cells }
    }

    /// The vector of the elements; takes no memory.
    pub fn into_vec(self) -> Vec<T>
        ensures { result.items ≡ self }
    {
        self.cells
    }

    /// The elements as a slice.
    pub fn as_slice(&self) -> &[T]
        ensures { result.now ≡ self.now }
    {
        &self.cells
    }

    /// The number of elements.
    pub fn len(&self) -> usize
        ensures { result ≡ length self.now }
    {
        self.cells.len()
    }

    /// Whether there are no elements.
    pub fn is_empty(&self) -> bool
        ensures { IsTrue result ↔ (self.now ≡ []) }
    {
        self.cells.is_empty()
    }
}

impl<T: Drop> List<T> {
    /// Appends an element. A refusal leaves the list as it was.
    pub fn push(&mut self, x: T) -> Result<(), NoMemory>
        ensures ok { OnOk result (self.new ≡ self.old ++ x ∷ []) }
        ensures err { OnErr result (self.new ≡ self.old) }
    {
        self.cells.push(x)?;
        Ok(())
    }
}
