//! The positions to which the open calls return.
ghost use Rattle.std.specs.Prelude.{◌≡◌, [], ◌∷◌, length, OnErr, OnOk};
ghost use Rattle.bl_seq.specs.FirstItems.{Taken};

use bl_base::NoMemory;
use std::alloc::Global;
use std::marker::Model;

/// The positions to which the open calls return. Contracts see them as a list, the one of the innermost call first.
#[derive(Debug, Drop)]
pub struct Chain {
    positions: Vec<usize>,
}

impl Model for Chain {
    ghost use Rattle.std.specs.Prelude.{ℕ, List, reverse};

    ghost Value = { List ℕ };

    ghost view = { λ chain. reverse chain.positions.items };
}

impl Chain {
    /// No open call; takes no memory.
    pub fn new(alloc: Global) -> Chain
        ensures { result ≡ [] }
    {
        Chain {
            positions: Vec::new(alloc),
        }
    }

    /// The number of open calls.
    pub fn len(&self) -> usize
        ensures { result ≡ length self.now }
    {
        self.positions.len()
    }

    /// Opens a call that will return to the position. A refusal leaves the chain as it was.
    pub fn open(&mut self, position: usize) -> Result<(), NoMemory>
        ensures ok { OnOk result (self.new ≡ position ∷ self.old) }
        ensures err { OnErr result (self.new ≡ self.old) }
    {
        self.positions.push(position)?;
        Ok(())
    }

    /// Closes the innermost call, and gives the position to which it returns; None where no call is open.
    pub fn close(&mut self) -> Option<usize>
        ensures { Taken result self.old self.new }
    {
        self.positions.pop()
    }
}
