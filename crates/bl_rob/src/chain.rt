//! The positions to which the open calls return.
ghost use Rattle.std.specs.Prelude.{◌≡◌, ◌≤◌, ◌<◌, [], ◌∷◌, suc, IfOk, OnErr, OnOk, length};
ghost use Rattle.bl_base.specs.Quantity.{most_calls};
ghost use Rattle.bl_seq.specs.FirstItems.{Taken};

use bl_base::NoMemory;
use std::alloc::Global;
use std::marker::Model;

/// The positions to which the open calls return, fewer than the most calls. Contracts see them as a list, the one of the innermost
/// call first.
#[derive(Debug, Drop)]
pub struct Chain {
    positions: Vec<u32>,
}

impl Model for Chain {
    ghost use Rattle.std.specs.Prelude.{◌<◌, ℕ, List, length, reverse};
    ghost use Rattle.bl_base.specs.Quantity.{most_calls};

    ghost Value = { List ℕ };

    ghost view = { λ chain. reverse chain.positions.items };

    ghost invariant = { λ chain. length chain.positions.items < most_calls };
}

impl Chain {
    /// No open call; takes no memory.
    pub fn new(alloc: Global) -> Chain
        ensures { result ≡ [] }
    {
        Chain {
            positions: Vec::new(alloc),
        }
    }

    /// The number of open calls, the run's own function included.
    pub fn depth(&self) -> u32
        ensures value { result ≡ suc (length self.now) }
        ensures few { result ≤ most_calls }
    {
        self.positions.len() as u32 + 1
    }

    /// Opens a call that will return to the position. A refusal leaves the chain as it was.
    pub fn open(&mut self, position: u32) -> Result<(), NoMemory>
        requires { suc (length self.old) < most_calls }
        ensures ok { OnOk result (self.new ≡ position ∷ self.old) }
        ensures err { OnErr result (self.new ≡ self.old) }
    {
        self.positions.push(position)?;
        Ok(())
    }

    /// Closes the innermost call, and gives the position to which it returns; None where no call is open.
    pub fn close(&mut self) -> Option<u32>
        ensures { Taken result self.old self.new }
    {
        self.positions.pop()
    }

    /// The same positions once more.
    pub fn copied(&self, alloc: Global) -> Result<Chain, NoMemory>
        ensures { IfOk result (λ chain. chain ≡ self.now) }
    {
        Ok(Chain {
            positions: self.positions.to_vec(alloc)?,
        })
    }
}
