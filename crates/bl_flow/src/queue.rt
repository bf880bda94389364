//! Queues of parts.
ghost use Rattle.std.specs.Prelude.{◌≡◌, ◌<◌, ◌^◌, ◌++◌, ◌∷◌, [], if◌then◌else◌, length, slice_index, take, OnOk, OnErr};

use bl_base::NoMemory;
use std::alloc::Global;
use std::marker::Model;

/// How many parts there is room for more at a time: a page of memory.
const ROOM: usize = 1024;

/// Parts in the order in which they came in. Contracts see the list.
#[derive(Debug, Drop)]
pub struct Queue {
    /// The parts, and behind them room, whatever stands in it.
    parts: Vec<u32>,
    /// How many parts there are.
    len: usize,
}

impl Model for Queue {
    ghost use Rattle.std.specs.Prelude.{ℕ, List, ◌≤◌, length, take};

    ghost Value = { List ℕ };

    ghost view = { λ queue. take queue.len queue.parts.items };

    ghost invariant = { λ queue. queue.len ≤ length queue.parts.items };
}

impl Queue {
    /// No parts; takes no memory.
    pub fn new(alloc: Global) -> Queue
        ensures { result ≡ [] }
    {
        Queue {
            parts: Vec::new(alloc),
            len: 0,
        }
    }

    /// The number of parts.
    pub fn len(&self) -> usize
        ensures count { result ≡ length self.now }
        ensures small { result < 2 ^ 63 }
    {
        let _all = self.parts.len();
        self.len
    }

    /// The part at a place.
    pub fn part(&self, place: usize) -> u32
        requires { place < length self.now }
        ensures { result ≡ slice_index self.now place }
    {
        self.parts[place]
    }

    /// Takes all parts out, and keeps their memory.
    pub fn clear(&mut self)
        ensures { self.new ≡ [] }
    {
        self.len = 0;
    }

    /// Appends a part where the flag is set. It is written behind the end in both cases, and the flag moves the end: what
    /// the flag is can't be foreseen, and a branch on it would cost more than the write. A refusal leaves the list as it was.
    pub fn offer(&mut self, part: u32, is_in: bool) -> Result<(), NoMemory>
        ensures ok { OnOk result (self.new ≡ (if is_in then self.old ++ part ∷ [] else self.old)) }
        ensures err { OnErr result (self.new ≡ self.old) }
    {
        if self.len == self.parts.len() {
            lengthen(&mut self.parts, ROOM)?;
        }
        self.parts[self.len] = part;
        self.len += usize::from(is_in);
        Ok(())
    }
}

/// Appends room for so many parts.
#[cold]
#[inline(never)]
fn lengthen(parts: &mut Vec<u32>, room: usize) -> Result<(), NoMemory>
    requires some { 0 < room }
    requires small { room < 2 ^ 63 }
    ensures kept { OnOk result (take (length parts.old.items) parts.new.items ≡ parts.old.items) }
    ensures longer { OnOk result (length parts.old.items < length parts.new.items) }
    ensures err { OnErr result (parts.new.items ≡ parts.old.items) }
{
    let len = parts.len();
    parts.resize(len + room, 0)?;
    Ok(())
}
