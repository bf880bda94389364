//! A sink in memory, with a limit and with room that is reserved before.
ghost use Rattle.std.specs.Prelude.{◌≡◌, ◌<◌, ◌≤◌, ◌-◌, ◌++◌, [], ℕ, Option, Some, None, Ok, Err, max, length, take, IfOk, IfErr, OnOk, OnErr};
ghost use Rattle.bl_outside.specs.{Faults.one_more, Sink.PushFaults, Sink.after_push, MemorySink.accepted};

use crate::sink::{Sink, SinkFault};
use bl_base::NoMemory;
use std::alloc::Global;
use std::marker::Model;

/// The bytes that were pushed. A push takes as many bytes of its piece as both the limit and the
/// reserved room leave, and is a fault where they leave none of a piece that isn't empty. A narrow sink
/// takes no more than so many bytes at a push.
#[derive(Drop)]
pub struct MemorySink {
    taken: Vec<u8>,
    limit: Option<u64>,
    most: Option<u64>,
    room: u64,
    faults: u64,
}

impl Model for MemorySink {
    ghost use Rattle.std.specs.Prelude.{◌+◌, ◌≤◌, length, vec_capacity};
    ghost use Rattle.bl_outside.specs.MemorySink.{SinkState};

    ghost Value = { SinkState };

    ghost view = { λ s. record { taken = s.taken.items; limit = s.limit; most = s.most; room = s.room; faults = s.faults } };

    ghost invariant = { λ s. length s.taken.items + s.room ≤ vec_capacity s.taken };
}

impl MemorySink {
    /// A sink that has taken nothing and has no room, which takes at most that many bytes in all; None
    /// sets no limit. Takes no memory.
    pub fn new(alloc: Global, limit: Option<u64>) -> MemorySink
        ensures { result ≡ record { taken = []; limit = limit; most = None; room = 0; faults = 0 } }
    {
        MemorySink {
            taken: Vec::new(alloc),
            limit,
            most: None,
            room: 0,
            faults: 0,
        }
    }

    /// The same, but a push takes at most `most` bytes. Takes no memory.
    pub fn narrow(alloc: Global, most: u64, limit: Option<u64>) -> MemorySink
        requires { 0 < most }
        ensures { result ≡ record { taken = []; limit = limit; most = Some most; room = 0; faults = 0 } }
    {
        MemorySink {
            taken: Vec::new(alloc),
            limit,
            most: Some(most),
            room: 0,
            faults: 0,
        }
    }

    /// Makes room for n bytes beyond those taken, unless there is more already. A refusal changes
    /// nothing.
    pub fn reserve(&mut self, n: u64) -> Result<(), NoMemory>
        ensures ok { OnOk result (self.new ≡ record self.old { room = max self.old.room n }) }
        ensures err { OnErr result (self.new ≡ self.old) }
    {
        self.taken.reserve(n as usize)?;
        self.room = self.room.max(n);
        Ok(())
    }

    /// The bytes taken so far; takes no memory.
    pub fn bytes(&self) -> &[u8]
        ensures { result.now ≡ self.now.taken }
    {
        &self.taken
    }

    fn accepted_of(&self, count: usize) -> usize
        ensures { result ≡ accepted self.now count }
    {
        let room = self.room.min(count as u64);
        let most = match self.most {
            Some(most) => room.min(most),
            None => room,
        };
        let count = match self.limit {
            Some(limit) => most.min(limit.saturating_sub(self.taken.len() as u64)),
            None => most,
        };
        count as usize
    }
}

impl Sink for MemorySink {
    ghost taken = { λ s. Some s.taken };

    ghost faults = { λ s. s.faults };

    fn push(&mut self, piece: &[u8]) -> Result<usize, SinkFault>
        ensures bound { IfOk result (λ n. n ≤ length piece.now) }
        ensures some { IfOk result (λ n. 0 < length piece.now → 0 < n) }
        ensures taken { Some self.new.taken ≡ after_push result (Some self.old.taken) piece.now }
        ensures faults { PushFaults result self.old.faults self.new.faults }

        // How much is taken, when a push is a fault, and what is left.
        ensures count { IfOk result (λ n. n ≡ accepted self.old (length piece.now)) }
        ensures fault { IfErr result (λ e. (0 < length piece.now) × (accepted self.old (length piece.now) ≡ 0)) }
        ensures ok { IfOk result (λ n. self.new ≡ record self.old { taken = self.old.taken ++ take n piece.now; room = self.old.room - n }) }
        ensures err { OnErr result (self.new ≡ record self.old { faults = one_more self.old.faults }) }
    {
        let count = self.accepted_of(piece.len());
        if count == 0 && !piece.is_empty() {
            self.faults = self.faults.saturating_add(1);
            return Err(SinkFault);
        }
        if self.taken.extend_from_slice(&piece[..count]).is_err() {
            unreachable!()
        }
        self.room -= count as u64;
        Ok(count)
    }
}
