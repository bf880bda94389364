//! A shelf in memory, whose calls fail by their numbers.
ghost use Rattle.std.specs.Prelude.{◌≡◌, ◌+◌, ◌≤◌, ◌⊎◌, ◌↔◌, [], None, Some, IsErr, IsTrue, IfOk, OnOk, OnErr, length, take, drop};
ghost use Rattle.std.specs.FinMap as fin;
ghost use Rattle.std.specs.Option.{option_map};
ghost use Rattle.bl_outside.specs.Shelf.{FetchFaults, KeepFaults, ReadFails, WriteFails, Gives, GivesPart, most_asked, with_file};
ghost use Rattle.bl_outside.specs.Faults.{one_more};
ghost use Rattle.bl_outside.specs.MemoryShelf.{NextFails, after_fetch, after_keep};

use crate::shelf::{Shelf, ShelfError};
use bl_base::{List, NoMemory, Text};
use std::alloc::Global;
use std::collections::BTreeMap;
use std::marker::Model;

/// Files in an ordered map. The calls of `fetch`, `part` and `keep` are numbered together from 1, and those
/// whose numbers are in a list fail. The number of a call stays at 2^64 - 1 once it is there.
#[derive(Drop)]
pub struct MemoryShelf {
    alloc: Global,
    entries: BTreeMap<String, Vec<u8>>,
    failing: List<u64>,
    calls: u64,
    reads: u64,
    writes: u64,
    last: Text,
}

impl Model for MemoryShelf {
    ghost use Rattle.std.specs.Prelude.{map};
    ghost use Rattle.std.specs.FinMap as fin;
    ghost use Rattle.bl_outside.specs.MemoryShelf.{Shelved, shelved_code, named};

    ghost Value = { Shelved };

    ghost coded = { shelved_code };

    ghost view = { λ s. record {
      files = fin.from_entries (map named s.entries.entries);
      faults = record { reads = s.reads; writes = s.writes; last = s.last };
      calls = s.calls;
      failing = s.failing;
    } };
}

impl MemoryShelf {
    /// A shelf without entries, of which the calls with these numbers fail; takes no memory.
    pub fn new(alloc: Global, fail: List<u64>) -> MemoryShelf
        ensures { result ≡ record { files = fin.empty; faults = record { reads = 0; writes = 0; last = [] }; calls = 0; failing = fail } }
    {
        MemoryShelf {
            alloc,
            entries: BTreeMap::new(alloc),
            failing: fail,
            calls: 0,
            reads: 0,
            writes: 0,
            last: Text::of(Vec::new(alloc)),
        }
    }

    /// Makes the entry of that name new before a run, and leaves every other entry. It is not numbered
    /// among the calls. A refusal leaves the map unchanged.
    pub fn put(&mut self, name: &str, bytes: &[u8]) -> Result<(), NoMemory>
        ensures ok { OnOk result (self.new ≡ record self.old { files = fin.insert self.old.files name.now bytes.now }) }
        ensures err { OnErr result (self.new ≡ self.old) }
    {
        let key = String::from_str(self.alloc, name)?;
        let value = bytes.to_vec(self.alloc)?;
        self.entries.insert(key, value)?;
        Ok(())
    }

    /// The bytes of the entry of that name; None exactly where there is none. Takes no memory.
    #[tactic(auto, using(crate::proofs::Shelves::files))]
    pub fn entry(&self, name: &str) -> Option<&[u8]>
        ensures { option_map (λ bytes. bytes.now) result ≡ fin.get self.now.files name.now }
    {
        match self.entries.get(name) {
            Some(bytes) => Some(bytes),
            None => None,
        }
    }

    /// Counts a call, and says whether it is one of those that fail.
    fn next_call(&mut self) -> bool
        ensures shelf { self.new ≡ record self.old { calls = one_more self.old.calls } }
        ensures fails { IsTrue result ↔ NextFails self.old }
    {
        self.calls = self.calls.saturating_add(1);
        self.failing.as_slice().contains(&self.calls)
    }

    /// Counts a read fault at that name.
    fn count_read_fault(&mut self, name: Text)
        ensures fault { ReadFails self.old.faults self.new.faults name }
        ensures shelf { self.new ≡ record self.old { faults = record { reads = one_more self.old.faults.reads; writes = self.old.faults.writes; last = name } } }
    {
        self.reads = self.reads.saturating_add(1);
        self.last = name;
    }

    /// Counts a write fault at that name.
    fn count_write_fault(&mut self, name: Text)
        ensures fault { WriteFails self.old.faults self.new.faults name }
        ensures shelf { self.new ≡ record self.old { faults = record { reads = self.old.faults.reads; writes = one_more self.old.faults.writes; last = name } } }
    {
        self.writes = self.writes.saturating_add(1);
        self.last = name;
    }
}

/// A copy of the bytes from a place on, at most so many; none where they end there or before.
fn piece_of(alloc: Global, bytes: &[u8], from: u64, most: u64) -> Result<Vec<u8>, ShelfError>
    ensures ok { IfOk result (λ piece. piece.items ≡ take most (drop from bytes.now)) }
    ensures err { OnErr result (result ≡ Err ShelfError.Memory) }
{
    let from = from.min(bytes.len() as u64) as usize;
    let rest = &bytes[from..];
    let count = most.min(rest.len() as u64) as usize;
    match rest[..count].to_vec(alloc) {
        Ok(piece) => Ok(piece),
        Err(_) => Err(ShelfError::Memory),
    }
}

impl Shelf for MemoryShelf {
    ghost files = { λ s. Some s.files };

    ghost faults = { λ s. s.faults };

    fn fetch(&mut self, name: &str, most: u64) -> Result<Vec<u8>, ShelfError>
        requires asked { most ≤ most_asked }
        ensures bound { IfOk result (λ bytes. length bytes.items ≤ most + 1) }
        ensures found { IfOk result (λ bytes. Gives (Some self.old.files) name.now most bytes.items) }
        ensures files { Some self.new.files ≡ Some self.old.files }
        ensures faults { FetchFaults result self.old.faults self.new.faults name.now }

        // The whole shelf after the call, and when it fails.
        ensures shelf { self.new ≡ after_fetch result self.old name.now }
        ensures failed { result ≡ Err ShelfError.Failed → NextFails self.old ⊎ (fin.get self.old.files name.now ≡ None) }
        ensures fails { NextFails self.old → IsErr result }
    {
        let fails = self.next_call();
        let noted = Text::copy_of(self.alloc, name.as_bytes())?;
        if !fails {
            if let Some(bytes) = self.entry(name) {
                return piece_of(self.alloc, bytes, 0, most + 1);
            }
        }
        self.count_read_fault(noted);
        Err(ShelfError::Failed)
    }

    fn part(&mut self, name: &str, from: u64, most: u64) -> Result<Vec<u8>, ShelfError>
        ensures bound { IfOk result (λ bytes. length bytes.items ≤ most) }
        ensures found { IfOk result (λ bytes. GivesPart (Some self.old.files) name.now from most bytes.items) }
        ensures files { Some self.new.files ≡ Some self.old.files }
        ensures faults { FetchFaults result self.old.faults self.new.faults name.now }

        // The whole shelf after the call, and when it fails.
        ensures shelf { self.new ≡ after_fetch result self.old name.now }
        ensures failed { result ≡ Err ShelfError.Failed → NextFails self.old ⊎ (fin.get self.old.files name.now ≡ None) }
        ensures fails { NextFails self.old → IsErr result }
    {
        let fails = self.next_call();
        let noted = Text::copy_of(self.alloc, name.as_bytes())?;
        if !fails {
            if let Some(bytes) = self.entry(name) {
                return piece_of(self.alloc, bytes, from, most);
            }
        }
        self.count_read_fault(noted);
        Err(ShelfError::Failed)
    }

    fn keep(&mut self, name: &str, bytes: &[u8]) -> Result<(), ShelfError>
        ensures kept { OnOk result (Some self.new.files ≡ with_file (Some self.old.files) name.now bytes.now) }
        ensures refused { OnErr result (Some self.new.files ≡ Some self.old.files) }
        ensures faults { KeepFaults result self.old.faults self.new.faults name.now }

        // The whole shelf after the call, and when it fails.
        ensures shelf { self.new ≡ after_keep result self.old name.now bytes.now }
        ensures failed { result ≡ Err ShelfError.Failed → NextFails self.old }
        ensures fails { NextFails self.old → IsErr result }
    {
        let fails = self.next_call();
        let noted = Text::copy_of(self.alloc, name.as_bytes())?;
        if fails {
            self.count_write_fault(noted);
            return Err(ShelfError::Failed);
        }
        self.put(name, bytes)?;
        Ok(())
    }
}
