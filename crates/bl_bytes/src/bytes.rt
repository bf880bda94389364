//! Bytes of memories.
ghost use Rattle.std.specs.Prelude.{◌≡◌, ◌+◌, ◌*◌, ◌%◌, ◌^◌, ◌<◌, ◌++◌, [], IfOk, IsTrue, OnErr, OnOk, drop, length, replicate, set, slice_index, take};
ghost use Rattle.bl_base.specs.Bytes.{number_of};
ghost use Rattle.bl_ops.specs.Access.{is_load, width_of};
ghost use Rattle.bl_bytes.specs.Overlays.{loaded, overlay, stored};

use bl_base::{NoMemory, Text};
use bl_ops::{AccessKind, extend, narrow};
use std::alloc::Global;
use std::marker::Model;

/// Bytes, of which those past the end are read as 0 and not written.
#[derive(Debug, Drop)]
pub struct Bytes {
    cells: Vec<u8>,
}

impl Model for Bytes {
    ghost use Rattle.std.specs.Prelude.{ℕ, List};

    ghost Value = { List ℕ };

    ghost view = { λ bytes. bytes.cells.items };
}

impl Bytes {
    /// No byte; takes no memory.
    pub fn new(alloc: Global) -> Bytes
        ensures { result ≡ [] }
    {
        Bytes {
            cells: Vec::new(alloc),
        }
    }

    /// A copy of bytes.
    pub fn copy_of(alloc: Global, bytes: &[u8]) -> Result<Bytes, NoMemory>
        ensures { IfOk result (λ copy. copy ≡ bytes.now) }
    {
        let cells = bytes.to_vec(alloc)?;
        Ok(Bytes { cells })
    }

    /// The number of bytes.
    pub fn len(&self) -> usize
        ensures value { result ≡ length self.now }
        ensures small { result < 2 ^ 63 }
    {
        self.cells.len()
    }

    /// The bytes.
    pub fn as_slice(&self) -> &[u8]
        ensures { result.now ≡ self.now }
    {
        &self.cells
    }

    /// The bytes, as a text; takes no memory.
    pub fn into_text(self) -> Text
        ensures { result ≡ self }
    {
        Text::of(self.cells)
    }

    /// A copy of so many bytes from a place on, or of those that there are.
    #[tactic(auto, using(crate::proofs::OverlayLemmas::part_is))]
    pub fn part(&self, alloc: Global, from: usize, count: usize) -> Result<Text, NoMemory>
        ensures { IfOk result (λ text. text ≡ take count (drop from self.now)) }
    {
        let from = from.min(self.cells.len());
        let count = count.min(self.cells.len() - from);
        Text::copy_of(alloc, &self.cells[from..from + count])
    }

    /// Appends so many zeros. A refusal leaves the bytes as they were.
    pub fn push_zeros(&mut self, count: usize) -> Result<(), NoMemory>
        ensures ok { OnOk result (self.new ≡ self.old ++ replicate count 0) }
        ensures err { OnErr result (self.new ≡ self.old) }
    {
        let Some(len) = self.cells.len().checked_add(count) else {
            return Err(NoMemory);
        };
        self.cells.resize(len, 0)?;
        Ok(())
    }

    /// Appends bytes.
    pub fn push_all(&mut self, bytes: &[u8]) -> Result<(), NoMemory>
        ensures { OnOk result (self.new ≡ self.old ++ bytes.now) }
    {
        self.cells.extend_from_slice(bytes)?;
        Ok(())
    }

    /// Changes the byte at a place.
    fn put(&mut self, place: usize, byte: u8)
        ensures { self.new ≡ set self.old place byte }
    {
        if place < self.cells.len() {
            self.cells[place] = byte;
        }
    }

    /// Writes bytes over those from a place on.
    pub fn overlay(&mut self, from: usize, bytes: &[u8])
        requires { from + length bytes.now < 2 ^ 64 }
        ensures { self.new ≡ overlay from bytes.now self.old }
    {
        for (i, byte) in bytes.iter().enumerate() {
            self.put(from + i, *byte);
        }
    }

    // ---- loads

    /// The byte at a place.
    fn byte(&self, place: usize) -> u64
        ensures value { result ≡ slice_index self.now place }
        ensures small { result < 2 ^ 8 }
    {
        match self.cells.get(place) {
            Some(byte) => u64::from(*byte),
            None => 0,
        }
    }

    /// One byte from a place on, as a number.
    fn one(&self, from: usize) -> u64
        ensures value { result ≡ number_of (take 1 (drop from self.now)) }
        ensures small { result < 2 ^ 8 }
    {
        self.byte(from)
    }

    /// Two bytes from a place on, as a number.
    #[tactic(auto, using(bl_base::proofs::ByteLemmas::two_is))]
    fn two(&self, from: usize) -> u64
        requires { from + 2 < 2 ^ 64 }
        ensures value { result ≡ number_of (take 2 (drop from self.now)) }
        ensures small { result < 2 ^ 16 }
    {
        self.one(from) + 0x100 * self.one(from + 1)
    }

    /// Four bytes from a place on, as a number.
    #[tactic(auto, using(bl_base::proofs::ByteLemmas::four_is))]
    fn four(&self, from: usize) -> u64
        requires { from + 4 < 2 ^ 64 }
        ensures value { result ≡ number_of (take 4 (drop from self.now)) }
        ensures small { result < 2 ^ 32 }
    {
        self.two(from) + 0x1_0000 * self.two(from + 2)
    }

    /// Eight bytes from a place on, as a number.
    #[tactic(auto, using(bl_base::proofs::ByteLemmas::eight_is))]
    fn eight(&self, from: usize) -> u64
        requires { from + 8 < 2 ^ 64 }
        ensures { result ≡ number_of (take 8 (drop from self.now)) }
    {
        self.four(from) + 0x1_0000_0000 * self.four(from + 4)
    }

    /// So many bytes from a place on, as a number, where an access of that kind has that width.
    pub fn number(&self, kind: AccessKind, from: usize) -> u64
        requires { from + 8 < 2 ^ 64 }
        ensures value { result ≡ number_of (take (width_of kind) (drop from self.now)) }
        ensures small { result < 2 ^ (8 * width_of kind) }
    {
        match kind.width() {
            1 => self.one(from),
            2 => self.two(from),
            4 => self.four(from),
            _ => self.eight(from),
        }
    }

    /// What a load takes from a place on (WebAssembly 1.0, section 4.4.4).
    pub fn load(&self, kind: AccessKind, from: usize) -> u64
        requires place { from + 8 < 2 ^ 64 }
        requires load { IsTrue (is_load kind) }
        ensures { result ≡ loaded kind self.now from }
    {
        extend(kind, self.number(kind, from))
    }

    // ---- stores

    /// Stores a value from a place on (WebAssembly 1.0, section 4.4.4).
    pub fn store(&mut self, kind: AccessKind, from: usize, value: u64)
        requires { from + 8 < 2 ^ 64 }
        ensures { self.new ≡ stored kind from value self.old }
    {
        let mut rest = narrow(kind, value);
        for i in 0..usize::from(kind.width()) {
            self.put(from + i, (rest % 256) as u8);
            rest /= 256;
        }
    }
}
