//! A memory: pages of bytes.
ghost use Rattle.std.specs.Prelude.{◌≡◌, ◌+◌, ◌*◌, ◌^◌, ◌<◌, ◌≤◌, ◌++◌, OnOk, length, replicate};
ghost use Rattle.bl_base.specs.{Bytes.bytes_of, Bytes.write, Runs.memory_of};
ghost use Rattle.bl_ops.specs.Access.{narrowed, width_of};
ghost use Rattle.bl_bytes.specs.Overlays.{loaded};

use crate::bytes::Bytes;
use bl_base::{NoMemory, Pages};
use bl_ops::AccessKind;
use std::marker::Model;

/// The bytes of a page.
const PAGE: usize = 65_536;

/// A memory: its pages and exactly their bytes.
#[derive(Debug, Drop)]
pub struct Space {
    pages: u32,
    bytes: Bytes,
}

impl Model for Space {
    ghost use Rattle.std.specs.Prelude.{◌≡◌, ◌*◌, length};
    ghost use Rattle.bl_base.specs.Runs.{MemoryState};

    ghost Value = { MemoryState };

    ghost view = { λ space. record { pages = space.pages; bytes = space.bytes } };

    ghost invariant = { λ space. length space.bytes ≡ space.pages * 65536 };
}

impl Space {
    /// A memory of so many pages with their bytes.
    pub fn of(pages: u32, bytes: Bytes) -> Space
        requires { length bytes ≡ pages * 65536 }
        ensures { result ≡ record { pages = pages; bytes = bytes } }
    {
        Space { pages, bytes }
    }

    /// The memory as it is told; takes no memory.
    pub fn into_pages(self) -> Pages
        ensures { memory_of result ≡ self }
    {
        Pages {
            pages: self.pages,
            bytes: self.bytes.into_text(),
        }
    }

    /// The number of pages.
    pub fn pages(&self) -> u32
        ensures { result ≡ self.now.pages }
    {
        self.pages
    }

    /// The number of bytes.
    pub fn len(&self) -> usize
        ensures value { result ≡ length self.now.bytes }
        ensures small { result < 2 ^ 63 }
    {
        self.bytes.len()
    }

    /// The bytes.
    pub fn as_slice(&self) -> &[u8]
        ensures { result.now ≡ self.now.bytes }
    {
        self.bytes.as_slice()
    }

    /// What a load takes from a place on (WebAssembly 1.0, section 4.4.4).
    pub fn load(&self, kind: AccessKind, from: usize) -> u64
        requires { from + width_of kind ≤ length self.now.bytes }
        ensures { result ≡ loaded kind self.now.bytes from }
    {
        let _len = self.bytes.len();
        if kind.is_load() {
            return self.bytes.load(kind, from);
        }
        self.bytes.number(kind, from)
    }

    /// Stores a value from a place on, where there is room for it (section 4.4.4).
    pub fn store(&mut self, kind: AccessKind, from: usize, value: u64)
        requires { from + width_of kind ≤ length self.old.bytes }
        ensures { self.new ≡ write self.old from (bytes_of (width_of kind) (narrowed kind value)) }
    {
        let _len = self.bytes.len();
        self.bytes.store(kind, from, value);
    }

    /// Writes bytes over those from a place on, where there is room for them.
    pub fn overlay(&mut self, from: usize, new: &[u8])
        requires { from + length new.now ≤ length self.old.bytes }
        ensures { self.new ≡ write self.old from new.now }
    {
        let _len = self.bytes.len();
        self.bytes.overlay(from, new);
    }

    /// Appends so many pages of zeros.
    pub fn grow(&mut self, delta: u32) -> Result<(), NoMemory>
        requires { self.old.pages + delta < 2 ^ 32 }
        ensures { OnOk result (self.new ≡ record { pages = self.old.pages + delta; bytes = self.old.bytes ++ replicate (delta * 65536) 0 }) }
    {
        self.bytes.push_zeros(delta as usize * PAGE)?;
        self.pages += delta;
        Ok(())
    }
}
