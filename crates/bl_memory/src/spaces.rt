//! The memories of a run.
ghost use Rattle.std.specs.Prelude.{◌≡◌, ◌+◌, ◌^◌, ◌<◌, ◌≤◌, [], IfOk, IsTrue, OnOk, length, map, nat_le, set};
ghost use Rattle.std.specs.List.{All};
ghost use Rattle.bl_base.specs.{Bytes.write, Runs.memory_of};
ghost use Rattle.bl_ops.specs.Access.{width_of};
ghost use Rattle.bl_reduce.specs.{Memory.grow, Outcomes.first_memory};
ghost use Rattle.bl_wasm.specs.Linked.{IsMemory};
ghost use Rattle.bl_memory.specs.Spaces.{loaded_at, patched_all, patched_once, space_at, stored_at};

use bl_base::{List, NoMemory, Pages, Patch};
use bl_bytes::{Bytes, Space};
use bl_ops::AccessKind;
use bl_wasm::Memory;
use std::alloc::Global;
use std::marker::Model;

/// Memories by their numbers. Where there is no memory of a number, it is as if there were one without a page.
#[derive(Debug, Drop)]
pub struct Spaces {
    cells: Vec<Space>,
}

impl Model for Spaces {
    ghost use Rattle.std.specs.Prelude.{List};
    ghost use Rattle.bl_base.specs.Runs.{MemoryState};

    ghost Value = { List MemoryState };

    ghost view = { λ spaces. spaces.cells.items };
}

impl Spaces {
    /// The first contents of a tree's memories. Linear in their bytes.
    pub fn of(alloc: Global, memories: &[Memory]) -> Result<Spaces, NoMemory>
        requires { All IsMemory memories.now }
        ensures { IfOk result (λ spaces. spaces ≡ map first_memory memories.now) }
    {
        let mut cells = Vec::new(alloc);
        for memory in memories {
            let bytes = Bytes::copy_of(alloc, memory.bytes.as_slice())?;
            cells.push(Space::of(memory.pages, bytes))?;
        }
        Ok(Spaces { cells })
    }

    /// The memories as they are told, in order.
    pub fn into_pages(self, alloc: Global) -> Result<List<Pages>, NoMemory>
        ensures { IfOk result (λ pages. map memory_of pages ≡ self) }
    {
        let mut cells = self.cells;
        let mut pages = Vec::new(alloc);
        while let Some(space) = cells.pop() {
            pages.push(space.into_pages())?;
        }
        pages.reverse();
        Ok(List::of(pages))
    }

    /// The pages of a memory.
    pub fn pages(&self, number: usize) -> u32
        ensures { result ≡ (space_at number self.now).pages }
    {
        match self.cells.get(number) {
            Some(space) => space.pages(),
            None => 0,
        }
    }

    /// The number of bytes of a memory.
    fn len(&self, number: usize) -> usize
        ensures value { result ≡ length (space_at number self.now).bytes }
        ensures small { result < 2 ^ 63 }
    {
        match self.cells.get(number) {
            Some(space) => space.len(),
            None => 0,
        }
    }

    /// Whether so many bytes from an effective address on, which isn't taken modulo anything, are in a memory.
    pub fn has_room(&self, number: usize, address: u64, offset: u32, count: u64) -> bool
        ensures value { result ≡ nat_le (address + offset + count) (length (space_at number self.now).bytes) }
        ensures small { IsTrue result → address + offset + count < 2 ^ 63 }
    {
        let len = self.len(number) as u64;
        let offset = u64::from(offset);
        address <= len && offset <= len - address && count <= len - address - offset
    }

    /// What a load takes from a place of a memory.
    pub fn load(&self, number: usize, kind: AccessKind, from: usize) -> u64
        requires { from + width_of kind ≤ length (space_at number self.now).bytes }
        ensures { result ≡ loaded_at kind from (space_at number self.now) }
    {
        match self.cells.get(number) {
            Some(space) => space.load(kind, from),
            None => 0,
        }
    }

    /// Stores a value at a place of a memory, where there is room for it.
    pub fn store(&mut self, number: usize, kind: AccessKind, from: usize, value: u64)
        requires { from + width_of kind ≤ length (space_at number self.old).bytes }
        ensures { self.new ≡ set self.old number (stored_at kind from value (space_at number self.old)) }
    {
        if number < self.cells.len() {
            self.cells[number].store(kind, from, value);
        }
    }

    /// Appends so many pages of zeros to a memory.
    pub fn grow(&mut self, number: usize, delta: u32) -> Result<(), NoMemory>
        requires { (space_at number self.old).pages + delta < 2 ^ 32 }
        ensures { OnOk result (self.new ≡ set self.old number (grow (space_at number self.old) delta)) }
    {
        if number < self.cells.len() {
            self.cells[number].grow(delta)?;
        }
        Ok(())
    }

    /// Writes patches, in order. Linear in their bytes.
    pub fn patch(&mut self, patches: &[Patch])
        ensures { self.new ≡ patched_all self.old patches.now }
    {
        for patch in patches {
            self.patch_once(patch);
        }
    }

    /// Writes a patch, where there is room for it.
    fn patch_once(&mut self, patch: &Patch)
        ensures { self.new ≡ patched_once self.old patch.now }
    {
        let number = patch.memory as usize;
        let new = patch.bytes.as_slice();
        if self.has_room(number, 0, patch.offset, new.len() as u64) {
            self.overlay(number, patch.offset as usize, new);
        }
    }

    /// Writes bytes over those from a place of a memory on, where there is room for them.
    fn overlay(&mut self, number: usize, from: usize, new: &[u8])
        requires { from + length new.now ≤ length (space_at number self.old).bytes }
        ensures { self.new ≡ set self.old number (write (space_at number self.old) from new.now) }
    {
        if number < self.cells.len() {
            self.cells[number].overlay(from, new);
        }
    }
}
