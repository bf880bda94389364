//! A stack that contracts see as a list, the lowest element first.
ghost use Rattle.std.specs.Prelude.{◌≡◌, ◌+◌, ◌-◌, [], ◌∷◌, ◌++◌, length, take, drop, set, slice_index_or, OnOk};

use bl_base::NoMemory;
use std::alloc::Global;
use std::marker::Model;

/// Values on one another. Contracts see them as a list, the lowest first; reserved room is not part of it.
#[derive(Debug, Drop)]
pub struct Stack<T> {
    cells: Vec<T>,
}

impl<T> Model for Stack<T> {
    ghost use Rattle.std.specs.Prelude.{List as Listed};

    ghost Value = { Listed T };

    ghost view = { λ s. s.cells.items };
}

impl<T: Copy + Drop> Stack<T> {
    /// The stack without elements; takes no memory.
    pub fn new(alloc: Global) -> Stack<T>
        ensures { result ≡ [] }
    {
        Stack {
            cells: Vec::new(alloc),
        }
    }

    /// The vector of the elements, the lowest first; takes no memory.
    pub fn into_vec(self) -> Vec<T>
        ensures { result.items ≡ self }
    {
        self.cells
    }

    /// The number of elements.
    pub fn len(&self) -> usize
        ensures { result ≡ length self.now }
    {
        self.cells.len()
    }

    /// Puts an element on top.
    pub fn push(&mut self, x: T) -> Result<(), NoMemory>
        ensures { OnOk result (self.new ≡ self.old ++ x ∷ []) }
    {
        self.cells.push(x)?;
        Ok(())
    }

    /// Puts elements on top, the last one topmost.
    pub fn push_all(&mut self, xs: &[T]) -> Result<(), NoMemory>
        ensures { OnOk result (self.new ≡ self.old ++ xs.now) }
    {
        self.cells.extend_from_slice(xs)?;
        Ok(())
    }

    /// The element at that height, or the other value where there is none.
    pub fn at(&self, height: usize, other: T) -> T
        ensures { result ≡ slice_index_or self.now height other }
    {
        match self.cells.get(height) {
            Some(x) => *x,
            None => other,
        }
    }

    /// The topmost element, or the other value where there is none.
    pub fn top(&self, other: T) -> T
        ensures { result ≡ slice_index_or self.now (length self.now - 1) other }
    {
        match self.cells.last() {
            Some(x) => *x,
            None => other,
        }
    }

    /// Takes the topmost element off, where there is one.
    pub fn drop_top(&mut self)
        ensures { self.new ≡ take (length self.old - 1) self.old }
    {
        let _top = self.cells.pop();
    }

    /// The element so far above a height, or the other value where there is none.
    pub fn above(&self, base: usize, distance: usize, other: T) -> T
        ensures { result ≡ slice_index_or self.now (base + distance) other }
    {
        if base <= self.cells.len() && distance < self.cells.len() - base {
            return self.cells[base + distance];
        }
        other
    }

    /// Changes the element so far above a height, where there is one.
    pub fn put_above(&mut self, base: usize, distance: usize, x: T)
        ensures { self.new ≡ set self.old (base + distance) x }
    {
        if base <= self.cells.len() && distance < self.cells.len() - base {
            self.cells[base + distance] = x;
        }
    }

    /// Changes the element at that height, where there is one.
    pub fn put(&mut self, height: usize, x: T)
        ensures { self.new ≡ set self.old height x }
    {
        if height < self.cells.len() {
            self.cells[height] = x;
        }
    }

    /// Leaves the lowest elements, so many of them.
    pub fn cut(&mut self, height: usize)
        ensures { self.new ≡ take height self.old }
    {
        self.cells.truncate(height);
    }

    /// Leaves the topmost elements and the lowest ones of those below them, so many of each; those between them go.
    pub fn keep(&mut self, height: usize, count: usize)
        ensures { self.new ≡ take height (take (length self.old - count) self.old) ++ drop (length self.old - count) self.old }
    {
        let first = self.cells.len().saturating_sub(count);
        if height >= first {
            return;
        }
        let kept = self.cells.len() - first;
        self.cells.copy_within(first.., height);
        self.cells.truncate(height + kept);
    }

    /// The elements from that height on.
    pub fn from(&self, height: usize) -> &[T]
        ensures { result.now ≡ drop height self.now }
    {
        match self.cells.get(height..) {
            Some(rest) => rest,
            None => &[],
        }
    }
}
