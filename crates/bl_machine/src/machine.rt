//! The machine: one stack for each kind of thing, whose parts belong to the functions that have been entered.
ghost use Rattle.std.specs.Prelude.{◌≡◌, OnOk, length, nat_lt};
ghost use Rattle.bl_machine.specs.Machines.{Becomes, BecomesIfOk, at_place, called, closed, entered, give, global_at, grown, label_at, load_from, local_at, memory_at, most_callers, opened, popped, push, resumed, returned, running, store_to, to_label, top, with_global, with_local};

use crate::body::Body;
use crate::stack::Stack;
use bl_base::{MOST_CALLS, NoMemory, Trap};
use bl_memory::Spaces;
use bl_ops::AccessKind;

/// What memory.grow answers where a memory doesn't grow.
const REFUSED: u64 = 0xFFFF_FFFF;

/// The most functions that wait for one that they called.
const MOST_CALLERS: usize = MOST_CALLS as usize - 1;

/// A block, loop or if that was entered.
#[derive(Clone, Copy, Debug)]
pub struct Exit {
    /// How many values a branch to it takes.
    pub arity: usize,
    /// The place of the item that is executed after such a branch.
    pub place: usize,
    /// How many values lie below it on the stack.
    pub height: usize,
}

/// A function that was entered.
#[derive(Clone, Copy, Debug)]
pub struct Activation {
    /// Its number.
    pub function: u32,
    /// The place of its next item.
    pub place: usize,
    /// How many values it returns.
    pub arity: usize,
    /// How many locals belong to its callers.
    pub locals: usize,
    /// How many labels belong to its callers.
    pub labels: usize,
    /// How many values lie below it on the stack.
    pub values: usize,
}

/// What a step has led to.
#[derive(Clone, Copy, Debug)]
pub enum Progress {
    /// The function goes on.
    Running,
    /// The function of that number is entered next; its arguments are the topmost locals.
    Entering(u32),
    /// The outermost function has returned; its results are on the stack.
    Returned,
    /// The run has trapped.
    Trapped(Trap),
}

/// A run between two steps.
#[derive(Debug, Drop)]
pub struct Machine {
    /// The values of all functions that were entered.
    pub stack: Stack<u64>,
    /// Their locals, of each in order.
    pub locals: Stack<u64>,
    /// Their labels.
    pub labels: Stack<Exit>,
    /// The function that executes.
    pub current: Activation,
    /// Those that called, the innermost on top.
    pub callers: Stack<Activation>,
    /// The values of the globals.
    pub globals: Stack<u64>,
    /// The memories.
    pub memories: Spaces,
}

impl Machine {
    // ---- values

    /// Takes the topmost value off the stack.
    pub fn pop(&mut self) -> u64
        ensures value { result ≡ top self.old }
        ensures after { self.new ≡ popped self.old }
    {
        let value = self.stack.top(0);
        self.stack.drop_top();
        value
    }

    /// The topmost value.
    pub fn topmost(&self) -> u64
        ensures { result ≡ top self.now }
    {
        self.stack.top(0)
    }

    /// Puts a value on the stack.
    pub fn push(&mut self, value: u64) -> Result<Progress, NoMemory>
        ensures { BecomesIfOk result self.new (push value self.old) }
    {
        self.stack.push(value)?;
        Ok(Progress::Running)
    }

    /// Traps where there is a trap, else puts the value on the stack.
    pub fn give(&mut self, trap: Option<Trap>, value: u64) -> Result<Progress, NoMemory>
        ensures { BecomesIfOk result self.new (give trap value self.old) }
    {
        match trap {
            Some(kind) => Ok(Progress::Trapped(kind)),
            None => self.push(value),
        }
    }

    // ---- locals and globals

    /// The value of a local of the function.
    pub fn local(&self, x: u32) -> u64
        ensures { result ≡ local_at x self.now }
    {
        self.locals.above(self.current.locals, x as usize, 0)
    }

    /// Changes a local of the function.
    pub fn set_local(&mut self, x: u32, value: u64)
        ensures { self.new ≡ with_local x value self.old }
    {
        self.locals
            .put_above(self.current.locals, x as usize, value);
    }

    /// The value of a global.
    pub fn global(&self, x: u32) -> u64
        ensures { result ≡ global_at x self.now }
    {
        self.globals.at(x as usize, 0)
    }

    /// Changes a global.
    pub fn set_global(&mut self, x: u32, value: u64)
        ensures { self.new ≡ with_global x value self.old }
    {
        self.globals.put(x as usize, value);
    }

    // ---- memories

    /// The pages of a memory.
    pub fn pages(&self, number: usize) -> u32
        ensures { result ≡ (memory_at number self.now).pages }
    {
        self.memories.pages(number)
    }

    /// Loads from a memory: the effective address is the topmost value plus the offset, without wrapping.
    pub fn load(
        &mut self,
        kind: AccessKind,
        offset: u32,
        number: usize,
    ) -> Result<Progress, NoMemory>
        ensures { BecomesIfOk result self.new (load_from kind offset number self.old) }
    {
        let address = self.pop();
        if !self
            .memories
            .has_room(number, address, offset, u64::from(kind.width()))
        {
            return Ok(Progress::Trapped(Trap::OutOfBounds));
        }
        let value = self
            .memories
            .load(number, kind, address as usize + offset as usize);
        self.push(value)
    }

    /// Stores the topmost value in a memory; the address lies below it.
    pub fn store(&mut self, kind: AccessKind, offset: u32, number: usize) -> Progress
        ensures { Becomes result self.new (store_to kind offset number self.old) }
    {
        let value = self.pop();
        let address = self.pop();
        if !self
            .memories
            .has_room(number, address, offset, u64::from(kind.width()))
        {
            return Progress::Trapped(Trap::OutOfBounds);
        }
        self.memories
            .store(number, kind, address as usize + offset as usize, value);
        Progress::Running
    }

    /// Grows a memory of that reserve by so many pages, where they are within it.
    pub fn grow(&mut self, reserve: u32, delta: u64, number: usize) -> Result<Progress, NoMemory>
        ensures { BecomesIfOk result self.new (grown reserve delta number self.old) }
    {
        let pages = self.pages(number);
        if pages > reserve || delta > u64::from(reserve - pages) {
            return self.push(REFUSED);
        }
        self.memories.grow(number, delta as u32)?;
        self.push(u64::from(pages))
    }

    // ---- labels

    /// Goes on at a place.
    pub fn go_to(&mut self, place: usize)
        ensures { self.new ≡ at_place place self.old }
    {
        self.current.place = place;
    }

    /// Enters a block, loop or if that takes so many parameters.
    pub fn open(&mut self, arity: usize, params: usize, place: usize) -> Result<(), NoMemory>
        ensures { OnOk result (self.new ≡ opened arity params place self.old) }
    {
        self.labels.push(Exit {
            arity,
            place,
            height: self.stack.len().saturating_sub(params),
        })
    }

    /// The label of that number, 0 for the innermost, with its height; None from the function's own on.
    pub fn label(&self, l: u32) -> Option<(Exit, usize)>
        ensures { result ≡ label_at l self.now }
    {
        let l = l as usize;
        let count = self.labels.len();
        if l >= count.saturating_sub(self.current.labels) {
            return None;
        }
        let height = count - 1 - l;
        let none = Exit {
            arity: 0,
            place: 0,
            height: 0,
        };
        Some((self.labels.at(height, none), height))
    }

    /// Leaves the innermost block, loop or if.
    pub fn close(&mut self)
        ensures { self.new ≡ closed self.old }
    {
        self.labels.drop_top();
    }

    /// Branches to a label, which lies at that height.
    pub fn branch_to(&mut self, exit: Exit, height: usize) -> Progress
        ensures { Becomes result self.new (running (to_label exit height self.old)) }
    {
        self.labels.cut(height);
        self.stack.keep(exit.height, exit.arity);
        self.go_to(exit.place);
        Progress::Running
    }

    // ---- functions

    /// Returns from the function.
    pub fn leave(&mut self) -> Progress
        ensures { Becomes result self.new (returned self.old) }
    {
        self.locals.cut(self.current.locals);
        self.labels.cut(self.current.labels);
        self.stack.keep(self.current.values, self.current.arity);
        self.resume()
    }

    /// Goes on in the innermost caller, where there is one.
    fn resume(&mut self) -> Progress
        ensures { Becomes result self.new (resumed self.old) }
    {
        if self.callers.len() == 0 {
            return Progress::Returned;
        }
        self.current = self.callers.top(self.current);
        self.callers.drop_top();
        Progress::Running
    }

    /// Whether a function more may be entered.
    pub fn may_call(&self) -> bool
        ensures { result ≡ nat_lt (length self.now.callers) most_callers }
    {
        self.callers.len() < MOST_CALLERS
    }

    /// Begins a call of the function of that number, which takes so many arguments.
    pub fn call(&mut self, number: u32, params: usize) -> Result<Progress, NoMemory>
        ensures { BecomesIfOk result self.new (called number params self.old) }
    {
        let first = self.stack.len().saturating_sub(params);
        self.locals.push_all(self.stack.from(first))?;
        self.stack.cut(first);
        self.callers.push(self.current)?;
        Ok(Progress::Entering(number))
    }

    /// Enters the function of that number, whose arguments are the topmost locals.
    pub fn enter(&mut self, number: u32, body: &Body) -> Result<Progress, NoMemory>
        ensures { BecomesIfOk result self.new (entered number body.now self.old) }
    {
        let locals = self.locals.len().saturating_sub(body.counts.params);
        for _ in 0..body.declared_locals {
            self.locals.push(0)?;
        }
        self.current = Activation {
            function: number,
            place: 0,
            arity: body.counts.results,
            locals,
            labels: self.labels.len(),
            values: self.stack.len(),
        };
        Ok(Progress::Running)
    }
}
