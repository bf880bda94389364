//! Entries of the buffer.
ghost use Rattle.std.specs.Prelude.{◌≡◌, ◌<◌, ◌*◌, ◌^◌, IsTrue};
ghost use Rattle.bl_program.specs.Steps.{loaded};
ghost use Rattle.bl_ops.specs.Access.{extended, is_load, width_of};

use crate::chain::Chain;
use crate::directive::Observation;
use bl_base::Trap;
use bl_bytes::Bytes;
use bl_ops::{AccessKind, Op, extend};
use std::marker::Model;

/// A variable at a depth.
#[derive(Clone, Copy, Debug)]
pub struct Register {
    /// The depth.
    pub depth: u32,
    /// The variable.
    pub var: usize,
}

/// Where an entry takes a number from.
#[derive(Clone, Copy, Debug)]
pub enum Source {
    /// That number.
    Const(u64),
    /// What the register holds.
    Holds(Register),
}

/// One of the loads. Contracts see it as the kind of access that it is.
#[derive(Debug, Drop)]
pub struct LoadKind {
    kind: AccessKind,
}

impl Model for LoadKind {
    ghost use Rattle.bl_ops.specs.declared.access.AccessKind.{AccessKind};

    ghost Value = { AccessKind };

    ghost use Rattle.std.specs.Prelude.{IsTrue};
    ghost use Rattle.bl_ops.specs.Access.{is_load};

    ghost view = { λ load. load.kind };

    ghost invariant = { λ load. IsTrue (is_load load.kind) };
}

impl LoadKind {
    /// That kind, which is one of the loads.
    pub fn of(kind: AccessKind) -> LoadKind
        requires { IsTrue (is_load kind) }
        ensures { result ≡ kind }
    {
        LoadKind { kind }
    }

    /// How many bytes it reads: 1, 2, 4 or 8.
    pub fn width(&self) -> u8
        ensures { result ≡ width_of self.now }
    {
        self.kind.width()
    }

    /// What it makes of the number that its bytes are.
    pub fn extend(&self, bytes: u64) -> u64
        requires { bytes < 2 ^ (8 * width_of self.now) }
        ensures { result ≡ extended self.now bytes }
    {
        extend(self.kind, bytes)
    }

    /// What it loads from a place on.
    pub fn load(&self, space: &Bytes, from: usize) -> u64
        requires { from < 2 ^ 61 }
        ensures { result ≡ loaded self.now space.now from }
    {
        space.load(self.kind, from)
    }
}

/// What an entry does.
#[derive(Debug, Drop)]
pub enum Work {
    /// Nothing.
    Nop,
    /// Assigns what the operator makes of the operands, once they are visible.
    Assign {
        /// Whether the value is held.
        protect: bool,
        /// The operator.
        op: Op,
        /// The register that is assigned.
        to: Register,
        /// The first operand.
        a: Source,
        /// The second one.
        b: Source,
        /// The third one.
        c: Source,
    },
    /// Assigns what it loads, once its address is visible.
    Load {
        /// Whether the value is held.
        protect: bool,
        /// The kind of the load.
        kind: LoadKind,
        /// The number of the memory.
        memory: u32,
        /// The register that is assigned.
        to: Register,
        /// What is added to the address, in bytes.
        offset: u32,
        /// The address.
        address: Source,
    },
    /// Has a value that isn't visible yet.
    Held {
        /// The register that is assigned.
        to: Register,
        /// The value.
        value: u64,
    },
    /// Has a value.
    Done {
        /// The register that is assigned.
        to: Register,
        /// The value.
        value: u64,
    },
    /// Stores a value, once it and the address are visible.
    Store {
        /// The kind of the store.
        kind: AccessKind,
        /// The number of the memory.
        memory: u32,
        /// What is added to the address, in bytes.
        offset: u32,
        /// The address.
        address: Source,
        /// The value.
        value: Source,
    },
    /// Has a value to be stored.
    Ready {
        /// The kind of the store.
        kind: AccessKind,
        /// The number of the memory.
        memory: u32,
        /// What is added to the address, in bytes.
        offset: u32,
        /// The address.
        address: u64,
        /// The value.
        value: u64,
    },
    /// Guesses where a Test goes.
    Guard {
        /// The condition.
        cond: Source,
        /// Whether it was predicted not to be 0.
        predicted: bool,
        /// The position of the other branch.
        other: u32,
        /// The positions to which the calls return that are open there.
        chain: Chain,
    },
    /// Traps.
    Fail(Trap),
}

/// An entry: the position of its command, and what it does.
#[derive(Debug, Drop)]
pub struct Entry {
    /// The position.
    pub position: u32,
    /// What it does.
    pub work: Work,
}

/// What executing an entry comes to.
#[derive(Debug, Drop)]
pub enum Act {
    /// It can't be executed yet.
    Idle,
    /// It does that instead from then on.
    Becomes(Work, Observation),
    /// It guessed wrong.
    RollsBack,
}
