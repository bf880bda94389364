//! Commands and their operands.
use bl_base::{Pos, Trap, Var};
use bl_ops::{AccessKind, Op};

/// Where a command takes a number from.
#[derive(Clone, Copy, Debug, PartialEq, Eq)]
pub enum Operand {
    /// What the variable holds.
    Var(Var),
    /// That number.
    Const(u64),
}

/// What stands beside a command that writes a variable. It changes nothing in a plain run.
#[derive(Clone, Copy, Debug, PartialEq, Eq)]
pub struct Mark {
    /// The number of loops round the command, 6 for more than 6.
    pub depth: u8,
    /// Whether the value is held back while a guess is open.
    pub protect: bool,
}

/// One step of a program. Variables and positions are numbers of the whole program.
#[derive(Clone, Copy, Debug, PartialEq, Eq)]
pub enum Command {
    /// The variable `to` becomes what the operator makes of the operands. Operands past those that it takes are
    /// `Const(0)`.
    Set {
        /// Its mark.
        mark: Mark,
        /// The operator.
        op: Op,
        /// The variable that is written.
        to: Var,
        /// The first operand.
        a: Operand,
        /// The second one.
        b: Operand,
        /// The third one.
        c: Operand,
    },
    /// The variable `to` becomes the value of the memory's bytes from the address, an i32, plus the offset.
    Load {
        /// Its mark.
        mark: Mark,
        /// One of the loads.
        kind: AccessKind,
        /// The number of the memory.
        memory: u32,
        /// The variable that is written.
        to: Var,
        /// What is added to the address, in bytes.
        offset: u32,
        /// The address.
        address: Operand,
    },
    /// The memory's bytes from the address, an i32, plus the offset become those of the value.
    Store {
        /// One of the stores.
        kind: AccessKind,
        /// The number of the memory.
        memory: u32,
        /// What is added to the address, in bytes.
        offset: u32,
        /// The address.
        address: Operand,
        /// The value.
        value: Operand,
    },
    /// Goes to `yes` where the condition, an i32, isn't 0, and else to `no`.
    Test {
        /// The condition.
        cond: Operand,
        /// Where it goes if the condition isn't 0.
        yes: Pos,
        /// Where it goes if it is.
        no: Pos,
    },
    /// Goes there.
    Jump {
        /// Where it goes.
        to: Pos,
    },
    /// The function's parameter of that index becomes the value, in the frame of the next call.
    Arg {
        /// Its mark.
        mark: Mark,
        /// The number of the function.
        function: u32,
        /// The index of the parameter.
        index: u32,
        /// The value.
        value: Operand,
    },
    /// Enters the function one call deeper; it will return to the next position. At a depth of `MOST_CALLS` the run traps.
    Call {
        /// The number of the function.
        function: u32,
    },
    /// The running function's result of that index becomes the value, in its caller's frame.
    Out {
        /// Its mark.
        mark: Mark,
        /// The index of the result.
        index: u32,
        /// The value.
        value: Operand,
    },
    /// Returns to the caller. Where there is none, the run ends with the results.
    Ret,
    /// The run traps.
    Trap {
        /// The kind of the trap.
        kind: Trap,
    },
}
