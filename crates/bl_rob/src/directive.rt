//! What the machine is told to do, and what it answers.
ghost use Rattle.std.specs.Prelude.{◌≡◌};
ghost use Rattle.bl_rob.specs.declared.directive.StepError.TheVariants.{Memory};

use bl_base::{NoMemory, Trap};
use std::alloc::AllocFailed;
use thiserror::Error;

/// One step of the machine.
#[derive(Clone, Copy, Debug, PartialEq, Eq)]
pub enum Directive {
    /// The command at the front end becomes the last entry, unless it is a Test.
    Fetch,
    /// The Test at the front end becomes a guard, and the front end goes to `yes` where the prediction is true, else to `no`.
    Predict(bool),
    /// The entry of that index is executed; the oldest one has index 0.
    Exec(u32),
    /// The oldest entry takes effect and leaves the buffer.
    Retire,
}

/// What an observer learns of a step. Bit i of `guards` says that entry i is a guard and stands before the executed one.
#[derive(Clone, Copy, Debug, PartialEq, Eq)]
pub enum Observation {
    /// Nothing.
    Nothing,
    /// Bytes were read.
    Read {
        /// The place of the first one in the space of all memories.
        address: u64,
        /// The guards before it.
        guards: u64,
    },
    /// Bytes will be written.
    Write {
        /// The place of the first one in the space of all memories.
        address: u64,
        /// The guards before it.
        guards: u64,
    },
    /// A quotient or a remainder was computed.
    Divide {
        /// The first operand.
        a: u64,
        /// The second one.
        b: u64,
        /// The guards before it.
        guards: u64,
    },
    /// The prediction of the guard of that index was wrong.
    Rollback(u32),
    /// The machine has trapped.
    Fail,
}

/// How the machine has ended.
#[derive(Clone, Copy, Debug, PartialEq, Eq)]
pub enum End {
    /// The run's function has returned.
    Returned,
    /// The run has trapped.
    Trapped(Trap),
}

/// What an entry is.
#[derive(Clone, Copy, Debug, PartialEq, Eq)]
pub enum Kind {
    /// It has no effect.
    Nop,
    /// An assignment whose value isn't there yet.
    Assign,
    /// A load whose value isn't there yet.
    Load,
    /// A value that nothing reads before the guards before it are gone.
    Held,
    /// A value.
    Done,
    /// A store whose address and value aren't there yet.
    Store,
    /// A store that waits for its turn.
    Ready,
    /// A guess, with what was predicted.
    Guard(bool),
    /// The run traps.
    Fail,
}

/// Why a step was refused. The machine is then as it was.
#[derive(Clone, Copy, Debug, PartialEq, Eq, Error)]
pub enum StepError {
    /// The directive isn't enabled.
    #[error("not enabled")]
    NotEnabled,
    /// There was no memory; an Exec never answers so.
    #[error("out of memory")]
    Memory,
}

impl From<NoMemory> for StepError {
    ghost from_gives = { λ _ e. e ≡ Memory };

    fn from(_e: NoMemory) -> StepError {
        StepError::Memory
    }
}

impl<T: Drop> From<AllocFailed<T>> for StepError {
    ghost from_gives = { λ _ e. e ≡ Memory };

    fn from(_e: AllocFailed<T>) -> StepError {
        StepError::Memory
    }
}
