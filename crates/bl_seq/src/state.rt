//! A run between two steps.
ghost use Rattle.std.specs.Prelude.{◌<◌, length};
ghost use Rattle.bl_base.specs.Quantity.{most_calls};

use crate::chain::Chain;
use crate::registers::Registers;
use bl_base::Trap;
use bl_bytes::Bytes;

/// What a step has come to.
#[derive(Clone, Copy, Debug)]
pub enum Progress {
    /// The run goes on.
    Running,
    /// The run's function has returned.
    Returned,
    /// The run has trapped.
    Trapped(Trap),
    /// There is no command at the position.
    Stuck,
}

/// A run between two steps.
#[derive(Debug, Drop)]
pub struct Machine {
    /// The position of the next command.
    pub position: usize,
    /// The positions to which the open calls return.
    pub chain: Chain,
    /// The registers.
    pub registers: Registers,
    /// The bytes of all memories.
    pub space: Bytes,
    pub ghost few: { length chain < most_calls },
}
