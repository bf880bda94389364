//! What programs write and read.
use bl_base::{List, Pos, Var};

/// A command and a variable.
#[derive(Clone, Copy, Debug, PartialEq, Eq)]
pub struct Use {
    /// The command's position.
    pub at: Pos,
    /// The variable.
    pub var: Var,
}

/// A site writes the variable.
pub type Write = Use;

/// A Set, Arg or Out reads the variable.
pub type Read = Use;

/// A sink of the command reads the variable: the condition of a Test, the address of a Load or Store, or an operand of a
/// quotient or remainder.
pub type SinkUse = Use;

/// What a program's commands write and read. Each list rises in position and then in variable.
#[derive(Debug, Drop)]
pub struct Graph {
    /// The positions of the Loads.
    pub loads: List<Pos>,
    /// What each site writes.
    pub writes: List<Write>,
    /// What each Set, Arg and Out reads.
    pub reads: List<Read>,
    /// What sinks read.
    pub sinks: List<SinkUse>,
}
