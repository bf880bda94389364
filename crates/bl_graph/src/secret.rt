//! Ways of secrets.
use bl_base::{List, Pos};

/// Where a secret comes from.
#[derive(Clone, Copy, Debug, PartialEq, Eq)]
pub enum Origin {
    /// A parameter that is declared secret.
    Parameter {
        /// The number of the function.
        function: u32,
        /// The index of the parameter.
        index: u32,
    },
    /// The global of that number, which is declared secret.
    Global(u32),
    /// The memory of that number, which is declared secret.
    Memory(u32),
}

/// A way of a secret to where it may not go. Where there is one (`IsSecretChain`), no labelling keeps the label rules.
#[derive(Debug, Drop)]
pub struct SecretChain {
    /// Where the secret comes from.
    pub origin: Origin,
    /// The sites in order; from a memory, the first one is a Load of that memory.
    pub through: List<Pos>,
    /// The position of the end: there a sink reads what the last site wrote, or it is stored to a public memory, or a site
    /// makes of it what is demanded to be public. It is the position of the Load where that itself writes what is demanded.
    pub end: Pos,
}
