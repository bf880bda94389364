//! Lowering: the program of a linked tree, and what it keeps of the tree's runs.
#![tactic(auto)]

mod code;
mod definitions;
mod error;
mod functions;
pub mod laws;
mod layout;
mod lowering;
mod outline;
mod program;
mod steps;
mod table;
mod tally;

pub use error::LowerError;
pub use lowering::lower;
