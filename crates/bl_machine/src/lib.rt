//! The interpreter of linked trees.
#![tactic(auto)]

mod body;
mod interpreter;
mod items;
mod jumps;
mod machine;
mod stack;

pub use interpreter::{first_memories, interp};
