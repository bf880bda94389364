//! From a program of commands to a program of instructions, with all variables in the frame and the context. The commands Set, Load, Store, Test and
//! Jump are written; a program with other commands is refused.
#![tactic(auto)]

mod block_writer;
pub mod laws;
mod layout_writer;
mod slots;

pub use layout_writer::{Code, lay_out};
